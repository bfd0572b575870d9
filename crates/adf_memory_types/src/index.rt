// The tables of an image of type 0 to 5.

ghost use Rattle.std.specs.Prelude.{◌≡◌, ◌+◌, ◌<◌, ◌^◌, List, length, true, ℕ};
ghost use Rattle.adf_cached_files.specs.InPlace.{IsReadInPlace};
ghost use Rattle.adf_memory.specs.Tables.{refused_at};
ghost use Rattle.adf_uncached.specs.Uncached.{is_cached};
ghost use Rattle.adf_memory_types.specs.CachedTables.{FillsAnyTables, FillsWithCaches, with_caches};

use crate::cached::{is_cached_image, told_block};
use adf_cached_files::kept_in_place;
use adf_memory::{Contents, Date, TableEntry, put_index};
use adf_uncached::Uncached;
use adf_volume::Types;
use std::alloc::Global;

const NO_DATE: Date = Date {
    days: 0,
    mins: 0,
    ticks: 0,
};

// What is told of a refused image.
fn refused_at(block: u32) -> Contents
    ensures { result ≡ refused_at block }
{
    Contents {
        kind: 0,
        blocks: 0,
        used: 0,
        free: 0,
        entries: 0,
        data_blocks: 0,
        block,
        root: NO_DATE,
        altered: NO_DATE,
        created: NO_DATE,
        label_length: 0,
        label: [0; 30],
    }
}

// Adds the type and the blocks of caches to what is told of an image that is kept as one without.
fn add_caches(contents: &mut Contents, uncached: &Uncached)
    requires kind { contents.old.kind < 4 }
    requires few { contents.old.used + contents.old.free < 2 ^ 32 }
    ensures { contents.new ≡ with_caches (length uncached.now.blocks.items) contents.old }
{
    let more = uncached.blocks.len().min(contents.free as usize) as u32;
    contents.kind += 2;
    contents.used += more;
    contents.free -= more;
}

// Fills the tables of an image that is kept as one without caches, where it is read in place.
fn index_right(
    alloc: Global,
    uncached: &Uncached,
    entries: &mut [TableEntry],
    blocks: &mut [u32],
    contents: &mut Contents,
) -> u8
    ensures { (image : List ℕ) → IsReadInPlace image uncached.now
        → FillsWithCaches image entries.old entries.new blocks.old blocks.new contents.new result }
{
    let types = Types::WithInternational;
    let number = put_index(alloc, types, &uncached.image, entries, blocks, contents);
    if number == 0 {
        add_caches(contents, uncached);
    }
    number
}

// Fills the tables of an image of a volume with directory caches.
fn index_cached(
    alloc: Global,
    image: &[u8],
    entries: &mut [TableEntry],
    blocks: &mut [u32],
    contents: &mut Contents,
) -> u8
    requires { is_cached image.now ≡ true }
    ensures { FillsWithCaches image.now entries.old entries.new blocks.old blocks.new contents.new result }
{
    match kept_in_place(alloc, image) {
        Ok(uncached) => index_right(alloc, &uncached, entries, blocks, contents),
        Err(fault) => {
            *contents = refused_at(told_block(fault));
            fault.cause.number()
        }
    }
}

/// Checks an image as a volume of type 0 to 5, and fills two tables, each as far as it has room: its entries, and the data blocks
/// of its files. Returns 0 if the image is accepted, otherwise the number of a cause: that of the first fault, or `NoMemory` if
/// memory ran out. With types 4 and 5 it takes memory for a copy of the image.
pub fn put_index_types(
    alloc: Global,
    image: &[u8],
    entries: &mut [TableEntry],
    blocks: &mut [u32],
    contents: &mut Contents,
) -> u8
    ensures { FillsAnyTables image.now entries.old entries.new blocks.old blocks.new contents.new result }
{
    if is_cached_image(image) {
        return index_cached(alloc, image, entries, blocks, contents);
    }
    put_index(
        alloc,
        Types::WithInternational,
        image,
        entries,
        blocks,
        contents,
    )
}

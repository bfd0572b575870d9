// The tables of an image.

ghost use Rattle.std.specs.Prelude.{◌≡◌, ◌<◌, ◌+◌};
ghost use Rattle.adf_base.specs.declared.hash.Letters.{Letters};
ghost use Rattle.adf_names.specs.VolumeTypes.{letters_of_type};
ghost use Rattle.adf_tree.specs.Tree.{Tree};
ghost use Rattle.adf_volume.specs.{Fits.FitsBy, Layout.Layout};
ghost use Rattle.adf_check.specs.Volumes.{OnVolume};
ghost use Rattle.adf_memory.specs.{Rooms.filled, CheckCalls.FillsTables};
ghost use Rattle.adf_memory.specs.Tables.{block_table, contents_of, entry_table};

use crate::tables::{Contents, TableEntry, contents_of, put_tables, refused_at};
use adf_check::{Checked, check_types};
use adf_volume::Types;
use std::alloc::Global;

// Puts what a checked volume has into the tables, as far as they have room, and into the contents.
fn put_volume(
    volume: &Checked<'_>,
    entries: &mut [TableEntry],
    blocks: &mut [u32],
    contents: &mut Contents,
)
    requires fits { (letters : Letters) × (t : Tree) × (l : Layout) × FitsBy letters volume.now t l }
    ensures entries { OnVolume volume.now (λ t l. entries.new ≡ filled (entry_table t l) entries.old) }
    ensures blocks { OnVolume volume.now (λ _ l. blocks.new ≡ filled (block_table l) blocks.old) }
    ensures contents { OnVolume volume.now (λ t l. contents.new ≡ contents_of volume.now t l) }
    ensures few { contents.new.entries + contents.new.data_blocks < contents.new.used }
    ensures used { contents.new.used < contents.new.blocks }
    ensures letters { (letters : Letters) (t : Tree) (l : Layout) → FitsBy letters volume.now t l
        → letters_of_type contents.new.kind ≡ letters }
{
    let counts = volume.counts();
    let data_blocks = put_tables(volume, entries, blocks);
    *contents = contents_of(volume, &counts, data_blocks);
}

/// Checks an image as a volume of these types, by its letters, and fills two tables, each as far as it has room: its entries,
/// and the data blocks of its files. Returns 0 if the image is accepted, otherwise the number of a cause: that of the first
/// fault, or `NoMemory` if memory ran out.
pub fn put_index(
    alloc: Global,
    types: Types,
    image: &[u8],
    entries: &mut [TableEntry],
    blocks: &mut [u32],
    contents: &mut Contents,
) -> u8
    ensures { FillsTables types image.now entries.old entries.new blocks.old blocks.new
        contents.new result }
{
    match check_types(alloc, types, image) {
        Ok(volume) => {
            put_volume(&volume, entries, blocks, contents);
            0
        }
        Err(fault) => {
            *contents = refused_at(fault.block);
            fault.cause.number()
        }
    }
}

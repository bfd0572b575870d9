// The table of what judged entries have at blocks.

ghost use Rattle.std.specs.Prelude.{◌≡◌, ◌≤◌, OnErr, OnOk, length};
ghost use Rattle.adf_blocks.specs.Sizes.{blocks};
ghost use Rattle.adf_memory.specs.{Rooms.BeginsWith, SurveyCalls.BeginsWithParts, SurveyCalls.FillsParts};

use crate::holdings::{Holding, holdings_of};
use crate::judged::judge_image;
use crate::tables::put;
use adf_base::NoMemory;
use adf_blocks::Cause;
use std::alloc::Global;

/// What entries that exist have at a block.
#[repr(C)]
#[derive(Clone, Copy)]
pub struct FoundPart {
    /// The number of the entry that has the block; 0 for a block of the root or the bitmap, and for one that no entry has.
    pub node: usize,
    /// The number of the data block of a file that it is, from 1, where the block is the file's own; otherwise 0.
    pub number: u32,
}

// The row of a block, whose entry is not past the last block.
fn part_of(holding: &Holding, blocks: usize) -> FoundPart
    ensures { result.node ≤ blocks }
{
    FoundPart {
        node: holding.node.min(blocks),
        number: holding.number,
    }
}

// Fills the table as far as there is room.
fn put_parts(holdings: &[Holding], room: &mut [FoundPart])
    ensures { BeginsWith (λ row. row.node ≤ length holdings.now) (length holdings.now) room.old room.new }
{
    for b in 0..holdings.len() {
        put(room, b, part_of(&holdings[b], holdings.len()));
    }
}

// Judges an image and fills the table as far as there is room; with none if nothing is judged.
fn put_judged(alloc: Global, image: &[u8], parts: &mut [FoundPart]) -> Result<(), NoMemory>
    ensures parts { OnOk result (BeginsWithParts (blocks image.now) parts.old parts.new) }
    ensures unchanged { OnErr result (parts.new ≡ parts.old) }
{
    if let Some(judged) = judge_image(alloc, image)? {
        put_parts(&holdings_of(alloc, &judged)?, parts);
    }
    Ok(())
}

/// Judges an image and fills a table with a row for each of its blocks, as far as it has room; with none if no volume has so
/// many blocks. Returns 0, or the number of `NoMemory` if memory ran out.
pub fn put_found_parts(alloc: Global, image: &[u8], parts: &mut [FoundPart]) -> u8
    ensures { FillsParts image.now parts.old parts.new result }
{
    match put_judged(alloc, image, parts) {
        Ok(()) => 0,
        Err(_) => Cause::NoMemory.number(),
    }
}

// The merged image, and what is told of its blocks.

ghost use Rattle.std.specs.Prelude.{◌≡◌, ◌≤◌, ◌<◌, ◌++◌, ℕ, IfOk, List, OnOk, [], false, length};
ghost use Rattle.adf_readings.specs.{Mapped.is_lacked, Merge.AreFound, Merge.HasVersion, Merge.HaveBlocks, Merge.IsMergeOf};
ghost use Rattle.adf_readings.specs.declared.choice.TheConstants.{MOST_READINGS};

use crate::choice::{MOST_READINGS, doubtful, taken};
use crate::doubt::{Doubt, Why};
use crate::mapped::{MappedReading, sources};
use adf_base::BLOCK_LEN;
use std::alloc::{AllocError, Global};

/// A merged image.
#[derive(Drop)]
pub struct Merged {
    pub image: Vec<u8>,
    /// What is left to chance or in no reading, in order.
    pub doubts: Vec<Doubt>,
}

// Merges a block: appends it, and what is told of it.
fn merge_block(
    alloc: Global,
    readings: &[MappedReading<'_>],
    blocks: u32,
    block: u32,
    merged: &mut Merged,
) -> Result<(), AllocError>
    requires whole { HaveBlocks blocks readings.now }
    requires some { 0 < length readings.now }
    requires few { length readings.now ≤ MOST_READINGS }
    requires within { block < blocks }
    ensures image { OnOk result ((v : List ℕ) × (merged.new.image.items ≡ merged.old.image.items ++ v)
        × (length v ≡ 512) × HasVersion readings.now block v) }
    ensures told { OnOk result (merged.new.doubts.items ≡ []
        → (merged.old.doubts.items ≡ []) × (is_lacked readings.now block ≡ false)) }
{
    let (images, lacked) = sources(alloc, readings, block)?;
    let i = taken(&images, block);
    merged.image.extend_from_slice(images[i].version(block))?;
    if lacked {
        merged.doubts.push(Doubt {
            block,
            why: Why::Unread,
        })?;
        return Ok(());
    }
    let differing = doubtful(&images, block, i);
    if differing > 0 {
        merged.doubts.push(Doubt {
            block,
            why: Why::Differing(differing),
        })?;
    }
    Ok(())
}

/// Merges readings of so many blocks: each block is the version of a reading, of one that has it, if any has. A block that no
/// reading has is told.
pub fn merge(
    alloc: Global,
    readings: &[MappedReading<'_>],
    blocks: u32,
) -> Result<Merged, AllocError>
    requires whole { HaveBlocks blocks readings.now }
    requires some { 0 < length readings.now }
    requires few { length readings.now ≤ MOST_READINGS }
    ensures image { IfOk result (λ m. IsMergeOf blocks readings.now m.image.items) }
    ensures told { IfOk result (λ m. m.doubts.items ≡ [] → AreFound blocks readings.now) }
{
    let mut merged = Merged {
        image: Vec::with_capacity(alloc, blocks as usize * BLOCK_LEN)?,
        doubts: Vec::new(alloc),
    };
    for block in 0..blocks {
        merge_block(alloc, readings, blocks, block, &mut merged)?;
    }
    Ok(merged)
}

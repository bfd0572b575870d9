// The table of what is not in the volume of a rescue.

ghost use Rattle.std.specs.Prelude.{IfOk, OnOk};
ghost use Rattle.adf_memory.specs.Rescuing.{ArePathsWithin};

use adf_report::Loss;
use std::alloc::{AllocError, Global};

/// Something of an image that is not in the volume of its rescue, or in doubt there.
#[repr(C)]
#[derive(Clone, Copy)]
pub struct TableLoss {
    /// Where its path begins in the text of all paths.
    pub path: usize,
    /// The bytes of its path: 0 for the root and for blocks.
    pub path_length: usize,
    /// The header of the entry, or of the directory in which headers are lost, 0 for the root; or the first
    /// block that is lost.
    pub first: u32,
    /// The same header; or the last block that is lost.
    pub last: u32,
    /// 1 for a damaged entry, 2 for a link, 3 for an entry without room, 4 for headers in a directory, 5 for blocks; of entries that
    /// are kept 6 for one in doubt, 7 for one that may have been deleted, 8 for one that no directory led to, 9 for a directory
    /// that was made, 10 for one by another name, whose path is both, 11 for a comment that was cut; 12 for a label that was cut,
    /// 13 for a page of the bitmap that cannot be read.
    pub why: u8,
}

/// Rows of losses, and the text of all their paths, one behind the other.
#[derive(Drop)]
pub struct LossTable {
    pub rows: Vec<TableLoss>,
    pub paths: Vec<u8>,
}

// Appends a loss: its row, and its path.
fn push_loss(table: &mut LossTable, loss: &Loss) -> Result<(), AllocError>
    requires { ArePathsWithin table.old }
    ensures { OnOk result (ArePathsWithin table.new) }
{
    table.rows.push(TableLoss {
        path: table.paths.len(),
        path_length: loss.path.len(),
        first: loss.first,
        last: loss.last,
        why: loss.why.number(),
    })?;
    table.paths.extend_from_slice(&loss.path)
}

/// The table of losses. `AllocError` if an allocation fails.
pub fn table_of(alloc: Global, losses: &[Loss]) -> Result<LossTable, AllocError>
    ensures { IfOk result ArePathsWithin }
{
    let mut table = LossTable {
        rows: Vec::new(alloc),
        paths: Vec::new(alloc),
    };
    for i in 0..losses.len() {
        push_loss(&mut table, &losses[i])?;
    }
    Ok(table)
}

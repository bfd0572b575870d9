// Runs of blocks that were not read.

ghost use Rattle.std.specs.Prelude.{◌≡◌, IfOk, OnOk, length};
ghost use Rattle.adf_unread.specs.Runs.{joined_runs, runs_among};
ghost use Rattle.adf_unread.specs.Dropped.{unread_at};

use crate::image::unread_at;
use std::alloc::{AllocError, Global};

/// A run of blocks.
#[derive(Clone, Copy, Debug, PartialEq, Eq)]
pub struct UnreadRun {
    pub first: u32,
    pub last: u32,
}

// Appends a block to the last run, if it is the one behind it, or else as a run of its own.
fn join(runs: &mut Vec<UnreadRun>, b: u32) -> Result<(), AllocError>
    ensures { OnOk result (runs.new.items ≡ joined_runs runs.old.items b) }
{
    let count = runs.len();
    if count > 0 && b > 0 && runs[count - 1].last == b - 1 {
        runs[count - 1].last = b;
        return Ok(());
    }
    Ok(runs.push(UnreadRun { first: b, last: b })?)
}

/// The runs of blocks that have a mark, of the first `count` blocks.
#[tactic(auto, using(crate::proofs::UnreadRuns::runs_steps))]
pub fn unread_runs(alloc: Global, marks: &[bool], count: u32) -> Result<Vec<UnreadRun>, AllocError>
    ensures { IfOk result (λ runs. runs.items ≡ runs_among marks.now count) }
{
    let mut runs = Vec::new(alloc);
    for b in 0..count {
        if unread_at(marks, b) {
            join(&mut runs, b)?;
        }
    }
    Ok(runs)
}

// The input of a command.

ghost use Rattle.std.specs.Prelude.{◌≡◌, ◌+◌, ◌<◌, ◌^◌, false, IfErr, IfOk, OnOk};
ghost use Rattle.adf_runs.specs.{Outcomes.Blames, Outcomes.LacksInput, Streams.AreFirst, Streams.TakesAtMost};

use crate::devices::Source;
use crate::outcome::Outcome;
use crate::streams::read_all;
use std::alloc::Global;

/// The input, and at most one byte more than the limit; if it cannot be read, how the work ends.
pub fn read_input<R: Source>(alloc: Global, input: &mut R, limit: usize) -> Result<Vec<u8>, Outcome>
    requires limited { limit < 2 ^ 63 }
    requires works { R.has_failed input.old ≡ false }
    ensures all { IfOk result (λ all. AreFirst (limit + 1) (R.left input.old) all.items) }
    ensures at_most { TakesAtMost (limit + 1) (R.left input.old) (R.left input.new) }
    ensures works { OnOk result (R.has_failed input.new ≡ false) }
    ensures unread { IfErr result LacksInput }
    ensures blames { IfErr result (λ w. Blames w (R.has_failed input.new) false) }
{
    match read_all(alloc, input, limit) {
        Ok(bytes) => Ok(bytes),
        Err(fault) => Err(Outcome::after_reading(fault)),
    }
}

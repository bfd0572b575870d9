// What is done with the boot blocks of an image.

ghost use Rattle.std.specs.Prelude.{◌≡◌, ◌+◌, false, true};
ghost use Rattle.adf_runs.specs.{Outcomes.Does, Outcomes.DoesOn, Outcomes.is_read_fault, Streams.TakesAtMost, Streams.seen};
ghost use Rattle.adf_boot_blocks.specs.declared.refusal.TheConstants.{MOST_BYTES};
ghost use Rattle.adf_boot_cmd.specs.{Answers.BootAnswer, Work.order_of};

use crate::writing::tell;
use adf_boot_blocks::{BOOT_LEN, MOST_BYTES};
use adf_runs::{Outcome, Sink, Source, read_input};
use std::alloc::Global;

/// What is done with the boot blocks of an image.
#[derive(Drop)]
pub enum Work {
    /// Their line is written, or their object.
    Tell { json: bool },
    /// They get code that starts AmigaDOS.
    Install,
    /// They become zeros behind their type.
    Clear,
    /// They become those of a boot file, of which these are the first bytes.
    Copy(Vec<u8>),
}

impl Work {
    /// Does the work on the bytes of an input.
    pub fn on<W: Sink>(&self, alloc: Global, bytes: &[u8], output: &mut W) -> Outcome
        requires { W.has_failed output.old ≡ false }
        ensures { Does (BootAnswer (order_of self.now) bytes.now) result (seen W.held W.has_failed output.old output.new) }
    {
        match self {
            Work::Tell { json } => tell(alloc, &bytes[..bytes.len().min(BOOT_LEN)], *json, output),
            Work::Copy(_) => self.write(alloc, bytes, output),
            Work::Install => self.write(alloc, bytes, output),
            Work::Clear => self.write(alloc, bytes, output),
        }
    }

    /// Reads an input, and does the work on it.
    pub fn on_input<R: Source, W: Sink>(
        &self,
        alloc: Global,
        input: &mut R,
        output: &mut W,
    ) -> Outcome
        requires reads { R.has_failed input.old ≡ false }
        requires writes { W.has_failed output.old ≡ false }
        ensures ends { DoesOn (BootAnswer (order_of self.now)) result (seen R.left R.has_failed input.old input.new)
            (seen W.held W.has_failed output.old output.new) }
        ensures unwritten { is_read_fault result ≡ true → output.new ≡ output.old }
        ensures at_most { TakesAtMost (MOST_BYTES + 1) (R.left input.old) (R.left input.new) }
    {
        match read_input(alloc, input, MOST_BYTES) {
            Ok(bytes) => self.on(alloc, &bytes, output),
            Err(outcome) => outcome,
        }
    }
}

// How an answer is written.

ghost use Rattle.std.specs.Prelude.{◌≡◌, ◌++◌, [], false};
ghost use Rattle.adf_disk_cmd.specs.Replies.{WritesOutput, check_status};
ghost use Rattle.adf_runs.specs.{Outcomes.Does, Outcomes.DoesSilently, Streams.seen};

use adf_runs::{Outcome, Sink, write_all, write_both};
use std::alloc::Global;

/// How a disk is told of: as lines, or as objects.
#[derive(Clone, Copy)]
pub struct Telling {
    pub alloc: Global,
    pub json: bool,
}

/// Writes a text, at status 0 if all is sound, else at status 1.
pub fn write_text<W: Sink>(output: &mut W, text: &[u8], sound: bool) -> Outcome
    requires { W.has_failed output.old ≡ false }
    ensures { Does (WritesOutput (check_status sound) text.now) result (seen W.held W.has_failed output.old output.new) }
{
    match write_all(output, text) {
        Ok(()) if sound => Outcome::Done,
        Ok(()) => Outcome::FaultWritten,
        Err(_) => Outcome::WriteFault,
    }
}

/// Writes two texts, one after the other: at status 0 if all is sound, else at status 1, and errors are to get lines.
pub fn write_beside<W: Sink>(
    output: &mut W,
    first: &[u8],
    second: &[u8],
    sound: bool,
    lines: Vec<u8>,
) -> Outcome
    requires { W.has_failed output.old ≡ false }
    ensures { Does (WritesOutput (check_status sound) (first.now ++ second.now)) result
        (seen W.held W.has_failed output.old output.new) }
{
    match write_both(output, first, second) {
        Ok(()) if sound => Outcome::Done,
        Ok(()) => Outcome::LeftOut(lines),
        Err(_) => Outcome::WriteFault,
    }
}

/// Refuses with a text and a line feed on errors; output gets nothing.
pub fn refuse(alloc: Global, text: &str) -> Outcome
    ensures { DoesSilently (WritesOutput 1 []) result }
{
    match format!(in alloc; "{text}\n") {
        Ok(line) => Outcome::Refused(line),
        Err(_) => Outcome::NoMemory,
    }
}

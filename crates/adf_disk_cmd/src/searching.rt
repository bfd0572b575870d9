// The command `survey --search`: volumes that are found by their roots, whatever the tables say.

ghost use Rattle.std.specs.Prelude.{◌≡◌, ◌≤◌, false};
ghost use Rattle.adf_runs.specs.{Outcomes.Does, Streams.seen};

use crate::answering::{Telling, refuse, write_text};
use crate::search_lines::search_lines;
use adf_partitions::{FoundVolume, find_volumes};
use adf_runs::{Outcome, Sink};

// Writes the lines of the volumes, or says on errors that there are none.
fn write_found<W: Sink>(telling: Telling, volumes: &[FoundVolume], output: &mut W) -> Outcome
    requires { W.has_failed output.old ≡ false }
    ensures { Does (λ reply. reply.status ≤ 1) result
        (seen W.held W.has_failed output.old output.new) }
{
    if volumes.is_empty() {
        return refuse(telling.alloc, "no volume found");
    }
    match search_lines(telling, volumes) {
        Ok(text) => write_text(output, &text, true),
        Err(_) => Outcome::NoMemory,
    }
}

/// Searches the bytes of a disk.
pub fn search_disk<W: Sink>(telling: Telling, bytes: &[u8], output: &mut W) -> Outcome
    requires { W.has_failed output.old ≡ false }
    ensures { Does (λ reply. reply.status ≤ 1) result
        (seen W.held W.has_failed output.old output.new) }
{
    match find_volumes(telling.alloc, bytes) {
        Ok(volumes) => write_found(telling, &volumes, output),
        Err(_) => Outcome::NoMemory,
    }
}

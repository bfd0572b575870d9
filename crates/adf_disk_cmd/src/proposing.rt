// The command `survey --search --plan`: a plan of volumes that are found by their roots.

ghost use Rattle.std.specs.Prelude.{◌≡◌, false};
ghost use Rattle.adf_disk_cmd.specs.Proposals.{Proposes};
ghost use Rattle.adf_runs.specs.{Outcomes.Does, Streams.seen};

use crate::answering::{refuse, write_beside};
use crate::search_lines::push_found_line;
use adf_base::BLOCK_LEN;
use adf_found_plans::{Choice, NoPlan, choose, found_plan_text};
use adf_partitions::{FoundVolume, find_volumes};
use adf_runs::{Outcome, Sink};
use std::alloc::{AllocError, Global};

// How many blocks of a disk are searched.
fn searched_blocks(bytes: &[u8]) -> u64 {
    ((bytes.len() / BLOCK_LEN) as u64).min(1 << 32)
}

// The lines of the volumes that were not chosen.
fn left_lines(
    alloc: Global,
    choice: &Choice,
    volumes: &[FoundVolume],
) -> Result<Vec<u8>, AllocError> {
    let mut lines = Vec::new(alloc);
    for (i, volume) in volumes.iter().enumerate() {
        if !choice.has(i) {
            lines.extend_from_slice(b"left out: ")?;
            push_found_line(alloc, i.saturating_add(1), volume, &mut lines)?;
        }
    }
    Ok(lines)
}

// Writes the plan of the volumes that were chosen, and on errors the others; of none no text.
fn write_choice<W: Sink>(
    alloc: Global,
    choice: &Choice,
    volumes: &[FoundVolume],
    output: &mut W,
) -> Outcome
    requires { W.has_failed output.old ≡ false }
    ensures { Does Proposes result (seen W.held W.has_failed output.old output.new) }
{
    let Ok(lines) = left_lines(alloc, choice, volumes) else {
        return Outcome::NoMemory;
    };
    let sound = lines.is_empty();
    if choice.volumes.is_empty() {
        return write_beside(output, b"", b"", sound, lines);
    }
    match found_plan_text(alloc, &choice.volumes) {
        Ok(text) => write_beside(output, text.as_bytes(), b"", sound, lines),
        Err(NoPlan::TooLarge) => refuse(alloc, "too large for a plan"),
        Err(NoPlan::NoMemory) => Outcome::NoMemory,
    }
}

/// Proposes a plan of the volumes that are found in the bytes of a disk, or says on errors that there are none.
pub fn propose_plan<W: Sink>(alloc: Global, bytes: &[u8], output: &mut W) -> Outcome
    requires { W.has_failed output.old ≡ false }
    ensures { Does Proposes result (seen W.held W.has_failed output.old output.new) }
{
    let Ok(volumes) = find_volumes(alloc, bytes) else {
        return Outcome::NoMemory;
    };
    if volumes.is_empty() {
        return refuse(alloc, "no volume found");
    }
    match choose(alloc, &volumes, searched_blocks(bytes)) {
        Ok(choice) => write_choice(alloc, &choice, &volumes, output),
        Err(_) => Outcome::NoMemory,
    }
}

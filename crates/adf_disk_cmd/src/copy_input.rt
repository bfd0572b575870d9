// The command `volume` over an input, of which only the blocks that may have tables and the bytes of one volume are held.

ghost use Rattle.std.specs.Prelude.{◌≡◌, ◌≤◌, ◌+◌, List, ℕ, false, true, IfErr, IfOk, IfSome, OnOk, take};
ghost use Rattle.adf_disk_cmd.specs.{Answers.DiskAnswer, Answers.WritesVolume, Answers.wanted_of, CommandLine.volume};
ghost use Rattle.adf_disk_cmd.specs.Work.{HoldsVolume, sought_value};
ghost use Rattle.adf_partitions.specs.Places.{end_of};
ghost use Rattle.adf_runs.specs.Outcomes.{Blames, DoesOn, EndsBy, LacksInput, is_read_fault};
ghost use Rattle.adf_runs.specs.Streams.{TakesAtMost, seen};

use crate::answering::write_beside;
use crate::list_input::{TABLES_LEN, blocks_of};
use crate::surveying::{SurveyedDisk, survey_disk};
use crate::volumes::{MOST_DISK_BLOCKS, NOWHERE, found_place, stated_at, volume_at};
use crate::work::{MOST_DISK_BYTES, Sought, is_whole, partition_sought, volume_lines};
use adf_partitions::{Place, readable_partitions};
use adf_runs::{Excerpt, Outcome, Sink, Source, read_excerpt, read_first};
use std::alloc::{AllocError, Global};

// Where the volume that is sought lies, if the disk is long enough; no blocks if there is none.
fn sought_place(alloc: Global, tables: &[u8], sought: &Sought) -> Result<Place, AllocError>
    ensures { IfOk result (λ place. end_of place ≤ MOST_DISK_BLOCKS) }
{
    let partitions = readable_partitions(alloc, tables, MOST_DISK_BLOCKS)?;
    match partition_sought(alloc, &partitions, sought)? {
        Some(partition) => Ok(stated_at(tables, partition.block)),
        None => Ok(NOWHERE),
    }
}

/// What is held of a disk of which one volume is written.
#[derive(Drop)]
struct HeldVolume {
    tables: Vec<u8>,
    /// Where the volume lies.
    place: Place,
    /// The bytes of the volume after the tables, and how many bytes there are in all.
    behind: Excerpt,
}

// Reads the tables, and of what is behind them the bytes of the volume that is sought.
fn read_volume<R: Source>(
    alloc: Global,
    input: &mut R,
    sought: &Sought,
) -> Result<HeldVolume, Outcome>
    requires { R.has_failed input.old ≡ false }
    ensures held { IfOk result (λ held. IfSome (R.left input.old)
        (λ all. HoldsVolume all held.tables.items held.place held.behind.bytes.items held.behind.len)) }
    ensures within { IfOk result (λ held. end_of held.place ≤ MOST_DISK_BLOCKS) }
    ensures at_most { TakesAtMost (MOST_DISK_BYTES + 1) (R.left input.old) (R.left input.new) }
    ensures works { OnOk result (R.has_failed input.new ≡ false) }
    ensures unread { IfErr result LacksInput }
    ensures blames { IfErr result (λ w. Blames w (R.has_failed input.new) false) }
{
    let tables = match read_first(alloc, input, TABLES_LEN) {
        Ok(tables) => tables,
        Err(fault) => return Err(Outcome::after_reading(fault)),
    };
    let Ok(place) = sought_place(alloc, &tables, sought) else {
        return Err(Outcome::NoMemory);
    };
    let first = place.first as usize * 512;
    let from = first.saturating_sub(TABLES_LEN);
    let to = (first + place.blocks as usize * 512).saturating_sub(TABLES_LEN);
    match read_excerpt(alloc, input, from, to, MOST_DISK_BYTES - TABLES_LEN) {
        Ok(behind) => Ok(HeldVolume {
            tables,
            place,
            behind,
        }),
        Err(fault) => Err(Outcome::after_reading(fault)),
    }
}

// Writes the volume that is sought, of which these parts are held, on a disk on which these partitions are found. `NoMemory` if an
// allocation fails, or if it lies at another place than the one that was read.
fn write_held<W: Sink>(
    alloc: Global,
    held: &HeldVolume,
    sought: &Sought,
    disk: &SurveyedDisk,
    output: &mut W,
) -> Outcome
    requires works { W.has_failed output.old ≡ false }
    requires within { end_of held.now.place ≤ MOST_DISK_BLOCKS }
    ensures ends { (all : List ℕ)
        → HoldsVolume all held.now.tables.items held.now.place held.now.behind.bytes.items held.now.behind.len
        → EndsBy (WritesVolume (take MOST_DISK_BYTES all) (wanted_of disk.now.partitions.items (sought_value sought.now))
        disk.now.fault) result (W.held output.old) (W.held output.new) }
    ensures blames { Blames result false (W.has_failed output.new) }
{
    let Ok(found) = partition_sought(alloc, &disk.partitions, sought) else {
        return Outcome::NoMemory;
    };
    let Ok(lines) = volume_lines(alloc, sought, found, disk.fault) else {
        return Outcome::NoMemory;
    };
    let sound = is_whole(disk.fault, found);
    match found_place(&held.tables, found) {
        None => write_beside(output, b"", b"", sound, lines),
        Some(place) if place == held.place => {
            let front = volume_at(&held.tables, held.place);
            write_beside(output, front, &held.behind.bytes, sound, lines)
        }
        Some(_) => Outcome::NoMemory,
    }
}

// Writes the volume that is sought, or says why there is none.
fn copy_held<W: Sink>(alloc: Global, held: &HeldVolume, sought: &Sought, output: &mut W) -> Outcome
    requires works { W.has_failed output.old ≡ false }
    requires within { end_of held.now.place ≤ MOST_DISK_BLOCKS }
    ensures ends { (all : List ℕ)
        → HoldsVolume all held.now.tables.items held.now.place held.now.behind.bytes.items held.now.behind.len
        → EndsBy (DiskAnswer (volume (sought_value sought.now)) all) result (W.held output.old) (W.held output.new) }
    ensures blames { Blames result false (W.has_failed output.new) }
{
    let blocks = blocks_of(held.tables.len().saturating_add(held.behind.len));
    match survey_disk(alloc, &held.tables, blocks) {
        Ok(disk) => write_held(alloc, held, sought, &disk, output),
        Err(_) => Outcome::NoMemory,
    }
}

/// Writes the volume that is sought.
pub fn copy_input<R: Source, W: Sink>(
    alloc: Global,
    input: &mut R,
    sought: &Sought,
    output: &mut W,
) -> Outcome
    requires reads { R.has_failed input.old ≡ false }
    requires writes { W.has_failed output.old ≡ false }
    ensures ends { DoesOn (DiskAnswer (volume (sought_value sought.now))) result (seen R.left R.has_failed input.old input.new)
        (seen W.held W.has_failed output.old output.new) }
    ensures unwritten { is_read_fault result ≡ true → output.new ≡ output.old }
    ensures at_most { TakesAtMost (MOST_DISK_BYTES + 1) (R.left input.old) (R.left input.new) }
{
    match read_volume(alloc, input, sought) {
        Ok(held) => copy_held(alloc, &held, sought, output),
        Err(outcome) => outcome,
    }
}

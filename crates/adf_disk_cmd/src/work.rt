// What is done with a disk.

ghost use Rattle.std.specs.Prelude.{◌≡◌, ◌&&◌, false, IfOk, List, Option, option_copied};
ghost use Rattle.adf_disk_cmd.specs.{Answers.OfDisk, Answers.OfPartitions, Answers.WritesVolume, Answers.has_place, Answers.wanted_of};
ghost use Rattle.adf_disk_cmd.specs.{Surveys.are_faultless, Work.IsWorkOf, Work.sought_value};
ghost use Rattle.adf_partitions.specs.Partitions.{partition_numbered};
ghost use Rattle.adf_runs.specs.{Outcomes.Blames, Outcomes.Does, Outcomes.EndsBy, Streams.seen};
ghost use Rattle.adf_disk_cmd.specs.CommandLine.{DiskRequestValue, wanted_value};

use crate::answering::{Telling, write_beside};
use crate::checking::write_checks;
use crate::command_line::Wanted;
use crate::faults::fault_lines;
use crate::listing::write_list;
use crate::names::partition_called;
use crate::surveying::{SurveyedDisk, survey_disk};
use crate::volumes::{found_bytes, has_place};
use adf_base::BLOCK_LEN;
use adf_names::push_escaped;
use adf_partitions::{DiskFault, Partition};
use adf_runs::{Outcome, Sink};
use std::alloc::{AllocError, Global};

/// The most bytes of a disk: 2^32 blocks.
pub const MOST_DISK_BYTES: usize = 1 << 41;

/// The partition that is sought.
#[derive(Drop)]
pub enum Sought {
    Numbered(u32),
    /// The text of a name.
    Named(String),
}

/// What is done with a disk.
#[derive(Drop)]
pub enum Work {
    /// The partitions that are found are listed, as lines or as objects.
    List { json: bool },
    /// Their volumes are checked.
    Check { json: bool },
    /// Its volume is written.
    Volume(Sought),
}

/// The partition that is sought, if one is wanted.
pub fn sought_for(alloc: Global, wanted: Wanted<'_>) -> Result<Sought, AllocError>
    ensures { IfOk result (λ sought. sought_value sought ≡ wanted_value wanted.entry) }
{
    match wanted {
        Wanted::Number(number) => Ok(Sought::Numbered(number)),
        Wanted::Name(text) => Ok(Sought::Named(String::from_str(alloc, text)?)),
    }
}

// The partition with a number, counted from 1.
fn partition_numbered(partitions: &[Partition], number: usize) -> Option<&Partition>
    ensures { option_copied result ≡ partition_numbered partitions.now number }
{
    if number == 0 {
        return None;
    }
    partitions.get(number - 1)
}

/// The partition that is sought, if it is one of these.
pub fn partition_sought<'a>(
    alloc: Global,
    partitions: &'a [Partition],
    sought: &Sought,
) -> Result<Option<&'a Partition>, AllocError>
    ensures { IfOk result (λ found. option_copied found ≡ wanted_of partitions.now (sought_value sought.now)) }
{
    match sought {
        Sought::Numbered(number) => Ok(partition_numbered(partitions, *number as usize)),
        Sought::Named(text) => partition_called(alloc, text.as_bytes(), partitions),
    }
}

// What is said where a disk has no such partition.
fn no_partition_text(alloc: Global, sought: &Sought) -> Result<String, AllocError> {
    match sought {
        Sought::Numbered(number) => format!(in alloc; "no such partition: {number}"),
        Sought::Named(name) => {
            let mut text = Vec::from_slice(alloc, b"no such partition: ")?;
            push_escaped(&mut text, name.as_bytes())?;
            // An escape form is ASCII.
            String::from_utf8(text).map_err(|_| AllocError)
        }
    }
}

// That there is no such partition, or what is wrong with its place, as a line.
fn sought_lines(
    alloc: Global,
    sought: &Sought,
    found: Option<&Partition>,
) -> Result<String, AllocError> {
    let Some(partition) = found else {
        let text = no_partition_text(alloc, sought)?;
        return format!(in alloc; "{text}\n");
    };
    match partition.place {
        Ok(_) => Ok(String::new(alloc)),
        Err(fault) => format!(in alloc; "{fault}\n"),
    }
}

/// What errors get beside the volume of the partition that is found: the fault of the tables, and what is wrong with the volume.
pub fn volume_lines(
    alloc: Global,
    sought: &Sought,
    found: Option<&Partition>,
    fault: Option<DiskFault>,
) -> Result<Vec<u8>, AllocError> {
    let mut lines = fault_lines(Telling { alloc, json: false }, fault)?;
    let text = sought_lines(alloc, sought, found)?;
    lines.extend_from_slice(text.as_bytes())?;
    Ok(lines)
}

/// Whether the tables have no fault, and a partition is found that has a place.
pub fn is_whole(fault: Option<DiskFault>, found: Option<&Partition>) -> bool
    ensures { result ≡ (are_faultless fault && has_place (option_copied found.entry)) }
{
    fault.is_none() && has_place(found)
}

// Writes the bytes of the volume of the partition that is sought.
fn write_volume<W: Sink>(
    alloc: Global,
    bytes: &[u8],
    sought: &Sought,
    disk: &SurveyedDisk,
    output: &mut W,
) -> Outcome
    requires { W.has_failed output.old ≡ false }
    ensures { Does (WritesVolume bytes.now (wanted_of disk.now.partitions.items (sought_value sought.now)) disk.now.fault)
        result (seen W.held W.has_failed output.old output.new) }
{
    let Ok(found) = partition_sought(alloc, &disk.partitions, sought) else {
        return Outcome::NoMemory;
    };
    match volume_lines(alloc, sought, found, disk.fault) {
        Ok(lines) => {
            let sound = is_whole(disk.fault, found);
            write_beside(output, found_bytes(bytes, found), b"", sound, lines)
        }
        Err(_) => Outcome::NoMemory,
    }
}

impl Work {
    // Does the work on a disk on which these partitions are found.
    fn on_disk<W: Sink>(
        &self,
        alloc: Global,
        bytes: &[u8],
        disk: &SurveyedDisk,
        output: &mut W,
    ) -> Outcome
        requires { W.has_failed output.old ≡ false }
        ensures ends { (r : DiskRequestValue) → IsWorkOf self.now r
            → EndsBy (OfPartitions r bytes.now disk.now.partitions.items disk.now.fault) result
            (W.held output.old) (W.held output.new) }
        ensures blames { Blames result false (W.has_failed output.new) }
    {
        match self {
            Work::List { json } => write_list(Telling { alloc, json: *json }, disk, output),
            Work::Check { json } => {
                write_checks(Telling { alloc, json: *json }, bytes, &[], disk, output)
            }
            Work::Volume(sought) => write_volume(alloc, bytes, sought, disk, output),
        }
    }

    /// Does the work on the bytes of a disk.
    pub fn on<W: Sink>(&self, alloc: Global, bytes: &[u8], output: &mut W) -> Outcome
        requires { W.has_failed output.old ≡ false }
        ensures ends { (r : DiskRequestValue) → IsWorkOf self.now r
            → EndsBy (OfDisk r bytes.now) result (W.held output.old) (W.held output.new) }
        ensures blames { Blames result false (W.has_failed output.new) }
    {
        let blocks = (bytes.len() / BLOCK_LEN) as u64;
        match survey_disk(alloc, bytes, blocks) {
            Ok(disk) => self.on_disk(alloc, bytes, &disk, output),
            Err(_) => Outcome::NoMemory,
        }
    }
}

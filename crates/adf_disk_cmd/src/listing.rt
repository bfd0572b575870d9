// The command `list`.

ghost use Rattle.std.specs.Prelude.{◌≡◌, false};
ghost use Rattle.adf_disk_cmd.specs.Answers.{ListsAll};
ghost use Rattle.adf_runs.specs.{Outcomes.Does, Streams.seen};

use crate::answering::{Telling, write_text};
use crate::disk_objects::push_partition_object;
use crate::faults::fault_lines;
use crate::surveying::SurveyedDisk;
use crate::types::type_text;
use adf_names::push_names;
use adf_partitions::{FieldFault, Partition, Place, PlaceFault};
use adf_runs::{Outcome, Sink};
use std::alloc::{AllocError, Global};

/// Where a volume lies, or why it has no place.
pub fn place_text(alloc: Global, place: Result<Place, PlaceFault>) -> Result<String, AllocError> {
    match place {
        Ok(place) => {
            let first = place.first;
            let blocks = place.blocks;
            format!(in alloc; "first {first} blocks {blocks}")
        }
        Err(fault) => format!(in alloc; "{fault}"),
    }
}

// What is wrong with the other fields of a partition, if something is.
fn fields_fault_text(alloc: Global, fault: Option<FieldFault>) -> Result<String, AllocError> {
    match fault {
        None => Ok(String::new(alloc)),
        Some(fault) => format!(in alloc; " {fault}"),
    }
}

/// The bytes of a block of a file system: so many sectors of so many words.
pub fn block_bytes_text(alloc: Global, sectors: u32, words: u32) -> Result<String, AllocError> {
    let bytes = u64::from(words) * 4;
    format!(in alloc; "{sectors} x {bytes}")
}

// The bytes of a block of a file system, unless it is one sector of 512 bytes.
fn other_blocks_text(alloc: Global, partition: &Partition) -> Result<String, AllocError> {
    if partition.sector_words == 128 && partition.block_sectors == 1 {
        return Ok(String::new(alloc));
    }
    let bytes = block_bytes_text(alloc, partition.block_sectors, partition.sector_words)?;
    format!(in alloc; " block bytes {bytes}")
}

// The blocks before the first that a file system uses, unless they are 2.
fn reserved_text(alloc: Global, blocks: u32) -> Result<String, AllocError> {
    if blocks == 2 {
        return Ok(String::new(alloc));
    }
    format!(in alloc; " reserved {blocks}")
}

// The blocks at the end that a file system does not use, unless there are none.
fn preallocated_text(alloc: Global, blocks: u32) -> Result<String, AllocError> {
    if blocks == 0 {
        return Ok(String::new(alloc));
    }
    format!(in alloc; " preallocated {blocks}")
}

// What is unusual of a file system: the blocks that it does not use, and the bytes of a block.
fn unusual_text(alloc: Global, partition: &Partition) -> Result<String, AllocError> {
    let reserved = reserved_text(alloc, partition.reserved)?;
    let preallocated = preallocated_text(alloc, partition.preallocated)?;
    let blocks = other_blocks_text(alloc, partition)?;
    format!(in alloc; "{reserved}{preallocated}{blocks}")
}

// The end of a partition's line: its type, place, flags, boot priority, what is unusual of its file system, and what is wrong with
// its other fields.
fn words_text(alloc: Global, partition: &Partition) -> Result<String, AllocError> {
    let kind = type_text(alloc, partition.dos_type)?;
    let place = place_text(alloc, partition.place)?;
    let flags = partition.flags;
    let priority = partition.priority;
    let unusual = unusual_text(alloc, partition)?;
    let fault = fields_fault_text(alloc, partition.fault)?;
    format!(in alloc; "{kind} {place} flags {flags} priority {priority}{unusual}{fault}\n")
}

/// Appends the name of a partition, and a colon.
pub fn push_name(text: &mut Vec<u8>, partition: &Partition) -> Result<(), AllocError> {
    push_names(text, &[partition.name.bytes()])?;
    text.extend_from_slice(b": ")
}

// Appends the line of the partition with this number.
fn push_line(
    alloc: Global,
    number: usize,
    partition: &Partition,
    text: &mut Vec<u8>,
) -> Result<(), AllocError> {
    let front = format!(in alloc; "{number} ")?;
    let end = words_text(alloc, partition)?;
    text.extend_from_slice(front.as_bytes())?;
    push_name(text, partition)?;
    text.extend_from_slice(end.as_bytes())
}

// Appends the line of the partition with this number, or with `json` its object.
fn push_partition(
    telling: Telling,
    number: usize,
    partition: &Partition,
    text: &mut Vec<u8>,
) -> Result<(), AllocError> {
    if telling.json {
        push_partition_object(telling.alloc, number, partition, text)
    } else {
        push_line(telling.alloc, number, partition, text)
    }
}

// The lines of all partitions, or with `json` their objects.
fn list_lines(telling: Telling, partitions: &[Partition]) -> Result<Vec<u8>, AllocError> {
    let mut text = Vec::new(telling.alloc);
    for (i, partition) in partitions.iter().enumerate() {
        push_partition(telling, i + 1, partition, &mut text)?;
    }
    Ok(text)
}

// The line of the fault of the tables, if there is one, and the lines of all partitions.
fn disk_lines(telling: Telling, disk: &SurveyedDisk) -> Result<Vec<u8>, AllocError> {
    let mut text = fault_lines(telling, disk.fault)?;
    text.extend_from_slice(&list_lines(telling, &disk.partitions)?)?;
    Ok(text)
}

/// Writes these lines, or with `json` objects.
pub fn write_list<W: Sink>(telling: Telling, disk: &SurveyedDisk, output: &mut W) -> Outcome
    requires { W.has_failed output.old ≡ false }
    ensures { Does (ListsAll disk.now.fault) result
        (seen W.held W.has_failed output.old output.new) }
{
    match disk_lines(telling, disk) {
        Ok(text) => write_text(output, &text, disk.fault.is_none()),
        Err(_) => Outcome::NoMemory,
    }
}

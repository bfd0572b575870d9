// Volumes of host files that the lines of a plan name.

ghost use Rattle.std.specs.Prelude.{◌≡◌, ◌≢◌, ◌≤◌, ◌<◌, ◌^◌, IfOk, None, false, length};
ghost use Rattle.adf_disk_cmd.specs.HostPlans.{AreHostBytes, boot_type, volume_refusal};

use crate::types::type_text;
use adf_base::Block;
use adf_file_runs::{Files, Unopened};
use adf_names::push_escaped;
use adf_partitions::PartitionPlan;
use adf_runs::{Outcome, Sink, StreamFault, read_all, say};
use std::alloc::{AllocError, Global};

/// Why the bytes of a host file are no volume of a partition.
#[derive(Clone, Copy, Debug)]
pub enum VolumeRefusal {
    /// The partition has so many bytes, and the file fewer.
    Short { need: usize, have: usize },
    /// The partition has so many bytes, and the file more.
    Long { need: usize },
    /// The boot block names the first of these types, and the plan the other one.
    OtherType { found: u32, planned: u32 },
}

/// Why there is no volume of a host file.
#[derive(Clone, Copy, Debug)]
pub enum NoVolume {
    /// The file was not opened.
    Unopened(Unopened),
    /// The file could not be read.
    ReadFault,
    /// An allocation failed.
    NoMemory,
    /// Its bytes are no volume of the partition.
    Refused(VolumeRefusal),
}

impl From<AllocError> for NoVolume {
    fn from(_e: AllocError) -> NoVolume {
        NoVolume::NoMemory
    }
}

/// A line of a plan of whose host file there is no volume.
#[derive(Clone, Copy, Debug)]
pub struct HostFault<'a> {
    /// Counted from 1.
    pub line: usize,
    /// The name of the partition.
    pub name: &'a [u8],
    pub host: &'a [u8],
    pub why: NoVolume,
}

/// The type that the boot block of a volume names; 0 if there is no block.
pub fn boot_type(bytes: &[u8]) -> u32
    ensures { 512 ≤ length bytes.now → result ≡ boot_type bytes.now }
{
    match Block::at(bytes, 0) {
        Some(block) => block.word(0),
        None => 0,
    }
}

// Why these bytes are no volume of a partition of so many bytes, if so.
fn volume_refusal(partition: &PartitionPlan, need: usize, bytes: &[u8]) -> Option<VolumeRefusal>
    requires { 512 ≤ need }
    ensures { result ≡ volume_refusal need partition.now bytes.now }
{
    let have = bytes.len();
    if have < need {
        return Some(VolumeRefusal::Short { need, have });
    }
    if need < have {
        return Some(VolumeRefusal::Long { need });
    }
    let found = boot_type(bytes);
    let planned = partition.system.planned_type();
    if found == 0 || found == planned {
        None
    } else {
        Some(VolumeRefusal::OtherType { found, planned })
    }
}

/// Reads the volume of a partition of so many bytes from a host file.
pub fn read_volume<F: Files>(
    alloc: Global,
    files: &F,
    partition: &PartitionPlan,
    need: usize,
    host: &[u8],
) -> Result<Vec<u8>, NoVolume>
    requires some { 512 ≤ need }
    requires few { need < 2 ^ 63 }
    ensures read { IfOk result (λ bytes. AreHostBytes (F.bytes_of files.now) need host.now bytes.items) }
    ensures taken { IfOk result (λ bytes. volume_refusal need partition.now bytes.items ≡ None) }
{
    let mut source = match files.open(host) {
        Ok(source) => source,
        Err(why) => return Err(NoVolume::Unopened(why)),
    };
    let bytes = match read_all(alloc, &mut source, need) {
        Ok(bytes) => bytes,
        Err(StreamFault::Device) => return Err(NoVolume::ReadFault),
        Err(StreamFault::NoMemory) => return Err(NoVolume::NoMemory),
    };
    match volume_refusal(partition, need, &bytes) {
        Some(why) => Err(NoVolume::Refused(why)),
        None => Ok(bytes),
    }
}

// What is said behind the name of a host file whose bytes are refused.
fn refusal_end(alloc: Global, why: VolumeRefusal) -> Result<String, AllocError> {
    match why {
        VolumeRefusal::Short { need, have } => format!(in alloc; ": need {need}, have {have}\n"),
        VolumeRefusal::Long { need } => format!(in alloc; ": need {need}, have more\n"),
        VolumeRefusal::OtherType { found, planned } => {
            let found = type_text(alloc, found)?;
            let planned = type_text(alloc, planned)?;
            format!(in alloc; ": type {found}, planned {planned}\n")
        }
    }
}

// What is said behind the name of a host file that is not opened.
fn unopened_end(why: Unopened) -> &'static str {
    match why {
        Unopened::Other => ": cannot be opened\n",
        _ => why.text(),
    }
}

impl NoVolume {
    // Appends what is said behind the name of the host file.
    fn push_text(self, alloc: Global, line: &mut Vec<u8>) -> Result<(), AllocError> {
        match self {
            NoVolume::Unopened(why) => line.extend_from_slice(unopened_end(why).as_bytes()),
            NoVolume::ReadFault => line.extend_from_slice(b": read fault\n"),
            NoVolume::NoMemory => line.extend_from_slice(b": no memory\n"),
            NoVolume::Refused(why) => {
                let text = refusal_end(alloc, why)?;
                line.extend_from_slice(text.as_bytes())
            }
        }
    }
}

// The line of a fault.
fn host_fault_line(alloc: Global, fault: &HostFault<'_>) -> Result<Vec<u8>, AllocError> {
    let number = fault.line;
    let front = format!(in alloc; "line {number}: ")?;
    let mut line = Vec::from_slice(alloc, front.as_bytes())?;
    push_escaped(&mut line, fault.name)?;
    line.extend_from_slice(b": ")?;
    push_escaped(&mut line, fault.host)?;
    fault.why.push_text(alloc, &mut line)?;
    Ok(line)
}

/// Says a fault on errors, and returns the status: 1 if the bytes of the file are refused, else 3.
pub fn tell_fault<E: Sink>(alloc: Global, fault: &HostFault<'_>, errors: &mut E) -> u8
    requires { E.has_failed errors.old ≡ false }
    ensures some { result ≢ 0 }
    ensures few { result ≤ 3 }
{
    match host_fault_line(alloc, fault) {
        Ok(line) => {
            say(errors, &line);
            match fault.why {
                NoVolume::Refused(_) => 1,
                _ => 3,
            }
        }
        Err(_) => Outcome::NoMemory.finish(errors),
    }
}

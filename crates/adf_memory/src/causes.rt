// The texts of causes and of faults, by their numbers.

ghost use Rattle.std.specs.Prelude.{◌≡◌, IfNone, IfSome, length};
ghost use Rattle.adf_partitions.specs.{FaultTexts.field_fault_number, FaultTexts.place_fault_number};
ghost use Rattle.adf_partitions.specs.{declared.fault.DiskCause.DiskCause, declared.place.PlaceFault.PlaceFault};
ghost use Rattle.adf_partitions.specs.declared.field_fault.FieldFault.{FieldFault};
ghost use Rattle.adf_memory.specs.{DiskTables.IsDiskCause, Rooms.filled};
ghost use Rattle.adf_memory.specs.TextCalls.{WritesCause, WritesDiskCause, WritesPartitionFault};

use crate::tables::put_all;
use adf_blocks::Cause;
use adf_partitions::{DiskCause, FieldFault, PlaceFault};

// Puts a text at the front of the room, as far as it fits, and returns its length.
fn put_text(room: &mut [u8], text: &str) -> usize
    ensures length { result ≡ length text.now }
    ensures text { room.new ≡ filled text.now room.old }
{
    let bytes = text.as_bytes();
    put_all(room, bytes);
    bytes.len()
}

// The cause of a disk with this number.
fn disk_cause_numbered(number: u8) -> Option<DiskCause>
    ensures some { IfSome result (λ c. IsDiskCause c number) }
    ensures none { IfNone result ((c : DiskCause) → ¬ IsDiskCause c number) }
{
    match number {
        1 => Some(DiskCause::NoRigidDisk),
        2 => Some(DiskCause::BlockSize),
        3 => Some(DiskCause::OutOfRange),
        4 => Some(DiskCause::Repeated),
        5 => Some(DiskCause::NotPartition),
        6 => Some(DiskCause::BadSum),
        7 => Some(DiskCause::TooMany),
        _ => None,
    }
}

// The fault of a partition's place with this number.
fn place_fault_numbered(number: u8) -> Option<PlaceFault>
    ensures some { IfSome result (λ f. place_fault_number f ≡ number) }
    ensures none { IfNone result ((f : PlaceFault) → ¬ (place_fault_number f ≡ number)) }
{
    match number {
        3 => Some(PlaceFault::NoCylinders),
        4 => Some(PlaceFault::BeyondImage),
        5 => Some(PlaceFault::OverTables),
        6 => Some(PlaceFault::OverPartition),
        _ => None,
    }
}

// The fault of its other fields with this number.
fn field_fault_numbered(number: u8) -> Option<FieldFault>
    ensures some { IfSome result (λ f. field_fault_number f ≡ number) }
    ensures none { IfNone result ((f : FieldFault) → ¬ (field_fault_number f ≡ number)) }
{
    match number {
        1 => Some(FieldFault::ShortEnvironment),
        2 => Some(FieldFault::OtherBlocks),
        7 => Some(FieldFault::BadName),
        _ => None,
    }
}

/// Writes the text of the cause with this number to the front of `room`, as far as it fits. Returns the length of the whole
/// text, or 0 if no cause has the number.
pub fn cause_text(cause: u8, room: &mut [u8]) -> usize
    ensures { WritesCause cause room.old room.new result }
{
    match Cause::numbered(cause) {
        Some(named) => put_text(room, named.text()),
        None => 0,
    }
}

/// Writes the text of what is wrong with the tables of a disk, by its number, to the front of `room`, as far as it fits. Returns
/// the length of the whole text, or 0 if no cause has the number.
pub fn disk_cause_text(cause: u8, room: &mut [u8]) -> usize
    ensures { WritesDiskCause cause room.old room.new result }
{
    match disk_cause_numbered(cause) {
        Some(named) => put_text(room, named.text()),
        None => 0,
    }
}

/// Writes the text of what is wrong with the place of a partition, or with its other fields, by its number, to the front of
/// `room`, as far as it fits. Returns the length of the whole text, or 0 if no fault has the number.
pub fn partition_fault_text(fault: u8, room: &mut [u8]) -> usize
    ensures { WritesPartitionFault fault room.old room.new result }
{
    if let Some(named) = place_fault_numbered(fault) {
        return put_text(room, named.text());
    }
    match field_fault_numbered(fault) {
        Some(named) => put_text(room, named.text()),
        None => 0,
    }
}

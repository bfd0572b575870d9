// The objects of partitions, of their volumes' verdicts and of a fault of the tables.

use crate::types::type_bytes;
use adf_json::{Member, Value, push_object, without_feed};
use adf_partitions::{DiskFault, FieldFault, Partition, Place, PlaceFault};
use std::alloc::{AllocError, Global};

// The first block of a volume.
fn first_value(place: Result<Place, PlaceFault>) -> Value<'static> {
    match place {
        Ok(place) => Value::Number(place.first),
        Err(_) => Value::Nothing,
    }
}

// How many blocks it has.
fn blocks_value(place: Result<Place, PlaceFault>) -> Value<'static> {
    match place {
        Ok(place) => Value::Number(place.blocks),
        Err(_) => Value::Nothing,
    }
}

// Why it has no place.
fn no_place_value(place: Result<Place, PlaceFault>) -> Value<'static> {
    match place {
        Ok(_) => Value::Nothing,
        Err(fault) => Value::Bytes(fault.text().as_bytes()),
    }
}

// What is wrong with the other fields of a partition.
fn fields_fault_value(fault: Option<FieldFault>) -> Value<'static> {
    match fault {
        None => Value::Nothing,
        Some(fault) => Value::Bytes(fault.text().as_bytes()),
    }
}

// The bytes of a sector of so many words.
fn sector_value(words: u32) -> Value<'static> {
    Value::Number(u64::from(words) * 4)
}

// The members of the object of the partition with this number, whose type this is.
fn partition_members<'a>(
    number: usize,
    partition: &'a Partition,
    kind: &'a [u8],
) -> [Member<'a>; 14] {
    [
        Member::text("line", "partition"),
        Member::of("number", Value::Number(number as u64)),
        Member::bytes("name", partition.name.bytes()),
        Member::bytes("type", kind),
        Member::of("first", first_value(partition.place)),
        Member::of("blocks", blocks_value(partition.place)),
        Member::of("no_place", no_place_value(partition.place)),
        Member::number("flags", partition.flags),
        Member::signed("priority", partition.priority),
        Member::of("fault", fields_fault_value(partition.fault)),
        Member::number("reserved", partition.reserved),
        Member::number("preallocated", partition.preallocated),
        Member::of("sector_bytes", sector_value(partition.sector_words)),
        Member::number("block_sectors", partition.block_sectors),
    ]
}

/// Appends the object of the partition with this number.
pub fn push_partition_object(
    alloc: Global,
    number: usize,
    partition: &Partition,
    text: &mut Vec<u8>,
) -> Result<(), AllocError> {
    let kind = type_bytes(alloc, partition.dos_type)?;
    push_object(text, &partition_members(number, partition, &kind))
}

/// Appends the object of what is told of a volume: whether it is sound, and the line behind the name of its partition.
pub fn push_verdict_object<'a>(
    text: &mut Vec<u8>,
    partition: &'a Partition,
    is_sound: bool,
    line: &'a [u8],
) -> Result<(), AllocError> {
    push_object(
        text,
        &[
            Member::text("line", "verdict"),
            Member::bytes("name", partition.name.bytes()),
            Member::of("sound", Value::Truth(is_sound)),
            Member::bytes("verdict", without_feed(line)),
        ],
    )
}

/// The object of a fault of the tables.
pub fn fault_object(alloc: Global, fault: DiskFault) -> Result<Vec<u8>, AllocError> {
    let mut object = Vec::new(alloc);
    push_object(
        &mut object,
        &[
            Member::text("line", "fault"),
            Member::number("block", fault.block),
            Member::text("cause", fault.cause.text()),
        ],
    )?;
    Ok(object)
}

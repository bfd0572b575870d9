// The lines and objects of the volumes that are found by their roots.

use crate::answering::Telling;
use crate::listing::place_text;
use crate::types::{type_bytes, type_text};
use adf_json::{Member, Value, push_object};
use adf_names::push_names;
use adf_partitions::{FoundVolume, PlaceFault};
use std::alloc::{AllocError, Global};

// What is wrong with the end of a volume, if something is.
fn end_text(alloc: Global, fault: Option<PlaceFault>) -> Result<String, AllocError> {
    match fault {
        None => Ok(String::new(alloc)),
        Some(fault) => format!(in alloc; " {fault}"),
    }
}

// The end of a volume's line: its type and place, and what is wrong with its end.
fn search_text(alloc: Global, volume: &FoundVolume) -> Result<String, AllocError> {
    let kind = type_text(alloc, volume.dos_type)?;
    let place = place_text(alloc, Ok(volume.place))?;
    let end = end_text(alloc, volume.fault)?;
    format!(in alloc; "{kind} {place}{end}\n")
}

// Appends the label of a volume, and a colon.
fn push_label(text: &mut Vec<u8>, volume: &FoundVolume) -> Result<(), AllocError> {
    push_names(text, &[volume.label.bytes()])?;
    text.extend_from_slice(b": ")
}

/// Appends the line of the volume with this number.
pub fn push_found_line(
    alloc: Global,
    number: usize,
    volume: &FoundVolume,
    text: &mut Vec<u8>,
) -> Result<(), AllocError> {
    let front = format!(in alloc; "{number} ")?;
    let end = search_text(alloc, volume)?;
    text.extend_from_slice(front.as_bytes())?;
    push_label(text, volume)?;
    text.extend_from_slice(end.as_bytes())
}

// What is wrong with the end of a volume.
fn end_value(fault: Option<PlaceFault>) -> Value<'static> {
    match fault {
        None => Value::Nothing,
        Some(fault) => Value::Bytes(fault.text().as_bytes()),
    }
}

// The members of the object of the volume with this number, whose type this is.
fn search_members<'a>(number: usize, volume: &'a FoundVolume, kind: &'a [u8]) -> [Member<'a>; 7] {
    [
        Member::text("line", "found"),
        Member::of("number", Value::Number(number as u64)),
        Member::bytes("label", volume.label.bytes()),
        Member::bytes("type", kind),
        Member::of("first", Value::Number(volume.place.first)),
        Member::of("blocks", Value::Number(volume.place.blocks)),
        Member::of("fault", end_value(volume.fault)),
    ]
}

// Appends the object of the volume with this number.
fn push_found_object(
    alloc: Global,
    number: usize,
    volume: &FoundVolume,
    text: &mut Vec<u8>,
) -> Result<(), AllocError> {
    let kind = type_bytes(alloc, volume.dos_type)?;
    push_object(text, &search_members(number, volume, &kind))
}

// Appends the line of the volume with this number, or with `json` its object.
fn push_found(
    telling: Telling,
    number: usize,
    volume: &FoundVolume,
    text: &mut Vec<u8>,
) -> Result<(), AllocError> {
    if telling.json {
        push_found_object(telling.alloc, number, volume, text)
    } else {
        push_found_line(telling.alloc, number, volume, text)
    }
}

/// The lines of all volumes, or with `json` their objects.
pub fn search_lines(telling: Telling, volumes: &[FoundVolume]) -> Result<Vec<u8>, AllocError> {
    let mut text = Vec::new(telling.alloc);
    for (i, volume) in volumes.iter().enumerate() {
        push_found(telling, i + 1, volume, &mut text)?;
    }
    Ok(text)
}

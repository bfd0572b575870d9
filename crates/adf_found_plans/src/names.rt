// The names of partitions for volumes that were found.

use adf_partitions::{DriveName, FoundVolume, are_same};
use std::alloc::{AllocError, Global};

// Whether a word of a plan can have a byte.
fn is_word_byte(byte: u8) -> bool {
    b' ' < byte && byte != b':' && byte != b'/'
}

// Whether a label begins as a name that is given.
fn begins_as_given(label: &[u8]) -> bool {
    are_same(&label[..label.len().min(2)], b"DH")
}

// Whether a label can be the name of its partition.
fn can_name(label: &[u8]) -> bool {
    !label.is_empty() && label.iter().all(|byte| is_word_byte(*byte)) && !begins_as_given(label)
}

// Whether one of these volumes has a label, ignoring case.
fn have_label(volumes: &[FoundVolume], label: &[u8]) -> bool {
    volumes
        .iter()
        .any(|volume| are_same(volume.label.bytes(), label))
}

/// The name of the partition of a volume behind others: its label, if a word of a plan can be that and no volume before has it, else
/// `DH` and its number, from 0. `None` if that is no name.
pub fn found_name(
    alloc: Global,
    before: &[FoundVolume],
    volume: &FoundVolume,
) -> Result<Option<DriveName>, AllocError> {
    let label = volume.label.bytes();
    if can_name(label) && !have_label(before, label) {
        return Ok(DriveName::new(label));
    }
    let number = before.len();
    let name = format!(in alloc; "DH{number}")?;
    Ok(DriveName::new(name.as_bytes()))
}

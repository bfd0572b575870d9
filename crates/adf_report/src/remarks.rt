// What is reported of blocks before the findings.

use adf_base::Letters;
use adf_json::{Member, push_object};
use adf_names::{Kind, kind_text_by, push_number};
use std::alloc::{AllocError, Global};

/// What is reported of blocks.
#[derive(Clone, Copy, Debug, PartialEq, Eq)]
pub enum Saying {
    /// The input does not hold them, or they were never read.
    NoData,
    /// They are after the end of the volume.
    Behind,
    /// The boot block does not begin with `DOS` and a type.
    NotDos,
    /// The volume has this kind and these letters, and the boot block has the type of others.
    FilesOf(Kind, Letters),
    /// The names of the volume are those of types 6 and 7.
    LongNames,
}

/// What is reported of a run of blocks.
#[derive(Clone, Copy, Debug, PartialEq, Eq)]
pub struct Remark {
    pub first: u32,
    pub last: u32,
    pub says: Saying,
}

impl Remark {
    /// A remark on block 0.
    pub fn of_boot(says: Saying) -> Remark {
        Remark {
            first: 0,
            last: 0,
            says,
        }
    }
}

// The text of what is reported.
fn saying_text(alloc: Global, says: Saying) -> Result<Vec<u8>, AllocError> {
    match says {
        Saying::NoData => Vec::from_slice(alloc, b"no data"),
        Saying::Behind => Vec::from_slice(alloc, b"behind the volume"),
        Saying::NotDos => Vec::from_slice(alloc, b"not dos"),
        Saying::LongNames => Vec::from_slice(alloc, b"long names"),
        Saying::FilesOf(kind, letters) => {
            let mut text = Vec::from_slice(alloc, b"files of ")?;
            text.extend_from_slice(kind_text_by(letters, kind).as_bytes())?;
            Ok(text)
        }
    }
}

/// Appends the blocks of a run, then a byte.
pub fn push_blocks(text: &mut Vec<u8>, first: u32, last: u32, end: u8) -> Result<(), AllocError> {
    if first == last {
        text.extend_from_slice(b"block ")?;
    } else {
        text.extend_from_slice(b"blocks ")?;
        push_number(text, first, b' ')?;
        text.extend_from_slice(b"to ")?;
    }
    push_number(text, last, end)
}

// Appends the line of a remark with this text.
fn push_line(text: &mut Vec<u8>, remark: &Remark, says: &[u8]) -> Result<(), AllocError> {
    push_blocks(text, remark.first, remark.last, b':')?;
    text.extend_from_slice(b" ")?;
    text.extend_from_slice(says)?;
    text.extend_from_slice(b"\n")
}

// Appends the object of a remark with this text.
fn push_remark_object(text: &mut Vec<u8>, remark: &Remark, says: &[u8]) -> Result<(), AllocError> {
    push_object(
        text,
        &[
            Member::text("line", "remark"),
            Member::number("first", remark.first),
            Member::number("last", remark.last),
            Member::bytes("says", says),
        ],
    )
}

/// The lines of remarks, or with `json` their objects.
pub fn remarks_text(alloc: Global, remarks: &[Remark], json: bool) -> Result<Vec<u8>, AllocError> {
    let mut text = Vec::new(alloc);
    for remark in remarks {
        let says = saying_text(alloc, remark.says)?;
        if json {
            push_remark_object(&mut text, remark, &says)?;
        } else {
            push_line(&mut text, remark, &says)?;
        }
    }
    Ok(text)
}

// What calls on a checked volume answer: `nothing` where they answer nothing.

use crate::row_error::RowError;
use crate::texts::{block, push_runs};
use crate::trees::{push_fault, push_need};
use adf_check::{Checked, Owner, check};
use adf_tree::{Node, read_path, write_path};
use std::alloc::{AllocError, Global};

/// The calls: `find PATH`, and the others with the number of a node or a block.
const CALLS: [&str; 5] = ["find", "entry", "owner", "pieces", "read"];

/// What stands for no answer.
pub const NOTHING: &str = "nothing";

/// Appends what the call of a name answers about a text, on the volume of an image or on the tree of the lines that the text
/// tells, `nothing` where it answers nothing: `Unread` if no call has the name, or it takes another text.
pub fn push_answer(
    alloc: Global,
    call: &str,
    about: &str,
    image: &[u8],
    text: &mut String,
) -> Result<(), RowError> {
    match call {
        "need" => push_need(alloc, about, text),
        "unlaid" => push_fault(alloc, about, text),
        _ => push_volume_answer(alloc, call, about, image, text),
    }
}

// Appends what the call of a name answers on the volume of an image.
fn push_volume_answer(
    alloc: Global,
    call: &str,
    about: &str,
    image: &[u8],
    text: &mut String,
) -> Result<(), RowError> {
    if !CALLS.contains(&call) {
        return Err(RowError::Unread);
    }
    let Ok(volume) = check(alloc, image) else {
        return Err(RowError::Refused);
    };
    match (call, block(about)) {
        ("find", _) => push_node(alloc, &volume, about, text),
        ("entry", Some(number)) => push_name(alloc, &volume, Node(number as usize), text),
        ("owner", Some(number)) => Ok(push_owner(&volume, number, text)?),
        ("pieces", Some(number)) => push_pieces(alloc, &volume, Node(number as usize), text),
        (_, Some(number)) => push_count(alloc, &volume, Node(number as usize), text),
        (_, None) => Err(RowError::Unread),
    }
}

// Appends the node that a path leads to.
fn push_node(
    alloc: Global,
    volume: &Checked<'_>,
    path: &str,
    text: &mut String,
) -> Result<(), RowError> {
    let Ok(names) = read_path(alloc, path.as_bytes()) else {
        return Err(RowError::Unread);
    };
    Ok(match volume.find(&names) {
        Some(Node(n)) => write!(text, "{n}"),
        None => text.push_str(NOTHING),
    }?)
}

// Appends the name of a node.
fn push_name(
    alloc: Global,
    volume: &Checked<'_>,
    n: Node,
    text: &mut String,
) -> Result<(), RowError> {
    let Some(row) = volume.row(n) else {
        return Ok(text.push_str(NOTHING)?);
    };
    match write_path(alloc, &[row.name]) {
        Ok(name) => Ok(text.push_str(name.as_str())?),
        Err(_) => Err(RowError::NoMemory),
    }
}

// Appends whose a block is.
fn push_owner(volume: &Checked<'_>, b: u32, text: &mut String) -> Result<(), AllocError> {
    match volume.owner(b) {
        None => text.push_str(NOTHING),
        Some(Owner::Free) => text.push_str("free"),
        Some(Owner::Boot) => text.push_str("boot"),
        Some(Owner::Root) => text.push_str("root"),
        Some(Owner::Page(i)) => write!(text, "page {i}"),
        Some(Owner::MapExt(i)) => write!(text, "bitmap extension {i}"),
        Some(Owner::Head(Node(n))) => write!(text, "header of {n}"),
        Some(Owner::Ext(Node(n), i)) => write!(text, "extension {i} of {n}"),
        Some(Owner::Data(Node(n), i)) => write!(text, "data {i} of {n}"),
    }
}

// Appends the lengths of the pieces of a file.
fn push_pieces(
    alloc: Global,
    volume: &Checked<'_>,
    n: Node,
    text: &mut String,
) -> Result<(), RowError> {
    let Some(pieces) = volume.pieces(n) else {
        return Ok(text.push_str(NOTHING)?);
    };
    let mut lengths = Vec::new(alloc);
    for piece in pieces {
        lengths.push(piece.len())?;
    }
    Ok(push_runs(text, &lengths)?)
}

// Appends how many bytes are read of a file.
fn push_count(
    alloc: Global,
    volume: &Checked<'_>,
    n: Node,
    text: &mut String,
) -> Result<(), RowError> {
    match volume.read(alloc, n) {
        Ok(Some(bytes)) => Ok(write!(text, "{}", bytes.len())?),
        Ok(None) => Ok(text.push_str(NOTHING)?),
        Err(_) => Err(RowError::NoMemory),
    }
}

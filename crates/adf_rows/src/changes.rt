// Changes of an image.

use crate::row_error::RowError;
use crate::texts::{block, block_range, hex, number};
use crate::words::{put_word, seal_by};
use std::alloc::Global;

/// Changes an image as a line tells: `None` if it tells no change.
pub fn change(image: &mut Vec<u8>, word: &str, rest: &str) -> Option<Result<(), RowError>> {
    Some(match word {
        "change" => put_items(image, rest),
        "seal" => seal_all(image, rest, 5),
        "sealpage" => seal_all(image, rest, 0),
        "cut" => cut(image, rest),
        "add" => add_bytes(image, rest, 0),
        _ => return None,
    })
}

// Seals a block, or a range of blocks, by a word of each.
fn seal_all(image: &mut [u8], blocks: &str, word: usize) -> Result<(), RowError> {
    let Some((first, last)) = block_range(blocks) else {
        return Err(RowError::Unread);
    };
    for block in first..=last {
        seal_by(image, block, word)?;
    }
    Ok(())
}

fn cut(image: &mut Vec<u8>, len: &str) -> Result<(), RowError> {
    let Some(len) = number(len) else {
        return Err(RowError::Unread);
    };
    image.truncate(len);
    Ok(())
}

/// Appends so many of one byte.
pub fn add_bytes(bytes: &mut Vec<u8>, count: &str, byte: u8) -> Result<(), RowError> {
    let Some(count) = number(count) else {
        return Err(RowError::Unread);
    };
    bytes.resize(bytes.len().saturating_add(count), byte)?;
    Ok(())
}

/// A copy of an image with the changes that items tell.
pub fn patched(alloc: Global, image: &[u8], items: &str) -> Result<Vec<u8>, RowError> {
    let mut image = Vec::from_slice(alloc, image)?;
    put_items(&mut image, items)?;
    Ok(image)
}

// Makes the changes that items tell, joined by spaces.
fn put_items(image: &mut [u8], items: &str) -> Result<(), RowError> {
    for item in items.split(' ') {
        put_item(image, item)?;
    }
    Ok(())
}

// Changes a word or a byte, and seals the block by its word 5. With `p` in front the block is a bitmap page, sealed by its
// word 0; with `!` behind nothing is sealed.
fn put_item(image: &mut [u8], item: &str) -> Result<(), RowError> {
    let (change, is_sealed) = match item.strip_suffix('!') {
        Some(front) => (front, false),
        None => (item, true),
    };
    let (change, sum) = match change.strip_prefix('p') {
        Some(rest) => (rest, 0),
        None => (change, 5),
    };
    let block = put_value(image, change)?;
    if is_sealed {
        return seal_by(image, block, sum);
    }
    Ok(())
}

// Changes a word, `BLOCK:WORD=HEX`, or a byte, `BLOCK@AT=HEX`, and answers the block.
fn put_value(image: &mut [u8], change: &str) -> Result<u32, RowError> {
    let (place, value) = change.split_once('=').unwrap_or((change, ""));
    let mark = if place.contains('@') { '@' } else { ':' };
    let Some(((block, at), value)) = place_of(place, mark).zip(hex(value)) else {
        return Err(RowError::Unread);
    };
    if mark == '@' {
        put_byte(image, (block as usize * 512).saturating_add(at), value)?;
    } else {
        put_word(image, block, at, value)?;
    }
    Ok(block)
}

// A block, and a place in it.
fn place_of(text: &str, mark: char) -> Option<(u32, usize)> {
    let (at_block, at) = text.split_once(mark)?;
    block(at_block).zip(number(at))
}

fn put_byte(image: &mut [u8], at: usize, value: u32) -> Result<(), RowError> {
    let (Some(byte), Ok(value)) = (image.get_mut(at), u8::try_from(value)) else {
        return Err(RowError::NoPlace);
    };
    *byte = value;
    Ok(())
}

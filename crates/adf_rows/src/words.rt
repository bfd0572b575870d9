// Words of blocks.

use crate::row_error::RowError;
use crate::texts::{block_range, first_word, hex, range};
use adf_base::{seal, set_word};
use std::alloc::Global;

/// A word of a block, with its value.
#[derive(Clone, Copy)]
pub struct Word {
    block: u32,
    index: usize,
    value: u32,
}

/// The words that a line tells: `BLOCK WORD HEX`, where a block and a word may be a range `FROM-TO`, the words also downwards.
/// With `+` behind the value each further word has one more.
pub fn read_words(alloc: Global, text: &str) -> Result<Vec<Word>, RowError> {
    let (blocks, rest) = first_word(text);
    let (indexes, value) = first_word(rest);
    let (first, step) = match value.strip_suffix('+') {
        Some(first) => (first, 1),
        None => (value, 0),
    };
    let Some(((blocks, indexes), value)) = block_range(blocks).zip(range(indexes)).zip(hex(first))
    else {
        return Err(RowError::Unread);
    };
    words_of(alloc, blocks, indexes, (value, step))
}

// The words of these blocks at these indexes, with the first value, and by how much each further one is more.
fn words_of(
    alloc: Global,
    blocks: (u32, u32),
    indexes: (usize, usize),
    values: (u32, u32),
) -> Result<Vec<Word>, RowError> {
    let (from, to) = indexes;
    let mut value = values.0;
    let mut words = Vec::new(alloc);
    for block in blocks.0..=blocks.1 {
        for i in 0..=from.abs_diff(to) {
            let index = if from <= to {
                from.saturating_add(i)
            } else {
                from.saturating_sub(i)
            };
            words.push(Word {
                block,
                index,
                value,
            })?;
            value = value.wrapping_add(values.1);
        }
    }
    Ok(words)
}

/// Writes the words that a line tells into an image.
pub fn put_words(alloc: Global, image: &mut [u8], text: &str) -> Result<(), RowError> {
    let words = read_words(alloc, text)?;
    for word in &words {
        put_word(image, word.block, word.index, word.value)?;
    }
    Ok(())
}

/// Appends a line for each word that a line tells, as `build --list` writes it.
pub fn push_words(alloc: Global, output: &mut Vec<u8>, text: &str) -> Result<(), RowError> {
    let words = read_words(alloc, text)?;
    for Word {
        block,
        index,
        value,
    } in &words {
        let line = format!(in alloc; "{block} {index} {value:08x}\n")?;
        output.extend_from_slice(line.as_bytes())?;
    }
    Ok(())
}

/// Writes a word of a block.
pub fn put_word(image: &mut [u8], block: u32, word: usize, value: u32) -> Result<(), RowError> {
    if word >= 128 || block as usize * 512 + 512 > image.len() {
        return Err(RowError::NoPlace);
    }
    set_word(image, block, word, value);
    Ok(())
}

/// Writes a word of a block so that the block's words add up to 0.
pub fn seal_by(image: &mut [u8], block: u32, word: usize) -> Result<(), RowError> {
    if word >= 128 || block as usize * 512 + 512 > image.len() {
        return Err(RowError::NoPlace);
    }
    seal(image, block, word);
    Ok(())
}

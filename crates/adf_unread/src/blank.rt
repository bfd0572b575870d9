// Blocks that a dumping program left empty, or filled with a pattern.

ghost use Rattle.std.specs.Prelude.{◌≡◌, ◌<◌, IfOk};
ghost use Rattle.adf_base.specs.Words.{block};
ghost use Rattle.adf_blocks.specs.Sizes.{blocks};
ghost use Rattle.adf_unread.specs.Blank.{blank_marks, is_blank_block, is_filling};

use crate::image::most_count;
use adf_base::{BLOCK_LEN, Block};
use std::alloc::{AllocError, Global};

// The bytes of a pattern.
const PATTERN_LEN: usize = 16;

// Whether 16 bytes are those of a pattern that dumping programs write for a sector that they could not read.
fn is_filling(bytes: &[u8]) -> bool
    ensures { result ≡ is_filling bytes.now }
{
    bytes == [0u8; 16].as_slice()
        || bytes == [0xF6u8; 16].as_slice()
        || bytes == b"\xDE\xAD\xBE\xEF\xDE\xAD\xBE\xEF\xDE\xAD\xBE\xEF\xDE\xAD\xBE\xEF".as_slice()
        || bytes == b"-=[BAD SECTOR]=-".as_slice()
}

/// Whether a block is such a pattern over and over: zeros, bytes 0xF6, words 0xDEADBEEF, or the text `-=[BAD SECTOR]=-`.
pub fn is_blank_block(v: &Block<'_>) -> bool
    ensures { result ≡ is_blank_block v.now }
{
    v.bytes(PATTERN_LEN, BLOCK_LEN - PATTERN_LEN) == v.bytes(0, BLOCK_LEN - PATTERN_LEN)
        && is_filling(v.bytes(0, PATTERN_LEN))
}

// Whether block `b` of an image is.
fn is_blank_at(image: &[u8], b: u32) -> bool
    requires { b < blocks image.now }
    ensures { result ≡ is_blank_block (block image.now b) }
{
    match Block::at(image, b) {
        Some(v) => is_blank_block(&v),
        None => false,
    }
}

/// The marks of the blank blocks of an image, as far as the largest volume reaches.
#[tactic(auto, using(crate::proofs::DroppedImages::marks_steps))]
pub fn blank_marks(alloc: Global, image: &[u8]) -> Result<Vec<bool>, AllocError>
    ensures { IfOk result (λ marks. marks.items ≡ blank_marks image.now) }
{
    let mut marks = Vec::new(alloc);
    for b in 0..most_count(image) {
        marks.push(is_blank_at(image, b))?;
    }
    Ok(marks)
}

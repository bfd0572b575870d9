// The blocks of an image.

ghost use Rattle.std.specs.Prelude.{◌≡◌, ◌<◌, ◌≤◌, length, min};
ghost use Rattle.adf_base.specs.Words.{block, word};
ghost use Rattle.adf_blocks.specs.{Sizes.blocks, declared.layout.TheConstants.MOST_BLOCKS};
ghost use Rattle.adf_unread.specs.Dropped.{unread_at};

use adf_base::{BLOCK_LEN, Block};
use adf_blocks::MOST_BLOCKS;

/// The number of blocks of an image that may be those of a volume.
pub fn most_count(image: &[u8]) -> u32
    ensures exact { result ≡ min MOST_BLOCKS (blocks image.now) }
    ensures within { result ≤ blocks image.now }
{
    (image.len() / BLOCK_LEN).min(MOST_BLOCKS as usize) as u32
}

/// Word `i` of block `b`; 0 where the image does not have the block.
pub fn word_or_zero(image: &[u8], b: u32, i: usize) -> u32
    requires { i < 128 }
    ensures { b < blocks image.now → result ≡ word (block image.now b) i }
{
    match Block::at(image, b) {
        Some(v) => v.word(i),
        None => 0,
    }
}

/// Whether a block has a mark.
pub fn unread_at(marks: &[bool], b: u32) -> bool
    ensures { result ≡ unread_at marks.now b }
{
    marks.get(b as usize).copied().unwrap_or(false)
}

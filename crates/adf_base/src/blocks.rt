// A block of an image: reading.

ghost use Rattle.std.specs.Prelude.{◌≡◌, ◌+◌, ◌*◌, ◌<◌, ◌≤◌, ◌↔◌, length, IsSome, IfSome, slice_index, slice_range};
ghost use Rattle.adf_base.specs.Words.{word, long_sum, block};

use byteorder::{BigEndian, ByteOrder};
use std::marker::Model;

/// The bytes in a block.
pub const BLOCK_LEN: usize = 512;

/// The words in a block.
pub const BLOCK_WORDS: usize = 128;

/// A block of an image.
#[derive(Drop)]
pub struct Block<'a> {
    bytes: &'a [u8],
}

impl<'a> Model for Block<'a> {
    ghost use Rattle.std.specs.Prelude.{List, ℕ, length, ◌≡◌};

    ghost Value = { List ℕ };

    ghost view = { λ b. b.bytes.now };

    ghost invariant = { λ b. length b.bytes.now ≡ 512 };
}

impl<'a> Block<'a> {
    /// Block `b` of an image; `None` if it is not wholly inside the image.
    #[tactic(auto, unfolding(crate::specs::Words::block))]
    pub fn at(image: &'a [u8], b: u32) -> Option<Block<'a>>
        ensures whole { IsSome result ↔ (b * 512 + 512 ≤ length image.now) }
        ensures bytes { IfSome result (λ x. x ≡ block image.now b) }
    {
        let start = b as usize * BLOCK_LEN;
        if start + BLOCK_LEN <= image.len() {
            Some(Block {
                bytes: &image[start..start + BLOCK_LEN],
            })
        } else {
            None
        }
    }

    // The block with these bytes.
    pub(crate) fn over(bytes: &'a [u8]) -> Block<'a>
        requires { length bytes.now ≡ 512 }
        ensures { result ≡ bytes.now }
    {
        Block { bytes }
    }

    /// Word `i`, big-endian.
    #[tactic(auto, unfolding(crate::specs::Words::word))]
    pub fn word(&self, i: usize) -> u32
        requires { i < 128 }
        ensures { result ≡ word self.now i }
    {
        BigEndian::read_u32(&self.bytes[4 * i..4 * i + 4])
    }

    /// Byte `i`.
    pub fn byte(&self, i: usize) -> u8
        requires { i < 512 }
        ensures { result ≡ slice_index self.now i }
    {
        self.bytes[i]
    }

    /// The `len` bytes from `from` on.
    pub fn bytes(&self, from: usize, len: usize) -> &'a [u8]
        requires { from + len ≤ 512 }
        ensures { result.now ≡ slice_range self.now from (from + len) }
    {
        &self.bytes[from..from + len]
    }

    /// The sum of the words, modulo 2 ^ 32.
    #[tactic(auto, using(crate::proofs::WordLaws::sum_words_more, crate::proofs::WordLaws::no_words))]
    pub fn long_sum(&self) -> u32
        ensures { result ≡ long_sum self.now }
    {
        let mut sum = 0u32;
        for i in 0..BLOCK_WORDS {
            sum = sum.wrapping_add(self.word(i));
        }
        sum
    }
}

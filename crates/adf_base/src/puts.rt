// Fields in the bytes of a block: writing.

ghost use Rattle.std.specs.Prelude.{◌≡◌, ◌+◌, ◌-◌, ◌*◌, ◌<◌, ◌≤◌, length, reverse};
ghost use Rattle.std.specs.List.{flat_map};
ghost use Rattle.byteorder.specs.Endian.{big_bytes};
ghost use Rattle.adf_base.specs.Words.{with_bytes, with_word, sealed};

use crate::blocks::Block;
use byteorder::{BigEndian, ByteOrder};

/// Writes bytes into a block, from byte `from` on.
#[tactic(auto, using(crate::proofs::WordLaws::put_mid_is))]
pub fn put_bytes(block: &mut [u8], from: usize, bytes: &[u8])
    requires { from + length bytes.now ≤ length block.old }
    ensures { block.new ≡ with_bytes block.old from bytes.now }
{
    block[from..from + bytes.len()].copy_from_slice(bytes);
}

/// Writes word `i` of a block, big-endian.
#[tactic(auto, using(crate::proofs::WordLaws::put_mid_is))]
pub fn put_word(block: &mut [u8], i: usize, v: u32)
    requires { 4 * i + 4 ≤ length block.old }
    ensures { block.new ≡ with_word block.old i v }
{
    BigEndian::write_u32(&mut block[4 * i..4 * i + 4], v);
}

/// Writes words into a block, from word `i` upwards.
#[tactic(auto, using(crate::proofs::WordLaws::words_put, crate::proofs::WordLaws::no_bytes_put))]
pub fn put_words(block: &mut [u8], i: usize, words: &[u32])
    requires { 4 * (i + length words.now) ≤ length block.old }
    ensures { block.new ≡ with_bytes block.old (4 * i) (flat_map (big_bytes 4) words.now) }
{
    for (k, word) in words.iter().enumerate() {
        put_word(block, i + k, *word);
    }
}

/// Writes words into a block, from word `i` downwards.
#[tactic(auto, using(crate::proofs::WordLaws::words_put_down, crate::proofs::WordLaws::no_bytes_put))]
pub fn put_words_down(block: &mut [u8], i: usize, words: &[u32])
    requires room { 4 * i + 4 ≤ length block.old }
    requires short { length words.now ≤ i + 1 }
    ensures { block.new
        ≡ with_bytes block.old (4 * (i + 1 - length words.now))
        (flat_map (big_bytes 4) (reverse words.now)) }
{
    for (k, word) in words.iter().enumerate() {
        put_word(block, i - k, *word);
    }
}

/// Sets word `i` of a block so that the sum of the block's words is 0 modulo 2^32.
#[tactic(auto, using(crate::proofs::WordLaws::seal_is))]
pub fn seal_block(block: &mut [u8], i: usize)
    requires whole { length block.old ≡ 512 }
    requires word { i < 128 }
    ensures { block.new ≡ sealed i block.old }
{
    put_word(block, i, 0);
    let sum = Block::over(block).long_sum();
    put_word(block, i, sum.wrapping_neg());
}

// Blocks of an image: writing.

ghost use Rattle.std.specs.Prelude.{◌≡◌, ◌+◌, ◌*◌, ◌<◌, ◌≤◌, length};
ghost use Rattle.adf_base.specs.Words.{block, long_sum, sealed, with_block, with_bytes, with_word};

use crate::blocks::BLOCK_LEN;
use crate::puts::{put_bytes, put_word, seal_block};

/// Writes word `i` of block `b` of an image.
#[tactic(auto, using(crate::proofs::WordLaws::put_mid_is), unfolding(crate::specs::Words::block))]
pub fn set_word(image: &mut [u8], b: u32, i: usize, v: u32)
    requires whole { b * 512 + 512 ≤ length image.old }
    requires word { i < 128 }
    ensures { image.new ≡ with_block image.old b (with_word (block image.old b) i v) }
{
    let start = b as usize * BLOCK_LEN;
    put_word(&mut image[start..start + BLOCK_LEN], i, v);
}

/// Writes bytes into block `b` of an image, from byte `from` on.
#[tactic(auto, using(crate::proofs::WordLaws::put_mid_is), unfolding(crate::specs::Words::block))]
pub fn set_bytes(image: &mut [u8], b: u32, from: usize, bytes: &[u8])
    requires whole { b * 512 + 512 ≤ length image.old }
    requires room { from + length bytes.now ≤ 512 }
    ensures { image.new ≡ with_block image.old b (with_bytes (block image.old b) from bytes.now) }
{
    let start = b as usize * BLOCK_LEN;
    put_bytes(&mut image[start..start + BLOCK_LEN], from, bytes);
}

/// Sets word `i` of block `b` of an image so that the sum of the block's words is 0 modulo 2^32.
#[tactic(auto, using(crate::proofs::WordLaws::put_mid_is, crate::proofs::WordLaws::sealed_block), unfolding(crate::specs::Words::block))]
pub fn seal(image: &mut [u8], b: u32, i: usize)
    requires whole { b * 512 + 512 ≤ length image.old }
    requires word { i < 128 }
    ensures exact { image.new ≡ with_block image.old b (sealed i (block image.old b)) }
    ensures sum { long_sum (block image.new b) ≡ 0 }
{
    let start = b as usize * BLOCK_LEN;
    seal_block(&mut image[start..start + BLOCK_LEN], i);
}

/// Writes a whole block of an image.
#[tactic(auto, using(crate::proofs::WordLaws::put_mid_is))]
pub fn put_block(image: &mut [u8], b: u32, bytes: &[u8; 512])
    requires { b * 512 + 512 ≤ length image.old }
    ensures { image.new ≡ with_block image.old b bytes.now }
{
    let start = b as usize * BLOCK_LEN;
    image[start..start + BLOCK_LEN].copy_from_slice(bytes);
}

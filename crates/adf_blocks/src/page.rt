// Pages of the bitmap: reader and writer.

ghost use Rattle.std.specs.Prelude.{◌≡◌, ◌≤◌, ◌<◌, ◌+◌, ◌*◌, ◌-◌, ◌/◌, ◌%◌, ◌^◌, ◌↔◌, ℕ, List, length, slice_index, IsBitSet};
ghost use Rattle.std.specs.Prelude.{IsTrue, None};
ghost use Rattle.adf_base.specs.Words.{block, with_block, word};
ghost use Rattle.adf_blocks.specs.Forms.{ReadsForm, first_cause};
ghost use Rattle.adf_blocks.specs.PageBlock.{IsFreeBit, page_block, page_form};

use crate::cause::Cause;
use crate::layout::{PAGE_BITS, PAGE_CHECKSUM, PAGE_FIRST, PAGE_WORDS};
use adf_base::{Block, put_block, put_words, seal_block};
use std::marker::Model;

/// A page of the bitmap.
#[derive(Drop)]
pub struct Page<'a> {
    block: Block<'a>,
}

impl<'a> Model for Page<'a> {
    ghost use Rattle.std.specs.Prelude.{List, ℕ};

    ghost Value = { List ℕ };

    ghost view = { λ p. p.block };
}

/// Reads a block as a bitmap page; `BadSum` if its 128 words do not sum to 0.
pub fn read_page<'a>(b: Block<'a>) -> Result<Page<'a>, Cause>
    ensures { ReadsForm (page_form b.entry) (λ p. p ≡ b.entry) result }
{
    if b.long_sum() != 0 {
        return Err(Cause::BadSum);
    }
    Ok(Page { block: b })
}

/// Whether a bit of a word is set, counted from the lowest.
pub fn is_set(word: u32, bit: u32) -> bool
    requires { bit < 32 }
    ensures { IsTrue result ↔ IsBitSet word bit }
{
    word & (1 << bit) != 0
}

impl<'a> Page<'a> {
    /// The page in a block of known form.
    pub fn over(block: Block<'a>) -> Page<'a>
        ensures { result ≡ block.entry }
    {
        Page { block }
    }

    /// The bits of 32 blocks, the first block's in the lowest bit: word `1 + i`, with `i` from 0 to 126.
    pub fn word(&self, i: usize) -> u32
        requires { i < PAGE_WORDS }
        ensures { result ≡ word self.now (PAGE_FIRST + i) }
    {
        self.block.word(PAGE_FIRST + i)
    }

    /// Whether the block with this bit is free: bit `bit % 32`, counted from the lowest, of word `1 + bit / 32`.
    pub fn is_free(&self, bit: u32) -> bool
        requires { bit < PAGE_BITS }
        ensures { IsTrue result ↔ IsFreeBit self.now bit }
    {
        is_set(self.block.word(PAGE_FIRST + bit as usize / 32), bit % 32)
    }
}

/// The page of a block and its bit in the page, both counted from 0.
pub fn place_of(b: u32) -> (u32, u32)
    requires { 2 ≤ b }
    ensures page { result.0 ≡ (b - 2) / PAGE_BITS }
    ensures bit { result.1 ≡ (b - 2) % PAGE_BITS }
{
    ((b - 2) / PAGE_BITS, (b - 2) % PAGE_BITS)
}

// The 512 bytes of a page.
#[tactic(auto, unfolding(crate::specs::PageBlock::page_block))]
fn page_bytes(bits: &[u32; PAGE_WORDS]) -> [u8; 512]
    ensures { result ≡ page_block bits.now }
{
    let mut block = [0u8; 512];
    put_words(&mut block, PAGE_FIRST, bits);
    seal_block(&mut block, PAGE_CHECKSUM);
    block
}

/// Writes a bitmap page with these words of bits over block `b` of an image.
#[tactic(auto, using(crate::proofs::PageLaws::written_page_form))]
pub fn write_page(image: &mut [u8], b: u32, bits: &[u32; PAGE_WORDS])
    requires { b * 512 + 512 ≤ length image.old }
    ensures exact { image.new ≡ with_block image.old b (page_block bits.now) }
    ensures form { first_cause (page_form (block image.new b)) ≡ None }
{
    put_block(image, b, &page_bytes(bits));
}

/// Reading a written page gives back its bits.
pub fn written_pages_are_read()
    ensures whole { (bits : List ℕ) → length bits ≡ PAGE_WORDS → length (page_block bits) ≡ 512 }
    ensures form { (bits : List ℕ) → length bits ≡ PAGE_WORDS
        → first_cause (page_form (page_block bits)) ≡ None }
    ensures bits { (bits : List ℕ) (bit : ℕ) → length bits ≡ PAGE_WORDS → bit < PAGE_BITS
        → slice_index bits (bit / 32) < 2 ^ 32
        → IsFreeBit (page_block bits) bit ↔ IsBitSet (slice_index bits (bit / 32)) (bit % 32) }
{}

// The bitmap pages of a volume.

ghost use Rattle.std.specs.Prelude.{◌≡◌, ◌<◌, ◌*◌, ◌^◌, length, IfSome};
ghost use Rattle.adf_build.specs.Bits.{bits_from, is_free_bit, is_used, page_words};
ghost use Rattle.adf_build.specs.{Laid.page_writes, Writes.with_blocks};

use crate::plan::Plan;
use adf_blocks::{PAGE_BITS, PAGE_WORDS, write_page};

// Whether block `b` is the root, a reserved block after it or one of the first `total` free blocks.
#[tactic(auto, using(crate::proofs::FreeBlocks::used_low, crate::proofs::FreeBlocks::used_high))]
fn is_used_block(plan: Plan, total: u32, b: u32) -> bool
    ensures { result ≡ is_used plan.blocks total b }
{
    if b < plan.root() {
        return b.saturating_sub(2) < total;
    }
    let reserved = plan.reserved();
    b <= plan.root() + reserved || b.saturating_sub(3 + reserved) < total
}

// The bits of the 32 blocks from `2 + q` on, if all are in use or all are free: on each side of the root the blocks in
// use come first.
fn whole_word(plan: Plan, total: u32, q: u32) -> Option<u32>
    requires { q < 2 ^ 30 }
    ensures { IfSome result (λ w. w ≡ bits_from (is_free_bit plan.blocks total) q 32) }
{
    let first = 2 + q;
    let last = first + 31;
    if plan.blocks <= first {
        return Some(0);
    }
    if first < plan.root() && plan.root() <= last {
        return None;
    }
    if is_used_block(plan, total, last) {
        return Some(0);
    }
    if last < plan.blocks && !is_used_block(plan, total, first) {
        return Some(u32::MAX);
    }
    None
}

// The bits of the 32 blocks from `2 + q` on, one by one.
#[tactic(auto, using(crate::proofs::Bits::bits_step, crate::proofs::Bits::bits_fit, crate::proofs::Bits::bits_start))]
fn mixed_word(plan: Plan, total: u32, q: u32) -> u32
    requires { q < 2 ^ 30 }
    ensures { result ≡ bits_from (is_free_bit plan.blocks total) q 32 }
{
    let mut word = 0u32;
    let mut i = 32;
    while i > 0 {
        i -= 1;
        let b = 2 + q + i;
        let is_free = b < plan.blocks && !is_used_block(plan, total, b);
        word = 2 * word + u32::from(is_free);
    }
    word
}

// The bits of the 32 blocks from `2 + q` on.
fn page_word(plan: Plan, total: u32, q: u32) -> u32
    requires { q < 2 ^ 30 }
    ensures { result ≡ bits_from (is_free_bit plan.blocks total) q 32 }
{
    match whole_word(plan, total, q) {
        Some(word) => word,
        None => mixed_word(plan, total, q),
    }
}

// Words 1 to 127 of page `j`.
#[tactic(auto, using(crate::proofs::Bits::words_step))]
fn words_of_page(plan: Plan, total: u32, j: u32) -> [u32; PAGE_WORDS]
    requires { j < 2 ^ 16 }
    ensures { result ≡ page_words plan.blocks total j }
{
    let mut words = [0u32; PAGE_WORDS];
    for w in 0..127usize {
        words[w] = page_word(plan, total, PAGE_BITS * j + 32 * w as u32);
    }
    words
}

/// Writes the bitmap pages of a volume whose entries use the first `total` free blocks.
pub fn write_pages(image: &mut [u8], plan: Plan, total: u32)
    requires { length image.old ≡ plan.blocks * 512 }
    ensures { image.new ≡ with_blocks image.old (page_writes plan.blocks total) }
{
    for j in 0..plan.pages() {
        write_page(image, plan.page(j), &words_of_page(plan, total, j));
    }
}

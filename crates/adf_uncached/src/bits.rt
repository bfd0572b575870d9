// The bits of blocks in the bitmap of an image.

ghost use Rattle.std.specs.Prelude.{◌≡◌, ◌==◌, ◌+◌, ◌*◌, ◌≤◌, ◌<◌, length};
ghost use Rattle.std.specs.Int.{bit_at};
ghost use Rattle.adf_findings.specs.Survey.{OnSurvey};
ghost use Rattle.adf_uncached.specs.Bits.{bit_of, is_free, is_free_on, page_of, with_bit, with_free, with_free_on};
ghost use Rattle.adf_uncached.specs.Bits.{word_at, word_of};

use adf_base::{BLOCK_LEN, Block, set_word};
use adf_blocks::{PAGE_BITS, PAGE_FIRST};
use adf_findings::Survey;

// The word of a bitmap page that makes the sum of its words 0.
const PAGE_SUM: usize = 0;

// Word `i` of a block; 0 if the image has no such block.
fn word_at(image: &[u8], b: u32, i: usize) -> u32
    requires { i < 128 }
    ensures { result ≡ word_at image.now b i }
{
    match Block::at(image, b) {
        Some(block) => block.word(i),
        None => 0,
    }
}

// The page with the bit of a block, if the survey found it.
fn page_of(survey: &Survey<'_>, b: u32) -> Option<u32>
    ensures { OnSurvey survey.now.image (λ w _. result ≡ page_of w b) }
{
    survey.page_of(b.max(2))
}

// The word with the bit of a block.
fn word_of(b: u32) -> usize
    ensures is { result ≡ word_of b }
    ensures inside { result < 128 }
{
    PAGE_FIRST + (b.saturating_sub(2) % PAGE_BITS / 32) as usize
}

// The bit of a block in its word.
fn bit_of(b: u32) -> u32
    ensures is { result ≡ bit_of b }
    ensures inside { result < 32 }
{
    b.saturating_sub(2) % PAGE_BITS % 32
}

// Whether a bit of a word is set.
#[tactic(auto, using(std::proofs::lemmas::Nat::Bits::shr_and_one))]
fn is_set(word: u32, bit: u32) -> bool
    requires { bit < 32 }
    ensures { result ≡ (bit_at word bit == 1) }
{
    (word >> bit) & 1 == 1
}

// Whether the bit of a block is set in a page; it is not where there is none.
fn is_free_on(image: &[u8], page: Option<u32>, b: u32) -> bool
    ensures { result ≡ is_free_on image.now page b }
{
    match page {
        Some(page) => is_set(word_at(image, page, word_of(b)), bit_of(b)),
        None => false,
    }
}

/// Whether a block is free in the bitmap of the image of a survey.
pub fn is_free(survey: &Survey<'_>, b: u32) -> bool
    ensures { OnSurvey survey.now.image (λ w _. result ≡ is_free survey.now.image w b) }
{
    is_free_on(survey.image(), page_of(survey, b), b)
}

// Sets a bit of word `i` of a page, and makes the checksum less by as much.
#[tactic(auto, using(crate::proofs::BitSteps::whole_again, std::proofs::lemmas::Nat::one_shl))]
fn set_bit(copy: &mut [u8], page: u32, i: usize, bit: u32)
    requires whole { page * 512 + 512 ≤ length copy.old }
    requires word { i < 128 }
    requires bit { bit < 32 }
    ensures { copy.new ≡ with_bit copy.old page i bit }
{
    let flag = 1u32 << bit;
    let word = word_at(copy, page, i) | flag;
    let sum = word_at(copy, page, PAGE_SUM).wrapping_sub(flag);
    set_word(copy, page, i, word);
    set_word(copy, page, PAGE_SUM, sum);
}

// Makes a block free in a page of a copy of an image, if there is one.
fn set_free_on(copy: &mut [u8], page: Option<u32>, b: u32)
    ensures { copy.new ≡ with_free_on copy.old page b }
{
    let Some(page) = page else { return };
    let i = word_of(b);
    let bit = bit_of(b);
    let is_inside = (page as usize) < copy.len() / BLOCK_LEN;
    if is_inside && !is_set(word_at(copy, page, i), bit) {
        set_bit(copy, page, i, bit);
    }
}

/// Makes a block free in the bitmap of a copy of the image of a survey, if the survey found its page.
pub fn set_free(survey: &Survey<'_>, copy: &mut [u8], b: u32)
    ensures { OnSurvey survey.now.image (λ w _. copy.new ≡ with_free w copy.old b) }
{
    set_free_on(copy, page_of(survey, b), b);
}

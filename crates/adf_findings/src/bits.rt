// Comparison of the bitmap with the blocks that are owned.

ghost use Rattle.std.specs.Prelude.{◌≡◌, ◌≤◌, ◌<◌, ◌+◌, ◌-◌, ◌*◌, ◌%◌, ◌||◌, ◌↔◌, ℕ, false, map, min, slice_index_or, IsBitSet};
ghost use Rattle.std.specs.{Prelude.IsTrue, Prelude.OnOk, BTreeMap.get, Ordering.nat_cmp};
ghost use Rattle.adf_blocks.specs.{declared.layout.TheConstants.PAGE_BITS, declared.layout.TheConstants.PAGE_WORDS, Sizes.blocks};
ghost use Rattle.adf_volume.specs.Image.{IsFreeAt};
ghost use Rattle.adf_findings.specs.{Parts.finding_value, Survey.IsValidated, Survey.is_cache};
ghost use Rattle.adf_findings.specs.Bits.{IsBitCompared, IsPageCompared};
ghost use Rattle.adf_findings.specs.Found.{IsBitOf, IsCompleted, IsFinished, HasReportedOn, bit_cause, is_owned};

use crate::finding::Finding;
use crate::found::Found;
use crate::image::SizedImage;
use crate::progress::note;
use adf_base::NoMemory;
use adf_blocks::{
    BITMAP_FLAG, Cause, OWN_KEY, PAGE_FIRST, PAGE_WORDS, T_DIR_CACHE, TYPE, VALID, is_set,
};
use std::collections::BTreeMap;

/// Whether the bitmap flag of the root is that of a valid bitmap.
pub fn is_validated(image: &SizedImage<'_>) -> bool
    ensures { IsTrue result ↔ IsValidated image.now }
{
    image.word(image.root(), BITMAP_FLAG) == VALID
}

// Whether a bit of the page at block `at` is set.
fn is_bit_set(image: &SizedImage<'_>, at: u32, bit: u32) -> bool
    requires { bit < PAGE_BITS }
    ensures { IsTrue result ↔ IsFreeAt image.now at bit }
{
    let word = image.word(at, PAGE_FIRST + bit as usize / 32);
    is_set(word, bit % 32)
}

/// The block that is taken as a page of the bitmap.
pub fn page_at(pages: &BTreeMap<u32, u32>, i: u32) -> Option<u32>
    ensures { result ≡ get nat_cmp pages.now i }
{
    pages.get(&i).copied()
}

/// A bit of a page; `None` if the page was not taken.
pub fn bit_of(
    image: &SizedImage<'_>,
    pages: &BTreeMap<u32, u32>,
    page: u32,
    bit: u32,
) -> Option<bool>
    requires { bit < PAGE_BITS }
    ensures { IsBitOf image.now pages.now page bit result }
{
    match pages.get(&page) {
        Some(at) => Some(is_bit_set(image, *at, bit)),
        None => None,
    }
}

// The block of the page that has word `i` of the bitmap, if its bits are compared; that of the word before, if they have
// one page.
fn page_of(image: &SizedImage<'_>, found: &Found, i: u32, before: Option<u32>) -> Option<u32>
    requires before { (i % PAGE_WORDS ≡ 0 → ⊥)
        → IsPageCompared image.now found.now.pages (2 + 32 * i) before }
    ensures { IsPageCompared image.now found.now.pages (2 + 32 * i) result }
{
    let words = PAGE_WORDS as u32;
    if i % words != 0 {
        return before;
    }
    if !is_validated(image) {
        return None;
    }
    page_at(&found.pages, i / words)
}

// Whether a block says that it is a directory cache, on a volume that has them.
fn is_cache(image: &SizedImage<'_>, b: u32) -> bool
    ensures { result ≡ is_cache image.now b }
{
    image.has_caches() && image.word(b, TYPE) == T_DIR_CACHE && image.word(b, OWN_KEY) == b
}

// Whether a block without an owner has an excuse: it was skipped, or is a directory cache.
fn is_excused(image: &SizedImage<'_>, found: &Found, b: u32) -> bool
    ensures { result ≡ (slice_index_or found.now.skipped.items b false || is_cache image.now b) }
{
    found.skipped.get(b as usize).copied().unwrap_or(false) || is_cache(image, b)
}

// The cause of the bit of block `b` if it disagrees: in use without an owner and without an excuse, or owned and free.
fn bit_cause(
    image: &SizedImage<'_>,
    found: &Found,
    b: u32,
    is_owned: bool,
    is_free: bool,
) -> Option<Cause>
    ensures { result ≡ bit_cause is_owned
        (slice_index_or found.now.skipped.items b false || is_cache image.now b) is_free }
{
    match (is_owned, is_free) {
        (false, false) if !is_excused(image, found, b) => Some(Cause::LostBlock),
        (true, true) => Some(Cause::OwnedFree),
        _ => None,
    }
}

// Whether the bits of a word are set for the blocks without an owner alone, of those from `first` up to, but not
// including, `end`. Words of zeros and of ones are not asked bit by bit.
fn agree(found: &Found, first: u32, end: u32, word: u32) -> bool
    requires word { end ≤ first + 32 }
    ensures { IsTrue result → (b : ℕ) → first ≤ b → b < end
        → IsBitSet word (b - first) ↔ (is_owned found.now b ≡ false) }
{
    if word == 0 {
        return found.owners.are_parts(first, end, true);
    }
    if word == u32::MAX {
        return found.owners.are_parts(first, end, false);
    }
    for b in first..end {
        if found.owners.is_part(b) == is_set(word, b - first) {
            return false;
        }
    }
    true
}

// Compares the bit of block `b`, and tells of it if it disagrees.
fn compare_bit(
    image: &SizedImage<'_>,
    found: &Found,
    findings: &mut Vec<Finding>,
    b: u32,
    is_free: bool,
) -> Result<(), NoMemory>
    requires low { 2 ≤ b }
    requires inside { b < blocks image.now }
    requires bit { IsBitCompared image.now found.now.pages b is_free }
    requires reported { HasReportedOn image.now found.now (map finding_value findings.old.items) b }
    ensures { OnOk result (HasReportedOn image.now found.now (map finding_value findings.new.items) (b + 1)) }
{
    match bit_cause(image, found, b, found.owners.is_part(b), is_free) {
        Some(cause) => note(
            findings,
            Finding {
                part: None,
                block: b,
                cause,
            },
        ),
        None => Ok(()),
    }
}

// Compares the bits of word `i` of the bitmap, whose page is at a block, with the owners of its blocks.
fn compare_word(
    image: &SizedImage<'_>,
    found: &Found,
    findings: &mut Vec<Finding>,
    page: Option<u32>,
    i: u32,
) -> Result<(), NoMemory>
    requires inside { 2 + 32 * i < blocks image.now }
    requires page { IsPageCompared image.now found.now.pages (2 + 32 * i) page }
    requires reported { HasReportedOn image.now found.now (map finding_value findings.old.items) (2 + 32 * i) }
    ensures { OnOk result (HasReportedOn image.now found.now (map finding_value findings.new.items)
        (min (2 + 32 * (i + 1)) (blocks image.now))) }
{
    let Some(at) = page else {
        return Ok(());
    };
    let blocks = image.blocks();
    let first = 2 + 32 * i;
    let end = (first + 32).min(blocks);
    let word = image.word(at, PAGE_FIRST + i as usize % PAGE_WORDS);
    if agree(found, first, end, word) {
        return Ok(());
    }
    for b in first..end {
        compare_bit(image, found, findings, b, is_set(word, b - first))?;
    }
    Ok(())
}

/// If the bitmap is valid, compares the bit of each block with its owner. Skips a block if its page was not taken, or
/// if it has no owner and was skipped or is a directory cache.
pub fn compare(
    image: &SizedImage<'_>,
    found: &Found,
    findings: &mut Vec<Finding>,
) -> Result<(), NoMemory>
    requires { IsFinished image.now found.now (map finding_value findings.old.items) }
    ensures { OnOk result (IsCompleted image.now found.now (map finding_value findings.new.items)) }
{
    let mut page = None;
    for i in 0..(image.blocks() - 2).div_ceil(32) {
        page = page_of(image, found, i, page);
        compare_word(image, found, findings, page, i)?;
    }
    Ok(())
}

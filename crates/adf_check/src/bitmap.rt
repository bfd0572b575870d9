// Comparison of the bitmap with the owners.

ghost use Rattle.adf_check.specs.{Own.IsOwnFault, Store.store_value, Pages.AreListed, Pages.IsBitFault};
ghost use Rattle.std.specs.Prelude.{◌≡◌, ◌<◌, ◌≤◌, ◌+◌, ◌-◌, ◌*◌, ◌↔◌, ℕ, IsBitSet, IsTrue, length, min, OnOk, IfErr};
ghost use Rattle.adf_blocks.specs.Sizes.{blocks, pages_needed};
ghost use Rattle.adf_check.specs.Reading.{IsMapped, IsRead, StoreFits};
ghost use Rattle.adf_volume.specs.KeptOwner.{kept_at, no_owner};

use crate::store::Store;
use adf_blocks::{Cause, PAGE_WORDS, Page, is_set};
use adf_volume::{Fault, Image, OwnerTable, fault_at};

// Compares the bit of block `b` with its owner.
fn check_block(owners: &OwnerTable, b: u32, is_free: bool) -> Result<(), Fault>
    requires { b < length owners.now }
    ensures ok { OnOk result (IsTrue is_free ↔ (kept_at owners.now b ≡ no_owner)) }
    ensures fault { IfErr result (λ f. IsBitFault owners.now b is_free f) }
{
    if owners.is_free(b) {
        if is_free {
            Ok(())
        } else {
            Err(fault_at(b, Cause::LostBlock))
        }
    } else if is_free {
        Err(fault_at(b, Cause::OwnedFree))
    } else {
        Ok(())
    }
}

// Whether a word is all zeros or all ones, and its bits are set for the blocks without an owner alone, of those from
// `first` up to, but not including, `end`.
fn agree(owners: &OwnerTable, first: u32, end: u32, word: u32) -> bool
    requires inside { end ≤ length owners.now }
    requires word { end ≤ first + 32 }
    ensures { IsTrue result → (b : ℕ) → first ≤ b → b < end
        → IsBitSet word (b - first) ↔ (kept_at owners.now b ≡ no_owner) }
{
    if word == 0 {
        owners.are_all(first, end, false)
    } else if word == u32::MAX {
        owners.are_all(first, end, true)
    } else {
        false
    }
}

// Compares word `i` of the bitmap with the owners of its blocks.
fn check_word(image: &Image<'_>, store: &Store, pages: &[u32], i: u32) -> Result<(), Fault>
    requires inside { 2 + 32 * i < blocks image.now }
    requires pages { AreListed image.now pages.now (pages_needed (blocks image.now)) }
    requires state { IsMapped image.now (store_value store.now) (2 + 32 * i) }
    ensures state { OnOk result
        (IsMapped image.now (store_value store.now) (min (2 + 32 * (i + 1)) (blocks image.now))) }
    ensures fault { IfErr result (IsOwnFault image.now) }
{
    let blocks = image.blocks();
    let page = Page::over(image.block(pages[i as usize / PAGE_WORDS]));
    let word = page.word(i as usize % PAGE_WORDS);
    let first = 2 + 32 * i;
    let end = (first + 32).min(blocks);
    if agree(&store.owners, first, end, word) {
        return Ok(());
    }
    for b in first..end {
        check_block(&store.owners, b, is_set(word, b - first))?;
    }
    Ok(())
}

/// Compares the bitmap with the owners, in ascending order of blocks.
pub fn check_bitmap(image: &Image<'_>, store: &Store, pages: &[u32]) -> Result<(), Fault>
    requires pages { AreListed image.now pages.now (pages_needed (blocks image.now)) }
    requires state { IsRead image.now (store_value store.now) }
    ensures fits { OnOk result (StoreFits image.now (store_value store.now)) }
    ensures fault { IfErr result (IsOwnFault image.now) }
{
    let words = (image.blocks() - 2).div_ceil(32);
    for i in 0..words {
        check_word(image, store, pages, i)?;
    }
    Ok(())
}

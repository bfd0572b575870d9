// The bitmap pages: those of the root, then each bitmap extension block with its pages.

ghost use Rattle.adf_check.specs.{Own.IsOwnFault, Store.store_value, Pages.AreListed};
ghost use Rattle.std.specs.Prelude.{◌≡◌, ◌≤◌, ◌<◌, ◌+◌, ◌-◌, ◌%◌, ◌↔◌, IsTrue, OnOk, IfOk, IfErr};
ghost use Rattle.adf_base.specs.Words.{block};
ghost use Rattle.adf_blocks.specs.declared.layout.TheConstants.{MAP_EXT_PAGES, ROOT_PAGES};
ghost use Rattle.adf_blocks.specs.Sizes.{blocks, pages_needed};
ghost use Rattle.adf_volume.specs.{Image.root_of, Image.word_in, Positions.word_of_map_ext, Positions.word_of_page};
ghost use Rattle.adf_check.specs.Reading.{IsAtNode, IsAtPage, IsBeforePage, block_of_page};

use crate::claims::claim_named;
use crate::store::Store;
use adf_blocks::{MAP_EXT_PAGES, ROOT_PAGES, Root, page_count, read_map_ext, read_page};
use adf_volume::{Fault, Image, KeptOwner, OwnerClass, fault_at};
use std::alloc::Global;

// Whether page `i` is the first one of a bitmap extension block.
fn is_first_of_map_ext(i: u32) -> bool
    ensures { IsTrue result ↔ ((ROOT_PAGES ≤ i) × ((i - ROOT_PAGES) % MAP_EXT_PAGES ≡ 0)) }
{
    let i = i as usize;
    i >= ROOT_PAGES && (i - ROOT_PAGES) % MAP_EXT_PAGES == 0
}

// The bitmap extension block that `holder` points to, whose first page is page `i`.
fn map_ext_named(image: &Image<'_>, root: &Root<'_>, holder: u32, i: u32) -> u32
    requires root { root.now ≡ block image.now (root_of image.now) }
    requires inside { holder < blocks image.now }
    requires at_root { i ≡ ROOT_PAGES → holder ≡ root_of image.now }
    ensures exact { result ≡ word_in image.now holder (word_of_map_ext i) }
{
    if i as usize == ROOT_PAGES {
        root.map_ext()
    } else {
        read_map_ext(image.block(holder)).next()
    }
}

// The pointer to page `i` in `holder`.
fn page_named(image: &Image<'_>, root: &Root<'_>, holder: u32, i: u32) -> u32
    requires root { root.now ≡ block image.now (root_of image.now) }
    requires inside { holder < blocks image.now }
    requires at_root { i < ROOT_PAGES → holder ≡ root_of image.now }
    ensures exact { result ≡ word_in image.now holder (word_of_page i) }
{
    let i = i as usize;
    if i < ROOT_PAGES {
        root.page(i)
    } else {
        read_map_ext(image.block(holder)).page((i - ROOT_PAGES) % MAP_EXT_PAGES)
    }
}

// Claims the bitmap extension block that `holder` points to, whose first page is page `i`.
#[tactic(auto, using(crate::proofs::NumberBounds::pages_few))]
fn claim_map_ext(
    image: &Image<'_>,
    root: &Root<'_>,
    store: &mut Store,
    holder: u32,
    i: u32,
) -> Result<u32, Fault>
    requires root { root.now ≡ block image.now (root_of image.now) }
    requires needed { i < pages_needed (blocks image.now) }
    requires past { ROOT_PAGES ≤ i }
    requires first { (i - ROOT_PAGES) % MAP_EXT_PAGES ≡ 0 }
    requires inside { holder < blocks image.now }
    requires state { IsBeforePage image.now (store_value store.old) i holder }
    ensures state { IfOk result (λ b. IsAtPage image.now (store_value store.new) i b) }
    ensures inside { IfOk result (λ b. b < blocks image.now) }
    ensures fault { IfErr result (IsOwnFault image.now) }
{
    let b = map_ext_named(image, root, holder, i);
    let j = (i - ROOT_PAGES as u32) / MAP_EXT_PAGES as u32;
    let owner = KeptOwner {
        class: OwnerClass::MapExt,
        place: j,
    };
    claim_named(&mut store.owners, holder, b, owner)?;
    Ok(b)
}

// The block that points to page `i`; `holder` points to the page before, or is the root. Claims bitmap extensions.
#[tactic(auto, using(crate::proofs::PageSteps::same_holder))]
fn holder_of_page(
    image: &Image<'_>,
    root: &Root<'_>,
    store: &mut Store,
    holder: u32,
    i: u32,
) -> Result<u32, Fault>
    requires root { root.now ≡ block image.now (root_of image.now) }
    requires needed { i < pages_needed (blocks image.now) }
    requires inside { holder < blocks image.now }
    requires state { IsBeforePage image.now (store_value store.old) i holder }
    ensures state { IfOk result (λ b. IsAtPage image.now (store_value store.new) i b) }
    ensures inside { IfOk result (λ b. b < blocks image.now) }
    ensures fault { IfErr result (IsOwnFault image.now) }
{
    if is_first_of_map_ext(i) {
        claim_map_ext(image, root, store, holder, i)
    } else {
        Ok(holder)
    }
}

// Claims and reads page `i`, which `holder` points to.
#[tactic(auto, using(crate::proofs::NumberBounds::pages_few))]
fn read_page_at(
    image: &Image<'_>,
    root: &Root<'_>,
    store: &mut Store,
    holder: u32,
    i: u32,
) -> Result<u32, Fault>
    requires root { root.now ≡ block image.now (root_of image.now) }
    requires needed { i < pages_needed (blocks image.now) }
    requires inside { holder < blocks image.now }
    requires state { IsAtPage image.now (store_value store.old) i holder }
    ensures state { OnOk result (IsBeforePage image.now (store_value store.new) (i + 1) holder) }
    ensures page { IfOk result (λ b. b ≡ block_of_page image.now i) }
    ensures within { IfOk result (λ b. b < blocks image.now) }
    ensures fault { IfErr result (IsOwnFault image.now) }
{
    let b = page_named(image, root, holder, i);
    let owner = KeptOwner {
        class: OwnerClass::Page,
        place: i,
    };
    claim_named(&mut store.owners, holder, b, owner)?;
    match read_page(image.block(b)) {
        Ok(_) => Ok(b),
        Err(cause) => Err(fault_at(b, cause)),
    }
}

/// Claims and reads the bitmap pages, each bitmap extension block before its pages; returns the blocks of the pages.
pub fn read_pages(
    alloc: Global,
    image: &Image<'_>,
    root: &Root<'_>,
    store: &mut Store,
) -> Result<Vec<u32>, Fault>
    requires root { root.now ≡ block image.now (root_of image.now) }
    requires state { IsBeforePage image.now (store_value store.old) 0 (root_of image.now) }
    ensures state { OnOk result (IsAtNode image.now (store_value store.new) 0) }
    ensures pages { IfOk result (λ p.
        AreListed image.now p.items (pages_needed (blocks image.now))) }
    ensures fault { IfErr result (IsOwnFault image.now) }
{
    let mut pages = Vec::new(alloc);
    let mut holder = image.root();
    for i in 0..page_count(image.blocks()) {
        holder = holder_of_page(image, root, store, holder, i)?;
        let page = read_page_at(image, root, store, holder, i)?;
        pages.push(page)?;
    }
    Ok(pages)
}

// What the bitmap says of the blocks.

use crate::columns::Marks;
use crate::image::Image;
use adf_base::NoMemory;
use adf_blocks::{
    BITMAP_FLAG, FIRST_MAP_EXT, FIRST_PAGE, MAP_EXT_NEXT, MAP_EXT_PAGES, PAGE_BITS, PAGE_FIRST,
    ROOT_PAGES, VALID,
};
use std::alloc::Global;

/// The bitmap: it says something only where the root does not call it invalid and the page is sound.
#[derive(Drop)]
pub struct Bitmap {
    /// The root is sound.
    pub has_root: bool,
    /// The root is sound, or two of its three words are there.
    pub is_like_root: bool,
    /// The flag can be read; else the bitmap may be of any time.
    pub is_known: bool,
    /// The flag says that the bitmap is valid, or cannot be read.
    pub is_valid: bool,
    /// The bitmap extension blocks.
    pub maps: Vec<u32>,
    /// Where each page is, or would be.
    pub places: Vec<u32>,
    /// Each page; 0 if it is not sound.
    pub pages: Vec<u32>,
}

// The number of pages of the bitmap of a volume.
fn page_count(image: &Image<'_>) -> usize {
    image.blocks().saturating_sub(2).div_ceil(PAGE_BITS) as usize
}

// Appends as many words of a block, from word `first` on, as are still wanted, at most `most`.
fn push_words(
    image: &Image<'_>,
    pages: &mut Vec<u32>,
    b: u32,
    first: usize,
    most: usize,
) -> Result<(), NoMemory> {
    let wanted = page_count(image).saturating_sub(pages.len());
    for i in 0..most.min(wanted) {
        pages.push(image.word(b, first.saturating_add(i)))?;
    }
    Ok(())
}

// Appends the pages that the chain of bitmap extension blocks names, and these blocks to `maps`.
fn push_chain(
    alloc: Global,
    image: &Image<'_>,
    pages: &mut Vec<u32>,
    maps: &mut Vec<u32>,
) -> Result<(), NoMemory> {
    let mut seen = Marks::new(alloc, image.blocks())?;
    let mut at = image.word(image.root(), FIRST_MAP_EXT);
    for _ in 0..page_count(image) {
        if pages.len() >= page_count(image) || !image.has(at) || seen.has(at) {
            break;
        }
        seen.set(at, true);
        maps.push(at)?;
        push_words(image, pages, at, 0, MAP_EXT_PAGES)?;
        at = image.word(at, MAP_EXT_NEXT);
    }
    Ok(())
}

// Each page as it is named, or else where a new volume has it.
fn places_of(alloc: Global, image: &Image<'_>, named: &[u32]) -> Result<Vec<u32>, NoMemory> {
    let mut places = Vec::new(alloc);
    let mut usual = image.root();
    for i in 0..page_count(image) {
        usual = usual.saturating_add(1);
        let page = named.get(i).copied().unwrap_or(0);
        places.push(if image.is_page(page) { page } else { usual })?;
    }
    Ok(places)
}

// The sound pages of these, 0 in place of each other one.
fn sound_pages(alloc: Global, image: &Image<'_>, places: &[u32]) -> Result<Vec<u32>, NoMemory> {
    let mut pages = Vec::new(alloc);
    for page in places {
        pages.push(if image.is_page(*page) { *page } else { 0 })?;
    }
    Ok(pages)
}

impl Bitmap {
    /// The bitmap that the root names.
    pub fn new(alloc: Global, image: &Image<'_>) -> Result<Bitmap, NoMemory> {
        let root = image.root();
        let has_root = image.is_root(root);
        let is_like_root = has_root || image.is_like_root(root);
        let mut named = Vec::new(alloc);
        let mut maps = Vec::new(alloc);
        if is_like_root {
            push_words(image, &mut named, root, FIRST_PAGE, ROOT_PAGES)?;
            push_chain(alloc, image, &mut named, &mut maps)?;
        }
        let places = places_of(alloc, image, &named)?;
        let pages = sound_pages(alloc, image, &places)?;
        Ok(Bitmap {
            has_root,
            is_like_root,
            is_known: is_like_root,
            is_valid: !is_like_root || image.word(root, BITMAP_FLAG) == VALID,
            maps,
            places,
            pages,
        })
    }

    /// Whether a block is said to be free; `None` where nothing is said.
    pub fn free(&self, image: &Image<'_>, b: u32) -> Option<bool> {
        if !self.is_valid || !image.has(b) {
            return None;
        }
        let number = b.saturating_sub(2);
        let page = self.page((number / PAGE_BITS) as usize);
        if page == 0 {
            return None;
        }
        let bit = number % PAGE_BITS;
        let word = image.word(page, PAGE_FIRST + (bit / 32) as usize);
        Some((word >> (bit % 32)) & 1 == 1)
    }

    /// Whether a block is said to be free.
    pub fn is_free(&self, image: &Image<'_>, b: u32) -> bool {
        self.free(image, b) == Some(true)
    }

    /// Whether a block is said to be allocated.
    pub fn is_used(&self, image: &Image<'_>, b: u32) -> bool {
        self.free(image, b) == Some(false)
    }

    /// Page `i` of the bitmap, from 0 on; 0 if it is not sound.
    pub fn page(&self, i: usize) -> u32 {
        self.pages.get(i).copied().unwrap_or(0)
    }

    /// The block where page `i` of the bitmap is, or would be.
    pub fn place(&self, i: usize) -> u32 {
        self.places.get(i).copied().unwrap_or(0)
    }

    /// The numbers of the pages that a valid bitmap lacks, from 0 on.
    pub fn lost_pages(&self, alloc: Global) -> Result<Vec<usize>, NoMemory> {
        let mut lost = Vec::new(alloc);
        for i in 0..self.pages.len() {
            if self.is_known && self.is_valid && self.page(i) == 0 {
                lost.push(i)?;
            }
        }
        Ok(lost)
    }
}

// The bitmap of a volume, and words of its blocks. What is laid is judged by a survey, so nothing is promised of it here.

ghost use Rattle.std.specs.Prelude.{◌≡◌, IfSome};
ghost use Rattle.adf_blocks.specs.Sizes.{blocks};

use adf_base::{BLOCK_LEN, BLOCK_WORDS, Block, NoMemory, seal, set_word};
use adf_blocks::{
    FIRST_MAP_EXT, FIRST_PAGE, MAP_EXT_NEXT, MAP_EXT_PAGES, PAGE_BITS, PAGE_FIRST, ROOT_PAGES,
    is_set, place_of,
};
use std::alloc::Global;

/// The word of the checksum, except in a bitmap page.
pub const CHECKSUM: usize = 5;

// The word of the checksum of a bitmap page.
const PAGE_SUM: usize = 0;

/// The number of blocks of an image; `None` if there are too many.
pub fn counted(image: &[u8]) -> Option<u32>
    ensures { IfSome result (λ count. count ≡ blocks image.now) }
{
    u32::try_from(image.len() / BLOCK_LEN).ok()
}

/// The number of blocks of an image; 0 if there are too many.
pub fn block_count(image: &[u8]) -> u32 {
    counted(image).unwrap_or(0)
}

// A word of a block; 0 if there is none.
fn word_at(image: &[u8], b: u32, i: usize) -> u32 {
    match Block::at(image, b) {
        Some(block) if i < BLOCK_WORDS => block.word(i),
        _ => 0,
    }
}

/// Sets a word of a block, and the word of its checksum, if there is such a block.
pub fn change(image: &mut [u8], b: u32, i: usize, v: u32, checksum: usize) {
    if Block::at(image, b).is_some() && i < BLOCK_WORDS && checksum < BLOCK_WORDS {
        set_word(image, b, i, v);
        seal(image, b, checksum);
    }
}

/// The blocks of the pages of a volume's bitmap, in their order. `NoMemory` if an allocation fails.
pub fn page_blocks(alloc: Global, image: &[u8]) -> Result<Vec<u32>, NoMemory> {
    let root = block_count(image) / 2;
    let mut holder = word_at(image, root, FIRST_MAP_EXT);
    let mut pages = Vec::new(alloc);
    for k in 0..block_count(image).div_ceil(PAGE_BITS) as usize {
        if k < ROOT_PAGES {
            pages.push(word_at(image, root, FIRST_PAGE + k))?;
            continue;
        }
        let i = (k - ROOT_PAGES) % MAP_EXT_PAGES;
        pages.push(word_at(image, holder, i))?;
        if i + 1 == MAP_EXT_PAGES {
            holder = word_at(image, holder, MAP_EXT_NEXT);
        }
    }
    Ok(pages)
}

// Whether a block is free.
fn is_free(image: &[u8], pages: &[u32], b: u32) -> bool {
    if b < 2 {
        return false;
    }
    let (page, bit) = place_of(b);
    match pages.get(page as usize) {
        Some(block) => is_set(
            word_at(image, *block, PAGE_FIRST + bit as usize / 32),
            bit % 32,
        ),
        None => false,
    }
}

/// Marks a block as used.
pub fn take_block(image: &mut [u8], pages: &[u32], b: u32) {
    if b < 2 {
        return;
    }
    let (page, bit) = place_of(b);
    if let Some(block) = pages.get(page as usize) {
        let i = PAGE_FIRST + bit as usize / 32;
        let word = word_at(image, *block, i) & !(1 << (bit % 32));
        change(image, *block, i, word, PAGE_SUM);
    }
}

/// The first free block from one on.
pub fn free_from(image: &[u8], pages: &[u32], first: u32) -> Option<u32> {
    for b in first..block_count(image) {
        if is_free(image, pages, b) {
            return Some(b);
        }
    }
    None
}

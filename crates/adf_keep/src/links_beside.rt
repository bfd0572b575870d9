// Whether an image is a volume with links, and is the same otherwise.

ghost use Rattle.std.specs.Prelude.{◌≡◌, ◌<◌, ◌≤◌, ◌+◌, ◌↔◌, ℕ, List, IsTrue, true};
ghost use Rattle.adf_base.specs.Words.{block, long_sum};
ghost use Rattle.adf_blocks.specs.{Forms.text_at, HeadBlock.meta_stated, Sizes.blocks, Sizes.is_allowed, Sizes.pages_needed};
ghost use Rattle.adf_blocks.specs.declared.layout.TheConstants.{FIRST_SLOT, NAME, SLOTS};
ghost use Rattle.adf_volume.specs.Image.{word_in};
ghost use Rattle.adf_keep.specs.Links.{AreClosed, ArePlaces, HasEntries, HasLinks, IsAtPath, IsBitBeside, IsBlockBeside, IsClosed, IsFreeBlock, IsHeaderBeside};
ghost use Rattle.adf_keep.specs.Links.{IsLinkHeader, IsWordBeside, has_slots, is_known, is_page_of, names_header};

use crate::held::Held;
use crate::links_places::{Place, place_of_header};
use crate::links_words::{
    CHECKSUM, NEXT_LINK, has_link_mark, has_slots, is_same_meta, name_bytes, root_of,
};
use adf_base::{BLOCK_LEN, BLOCK_WORDS, Block};
use adf_blocks::{
    FIRST_SLOT, NEXT_IN_CHAIN, OWN_KEY, PAGE_FIRST, SECONDARY_TYPE, SLOTS, ST_LINK_DIR,
    ST_LINK_FILE, ST_SOFT_LINK, T_SHORT, TYPE, is_allowed_size, is_set, meta_stated, page_count,
    place_of,
};

/// A volume with its root and the places of its headers, an image beside it, and the marks of the links of that.
#[derive(Clone, Copy, Drop)]
pub struct Comparison<'a> {
    pub volume: &'a Held<'a>,
    pub pages: u32,
    pub places: &'a [Place],
    pub image: &'a Held<'a>,
    pub links: &'a [bool],
}

// Whether word `i` of a header of the volume names a header.
fn names_header(x: &Comparison<'_>, b: u32, i: usize) -> bool
    ensures { result ≡ names_header x.now.volume.now b i }
{
    let is_slot = FIRST_SLOT <= i && i < FIRST_SLOT + SLOTS as usize;
    has_slots(x.volume, b) && is_slot
        || b != root_of(x.volume) && (i == NEXT_IN_CHAIN || i == NEXT_LINK)
}

// Whether word `i` of a header is that of the volume, or names a link where that names nothing, or is the checksum.
fn is_word_beside(x: &Comparison<'_>, b: u32, i: usize) -> bool
    requires { i < 128 }
    ensures { result ≡ true → IsWordBeside x.now.volume.now x.now.image.now x.now.links.now b i }
{
    let (was, is) = (x.volume.word(b, i), x.image.word(b, i));
    is == was || i == CHECKSUM || was == 0 && has_link_mark(x.links, is) && names_header(x, b, i)
}

// Whether each word of a header is so.
fn are_words_beside(x: &Comparison<'_>, b: u32) -> bool
    ensures { result ≡ true → (i : ℕ) → i < 128 → IsWordBeside x.now.volume.now x.now.image.now x.now.links.now b i }
{
    for i in 0..BLOCK_WORDS {
        if !is_word_beside(x, b, i) {
            return false;
        }
    }
    true
}

// Whether two headers have the same name.
fn has_same_name(one: &Block<'_>, other: &Block<'_>) -> bool
    ensures { result ≡ true → text_at other.now NAME ≡ text_at one.now NAME }
{
    match (name_bytes(one), name_bytes(other)) {
        (Some(a), Some(b)) => b == a,
        _ => false,
    }
}

// Whether two headers have the same sum, name and metadata.
fn says_the_same(one: &Block<'_>, other: &Block<'_>) -> bool
    ensures sum { result ≡ true → long_sum other.now ≡ long_sum one.now }
    ensures name { result ≡ true → text_at other.now NAME ≡ text_at one.now NAME }
    ensures meta { result ≡ true → meta_stated other.now ≡ meta_stated one.now }
{
    other.long_sum() == one.long_sum()
        && has_same_name(one, other)
        && is_same_meta(&meta_stated(one), &meta_stated(other))
}

// Whether block `b` of the volume is the root or has a header that the hash chains lead to.
fn is_header(x: &Comparison<'_>, b: u32) -> bool
    ensures { ArePlaces x.now.volume.now x.now.places.now → result ≡ true → (path : List (List ℕ)) × IsAtPath x.now.volume.now b path }
{
    b == root_of(x.volume) || place_of_header(x.places, b).directory != 0
}

// Whether block `b` is a header of the volume in which words that named nothing name links.
fn is_header_beside(x: &Comparison<'_>, b: u32, one: &Block<'_>, other: &Block<'_>) -> bool
    requires one { one.now ≡ block x.now.volume.now b }
    requires other { other.now ≡ block x.now.image.now b }
    ensures { ArePlaces x.now.volume.now x.now.places.now → result ≡ true → IsHeaderBeside x.now.volume.now x.now.image.now x.now.links.now b }
{
    if !is_header(x, b) {
        return false;
    }
    if !says_the_same(one, other) {
        return false;
    }
    are_words_beside(x, b)
}

// Whether block `b` of the image is the header of a link.
fn is_link_header(x: &Comparison<'_>, b: u32, head: &Block<'_>) -> bool
    requires { head.now ≡ block x.now.image.now b }
    ensures { result ≡ true → IsLinkHeader x.now.image.now x.now.links.now b }
{
    let kind = head.word(SECONDARY_TYPE);
    let next = head.word(NEXT_IN_CHAIN);
    head.long_sum() == 0
        && head.word(TYPE) == T_SHORT
        && head.word(OWN_KEY) == b
        && (kind == ST_SOFT_LINK || kind == ST_LINK_DIR || kind == ST_LINK_FILE)
        && (next == 0 || has_link_mark(x.links, next))
}

// Whether block `b` has a page of the bitmap.
fn is_page_of(x: &Comparison<'_>, b: u32) -> bool
    requires { x.now.pages ≡ pages_needed (blocks x.now.volume.now) }
    ensures { result ≡ is_page_of x.now.volume.now b }
{
    let root = root_of(x.volume);
    root < b && b - root <= x.pages
}

// Whether a block of two images has the same bytes.
#[tactic(auto, unfolding(adf_base::specs::Words::block))]
fn is_same_block(one: &Held<'_>, other: &Held<'_>, b: u32) -> bool
    requires one { b < blocks one.now }
    requires other { b < blocks other.now }
    ensures { result ≡ true → block other.now b ≡ block one.now b }
{
    let (was, is) = (one.bytes(), other.bytes());
    let start = b as usize * BLOCK_LEN;
    is[start..start + BLOCK_LEN] == was[start..start + BLOCK_LEN]
}

// Whether block `b` of the image is that of the volume, but for links.
fn is_block_beside(x: &Comparison<'_>, b: u32) -> bool
    requires { x.now.pages ≡ pages_needed (blocks x.now.volume.now) }
    ensures { ArePlaces x.now.volume.now x.now.places.now → result ≡ true → IsBlockBeside x.now.volume.now x.now.image.now x.now.links.now b }
{
    let (Some(one), Some(other)) = (x.volume.block(b), x.image.block(b)) else {
        return false;
    };
    if has_link_mark(x.links, b) {
        is_link_header(x, b, &other)
    } else if is_page_of(x, b) {
        other.long_sum() == one.long_sum()
    } else {
        is_same_block(x.volume, x.image, b) || is_header_beside(x, b, &one, &other)
    }
}

// Whether each block of the image is so.
fn are_blocks_beside(x: &Comparison<'_>) -> bool
    requires { x.now.pages ≡ pages_needed (blocks x.now.volume.now) }
    ensures { ArePlaces x.now.volume.now x.now.places.now → result ≡ true → (b : ℕ) → b < blocks x.now.volume.now → IsBlockBeside x.now.volume.now x.now.image.now x.now.links.now b }
{
    for b in 0..x.volume.blocks() {
        if !is_block_beside(x, b) {
            return false;
        }
    }
    true
}

// Whether a block is free by the bitmap.
fn is_free(image: &Held<'_>, b: u32) -> bool
    requires from { 2 ≤ b }
    requires few { is_allowed (blocks image.now) ≡ true }
    ensures { IsTrue result ↔ IsFreeBlock image.now b }
{
    let (page, bit) = place_of(b);
    let word = image.word(root_of(image) + 1 + page, PAGE_FIRST + bit as usize / 32);
    is_set(word, bit % 32)
}

// Whether the bitmap has block `b` free if the volume has it free and it is that of no link; one of a link is free there.
fn is_bit_beside(x: &Comparison<'_>, b: u32) -> bool
    requires from { 2 ≤ b }
    requires one { is_allowed (blocks x.now.volume.now) ≡ true }
    requires other { is_allowed (blocks x.now.image.now) ≡ true }
    ensures { result ≡ true → IsBitBeside x.now.volume.now x.now.image.now x.now.links.now b }
{
    let (was, is) = (is_free(x.volume, b), is_free(x.image, b));
    if has_link_mark(x.links, b) {
        was && !is
    } else {
        was == is
    }
}

// Whether it is so of each block.
fn are_bits_beside(x: &Comparison<'_>) -> bool
    requires one { is_allowed (blocks x.now.volume.now) ≡ true }
    requires other { is_allowed (blocks x.now.image.now) ≡ true }
    ensures { result ≡ true → (b : ℕ) → 2 ≤ b → b < blocks x.now.volume.now → IsBitBeside x.now.volume.now x.now.image.now x.now.links.now b }
{
    for b in 2..x.volume.blocks() {
        if !is_bit_beside(x, b) {
            return false;
        }
    }
    true
}

// Whether header `h` is that of the root, or has a place.
fn is_known(x: &Comparison<'_>, h: u32) -> bool
    ensures { result ≡ is_known x.now.volume.now x.now.places.now h }
{
    h < x.volume.blocks() && (h == root_of(x.volume) || 1 <= place_of_header(x.places, h).directory)
}

// Whether word `i` of a block names nothing or a header that is known.
fn names_known(x: &Comparison<'_>, b: u32, i: usize) -> bool
    requires { i < 128 }
    ensures { result ≡ true → 1 ≤ word_in x.now.volume.now b i
        → is_known x.now.volume.now x.now.places.now (word_in x.now.volume.now b i) ≡ true }
{
    let h = x.volume.word(b, i);
    h == 0 || is_known(x, h)
}

// Whether each slot of a block names nothing or a header that is known.
fn are_slots_known(x: &Comparison<'_>, b: u32) -> bool
    ensures { result ≡ true → (s : ℕ) → s < SLOTS → 1 ≤ word_in x.now.volume.now b (FIRST_SLOT + s)
        → is_known x.now.volume.now x.now.places.now (word_in x.now.volume.now b (FIRST_SLOT + s)) ≡ true }
{
    for s in 0..SLOTS {
        if !names_known(x, b, FIRST_SLOT + s as usize) {
            return false;
        }
    }
    true
}

// Whether the slots of a block, if it has some, are so.
fn is_directory_closed(x: &Comparison<'_>, b: u32) -> bool
    ensures { result ≡ true → has_slots x.now.volume.now b ≡ true → (s : ℕ) → s < SLOTS → 1 ≤ word_in x.now.volume.now b (FIRST_SLOT + s)
        → is_known x.now.volume.now x.now.places.now (word_in x.now.volume.now b (FIRST_SLOT + s)) ≡ true }
{
    if !has_slots(x.volume, b) {
        return true;
    }
    are_slots_known(x, b)
}

// Whether header `b` is in the block of neither a link nor a page, and what it names is known.
fn is_closed(x: &Comparison<'_>, b: u32) -> bool
    requires { x.now.pages ≡ pages_needed (blocks x.now.volume.now) }
    ensures { result ≡ true → IsClosed x.now.volume.now x.now.places.now x.now.links.now b }
{
    if has_link_mark(x.links, b) {
        return false;
    }
    if is_page_of(x, b) {
        return false;
    }
    if !names_known(x, b, NEXT_IN_CHAIN) {
        return false;
    }
    is_directory_closed(x, b)
}

// Whether block `b` is so, if it has a header that is known.
fn is_closed_if_known(x: &Comparison<'_>, b: u32) -> bool
    requires { x.now.pages ≡ pages_needed (blocks x.now.volume.now) }
    ensures { result ≡ true → is_known x.now.volume.now x.now.places.now b ≡ true → IsClosed x.now.volume.now x.now.places.now x.now.links.now b }
{
    if !is_known(x, b) {
        return true;
    }
    is_closed(x, b)
}

// Whether each header that is known is so.
fn are_closed(x: &Comparison<'_>) -> bool
    requires { x.now.pages ≡ pages_needed (blocks x.now.volume.now) }
    ensures { result ≡ true → AreClosed x.now.volume.now x.now.places.now x.now.links.now }
{
    for b in 0..x.volume.blocks() {
        if !is_closed_if_known(x, b) {
            return false;
        }
    }
    true
}

/// Whether an image is a volume, of which the places of headers are these, with links, which are marked, and is the same otherwise.
pub fn is_beside(volume: &Held<'_>, places: &[Place], image: &Held<'_>, links: &[bool]) -> bool
    ensures links { ArePlaces volume.now places.now → result ≡ true → HasLinks volume.now image.now links.now }
    ensures entries { ArePlaces volume.now places.now → result ≡ true → HasEntries volume.now image.now links.now }
{
    if image.blocks() != volume.blocks() || links.len() != volume.blocks() as usize {
        return false;
    }
    if !is_allowed_size(volume.blocks()) {
        return false;
    }
    let x = Comparison {
        volume,
        pages: page_count(volume.blocks()),
        places,
        image,
        links,
    };
    if !are_blocks_beside(&x) {
        return false;
    }
    if !are_bits_beside(&x) {
        return false;
    }
    are_closed(&x)
}

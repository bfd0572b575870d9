// What stands on a volume and on an image of it with directory caches.

ghost use Rattle.std.specs.Prelude.{◌≡◌, ◌≤◌, ◌+◌, ◌*◌, ◌<◌, ℕ, IfSome, Some, false, length, true};
ghost use Rattle.adf_base.specs.Words.{block, word};
ghost use Rattle.adf_blocks.specs.Sizes.{blocks};
ghost use Rattle.adf_findings.specs.{Members.owning_entry, Survey.OnSurvey};
ghost use Rattle.adf_volume.specs.{Image.root_of, Image.word_in, Walk.heads};
ghost use Rattle.adf_caches.specs.Caches.{directory_header, is_found_directory};
ghost use Rattle.adf_cache_laying.specs.LaidCaches.{IsSameButCache, KeepsBlocks, is_of_cache};

use crate::directories::directory_block;
use crate::room::{CHECKSUM, counted};
use adf_base::{BLOCK_LEN, BLOCK_WORDS, Block};
use adf_blocks::EXTENSION;
use adf_caches::root_block;
use adf_findings::Survey;
use adf_tree::Node;

// Whether a word is one of a directory's header that its cache changes.
fn is_of_cache(i: usize) -> bool
    ensures { result ≡ is_of_cache i }
{
    i == CHECKSUM || i == EXTENSION
}

// Whether two blocks have the same words, but for those that a cache changes.
fn has_same_words(one: &Block<'_>, other: &Block<'_>) -> bool
    ensures { result ≡ true → (i : ℕ) → i < 128 → is_of_cache i ≡ false → word other.now i ≡ word one.now i }
{
    for i in 0..BLOCK_WORDS {
        if !is_of_cache(i) && other.word(i) != one.word(i) {
            return false;
        }
    }
    true
}

// Whether a block has the same words in two images, but for those that a cache changes.
fn is_same_but_cache(volume: &[u8], image: &[u8], b: u32) -> bool
    ensures { result ≡ true → IsSameButCache volume.now image.now b }
{
    match (Block::at(volume, b), Block::at(image, b)) {
        (Some(one), Some(other)) => has_same_words(&one, &other),
        _ => false,
    }
}

// Whether a directory of a volume, if it is found, is kept in an image.
fn keeps_directory(found: &Survey<'_>, image: &[u8], root: u32, d: Node) -> bool
    requires { root ≡ root_of found.now.image }
    ensures { OnSurvey found.now.image (λ w _. result ≡ true → is_found_directory found.now.image w d ≡ true
        → IsSameButCache found.now.image image.now (directory_header found.now.image w d)) }
{
    match directory_block(found, root, d) {
        Some(block) => is_same_but_cache(found.image(), image, block),
        None => true,
    }
}

// Whether each directory of a volume but the root, if it is found, is kept in an image.
fn keeps_entries(found: &Survey<'_>, image: &[u8], root: u32) -> bool
    requires { root ≡ root_of found.now.image }
    ensures { OnSurvey found.now.image (λ w _. result ≡ true → (k : ℕ) → k < heads w
        → is_found_directory found.now.image w (k + 1) ≡ true
        → IsSameButCache found.now.image image.now (directory_header found.now.image w (k + 1))) }
{
    for i in 0..found.len() {
        if !keeps_directory(found, image, root, Node(i + 1)) {
            return false;
        }
    }
    true
}

// The bytes of a block, if the image has it.
#[tactic(auto, unfolding(adf_base::specs::Words::block))]
fn block_bytes(image: &[u8], b: u32) -> Option<&[u8]>
    ensures { IfSome result (λ bytes. bytes.now ≡ block image.now b) }
{
    let start = b as usize * BLOCK_LEN;
    if start + BLOCK_LEN <= image.len() {
        Some(&image[start..start + BLOCK_LEN])
    } else {
        None
    }
}

// Whether a block is the same in two images.
fn is_same_block(volume: &[u8], image: &[u8], b: u32) -> bool
    ensures { result ≡ true → block image.now b ≡ block volume.now b }
{
    match (block_bytes(volume, b), block_bytes(image, b)) {
        (Some(one), Some(other)) => other == one,
        _ => false,
    }
}

// Whether a block of an entry of a volume is kept in an image, if that is no directory.
fn keeps_block_of(found: &Survey<'_>, image: &[u8], root: u32, b: u32, n: Node) -> bool
    requires { root ≡ root_of found.now.image }
    ensures { OnSurvey found.now.image (λ w _. result ≡ true → is_found_directory found.now.image w n ≡ false
        → block image.now b ≡ block found.now.image b) }
{
    match directory_block(found, root, n) {
        Some(_) => true,
        None => is_same_block(found.image(), image, b),
    }
}

// Whether a block of a volume is kept in an image, if it is one of an entry that is no directory.
fn keeps_block(found: &Survey<'_>, image: &[u8], root: u32, b: u32) -> bool
    requires { root ≡ root_of found.now.image }
    ensures { OnSurvey found.now.image (λ w _. result ≡ true → (n : ℕ) → owning_entry w b ≡ Some n
        → is_found_directory found.now.image w n ≡ false → block image.now b ≡ block found.now.image b) }
{
    match found.entry_at(b) {
        Some(n) => keeps_block_of(found, image, root, b, n),
        None => true,
    }
}

// Whether each of the first blocks of a volume is kept in an image, if it is one of an entry that is no directory.
fn keeps_others(found: &Survey<'_>, image: &[u8], root: u32, count: u32) -> bool
    requires { root ≡ root_of found.now.image }
    ensures { OnSurvey found.now.image (λ w _. result ≡ true → (b n : ℕ) → b < count → owning_entry w b ≡ Some n
        → is_found_directory found.now.image w n ≡ false → block image.now b ≡ block found.now.image b) }
{
    for b in 0..count {
        if !keeps_block(found, image, root, b) {
            return false;
        }
    }
    true
}

// Whether what stands on a volume of this many blocks, of which the root is in block `root`, stands on an image.
fn keeps_all(found: &Survey<'_>, image: &[u8], root: u32, count: u32) -> bool
    requires root { root ≡ root_of found.now.image }
    requires count { count ≡ blocks found.now.image }
    ensures { OnSurvey found.now.image (λ w _. result ≡ true → KeepsBlocks found.now.image image.now w) }
{
    if !keeps_directory(found, image, root, Node(0)) || !keeps_entries(found, image, root) {
        return false;
    }
    keeps_others(found, image, root, count)
}

/// Whether what stands on a volume stands on an image, in the same blocks.
pub fn keeps_blocks(found: &Survey<'_>, image: &[u8]) -> bool
    ensures { OnSurvey found.now.image (λ w _. result ≡ true → KeepsBlocks found.now.image image.now w) }
{
    match (root_block(found), counted(found.image())) {
        (Some(root), Some(count)) => keeps_all(found, image, root, count),
        _ => false,
    }
}

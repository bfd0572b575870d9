// Directories that are found, and their caches.

ghost use Rattle.std.specs.Prelude.{◌≡◌, ◌≢◌, ◌+◌, ◌<◌, ℕ, IfSome, is_some, true};
ghost use Rattle.adf_findings.specs.Survey.{OnSurvey};
ghost use Rattle.adf_volume.specs.{Image.root_of, Image.word_in, Walk.heads};
ghost use Rattle.adf_caches.specs.Caches.{directory_header, first_cache, is_found_directory};
ghost use Rattle.adf_cache_laying.specs.LaidCaches.{AllHaveCaches};

use adf_base::Block;
use adf_blocks::{EXTENSION, SECONDARY_TYPE, ST_DIR};
use adf_caches::root_block;
use adf_findings::Survey;
use adf_tree::Node;

// The block of the header of an entry, if it is a directory.
fn entry_block(survey: &Survey<'_>, d: Node) -> Option<u32>
    ensures some { OnSurvey survey.now.image (λ w _. d ≢ 0
        → is_some result ≡ is_found_directory survey.now.image w d) }
    ensures block { OnSurvey survey.now.image (λ w _. d ≢ 0
        → IfSome result (λ b. b ≡ directory_header survey.now.image w d)) }
{
    let head = survey.header(d)?;
    if head.word(SECONDARY_TYPE) == ST_DIR {
        return survey.block_of(d);
    }
    None
}

/// The block of the root, or of the header of a directory, if it is found, where the root is in block `root`.
pub fn directory_block(survey: &Survey<'_>, root: u32, d: Node) -> Option<u32>
    requires { root ≡ root_of survey.now.image }
    ensures some { OnSurvey survey.now.image (λ w _. is_some result ≡ is_found_directory survey.now.image w d) }
    ensures block { OnSurvey survey.now.image (λ w _.
        IfSome result (λ b. b ≡ directory_header survey.now.image w d)) }
{
    if d.0 != 0 {
        return entry_block(survey, d);
    }
    if survey.has_part(root) {
        Some(root)
    } else {
        None
    }
}

// Whether a block names another in the word of a directory's first cache block.
fn names_cache(image: &[u8], b: u32) -> bool
    ensures { result ≡ true → word_in image.now b EXTENSION ≢ 0 }
{
    match Block::at(image, b) {
        Some(head) => head.word(EXTENSION) != 0,
        None => false,
    }
}

// Whether a directory has a cache, if it is found.
fn has_cache(survey: &Survey<'_>, root: u32, d: Node) -> bool
    requires { root ≡ root_of survey.now.image }
    ensures { OnSurvey survey.now.image (λ w _. result ≡ true
        → is_found_directory survey.now.image w d ≡ true → first_cache survey.now.image w d ≢ 0) }
{
    match directory_block(survey, root, d) {
        Some(block) => names_cache(survey.image(), block),
        None => true,
    }
}

// Whether each directory but the root has a cache, if it is found.
fn entries_have_caches(survey: &Survey<'_>, root: u32) -> bool
    requires { root ≡ root_of survey.now.image }
    ensures { OnSurvey survey.now.image (λ w _. result ≡ true → (k : ℕ) → k < heads w
        → is_found_directory survey.now.image w (k + 1) ≡ true → first_cache survey.now.image w (k + 1) ≢ 0) }
{
    for i in 0..survey.len() {
        if !has_cache(survey, root, Node(i + 1)) {
            return false;
        }
    }
    true
}

/// Whether each directory that is found has a cache.
pub fn all_have_caches(survey: &Survey<'_>) -> bool
    ensures { OnSurvey survey.now.image (λ w _. result ≡ true → AllHaveCaches survey.now.image w) }
{
    let Some(root) = root_block(survey) else {
        return false;
    };
    if !has_cache(survey, root, Node(0)) {
        return false;
    }
    entries_have_caches(survey, root)
}

// Cache blocks.

ghost use Rattle.std.specs.Prelude.{◌≡◌, IfSome, is_some, true};
ghost use Rattle.adf_base.specs.Words.{block, word};
ghost use Rattle.adf_findings.specs.Survey.{OnSurvey};
ghost use Rattle.adf_caches.specs.Entries.{headed_at, is_entry_at};
ghost use Rattle.adf_volume.specs.Image.{root_of};
ghost use Rattle.adf_caches.specs.Caches.{directory_headed, is_cache_block, says_cache};
ghost use Rattle.adf_caches.specs.Records.{records_fit};

use crate::headers::headed_at;
use crate::records::{RECORD_START, record_in};
use adf_base::Block;
use adf_blocks::{OWN_KEY, T_DIR_CACHE, TYPE};
use adf_findings::Survey;
use adf_tree::Node;

/// The word of a cache block that names the header of its directory.
pub const DIRECTORY: usize = 2;

/// The word of a cache block that counts its records.
pub const RECORD_COUNT: usize = 3;

/// The word of a cache block that names the next one of its directory, or is 0.
pub const NEXT_CACHE: usize = 4;

// Whether each record is within the block.
#[tactic(auto, using(crate::proofs::RecordSteps::fits_more, crate::proofs::RecordSteps::fits_end))]
fn records_fit(cache: &Block<'_>) -> bool
    ensures { result ≡ records_fit cache.now (word cache.now RECORD_COUNT) RECORD_START }
{
    let mut at = RECORD_START;
    for _k in 0..cache.word(RECORD_COUNT) {
        match record_in(cache, at) {
            Some((_, next)) => at = next,
            None => return false,
        }
    }
    true
}

// Whether a block says that it is a directory cache.
#[tactic(auto, unfolding(crate::specs::Caches::says_cache))]
fn says_cache(cache: &Block<'_>, b: u32) -> bool
    ensures { result ≡ says_cache cache.now b }
{
    cache.word(TYPE) == T_DIR_CACHE
        && cache.word(OWN_KEY) == b
        && cache.long_sum() == 0
        && records_fit(cache)
}

// The directory with its header in block `b`, where the root is in block `root`.
fn directory_headed(survey: &Survey<'_>, root: u32, b: u32) -> Option<Node>
    requires { root ≡ root_of survey.now.image }
    ensures { OnSurvey survey.now.image (λ w _. result ≡ directory_headed survey.now.image w b) }
{
    if b == root {
        return Some(Node(0));
    }
    headed_at(survey, b)
}

// Whether it is directory `d`.
fn is_headed(survey: &Survey<'_>, root: u32, d: Node, b: u32) -> bool
    requires { root ≡ root_of survey.now.image }
    ensures { OnSurvey survey.now.image (λ w _. result ≡ is_entry_at d (directory_headed survey.now.image w b)) }
{
    match directory_headed(survey, root, b) {
        Some(n) => n.0 == d.0,
        None => false,
    }
}

/// Block `b`, if it is a cache block of directory `d`, where the root is in block `root`.
#[tactic(auto, unfolding(crate::specs::Caches::is_cache_block, crate::specs::Caches::says_cache))]
pub fn cache_block<'s>(survey: &'s Survey<'_>, root: u32, d: Node, b: u32) -> Option<Block<'s>>
    requires { root ≡ root_of survey.now.image }
    ensures some { OnSurvey survey.now.image (λ w _. is_some result ≡ is_cache_block survey.now.image w d b) }
    ensures block { IfSome result (λ x. x ≡ block survey.now.image b) }
    ensures fits { IfSome result (λ x. records_fit x (word x RECORD_COUNT) RECORD_START ≡ true) }
{
    let cache = Block::at(survey.image(), b)?;
    let is_free = 2 <= b && !survey.has_part(b);
    if is_free && says_cache(&cache, b) && is_headed(survey, root, d, cache.word(DIRECTORY)) {
        return Some(cache);
    }
    None
}

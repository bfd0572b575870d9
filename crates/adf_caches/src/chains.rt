// Chains of cache blocks.

ghost use Rattle.std.specs.Prelude.{◌≡◌, ◌≤◌, ◌+◌, ◌*◌, ℕ, List, IfNone, IfSome, Some, None, false, length, true};
ghost use Rattle.adf_blocks.specs.Sizes.{blocks};
ghost use Rattle.adf_findings.specs.Survey.{OnSurvey};
ghost use Rattle.adf_volume.specs.Image.{root_of};
ghost use Rattle.adf_caches.specs.Caches.{next_cache};
ghost use Rattle.adf_caches.specs.Judging.{AreFresh, IsRightChain, IsWrongChain, MarksNamed, Passes, StopsChain};
ghost use Rattle.adf_caches.specs.Marking.{KeepsOthers, mark_one};

use crate::blocks::{NEXT_CACHE, cache_block};
use crate::listing::{mark_one, mark_recorded};
use adf_findings::Survey;
use adf_tree::Node;

/// The marks of the blocks that chains have come to, and of the entries that records name.
#[derive(Drop)]
pub struct CacheMarks {
    pub blocks: Vec<bool>,
    pub entries: Vec<bool>,
}

// Marks block `b` and the entries that its records name, if it is a cache block of directory `d` that no chain has come to.
// Returns the block behind it in its chain.
fn pass_block(
    survey: &Survey<'_>,
    root: u32,
    marks: &mut CacheMarks,
    d: Node,
    b: u32,
) -> Option<u32>
    requires { root ≡ root_of survey.now.image }
    ensures next { IfSome result (λ next. next ≡ next_cache survey.now.image b) }
    ensures marked { IfSome result (λ next. mark_one (Some b) marks.old.blocks.items ≡ Some marks.new.blocks.items) }
    ensures passed { OnSurvey survey.now.image (λ w _.
        IfSome result (λ next. Passes survey.now.image w d b marks.old marks.new)) }
    ensures stopped { OnSurvey survey.now.image (λ w _. IfNone result (StopsChain survey.now.image w d b marks.old)) }
    ensures blocks { OnSurvey survey.now.image (λ w _.
        MarksNamed survey.now.image w d marks.old.blocks.items marks.new.blocks.items) }
    ensures others { OnSurvey survey.now.image (λ w _. KeepsOthers w d marks.old.entries.items marks.new.entries.items) }
{
    let cache = cache_block(survey, root, d, b)?;
    if !mark_one(&mut marks.blocks, Some(b as usize)) {
        return None;
    }
    if !mark_recorded(survey, d, &cache, &mut marks.entries) {
        return None;
    }
    Some(cache.word(NEXT_CACHE))
}

/// Marks the blocks of the chain from block `first` on, and the entries that its records name. Returns whether it is a chain of
/// directory `d` to its end, each record of which is right about an entry that had no mark.
#[tactic(auto, using(crate::proofs::ChainWays::judging))]
pub fn judge_chain(
    survey: &Survey<'_>,
    root: u32,
    marks: &mut CacheMarks,
    d: Node,
    first: u32,
) -> bool
    requires { root ≡ root_of survey.now.image }
    ensures right { OnSurvey survey.now.image (λ w _. AreFresh survey.now.image w d marks.old.blocks.items
        → result ≡ true → IsRightChain survey.now.image w d first marks.old marks.new) }
    ensures wrong { OnSurvey survey.now.image (λ w _. AreFresh survey.now.image w d marks.old.blocks.items
        → result ≡ false → IsWrongChain survey.now.image w d first marks.old) }
    ensures blocks { OnSurvey survey.now.image (λ w _.
        MarksNamed survey.now.image w d marks.old.blocks.items marks.new.blocks.items) }
    ensures others { OnSurvey survey.now.image (λ w _. KeepsOthers w d marks.old.entries.items marks.new.entries.items) }
{
    let mut b = first;
    while b != 0 {
        match pass_block(survey, root, marks, d, b) {
            Some(next) => b = next,
            None => return false,
        }
    }
    true
}

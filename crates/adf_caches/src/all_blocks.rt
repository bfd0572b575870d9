// The blocks of directory caches.

ghost use Rattle.std.specs.Prelude.{◌≡◌, ◌++◌, ◌+◌, ◌*◌, ◌≤◌, ℕ, List, IfOk, OnOk, Some, length, true};
ghost use Rattle.adf_blocks.specs.Sizes.{blocks, in_range};
ghost use Rattle.adf_findings.specs.Survey.{OnSurvey};
ghost use Rattle.adf_volume.specs.Image.{root_of};
ghost use Rattle.adf_caches.specs.Blocks.{HaveChains, blocks_of_cache, cache_blocks};
ghost use Rattle.adf_caches.specs.Caches.{is_cache_block, next_cache};
ghost use Rattle.adf_caches.specs.Paths.{way_by};

use crate::blocks::NEXT_CACHE;
use crate::wrong::{directory_head, root_block};
use adf_base::{BLOCK_LEN, Block, NoMemory};
use adf_blocks::EXTENSION;
use adf_findings::Survey;
use adf_tree::Node;
use std::alloc::Global;

// The block behind one in its chain; 0 for a block outside the image.
fn next_cache(image: &[u8], b: u32) -> u32
    ensures { in_range image.now b ≡ true → result ≡ next_cache image.now b }
{
    match Block::at(image, b) {
        Some(cache) => cache.word(NEXT_CACHE),
        None => 0,
    }
}

// Appends the blocks of a chain from block `first` on.
fn push_chain(survey: &Survey<'_>, first: u32, list: &mut Vec<u32>) -> Result<(), NoMemory>
    ensures { OnSurvey survey.now.image (λ w _. (d : ℕ) (bs : List ℕ)
        → way_by (is_cache_block survey.now.image w d) (next_cache survey.now.image) (blocks survey.now.image) first ≡ Some bs
        → OnOk result (list.new.items ≡ list.old.items ++ bs)) }
{
    let image = survey.image();
    let mut b = first;
    for _k in 0..image.len() / BLOCK_LEN {
        if b == 0 {
            return Ok(());
        }
        list.push(b)?;
        b = next_cache(image, b);
    }
    Ok(())
}

// Appends the blocks of the cache of directory `d`, if it is found.
fn push_cache(survey: &Survey<'_>, root: u32, d: Node, list: &mut Vec<u32>) -> Result<(), NoMemory>
    requires is { root ≡ root_of survey.now.image }
    requires inside { root * 512 + 512 ≤ length survey.now.image }
    ensures { OnSurvey survey.now.image (λ w _. HaveChains survey.now.image w
        → OnOk result (list.new.items ≡ list.old.items ++ blocks_of_cache survey.now.image w d)) }
{
    match directory_head(survey, root, d) {
        Some(head) => push_chain(survey, head.word(EXTENSION), list),
        None => Ok(()),
    }
}

/// The blocks of all directory caches, those of the root first, where the chain of each is right to its end. `NoMemory` if an
/// allocation fails.
#[tactic(auto, using(crate::proofs::BlockSteps::no_blocks))]
pub fn cache_blocks(alloc: Global, survey: &Survey<'_>) -> Result<Vec<u32>, NoMemory>
    ensures { OnSurvey survey.now.image (λ w _. HaveChains survey.now.image w
        → IfOk result (λ v. v.items ≡ cache_blocks survey.now.image w)) }
{
    let mut list = Vec::new(alloc);
    let Some(root) = root_block(survey) else {
        return Ok(list);
    };
    push_cache(survey, root, Node(0), &mut list)?;
    for i in 0..survey.len() {
        push_cache(survey, root, Node(i + 1), &mut list)?;
    }
    Ok(list)
}

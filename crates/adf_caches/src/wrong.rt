// Which directory caches are wrong.

ghost use Rattle.std.specs.Prelude.{◌≡◌, ◌≤◌, ◌+◌, ◌*◌, ◌&&◌, ℕ, [], IfNone, IfOk, IfSome, cond, false, is_some, length};
ghost use Rattle.std.specs.Prelude.{nat_lt, not, set, true};
ghost use Rattle.adf_base.specs.Words.{block};
ghost use Rattle.adf_blocks.specs.Sizes.{blocks};
ghost use Rattle.adf_findings.specs.{Members.has_mark, Members.owns, Members.parent_node, Survey.OnSurvey};
ghost use Rattle.adf_volume.specs.Image.{root_of};
ghost use Rattle.adf_volume.specs.Walk.{heads};
ghost use Rattle.adf_caches.specs.Caches.{directory_header, has_caches, is_found_directory, is_wrong_cache};
ghost use Rattle.adf_caches.specs.Judging.{AreFresh, AreJudged, AreLacking, AreUnnamed, IsToldOfCache, MarksNamed};
ghost use Rattle.adf_caches.specs.Marking.{KeepsOthers};

use crate::chains::{CacheMarks, judge_chain};
use adf_base::{BLOCK_LEN, Block, NoMemory};
use adf_blocks::{EXTENSION, SECONDARY_TYPE, ST_DIR};
use adf_findings::{Survey, has_mark};
use adf_tree::Node;
use std::alloc::Global;

// Whether the volume has directory caches.
#[tactic(auto, using(adf_volume::proofs::ImageStart::type_byte))]
fn has_caches(image: &[u8]) -> bool
    ensures { result ≡ has_caches image.now }
{
    image.get(3).copied().unwrap_or(0) >= 4
}

/// The block of the root, if it is taken.
#[tactic(auto, using(crate::proofs::Wrongness::root_inside))]
pub fn root_block(survey: &Survey<'_>) -> Option<u32>
    ensures root { IfSome result (λ b. b ≡ root_of survey.now.image) }
    ensures inside { IfSome result (λ b. b * 512 + 512 ≤ length survey.now.image) }
    ensures none { OnSurvey survey.now.image (λ w _. IfNone result (w ≡ [])) }
{
    let opening = survey.opening()?;
    Some(opening.blocks / 2)
}

// A block, if it is a part of what is found.
fn part_at<'s>(survey: &'s Survey<'_>, b: u32) -> Option<Block<'s>>
    requires { b * 512 + 512 ≤ length survey.now.image }
    ensures some { OnSurvey survey.now.image (λ w _. is_some result ≡ owns w b) }
    ensures block { IfSome result (λ x. x ≡ block survey.now.image b) }
{
    if survey.has_part(b) {
        return Block::at(survey.image(), b);
    }
    None
}

/// The header of a directory that is found.
pub fn directory_head<'s>(survey: &'s Survey<'_>, root: u32, d: Node) -> Option<Block<'s>>
    requires is { root ≡ root_of survey.now.image }
    requires inside { root * 512 + 512 ≤ length survey.now.image }
    ensures some { OnSurvey survey.now.image (λ w _. is_some result ≡ is_found_directory survey.now.image w d) }
    ensures block { OnSurvey survey.now.image (λ w _.
        IfSome result (λ x. x ≡ block survey.now.image (directory_header survey.now.image w d))) }
{
    if d.0 == 0 {
        return part_at(survey, root);
    }
    let head = survey.header(d)?;
    if head.word(SECONDARY_TYPE) == ST_DIR {
        return Some(head);
    }
    None
}

// Goes through the cache of directory `d`, if there is one. Returns whether its chain is wrong, or a record is not right about an
// entry that had no mark.
fn is_unlike(survey: &Survey<'_>, root: u32, marks: &mut CacheMarks, d: Node) -> bool
    requires is { root ≡ root_of survey.now.image }
    requires inside { root * 512 + 512 ≤ length survey.now.image }
    ensures told { OnSurvey survey.now.image (λ w _. AreFresh survey.now.image w d marks.old.blocks.items
        → AreUnnamed w d marks.old.entries.items → IsToldOfCache survey.now.image w d marks.new.entries.items result) }
    ensures blocks { OnSurvey survey.now.image (λ w _.
        MarksNamed survey.now.image w d marks.old.blocks.items marks.new.blocks.items) }
    ensures others { OnSurvey survey.now.image (λ w _. KeepsOthers w d marks.old.entries.items marks.new.entries.items) }
{
    match directory_head(survey, root, d) {
        Some(head) => !judge_chain(survey, root, marks, d, head.word(EXTENSION)),
        None => false,
    }
}

// No marks.
fn no_marks(alloc: Global, survey: &Survey<'_>) -> Result<CacheMarks, NoMemory>
    ensures blocks { IfOk result (λ marks. length marks.blocks.items ≡ blocks survey.now.image) }
    ensures entries { OnSurvey survey.now.image (λ w _. IfOk result (λ marks. length marks.entries.items ≡ heads w + 1)) }
    ensures free { IfOk result (λ marks. (c : ℕ) → has_mark marks.blocks.items c ≡ false) }
    ensures unnamed { IfOk result (λ marks. (n : ℕ) → has_mark marks.entries.items n ≡ false) }
{
    let blocks = vec![in alloc; false; survey.image().len() / BLOCK_LEN]?;
    let mut entries = vec![in alloc; false; survey.len()]?;
    entries.push(false)?;
    Ok(CacheMarks { blocks, entries })
}

// Goes through the cache of each directory. Returns of each whether its chain is wrong, or a record.
fn judge_each(
    alloc: Global,
    survey: &Survey<'_>,
    root: u32,
    marks: &mut CacheMarks,
) -> Result<Vec<bool>, NoMemory>
    requires is { root ≡ root_of survey.now.image }
    requires inside { root * 512 + 512 ≤ length survey.now.image }
    ensures { OnSurvey survey.now.image (λ w _. AreJudged survey.now.image w 0 marks.old [] → IfOk result (λ v.
        AreJudged survey.now.image w (heads w + 1) marks.new v.items)) }
{
    let mut wrong = Vec::new(alloc);
    for i in 0..marks.entries.len() {
        wrong.push(is_unlike(survey, root, marks, Node(i)))?;
    }
    Ok(wrong)
}

// Whether an entry has no mark and is in a directory that is found.
fn lacks_mark(survey: &Survey<'_>, root: u32, named: &Vec<bool>, n: Node) -> bool
    requires is { root ≡ root_of survey.now.image }
    requires inside { root * 512 + 512 ≤ length survey.now.image }
    ensures { OnSurvey survey.now.image (λ w _. result
        ≡ (not (has_mark named.now.items n) && is_found_directory survey.now.image w (parent_node w n))) }
{
    !has_mark(named, n.0) && directory_head(survey, root, survey.directory_of(n)).is_some()
}

// Sets a mark, if there is one and it is to be set.
fn mark_if(marks: &mut Vec<bool>, n: usize, is_set: bool)
    ensures { marks.new.items ≡ cond (is_set && nat_lt n (length marks.old.items)) (set marks.old.items n true) marks.old.items }
{
    if is_set && n < marks.len() {
        marks[n] = true;
    }
}

// Marks the directories of entries that no record names.
fn mark_lacking(survey: &Survey<'_>, root: u32, named: &Vec<bool>, wrong: &mut Vec<bool>)
    requires is { root ≡ root_of survey.now.image }
    requires inside { root * 512 + 512 ≤ length survey.now.image }
    ensures { OnSurvey survey.now.image (λ w _.
        AreLacking survey.now.image w named.now.items 1 (heads w + 1) wrong.old.items wrong.new.items) }
{
    for i in 0..survey.len() {
        let n = Node(i + 1);
        let lacks = lacks_mark(survey, root, named, n);
        mark_if(wrong, survey.directory_of(n).0, lacks);
    }
}

// A mark for each entry and the root, none of them set.
fn none_wrong(alloc: Global, survey: &Survey<'_>) -> Result<Vec<bool>, NoMemory>
    ensures size { OnSurvey survey.now.image (λ w _. IfOk result (λ v. length v.items ≡ heads w + 1)) }
    ensures none { IfOk result (λ v. (d : ℕ) → has_mark v.items d ≡ false) }
{
    let mut wrong = vec![in alloc; false; survey.len()]?;
    wrong.push(false)?;
    Ok(wrong)
}

/// Of each directory that is found, the root at 0, whether its cache is wrong: a block of its chain is no cache block of it, or
/// the chain does not end; a record is not right about an entry in it; or an entry in it has not one record. None is wrong on volumes
/// without caches. `NoMemory` if an allocation fails.
#[tactic(auto, using(crate::proofs::Wrongness::none_wrong))]
pub fn wrong_caches(alloc: Global, survey: &Survey<'_>) -> Result<Vec<bool>, NoMemory>
    ensures size { OnSurvey survey.now.image (λ w _. IfOk result (λ v. length v.items ≡ heads w + 1)) }
    ensures wrong { OnSurvey survey.now.image (λ w _. IfOk result (λ v. (d : ℕ)
        → has_mark v.items d ≡ is_wrong_cache survey.now.image w d)) }
{
    if !has_caches(survey.image()) {
        return none_wrong(alloc, survey);
    }
    let Some(root) = root_block(survey) else {
        return none_wrong(alloc, survey);
    };
    let mut marks = no_marks(alloc, survey)?;
    let mut wrong = judge_each(alloc, survey, root, &mut marks)?;
    mark_lacking(survey, root, &marks.entries, &mut wrong);
    Ok(wrong)
}

/// The block of the header of a directory whose cache is wrong.
#[tactic(auto, using(crate::proofs::Wrongness::wrong_found))]
pub fn directory_header(survey: &Survey<'_>, d: Node) -> u32
    ensures { OnSurvey survey.now.image (λ w _. is_wrong_cache survey.now.image w d ≡ true
        → result ≡ directory_header survey.now.image w d) }
{
    let block = if d.0 == 0 {
        root_block(survey)
    } else {
        survey.block_of(d)
    };
    block.unwrap_or(0)
}

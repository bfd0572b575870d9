// The entries of an image, by their headers alone.

ghost use Rattle.std.specs.Prelude.{◌≡◌, ◌<◌, ◌≤◌, ◌∷◌, ◌++◌, ℕ, List, [], IfOk, MatchResult, Some, None};
ghost use Rattle.adf_base.specs.Words.{block, word};
ghost use Rattle.adf_blocks.specs.{Sizes.blocks, HeadBlock.meta_stated, declared.layout.TheConstants.SECONDARY_TYPE, declared.layout.TheConstants.ST_FILE};
ghost use Rattle.adf_keep.specs.{Marks.AreClaimed, Entry.IsEntryOf, Entry.IsHeadedBy, Entry.IsMadeDir, File.IsHeld, Reasons.IsEntryFault, Reasons.IsHeadFault, Reasons.IsTableFault};
ghost use Rattle.adf_tree.specs.declared.entry.Body.TheVariants.{Dir};

use crate::claims::release;
use crate::files::{Found, read_file};
use crate::held::Held;
use crate::proposal::Why;
use crate::tables::claim_tables;
use adf_base::{Block, NO_STAMP, NoMemory};
use adf_blocks::{SECONDARY_TYPE, ST_DIR, ST_FILE, meta_stated};
use adf_names::{Comment, Kind, Meta};
use adf_tree::Body;
use std::alloc::Global;

// A directory that is made.
fn made(alloc: Global) -> Found
    ensures { IsMadeDir result.meta result.body result.claimed.items }
{
    let comment = Comment::new(&[]).unwrap();
    Found {
        meta: Meta::new(comment, 0, NO_STAMP),
        body: Body::Dir,
        claimed: Vec::new(alloc),
    }
}

// Reads a directory, and claims its header; else says why it is not kept, and nothing is claimed.
fn read_dir(
    alloc: Global,
    image: &Held<'_>,
    head: u32,
    meta: Meta,
    marks: &mut Vec<bool>,
) -> Result<Result<Found, Why>, NoMemory>
    requires { IsHeld image.now head }
    ensures { (bs : List ℕ) → AreClaimed (blocks image.now) marks.old.items bs → IfOk result (λ r. MatchResult r
        (λ f. (f.meta ≡ meta) × (f.body ≡ Dir) × (f.claimed.items ≡ head ∷ []) × AreClaimed (blocks image.now) marks.new.items (bs ++ f.claimed.items))
        (λ why. IsTableFault image.now bs head 1 why × AreClaimed (blocks image.now) marks.new.items bs)) }
{
    let mut claimed = Vec::new(alloc);
    if let Some(why) = claim_tables(image, head, 1, marks, &mut claimed)? {
        release(marks, claimed);
        return Ok(Err(why));
    }
    let body = Body::Dir;
    Ok(Ok(Found {
        meta,
        body,
        claimed,
    }))
}

// Reads the entry with this header, block `head`, as `read_entry` does.
fn read_headed(
    alloc: Global,
    image: &Held<'_>,
    kind: Kind,
    head: u32,
    header: &Block<'_>,
    marks: &mut Vec<bool>,
) -> Result<Result<Found, Why>, NoMemory>
    requires from { 2 ≤ head }
    requires inside { head < blocks image.now }
    requires header { header.now ≡ block image.now head }
    requires claims { (bs : List ℕ) × AreClaimed (blocks image.now) marks.old.items bs }
    ensures { (bs : List ℕ) → AreClaimed (blocks image.now) marks.old.items bs → IfOk result (λ r. MatchResult r
        (λ f. IsHeadedBy kind image.now head f.meta f.body f.claimed.items × AreClaimed (blocks image.now) marks.new.items (bs ++ f.claimed.items))
        (λ why. IsHeadFault kind image.now bs head why × AreClaimed (blocks image.now) marks.new.items bs)) }
{
    let meta = meta_stated(header);
    match header.word(SECONDARY_TYPE) {
        ST_DIR => read_dir(alloc, image, head, meta, marks),
        ST_FILE => read_file(alloc, image, kind, head, meta, marks),
        _ => Ok(Err(Why::NoEntry)),
    }
}

/// Reads the entry with its header at block `head`, or makes a directory if there is none; claims its blocks. Else says why
/// it is not kept, and nothing is claimed. `NoMemory` if an allocation fails; then the marks are of no use.
pub fn read_entry(
    alloc: Global,
    image: &Held<'_>,
    kind: Kind,
    head: Option<u32>,
    marks: &mut Vec<bool>,
) -> Result<Result<Found, Why>, NoMemory>
    requires { (bs : List ℕ) × AreClaimed (blocks image.now) marks.old.items bs }
    ensures { (bs : List ℕ) → AreClaimed (blocks image.now) marks.old.items bs → IfOk result (λ r. MatchResult r
        (λ f. IsEntryOf kind image.now head f.meta f.body f.claimed.items × AreClaimed (blocks image.now) marks.new.items (bs ++ f.claimed.items))
        (λ why. IsEntryFault kind image.now bs head why × AreClaimed (blocks image.now) marks.new.items bs)) }
{
    let Some(head) = head else {
        return Ok(Ok(made(alloc)));
    };
    if head < 2 {
        return Ok(Err(Why::NoHeader));
    }
    match image.block(head) {
        Some(header) => read_headed(alloc, image, kind, head, &header, marks),
        None => Ok(Err(Why::NoHeader)),
    }
}

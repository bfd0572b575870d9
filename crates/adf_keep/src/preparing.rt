// The rescue of a judged image.

ghost use Rattle.std.specs.Prelude.{◌≡◌, ◌+◌, IfOk, OnOk, Some, length, slice_get, true};
ghost use Rattle.adf_judge.specs.declared.judgement.Claim.{Claim as ClaimValue};
ghost use Rattle.adf_volume.specs.Lists.{In};
ghost use Rattle.adf_build.specs.Building.{IsBuildable};
ghost use Rattle.adf_keep.specs.{Proposing.is_proposed, Rescued.IsOfDeleted, Rescued.IsRescued, Rescued.TellsClaims};
ghost use Rattle.adf_keep.specs.Rescued.{TellsDeleted, letters_within};
ghost use Rattle.adf_keep.specs.declared.proposal.LeftOut.{LeftOut as LeftOutValue};

use crate::acceptance::first_fault;
use crate::keeping::{Kept, Terms, keep};
use crate::prepared::{Prepared, RescueTerms, Unrescued};
use crate::proposal::LeftOut;
use crate::proposing::{Proposal, is_proposed, is_whole, propose};
use adf_base::{BLOCK_LEN, Letters, NoMemory};
use adf_blocks::{Cause, is_allowed_size};
use adf_judge::{Claim, DeletedHeader, Judgement, Reading};
use adf_names::Label;
use adf_volume::{Fault, Types, fault_at};
use std::alloc::Global;

// The letters of the names of a new volume of these types, of an image that is read by these.
fn letters_within(types: Types, letters: Letters) -> Letters
    ensures { result ≡ letters_within types letters }
{
    match types {
        Types::Plain => Letters::Ascii,
        Types::WithInternational => letters,
    }
}

// The new volume of an image that is read so.
fn terms_for(reading: &Reading, types: Types) -> Terms
    ensures kind { result.kind ≡ reading.now.kind }
    ensures letters { result.letters ≡ letters_within types reading.now.letters }
    ensures size { result.blocks ≡ reading.now.blocks }
{
    Terms {
        kind: reading.kind,
        letters: letters_within(types, reading.letters),
        label: Label::new(reading.label.bytes()).unwrap(),
        stamps: reading.stamps,
        blocks: reading.blocks,
    }
}

// Whether an entry that is left out is of a claim that is proposed.
fn is_told(claims: &[Claim], left: LeftOut) -> bool
    ensures { (c : ClaimValue) → slice_get claims.now left.index ≡ Some c → result ≡ is_proposed c }
{
    match claims.get(left.index) {
        Some(claim) => is_proposed(claim),
        None => false,
    }
}

// Appends an entry that is left out, if it is of a claim that is proposed.
fn push_told(claims: &[Claim], left: &LeftOut, out: &mut Vec<LeftOut>) -> Result<(), NoMemory>
    ensures stay { OnOk result ((y : LeftOutValue) → In out.old.items y → In out.new.items y) }
    ensures told { OnOk result ((c : ClaimValue) → slice_get claims.now left.now.index ≡ Some c → is_proposed c ≡ true
        → In out.new.items left.now) }
{
    if is_told(claims, *left) {
        out.push(*left)?;
    }
    Ok(())
}

// The claims that are proposed and left out.
fn claims_out(
    alloc: Global,
    claims: &[Claim],
    left_out: &[LeftOut],
) -> Result<Vec<LeftOut>, NoMemory>
    ensures { IfOk result (λ r. TellsClaims claims.now left_out.now r.items) }
{
    let mut out = Vec::new(alloc);
    for left in left_out {
        push_told(claims, left, &mut out)?;
    }
    Ok(out)
}

// An entry that is left out, by its index in the deleted headers, which begin at index `first` of the proposal; `None` if it is
// not that of a whole file.
fn deleted_told(deleted: &[DeletedHeader], first: usize, left: LeftOut) -> Option<LeftOut>
    ensures { (y : LeftOutValue) → IsOfDeleted deleted.now first left y → result ≡ Some y }
{
    let index = left.index.checked_sub(first)?;
    match deleted.get(index) {
        Some(header) if is_whole(header) => Some(LeftOut {
            index,
            why: left.why,
        }),
        _ => None,
    }
}

// Appends an entry that is left out, if it is that of a whole deleted file.
fn push_deleted(
    deleted: &[DeletedHeader],
    first: usize,
    left: &LeftOut,
    out: &mut Vec<LeftOut>,
) -> Result<(), NoMemory>
    ensures stay { OnOk result ((y : LeftOutValue) → In out.old.items y → In out.new.items y) }
    ensures told { OnOk result ((y : LeftOutValue) → IsOfDeleted deleted.now first left.now y → In out.new.items y) }
{
    match deleted_told(deleted, first, *left) {
        Some(told) => Ok(out.push(told)?),
        None => Ok(()),
    }
}

// The whole deleted files that are left out, of a proposal in which the deleted headers begin at this index.
fn deleted_out(
    alloc: Global,
    deleted: &[DeletedHeader],
    first: usize,
    left_out: &[LeftOut],
) -> Result<Vec<LeftOut>, NoMemory>
    ensures { IfOk result (λ r. TellsDeleted deleted.now first left_out.now r.items) }
{
    let mut out = Vec::new(alloc);
    for left in left_out {
        push_deleted(deleted, first, left, &mut out)?;
    }
    Ok(out)
}

// The image of so many blocks that begins with these bytes, with zeros for what is not there.
fn padded(alloc: Global, input: &[u8], blocks: u32) -> Result<Vec<u8>, NoMemory> {
    let mut image = input.to_vec(alloc)?;
    image.resize(blocks as usize * BLOCK_LEN, 0)?;
    Ok(image)
}

// The first fault of the image of so many blocks that begins with these bytes.
fn fault_in(
    alloc: Global,
    input: &[u8],
    blocks: u32,
    types: Types,
) -> Result<Option<Fault>, NoMemory> {
    match input.get(..blocks as usize * BLOCK_LEN) {
        Some(image) => first_fault(alloc, image, types),
        None => {
            let image = padded(alloc, input, blocks)?;
            first_fault(alloc, &image, types)
        }
    }
}

// Whether a fault is that of a type that is not accepted.
fn is_of_type(fault: Fault) -> bool {
    matches!(fault.cause, Cause::International | Cause::DirCache)
}

// Refuses an image of which nothing is kept, if more is wrong with it than its type.
fn refuse_empty(alloc: Global, input: &[u8], blocks: u32, types: Types) -> Result<(), Unrescued> {
    match fault_in(alloc, input, blocks, types)? {
        Some(fault) if !is_of_type(fault) => Err(Unrescued::Refused(fault)),
        _ => Ok(()),
    }
}

// What is kept of a proposal, prepared.
fn prepared(
    alloc: Global,
    judgement: &Judgement<'_>,
    proposal: Proposal,
    kept: Kept,
) -> Result<Prepared, NoMemory>
    ensures tree { IfOk result (λ p. p.tree ≡ kept.draft.tree) }
    ensures size { IfOk result (λ p. p.blocks ≡ judgement.now.reading.blocks) }
    ensures told { IfOk result (λ p. TellsClaims judgement.now.claims.items kept.left_out.items p.left_out.items) }
    ensures deleted { IfOk result (λ p. TellsDeleted judgement.now.deleted.items (length judgement.now.claims.items + 1)
        kept.left_out.items p.deleted_out.items) }
{
    let first = judgement.claims.len() + 1;
    Ok(Prepared {
        left_out: claims_out(alloc, &judgement.claims, &kept.left_out)?,
        deleted_out: deleted_out(alloc, &judgement.deleted, first, &kept.left_out)?,
        deleted_directory: proposal.home,
        tree: kept.draft.finish(alloc)?,
        blocks: judgement.reading.blocks,
    })
}

/// Prepares the rescue of what is judged to exist on an input, whatever that is: the directories and the files that are given
/// back, in the order of the claims, and where they are asked for, behind these the whole deleted files. The new volume has as
/// many blocks as the image is read by. `Refused` if nothing is kept and more is wrong with the image than its type, or if no
/// volume has so many blocks. `NoMemory` if an allocation fails.
pub fn prepare(
    alloc: Global,
    input: &[u8],
    judgement: &Judgement<'_>,
    terms: RescueTerms,
) -> Result<Prepared, Unrescued>
    ensures fits { IfOk result (λ p. IsBuildable p.tree p.blocks) }
    ensures kept { IfOk result (IsRescued input.now judgement.now.reading judgement.now.claims.items judgement.now.deleted.items terms) }
{
    let reading = &judgement.reading;
    if !is_allowed_size(reading.blocks) {
        return Err(Unrescued::Refused(fault_at(0, Cause::BadSize)));
    }
    let keeping = terms_for(reading, terms.types);
    let proposal = propose(
        alloc,
        &judgement.claims,
        &judgement.deleted,
        keeping.letters,
        terms.with_deleted,
    )?;
    let kept = keep(
        alloc,
        input,
        reading.held.min(reading.blocks),
        &proposal.entries,
        keeping,
    )?;
    if kept.draft.len() == 0 {
        refuse_empty(alloc, input, reading.blocks, terms.types)?;
    }
    Ok(prepared(alloc, judgement, proposal, kept)?)
}

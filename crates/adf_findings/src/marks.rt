// The marks of sound entries.

ghost use Rattle.std.specs.Prelude.{◌≡◌, ◌≤◌, ◌<◌, ◌^◌, ◌==◌, ◌&&◌, ◌||◌, ℕ, Bool, IfOk, IsTrue, None, false, map, not};
ghost use Rattle.std.specs.{Prelude.OnOk, Prelude.slice_index_or, List.filter};
ghost use Rattle.adf_blocks.specs.{declared.layout.TheConstants.TYPE, declared.layout.TheConstants.T_DATA, Sizes.blocks};
ghost use Rattle.adf_volume.specs.Image.{word_in};
ghost use Rattle.adf_findings.specs.Concerned.{is_contested, is_taken};
ghost use Rattle.adf_findings.specs.{Files.is_harmless, Files.is_light, Parts.finding_value, Members.has_mark};
ghost use Rattle.adf_findings.specs.Marks.{blamed, doubted, is_blamed, is_doubted, is_header, is_node, is_undoubted};

use crate::concern::Concern;
use crate::finding::Finding;
use crate::found::Found;
use crate::image::SizedImage;
use crate::owners::{data_number_of, entry_of, is_taken};
use crate::survey_result::number_at;
use adf_base::NoMemory;
use adf_blocks::{Cause, T_DATA, TYPE};
use adf_tree::Kind;
use adf_volume::Part;
use std::alloc::{AllocError, Global};

// How many blocks are asked at once whether a file is in doubt by them.
const CHUNK: u32 = 256;

// Removes the mark of a node.
fn strike(marks: &mut Vec<bool>, node: usize)
    ensures { (m : ℕ)
        → has_mark marks.new.items m ≡ (has_mark marks.old.items m && not (node == m)) }
{
    if node < marks.len() {
        marks[node] = false;
    }
}

// Whether node `node` is the header at a position in the chain of a slot of a directory.
fn is_header(found: &Found, node: u32, parent: u32, slot: u8, place: u32) -> bool
    ensures { result ≡ is_header found.now node parent slot place }
{
    if node == 0 || found.parents.get(node as usize).copied().unwrap_or(0) != parent {
        return false;
    }
    match found.places.get(node as usize - 1) {
        Some(at) => at.slot == slot && at.place == place,
        None => false,
    }
}

// What a finding of the part concerns.
fn blamed(found: &Found, part: Option<Part>) -> Option<Concern>
    ensures { result ≡ blamed found.now part }
{
    let part = part?;
    match part {
        Part::Head {
            node,
            parent,
            slot,
            place,
        } => {
            if is_header(found, node, parent, slot, place) {
                Some(Concern::Entry(node))
            } else {
                Some(Concern::Within(parent))
            }
        }
        Part::Ext(node, _) | Part::Data(node, _) => Some(Concern::Entry(node)),
        _ => None,
    }
}

// Whether a block was skipped, or has the type of an OFS data block.
fn is_dubious(image: &SizedImage<'_>, found: &Found, b: u32) -> bool
    ensures { result ≡ (slice_index_or found.now.skipped.items b false || (word_in image.now b TYPE == T_DATA)) }
{
    found.skipped.get(b as usize).copied().unwrap_or(false) || image.word(b, TYPE) == T_DATA
}

// The file of the data block at block `b`, if the block was also skipped, or says that it is an OFS one; `None` if it is
// no data block.
#[tactic(auto, using(crate::proofs::SoundMarks::none_doubted))]
fn doubted(image: &SizedImage<'_>, found: &Found, b: u32) -> Option<usize>
    ensures { result ≡ doubted image.now found.now b }
{
    if !is_dubious(image, found, b) {
        return None;
    }
    let owner = found.owners.at(b);
    let number = data_number_of(&owner);
    if number == 0 {
        return None;
    }
    let node = entry_of(&owner);
    let was_skipped = found.skipped.get(b as usize).copied().unwrap_or(false);
    if was_skipped || image.says_data_of(number_at(&found.nodes, node), number, b) {
        Some(node)
    } else {
        None
    }
}

/// What the findings concern, in the order of the findings.
pub fn concerned(
    alloc: Global,
    found: &Found,
    findings: &[Finding],
) -> Result<Vec<Option<Concern>>, NoMemory>
    ensures { IfOk result (λ v. v.items
        ≡ map (λ x. blamed found.now x.part) findings.now) }
{
    let mut concerns = Vec::with_capacity(alloc, findings.len())?;
    for finding in findings {
        concerns.push(blamed(found, finding.part))?;
    }
    Ok(concerns)
}

/// Removes the marks of entries that findings concern, and of directories within which a header was skipped.
pub fn strike_blamed(found: &Found, findings: &[Finding], marks: &mut Vec<bool>)
    ensures { (m : ℕ) → has_mark marks.new.items m
        ≡ (has_mark marks.old.items m && not (is_blamed found.now findings.now m)) }
{
    for finding in findings {
        if let Some(concern) = blamed(found, finding.part) {
            strike(marks, concern.node() as usize);
        }
    }
}

// Removes the mark of the file of the data block at block `b`, if the block was also skipped, or says that it is an OFS one.
fn strike_doubted_at(image: &SizedImage<'_>, found: &Found, marks: &mut Vec<bool>, b: u32)
    ensures { (m : ℕ) → has_mark marks.new.items m
        ≡ (has_mark marks.old.items m && not (is_node (doubted image.now found.now b) m)) }
{
    if let Some(node) = doubted(image, found, b) {
        strike(marks, node);
    }
}

// Whether no file is in doubt by the blocks from `first` up to, but not including, `end`: parts own none of them, or no
// block was skipped and none has the type of an OFS data block.
#[tactic(auto, using(crate::proofs::Doubts::unowned_sure, crate::proofs::Doubts::untyped_sure))]
fn are_sure(image: &SizedImage<'_>, found: &Found, first: u32, end: u32) -> bool
    requires { end ≤ blocks image.now }
    ensures { IsTrue result → (b : ℕ) → first ≤ b → b < end → doubted image.now found.now b ≡ None }
{
    if found.owners.are_parts(first, end, false) {
        return true;
    }
    if !found.skipped.is_empty() {
        return false;
    }
    for b in first..end {
        if image.block(b).word(TYPE) == T_DATA {
            return false;
        }
    }
    true
}

// Removes the marks of files in doubt by the blocks from `first` up to, but not including, `end`.
fn strike_doubted_among(
    image: &SizedImage<'_>,
    found: &Found,
    marks: &mut Vec<bool>,
    first: u32,
    end: u32,
)
    requires order { first ≤ end }
    requires inside { end ≤ blocks image.now }
    ensures { (m : ℕ) (t : Bool) → has_mark marks.old.items m ≡ (t && not (is_doubted image.now found.now first m))
        → has_mark marks.new.items m ≡ (t && not (is_doubted image.now found.now end m)) }
{
    if are_sure(image, found, first, end) {
        return;
    }
    for b in first..end {
        strike_doubted_at(image, found, marks, b);
    }
}

// Removes the marks of files with a data block that was also skipped, or says that it is an OFS one.
fn strike_doubted(image: &SizedImage<'_>, found: &Found, marks: &mut Vec<bool>)
    ensures { (m : ℕ) → has_mark marks.new.items m
        ≡ (has_mark marks.old.items m && not
        (is_doubted image.now found.now (blocks image.now) m)) }
{
    let blocks = image.blocks();
    for i in 0..blocks.div_ceil(CHUNK) {
        let first = CHUNK * i;
        strike_doubted_among(image, found, marks, first, (first + CHUNK).min(blocks));
    }
}

// Whether a header with this cause is itself, with the words that tell where its file's blocks are.
fn is_harmless(cause: Cause) -> bool
    ensures { result ≡ is_harmless cause }
{
    matches!(
        cause,
        Cause::BadName | Cause::BadComment | Cause::WrongSlot | Cause::BadFirst | Cause::SameName
    )
}

// Whether a finding leaves a file its blocks: a harmless one of a header.
fn is_light(finding: Finding) -> bool
    ensures { result ≡ is_light (finding_value finding) }
{
    match finding.part {
        Some(Part::Head { .. }) => is_harmless(finding.cause),
        _ => false,
    }
}

/// The findings but those that leave a file its blocks.
pub fn grave(alloc: Global, findings: &[Finding]) -> Result<Vec<Finding>, NoMemory>
    ensures { IfOk result (λ v. v.items ≡ filter (λ x. not (is_light (finding_value x))) findings.now) }
{
    let mut graves = Vec::new(alloc);
    for finding in findings {
        if is_light(*finding) {
            continue;
        }
        graves.push(*finding)?;
    }
    Ok(graves)
}

// Marks a block, with no marks for those between the last and it.
fn mark(marks: &mut Vec<bool>, b: usize) -> Result<(), AllocError>
    requires { b < 2 ^ 32 }
    ensures { OnOk result ((m : ℕ) → has_mark marks.new.items m ≡ ((b == m) || has_mark marks.old.items m)) }
{
    if b >= marks.len() {
        marks.resize(b + 1, false)?;
    }
    marks[b] = true;
    Ok(())
}

/// The marks of the blocks of which findings say that they are taken: a part has each, and another one asks for it. There are
/// none if no finding says so.
pub fn contested(alloc: Global, findings: &[Finding]) -> Result<Vec<bool>, NoMemory>
    ensures { IfOk result (λ v. (b : ℕ) → has_mark v.items b ≡ is_contested (map finding_value findings.now) b) }
{
    let mut marks = Vec::new(alloc);
    for finding in findings {
        if is_taken(finding.cause) {
            mark(&mut marks, finding.block as usize)?;
        }
    }
    Ok(marks)
}

/// The marks of the nodes: true but for FFS files with a data block that was also skipped, or says that it is an OFS one.
pub fn undoubted_marks(
    alloc: Global,
    image: &SizedImage<'_>,
    found: &Found,
) -> Result<Vec<bool>, NoMemory>
    ensures { IfOk result (λ v. (m : ℕ)
        → has_mark v.items m ≡ is_undoubted image.now found.now m) }
{
    let mut marks = vec![in alloc; true; found.nodes.len()]?;
    match image.kind() {
        Kind::Ofs => (),
        Kind::Ffs => strike_doubted(image, found, &mut marks),
    }
    Ok(marks)
}

// The files of an image, by their headers alone.

ghost use Rattle.std.specs.Prelude.{◌≡◌, ◌<◌, ◌≤◌, ◌+◌, ◌^◌, ◌↔◌, ◌++◌, ℕ, List, [], IfErr, IfNone, IfOk, IfSome, MatchResult, IsTrue, length};
ghost use Rattle.std.proofs.Common.{suc};
ghost use Rattle.adf_tree.specs.declared.entry.Body.TheVariants.{File};
ghost use Rattle.adf_blocks.specs.{Sizes.blocks, Sizes.count, declared.layout.TheConstants.SIZE, declared.layout.TheConstants.SECONDARY_TYPE};
ghost use Rattle.adf_blocks.specs.declared.layout.TheConstants.{ST_FILE};
ghost use Rattle.adf_volume.specs.{Image.content, Image.word_in, Lists.At};
ghost use Rattle.adf_keep.specs.{Marks.AreClaimed, File.HasExts, File.HaveForms, File.is_ofs_data_of, File.IsFileOf, File.IsHeld, File.datas_from, File.tables_from, File.tables_needed, Reasons.IsFileFault};

use crate::claims::release;
use crate::held::Held;
use crate::proposal::Why;
use crate::tables::{claim_named, claim_tables};
use adf_base::NoMemory;
use adf_blocks::SIZE;
use adf_build::ext_count;
use adf_names::{Kind, Meta};
use adf_tree::{Body, Bytes};
use adf_volume::{Pieces, count_of, joined};
use std::alloc::Global;

/// An entry that was read: its comment, protection bits and date, its body, and the blocks that it claims.
#[derive(Drop)]
pub struct Found {
    pub meta: Meta,
    pub body: Body,
    pub claimed: Vec<u32>,
}

// Whether a block has the form of data block `number`, counted from 1, of the file with its header at block `head`.
fn has_form(image: &Held<'_>, kind: Kind, head: u32, number: u32, b: u32) -> bool
    ensures { result ≡ is_ofs_data_of kind image.now head number b }
{
    match kind {
        Kind::Ofs => image.says_ofs_data(head, number, b),
        Kind::Ffs => true,
    }
}

// Whether the data blocks of a file have their form.
fn have_forms(image: &Held<'_>, kind: Kind, head: u32, datas: &[u32]) -> bool
    requires { length datas.now < 2 ^ 32 }
    ensures { IsTrue result ↔ HaveForms kind image.now head datas.now }
{
    for k in 0..datas.len() {
        if !has_form(image, kind, head, k as u32 + 1, datas[k]) {
            return false;
        }
    }
    true
}

// The bytes of a file of this size in these data blocks.
fn body_in(
    alloc: Global,
    image: &Held<'_>,
    kind: Kind,
    size: u32,
    datas: &[u32],
) -> Result<Body, NoMemory>
    requires inside { (k b : ℕ) → At datas.now k b → IsHeld image.now b }
    requires few { 1 + length datas.now < 2 ^ 32 }
    ensures { (h : ℕ) → size ≡ word_in image.now h SIZE
        → IfOk result (λ body. body ≡ File (content image.now kind h datas.now)) }
{
    let bytes = joined(alloc, Pieces::new(image.bytes(), kind, size, datas))?;
    Ok(Body::File(Bytes::new(bytes)))
}

// Claims the blocks of the file with its header at block `head`, and looks at them; else says why it is not kept.
fn claim_file(
    image: &Held<'_>,
    kind: Kind,
    head: u32,
    marks: &mut Vec<bool>,
    tables: &mut Vec<u32>,
    datas: &mut Vec<u32>,
) -> Result<Option<Why>, NoMemory>
    requires held { IsHeld image.now head }
    requires tables { tables.old.items ≡ [] }
    requires none { datas.old.items ≡ [] }
    requires claims { (bs : List ℕ) × AreClaimed (blocks image.now) marks.old.items bs }
    ensures claims { (n : ℕ) (bs : List ℕ) → AreClaimed n marks.old.items bs
        → IfOk result (λ _. AreClaimed n marks.new.items ((bs ++ tables.new.items) ++ datas.new.items)) }
    ensures table { IfOk result (λ r. IfNone r (HasExts image.now head (tables_needed (count kind (word_in image.now head SIZE))))) }
    ensures fault { (bs : List ℕ) → AreClaimed (blocks image.now) marks.old.items bs
        → IfOk result (λ r. IfSome r (IsFileFault kind image.now bs head)) }
    ensures tables { IfOk result (λ r. IfNone r (tables.new.items ≡ tables_from kind image.now head)) }
    ensures named { IfOk result (λ r. IfNone r (datas.new.items ≡ datas_from kind image.now head)) }
    ensures forms { IfOk result (λ r. IfNone r
        (HaveForms kind image.now head datas.new.items)) }
{
    let size = image.word(head, SIZE);
    let needed = count_of(kind, size) as usize;
    let refused_table = claim_tables(image, head, 1 + ext_count(needed), marks, tables)?;
    if refused_table.is_some() {
        return Ok(refused_table);
    }
    let refused = claim_named(image, head, needed, marks, datas)?;
    if refused.is_some() {
        return Ok(refused);
    }
    if have_forms(image, kind, head, datas) {
        Ok(None)
    } else {
        Ok(Some(Why::BadData))
    }
}

/// Reads a file, and claims its blocks; else says why it is not kept, and nothing is claimed. `NoMemory` if an allocation
/// fails; then the marks are of no use.
pub fn read_file(
    alloc: Global,
    image: &Held<'_>,
    kind: Kind,
    head: u32,
    meta: Meta,
    marks: &mut Vec<bool>,
) -> Result<Result<Found, Why>, NoMemory>
    requires held { IsHeld image.now head }
    requires file { word_in image.now head SECONDARY_TYPE ≡ ST_FILE }
    requires claims { (bs : List ℕ) × AreClaimed (blocks image.now) marks.old.items bs }
    ensures { (bs : List ℕ) → AreClaimed (blocks image.now) marks.old.items bs → IfOk result (λ r. MatchResult r
        (λ f. (f.meta ≡ meta) × IsFileOf kind image.now head f.body f.claimed.items × AreClaimed (blocks image.now) marks.new.items (bs ++ f.claimed.items))
        (λ why. IsFileFault kind image.now bs head why × AreClaimed (blocks image.now) marks.new.items bs)) }
{
    let mut claimed = Vec::new(alloc);
    let mut datas = Vec::new(alloc);
    if let Some(why) = claim_file(image, kind, head, marks, &mut claimed, &mut datas)? {
        release(marks, datas);
        release(marks, claimed);
        return Ok(Err(why));
    }
    let body = body_in(alloc, image, kind, image.word(head, SIZE), &datas)?;
    claimed.extend_from_slice(&datas)?;
    Ok(Ok(Found {
        meta,
        body,
        claimed,
    }))
}

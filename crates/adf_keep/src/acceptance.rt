// The rescue of an image that is accepted: its own tree.

ghost use Rattle.std.specs.Prelude.{◌≡◌, ◌≢◌, [], Some, true, ℕ, List, IfNone, IfOk, IfSome, IsTrue};
ghost use Rattle.std.proofs.Common.{suc};
ghost use Rattle.adf_base.specs.declared.hash.Letters.{Letters};
ghost use Rattle.adf_tree.specs.Tree.{Tree};
ghost use Rattle.adf_blocks.specs.Sizes.{blocks as blocks_in};
ghost use Rattle.adf_check.specs.Volumes.{OnVolume};
ghost use Rattle.adf_volume.specs.{Fits.FitsBy, Layout.Layout, Lists.At, Types.letters_for, Walk.FirstFaultBy};
ghost use Rattle.adf_keep.specs.{File.says_ofs_data, Rescued.FileSaysOfs, Rescued.IsOwnTree, Rescued.SaysOfs};

use crate::forms::says_data;
use crate::prepared::Prepared;
use adf_base::{Block, NoMemory};
use adf_blocks::Cause;
use adf_check::{Checked, check_by};
use adf_names::Kind;
use adf_tree::Node;
use adf_volume::{Fault, Types};
use std::alloc::Global;

// Whether a block says that it is OFS data block `number` of the file with its header at block `head`.
fn says_one(image: &[u8], head: u32, number: u32, b: u32) -> bool
    ensures { IsTrue result → says_ofs_data image.now head number b ≡ true }
{
    match Block::at(image, b) {
        Some(block) => says_data(&block, head, number),
        None => false,
    }
}

// Whether one of these data blocks of the file with its header at block `head` says that it is an OFS one of that file.
fn one_says(image: &[u8], head: u32, datas: &[u32]) -> bool
    ensures { IsTrue result → (k : ℕ) × (b : ℕ) × At datas.now k b × (says_ofs_data image.now head (suc k) b ≡ true) }
{
    for k in 0..datas.len() {
        if let Ok(number) = u32::try_from(k + 1) {
            if says_one(image, head, number, datas[k]) {
                return true;
            }
        }
    }
    false
}

// Whether a data block of a file says that it is an OFS one of that file.
fn file_says(image: &[u8], volume: &Checked<'_>, n: Node) -> bool
    requires { volume.now ≡ image.now }
    ensures { OnVolume volume.now (λ _ l. IsTrue result → FileSaysOfs volume.now l n) }
{
    match volume.block_of(n) {
        Some(head) => one_says(image, head, volume.blocks_of(n)),
        None => false,
    }
}

// Whether a data block of a volume says that it is an OFS one of its file.
fn any_says(image: &[u8], volume: &Checked<'_>) -> bool
    requires { volume.now ≡ image.now }
    ensures { OnVolume volume.now (λ _ l. IsTrue result → (n : ℕ) × FileSaysOfs volume.now l n) }
{
    for before in 0..volume.len() {
        if file_says(image, volume, Node(before + 1)) {
            return true;
        }
    }
    false
}

// Whether a data block of an FFS volume says that it is an OFS one of its file.
fn says_ofs(image: &[u8], volume: &Checked<'_>) -> bool
    requires { volume.now ≡ image.now }
    ensures { OnVolume volume.now (λ t l. IsTrue result → SaysOfs volume.now t l) }
{
    match volume.counts().kind {
        Kind::Ofs => false,
        Kind::Ffs => any_says(image, volume),
    }
}

// The rescue of an accepted volume.
fn whole(alloc: Global, volume: &Checked<'_>) -> Result<Prepared, NoMemory>
    ensures tree { OnVolume volume.now (λ t _. IfOk result (λ p. p.tree ≡ t)) }
    ensures size { IfOk result (λ p. p.blocks ≡ blocks_in volume.now) }
    ensures none { IfOk result (λ p. p.left_out.items ≡ []) }
    ensures deleted { IfOk result (λ p. p.deleted_out.items ≡ []) }
{
    let blocks = volume.counts().blocks;
    let tree = volume.to_tree(alloc)?;
    Ok(Prepared {
        tree,
        blocks,
        left_out: Vec::new(alloc),
        deleted_out: Vec::new(alloc),
        deleted_directory: Vec::new(alloc),
    })
}

// The rescue of an accepted volume, unless a data block of it says that it is an OFS one.
fn whole_of(alloc: Global, image: &[u8], volume: &Checked<'_>) -> Result<Option<Prepared>, NoMemory>
    requires { volume.now ≡ image.now }
    ensures whole { (types : Types) (t : Tree) (l : Layout) → FitsBy (letters_for types volume.now) volume.now t l
        → IfOk result (λ r. IfSome r (IsOwnTree types volume.now)) }
    ensures none { OnVolume volume.now (λ t l. IfOk result (λ r. IfNone r (SaysOfs volume.now t l))) }
{
    if says_ofs(image, volume) {
        return Ok(None);
    }
    let prepared = whole(alloc, volume)?;
    Ok(Some(prepared))
}

// A fault of an image; but of a check for which memory was refused nothing is known.
fn known(fault: Fault) -> Result<Option<Fault>, NoMemory>
    ensures fault { IfOk result (λ f. f ≡ Some fault) }
    ensures known { IfOk result (λ _. fault.cause ≢ Cause.NoMemory) }
{
    match fault.cause {
        Cause::NoMemory => Err(NoMemory),
        _ => Ok(Some(fault)),
    }
}

/// The rescue of an image that is accepted by these types: its own tree, with nothing left out. `None` if it is not accepted, or
/// a data block of an FFS volume says that it is an OFS one of its file: then it is to be judged. `NoMemory` if an allocation
/// fails.
pub fn accepted(alloc: Global, image: &[u8], types: Types) -> Result<Option<Prepared>, NoMemory>
    ensures whole { IfOk result (λ r. IfSome r (IsOwnTree types image.now)) }
    ensures none { IfOk result (λ r. IfNone r ((t : Tree) (l : Layout)
        → FitsBy (letters_for types image.now) image.now t l → SaysOfs image.now t l)) }
{
    match check_by(alloc, types.letters_for(image), image) {
        Ok(volume) => whole_of(alloc, image, &volume),
        Err(fault) => {
            known(fault)?;
            Ok(None)
        }
    }
}

/// The first fault of an image where these types are accepted; `None` if it has none. `NoMemory` if an allocation fails.
pub fn first_fault(alloc: Global, image: &[u8], types: Types) -> Result<Option<Fault>, NoMemory>
    ensures fault { IfOk result (λ r. IfSome r (λ f. FirstFaultBy (letters_for types image.now) image.now f.block f.cause)) }
    ensures none { IfOk result (λ r. IfNone r ((t : Tree) × (l : Layout) × FitsBy (letters_for types image.now) image.now t l)) }
{
    let Err(fault) = check_by(alloc, types.letters_for(image), image) else {
        return Ok(None);
    };
    known(fault)
}

// The whole check.

ghost use Rattle.adf_volume.specs.{Fault.IsTrueFaultBy, Image.letters_of, Image.root_of, Layout.Layout};
ghost use Rattle.adf_volume.specs.Fits.{Fits, FitsBy, FitsOf};
ghost use Rattle.adf_volume.specs.Walk.{FirstFault, FirstFaultBy, FirstFaultOf};
ghost use Rattle.adf_base.specs.Words.{block};
ghost use Rattle.adf_blocks.specs.Sizes.{blocks};
ghost use Rattle.adf_volume.specs.Types.{most_blocks};
ghost use Rattle.std.specs.Prelude.{◌≡◌, ◌≢◌, IfOk, IfErr, nat_lt};
ghost use Rattle.adf_tree.specs.Tree.{Tree};
ghost use Rattle.adf_volume.specs.Start.{IsBegun, IsBegunBy, IsBegunOf, IsOwnBegun};
ghost use Rattle.adf_check.specs.Own.{IsOwnFault};

use crate::bitmap::check_bitmap;
use crate::checked::Checked;
use crate::nodes::read_nodes;
use crate::pages::read_pages;
use crate::store::Store;
use adf_base::{BLOCK_LEN, Letters};
use adf_blocks::Cause;
use adf_volume::{Fault, Opened, Types, fault_at, open_by};
use std::alloc::Global;

/// Checks an image of type 0 or 1. Returns its volume, or the first fault and its block.
///
/// The order of the checks: the size and the first four bytes; the root; the bitmap pages by number, each bitmap
/// extension block before its pages; the nodes by number (for a directory the chain of each slot, for a file its
/// extension blocks, their number and its data blocks); the bitmap in ascending order of blocks. `NoMemory` at block 0
/// if an allocation fails, which can happen only after the root was accepted; nothing else is then known of the image.
pub fn check<'a>(alloc: Global, image: &'a [u8]) -> Result<Checked<'a>, Fault>
    // A checked volume is seen as its image.
    ensures image { IfOk result (λ v. v ≡ image.now) }

    // A tree and a layout fit the image. No others fit, by `one_fit` of adf_volume.
    ensures fits { IfOk result (λ v. (t : Tree) × (l : Layout) × Fits v t l) }

    // A fault is the first one, and no tree fits the image.
    ensures first { IfErr result (λ f. f.cause ≢ Cause.NoMemory
        → FirstFault image.now f.block f.cause) }
    ensures none { IfErr result (λ f. f.cause ≢ Cause.NoMemory → (t : Tree) (l : Layout)
        → Fits image.now t l → ⊥) }

    // `NoMemory` is reported at block 0, and only if the size, the boot bytes and the root are valid.
    ensures memory { IfErr result (λ f. f.cause ≡ Cause.NoMemory → f.block ≡ 0) }
    ensures begun { IfErr result (λ f. f.cause ≡ Cause.NoMemory → IsBegun image.now) }
{
    check_types(alloc, Types::Plain, image)
}

/// Checks an image of one of the accepted types, in the same order, by the letters of its type. `BadSize` at block 0 if it
/// is larger than they may be. `NoMemory` as in `check`.
pub fn check_types<'a>(alloc: Global, types: Types, image: &'a [u8]) -> Result<Checked<'a>, Fault>
    ensures image { IfOk result (λ v. v ≡ image.now) }
    ensures fits { IfOk result (λ v. (t : Tree) × (l : Layout) × FitsOf types v t l) }
    ensures first { IfErr result (λ f. f.cause ≢ Cause.NoMemory
        → FirstFaultOf types image.now f.block f.cause) }
    ensures none { IfErr result (λ f. f.cause ≢ Cause.NoMemory → (t : Tree) (l : Layout)
        → FitsOf types image.now t l → ⊥) }
    ensures memory { IfErr result (λ f. f.cause ≡ Cause.NoMemory → f.block ≡ 0) }
    ensures begun { IfErr result (λ f. f.cause ≡ Cause.NoMemory → IsBegunOf types image.now) }
{
    if is_too_large(types, image) {
        return Err(fault_at(0, Cause::BadSize));
    }
    check_by(alloc, types.letters_for(image), image)
}

/// Checks an image of a volume whose names have these letters, in the same order, up to 4 GiB. `NoMemory` as in `check`.
pub fn check_by<'a>(alloc: Global, letters: Letters, image: &'a [u8]) -> Result<Checked<'a>, Fault>
    ensures image { IfOk result (λ v. v ≡ image.now) }
    ensures fits { IfOk result (λ v. (t : Tree) × (l : Layout) × FitsBy letters v t l) }
    ensures first { IfErr result (λ f. f.cause ≢ Cause.NoMemory
        → FirstFaultBy letters image.now f.block f.cause) }
    ensures none { IfErr result (λ f. f.cause ≢ Cause.NoMemory → (t : Tree) (l : Layout)
        → FitsBy letters image.now t l → ⊥) }
    ensures memory { IfErr result (λ f. f.cause ≡ Cause.NoMemory → f.block ≡ 0) }
    ensures begun { IfErr result (λ f. f.cause ≡ Cause.NoMemory → IsBegunBy letters image.now) }
{
    check_all(alloc, letters, image)
}

// Whether an image has more blocks than a volume of these types may have.
fn is_too_large(types: Types, image: &[u8]) -> bool
    ensures { result ≡ nat_lt (most_blocks types) (blocks image.now) }
{
    image.len() / BLOCK_LEN > types.most_blocks() as usize
}

// Checks an image of a volume with these letters: any fault is the first one.
fn check_all<'a>(alloc: Global, letters: Letters, image: &'a [u8]) -> Result<Checked<'a>, Fault>
    ensures image { IfOk result (λ v. v ≡ image.now) }
    ensures fits { IfOk result (λ v. (t : Tree) × (l : Layout) × FitsBy letters v t l) }
    ensures fault { IfErr result (IsTrueFaultBy letters image.now) }
    ensures begun { IfErr result (λ f. f.cause ≡ Cause.NoMemory → IsBegunBy letters image.now) }
{
    let opened = open_by(letters, image)?;
    check_opened(alloc, opened)
}

// Checks an image behind its root, by its letters: any fault is the first one.
#[tactic(auto, unfolding(adf_volume::specs::Image::name_of, adf_volume::specs::Image::stamps_of))]
fn check_opened<'a>(alloc: Global, opened: Opened<'a>) -> Result<Checked<'a>, Fault>
    requires root { opened.root ≡ block opened.image (root_of opened.image) }
    ensures image { IfOk result (λ v. v ≡ opened.entry.image) }
    ensures fits { IfOk result (λ v.
        (t : Tree) × (l : Layout) × FitsBy (letters_of opened.entry.image) v t l) }
    ensures fault { IfErr result (IsOwnFault opened.entry.image) }
    ensures begun { IsOwnBegun opened.entry.image }
{
    opened.image.begun();
    let mut store = Store::begin(alloc, &opened.image)?;
    let pages = read_pages(alloc, &opened.image, &opened.root, &mut store)?;
    read_nodes(alloc, &opened.image, &mut store)?;
    check_bitmap(&opened.image, &store, &pages)?;
    Ok(Checked::new(
        opened.image,
        store,
        opened.root.label(),
        opened.root.stamps(),
    ))
}

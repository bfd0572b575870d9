// Images that are checked for a command.

ghost use Rattle.std.specs.Prelude.{◌≡◌, false, IfErr, IfOk};
ghost use Rattle.adf_tree.specs.Tree.{Tree};
ghost use Rattle.adf_volume.specs.{Fits.Fits, Fits.FitsOf, Layout.Layout, Walk.FirstFaultOf};
ghost use Rattle.adf_cmd.specs.Refusals.{IsRefusedImage};
ghost use Rattle.adf_runs.specs.Outcomes.{Blames};

use adf_base::BLOCK_LEN;
use adf_blocks::{Cause, MOST_PLAIN_BLOCKS};
use adf_check::{Checked, Fault, check_types};
use adf_runs::Outcome;
use adf_texts::refused_line;
use adf_volume::Types;
use std::alloc::{AllocError, Global};

/// The most bytes of an image.
pub const MOST_IMAGE_BYTES: usize = MOST_PLAIN_BLOCKS as usize * BLOCK_LEN;

/// Checks an image of one of these types: its volume, or its first fault. `AllocError` if an allocation failed; it says
/// nothing about the image.
pub fn checked<'a>(
    alloc: Global,
    types: Types,
    image: &'a [u8],
) -> Result<Result<Checked<'a>, Fault>, AllocError>
    ensures image { IfOk result (λ r. IfOk r (λ v. v ≡ image.now)) }
    ensures fits { IfOk result (λ r. IfOk r (λ v.
        (t : Tree) × (l : Layout) × FitsOf types v t l)) }
    ensures first { IfOk result (λ r. IfErr r (λ f.
        FirstFaultOf types image.now f.block f.cause)) }
    ensures none { IfOk result (λ r. IfErr r (λ _. (t : Tree) (l : Layout)
        → FitsOf types image.now t l → ⊥)) }
{
    match check_types(alloc, types, image) {
        Ok(volume) => Ok(Ok(volume)),
        Err(fault) => match fault.cause {
            Cause::NoMemory => Err(AllocError),
            _ => Ok(Err(fault)),
        },
    }
}

/// The volume of an image; of a refused one, how the work ends.
pub fn volume_of<'a>(alloc: Global, image: &'a [u8]) -> Result<Checked<'a>, Outcome>
    ensures image { IfOk result (λ v. v ≡ image.now) }
    ensures fits { IfOk result (λ v. (t : Tree) × (l : Layout) × Fits v t l) }
    ensures refused { IfErr result (IsRefusedImage image.now) }
    ensures blames { IfErr result (λ w. Blames w false false) }
{
    match checked(alloc, Types::Plain, image)? {
        Ok(volume) => Ok(volume),
        Err(fault) => Err(Outcome::Refused(refused_line(alloc, fault)?)),
    }
}

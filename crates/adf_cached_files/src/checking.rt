// The check of an image of a volume with directory caches that is read as it is.

ghost use Rattle.std.specs.Prelude.{◌≡◌, ◌≢◌, IfErr, IfOk, true};
ghost use Rattle.adf_tree.specs.Tree.{Tree};
ghost use Rattle.adf_volume.specs.Layout.{Layout};
ghost use Rattle.adf_uncached.specs.Uncached.{is_cached};
ghost use Rattle.adf_cached_files.specs.InPlace.{FirstFaultInPlace, FitsInPlace, IsKeptOf, IsReadInPlace};

use crate::sameness::is_same_but_bitmap;
use adf_blocks::Cause;
use adf_check::{Checked, Fault};
use adf_uncached::{Uncached, check_uncached, without_caches};
use adf_volume::fault_at;
use std::alloc::Global;

/// Checks the image of a volume with directory caches, which is kept as one without. Returns its volume, seen as the image
/// without caches, if the image differs from that one in the bitmap and the type alone; or the first fault and its block: of the
/// volume, else of the cache of the root. `NoMemory` if an allocation fails.
pub fn check_in_place<'a>(
    alloc: Global,
    image: &[u8],
    uncached: &'a Uncached,
) -> Result<Checked<'a>, Fault>
    requires { IsKeptOf image.now uncached.now }
    ensures image { IfOk result (λ v. v ≡ uncached.now.image.items) }
    ensures fits { IfOk result (λ _. (t : Tree) × (l : Layout) × FitsInPlace image.now t l) }
    ensures first { IfErr result (λ f. f.cause ≢ Cause.NoMemory → FirstFaultInPlace image.now f.block f.cause) }
{
    match check_uncached(alloc, uncached) {
        Ok(volume) => {
            if is_same_but_bitmap(image, &uncached.image, &volume) {
                return Ok(volume);
            }
            Err(fault_at(volume.counts().blocks / 2, Cause::DirCache))
        }
        Err(fault) => Err(fault),
    }
}

/// The image of a volume with directory caches, as that of a volume without, if `check_in_place` accepts it; or the fault that it
/// tells. `NoMemory` if an allocation fails.
pub fn kept_in_place(alloc: Global, image: &[u8]) -> Result<Uncached, Fault>
    requires { is_cached image.now ≡ true }
    ensures kept { IfOk result (λ u. IsReadInPlace image.now u) }
    ensures first { IfErr result (λ f. f.cause ≢ Cause.NoMemory → FirstFaultInPlace image.now f.block f.cause) }
{
    let uncached = without_caches(alloc, image)?;
    match check_in_place(alloc, image, &uncached) {
        Ok(_) => {}
        Err(fault) => return Err(fault),
    }
    Ok(uncached)
}

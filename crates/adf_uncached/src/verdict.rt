// The check of an image of a volume with directory caches.

ghost use Rattle.std.specs.Prelude.{◌≡◌, ◌≢◌, IfErr, IfNone, IfOk, IfSome, Some, None, length};
ghost use Rattle.adf_tree.specs.Tree.{Tree};
ghost use Rattle.adf_volume.specs.{Counts.counts_of, Fits.FitsOf, Layout.Layout, Walk.FirstFaultOf};
ghost use Rattle.adf_volume.specs.declared.types.Types.TheVariants.{WithInternational};
ghost use Rattle.adf_check.specs.Volumes.{OnVolume};
ghost use Rattle.adf_uncached.specs.Verdict.{FirstFaultUncached, FitsUncached, is_of_bit, with_used};

use crate::images::Uncached;
use adf_blocks::Cause;
use adf_check::{Checked, Counts, Fault, check_types};
use adf_volume::Types;
use std::alloc::Global;

// Whether a cause is one of a bit of the bitmap.
fn is_of_bit(cause: Cause) -> bool
    ensures { result ≡ is_of_bit cause }
{
    matches!(cause, Cause::LostBlock | Cause::OwnedFree)
}

// The first fault of an image as a volume of type 0 to 3, if it has one. `NoMemory` if an allocation fails.
fn fault_of(alloc: Global, image: &[u8]) -> Option<Fault>
    ensures first { IfSome result (λ f. f.cause ≢ Cause.NoMemory → FirstFaultOf WithInternational image.now f.block f.cause) }
    ensures fits { IfNone result ((t : Tree) × (l : Layout) × FitsOf WithInternational image.now t l) }
{
    let Err(fault) = check_types(alloc, Types::WithInternational, image) else {
        return None;
    };
    Some(fault)
}

// The first fault of an image as one without caches, where its caches have this fault. `NoMemory` if an allocation fails.
fn first_fault(alloc: Global, image: &[u8], of_caches: Fault) -> Fault
    ensures { result.cause ≢ Cause.NoMemory → FirstFaultUncached (Some of_caches) image.now result.block result.cause }
{
    match fault_of(alloc, image) {
        Some(fault) => {
            if is_of_bit(fault.cause) {
                return of_caches;
            }
            fault
        }
        None => of_caches,
    }
}

/// Checks the image of a volume with directory caches. Returns its volume, seen as the image without caches, or the first fault
/// and its block: of a part, else of the caches, else of a bit of the bitmap. `NoMemory` if an allocation fails.
pub fn check_uncached<'a>(alloc: Global, uncached: &'a Uncached) -> Result<Checked<'a>, Fault>
    ensures image { IfOk result (λ v. v ≡ uncached.now.image.items) }
    ensures fits { IfOk result (λ v. (t : Tree) × (l : Layout) × FitsUncached uncached.now.fault v t l) }
    ensures first { IfErr result (λ f. f.cause ≢ Cause.NoMemory
        → FirstFaultUncached uncached.now.fault uncached.now.image.items f.block f.cause) }
{
    match uncached.fault {
        Some(of_caches) => Err(first_fault(alloc, &uncached.image, of_caches)),
        None => check_types(alloc, Types::WithInternational, &uncached.image),
    }
}

/// The counts of a volume with directory caches: as one without, with the blocks of the caches in use.
pub fn counts_with_caches(uncached: &Uncached, volume: &Checked<'_>) -> Counts
    ensures { OnVolume volume.now (λ t l.
        result ≡ with_used (length uncached.now.blocks.items) (counts_of volume.now t l)) }
{
    let counts = volume.counts();
    let more = uncached.blocks.len().min(counts.free as usize) as u32;
    Counts {
        used: counts.used + more,
        free: counts.free - more,
        ..counts
    }
}

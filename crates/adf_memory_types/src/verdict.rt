// The verdict on an image of type 0 to 5.

ghost use Rattle.std.specs.Prelude.{◌≡◌, true};
ghost use Rattle.adf_cached_files.specs.InPlace.{IsKeptOf};
ghost use Rattle.adf_memory.specs.Verdicts.{refused};
ghost use Rattle.adf_uncached.specs.Uncached.{is_cached};
ghost use Rattle.adf_memory_types.specs.CachedCalls.{ChecksAnyType, ChecksWithCaches, accepted_cached};

use crate::cached::{is_cached_image, told_block};
use adf_base::Letters;
use adf_blocks::Cause;
use adf_cached_files::check_in_place;
use adf_check::Counts;
use adf_memory::{Verdict, check_image};
use adf_names::type_number;
use adf_uncached::{Uncached, counts_with_caches, without_caches};
use adf_volume::Types;
use std::alloc::Global;

// The verdict on an accepted image of a volume with directory caches.
fn accepted_cached(counts: &Counts) -> Verdict
    ensures { result ≡ accepted_cached counts.now }
{
    Verdict {
        kind: u32::from(type_number(Letters::International, counts.kind)) + 2,
        blocks: counts.blocks,
        used: counts.used,
        free: counts.free,
        dirs: counts.dirs,
        files: counts.files,
        block: 0,
    }
}

// The verdict on a refused image.
fn refused(block: u32) -> Verdict
    ensures { result ≡ refused block }
{
    Verdict {
        kind: 0,
        blocks: 0,
        used: 0,
        free: 0,
        dirs: 0,
        files: 0,
        block,
    }
}

// Checks an image that is kept as one without caches.
fn check_kept(alloc: Global, image: &[u8], uncached: &Uncached, verdict: &mut Verdict) -> u8
    requires { IsKeptOf image.now uncached.now }
    ensures { ChecksWithCaches image.now verdict.new result }
{
    match check_in_place(alloc, image, uncached) {
        Ok(volume) => {
            *verdict = accepted_cached(&counts_with_caches(uncached, &volume));
            0
        }
        Err(fault) => {
            *verdict = refused(told_block(fault));
            fault.cause.number()
        }
    }
}

// Checks an image of a volume with directory caches.
fn check_cached(alloc: Global, image: &[u8], verdict: &mut Verdict) -> u8
    requires { is_cached image.now ≡ true }
    ensures { ChecksWithCaches image.now verdict.new result }
{
    match without_caches(alloc, image) {
        Ok(uncached) => check_kept(alloc, image, &uncached, verdict),
        Err(_) => {
            *verdict = refused(0);
            Cause::NoMemory.number()
        }
    }
}

/// Checks an image as a volume of type 0 to 5, and fills in the verdict. Returns 0 if the image is accepted, otherwise the number
/// of a cause: that of the first fault, or `NoMemory` if memory ran out. Of types 4 and 5 it takes memory for a copy of it.
pub fn check_image_types(alloc: Global, image: &[u8], verdict: &mut Verdict) -> u8
    ensures { ChecksAnyType image.now verdict.new result }
{
    if is_cached_image(image) {
        return check_cached(alloc, image, verdict);
    }
    check_image(alloc, Types::WithInternational, image, verdict)
}

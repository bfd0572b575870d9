// Volumes with directory caches, which are laid and judged.

ghost use Rattle.std.specs.Prelude.{◌≡◌, ◌≤◌, ◌<◌, IfOk, IfSome, None, length, slice_index, true};
ghost use Rattle.adf_findings.specs.Survey.{OnSurvey};
ghost use Rattle.adf_blocks.specs.Sizes.{blocks};
ghost use Rattle.adf_volume.specs.Image.{root_of};
ghost use Rattle.adf_boot_blocks.specs.declared.boot.TheConstants.{BOOT_LEN};
ghost use Rattle.adf_uncached.specs.Uncached.{IsUncached, cache_fault, is_cached};
ghost use Rattle.adf_cache_laying.specs.LaidCaches.{AllHaveCaches, AreFoundAlike, HasCaches, KeepsBlocks, KeepsTree};

use crate::alike::{are_found_alike, are_of_type_or_links};
use crate::boots::{has_boot, may_have_caches, put_boot};
use crate::directories::all_have_caches;
use crate::kept::keeps_blocks;
use crate::laying::laid;
use crate::trees::keeps_tree;
use adf_base::NoMemory;
use adf_boot_blocks::BOOT_LEN;
use adf_caches::root_block;
use adf_findings::{Survey, survey};
use adf_uncached::{is_cached, without_caches};
use std::alloc::Global;

// Whether all that is found on a volume stands on an image, where each directory has a cache. `NoMemory` if an allocation fails.
fn stands_with_caches(alloc: Global, found: &Survey<'_>, image: &[u8]) -> Result<bool, NoMemory>
    ensures all { IfOk result (λ stands. stands ≡ true → OnSurvey image.now (λ v _. AllHaveCaches image.now v)) }
    ensures found { IfOk result (λ stands. stands ≡ true → OnSurvey found.now.image (λ w fs.
        OnSurvey image.now (λ v gs. AreFoundAlike (blocks found.now.image) w fs v gs))) }
    ensures kept { IfOk result (λ stands. stands ≡ true → OnSurvey found.now.image (λ w _.
        KeepsBlocks found.now.image image.now w)) }
{
    let laid = survey(alloc, image)?;
    if !all_have_caches(&laid) || !are_found_alike(found, &laid) {
        return Ok(false);
    }
    Ok(keeps_blocks(found, image))
}

// Whether the caches of an image are right, and its tree is that of a volume. `NoMemory` if an allocation fails.
fn has_right_caches(alloc: Global, volume: &[u8], image: &[u8]) -> Result<bool, NoMemory>
    ensures right { IfOk result (λ has. has ≡ true → OnSurvey image.now (λ v _. cache_fault image.now v ≡ None)) }
    ensures tree { IfOk result (λ has. has ≡ true → KeepsTree volume.now image.now) }
{
    if !is_cached(image) {
        return Ok(false);
    }
    let uncached = without_caches(alloc, image)?;
    if uncached.fault.is_some() {
        return Ok(false);
    }
    let keeps = keeps_tree(alloc, volume, &uncached)?;
    Ok(keeps)
}

// Whether an image is a volume with directory caches, with the boot blocks that are kept. `NoMemory` if an allocation fails.
fn is_with_caches(
    alloc: Global,
    found: &Survey<'_>,
    boot: &[u8],
    image: &[u8],
) -> Result<bool, NoMemory>
    requires volume { BOOT_LEN ≤ length found.now.image }
    requires boot { BOOT_LEN ≤ length boot.now }
    requires low { slice_index found.now.image 3 < 4 }
    ensures { IfOk result (λ has. has ≡ true → HasCaches found.now.image boot.now image.now) }
{
    let volume = found.image();
    if image.len() != volume.len() || !has_boot(volume, boot, image) {
        return Ok(false);
    }
    let stands = stands_with_caches(alloc, found, image)?;
    if !stands {
        return Ok(false);
    }
    let right = has_right_caches(alloc, volume, image)?;
    Ok(right)
}

// The volume of a survey with directory caches, and with the boot blocks that are kept.
fn with_caches(
    alloc: Global,
    found: &Survey<'_>,
    boot: &[u8],
    root: u32,
) -> Result<Option<Vec<u8>>, NoMemory>
    requires root { root ≡ root_of found.now.image }
    requires volume { BOOT_LEN ≤ length found.now.image }
    requires boot { BOOT_LEN ≤ length boot.now }
    requires low { slice_index found.now.image 3 < 4 }
    ensures { IfOk result (λ laid. IfSome laid (λ image. HasCaches found.now.image boot.now image.items)) }
{
    let Some(mut image) = laid(alloc, found, root)? else {
        return Ok(None);
    };
    if image.len() < BOOT_LEN {
        return Ok(None);
    }
    put_boot(&mut image, found.image(), boot);
    match is_with_caches(alloc, found, boot, &image)? {
        true => Ok(Some(image)),
        false => Ok(None),
    }
}

/// A volume of type 2 or 3 with directory caches: one of type 4 or 5 with a cache for each directory, in the first free blocks of
/// its bitmap, and with the boot blocks that `boot` begins with. They stay as they are, but where their type is another, their
/// checksum is made right if it was. `None` if the volume has not enough free blocks, if it is of another type or has a fault
/// other than links, if `boot` is too short, or if what is laid is not found to be right. `NoMemory` if an allocation fails.
pub fn lay_caches(alloc: Global, volume: &[u8], boot: &[u8]) -> Result<Option<Vec<u8>>, NoMemory>
    ensures { IfOk result (λ laid. IfSome laid (λ image. HasCaches volume.now boot.now image.items)) }
{
    if !may_have_caches(volume) || boot.len() < BOOT_LEN {
        return Ok(None);
    }
    let found = survey(alloc, volume)?;
    match root_block(&found) {
        Some(root) if are_of_type_or_links(&found) => with_caches(alloc, &found, boot, root),
        _ => Ok(None),
    }
}

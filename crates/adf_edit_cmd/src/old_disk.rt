// The disk that is edited: that of an image, or of a manifest in its place.

ghost use Rattle.std.specs.Prelude.{◌≡◌, ◌≤◌, IfOk, length, true};
ghost use Rattle.adf_blocks.specs.Sizes.{blocks, is_allowed};
ghost use Rattle.adf_boot_blocks.specs.declared.boot.TheConstants.{BOOT_LEN};
ghost use Rattle.adf_findings.specs.Survey.{OnSurvey};
ghost use Rattle.adf_tree.specs.Tree.{Tree as TreeValue};
ghost use Rattle.adf_edit_cmd.specs.Edited.{IsOfImage, IsOfManifest, IsOld, IsUncachedTree, IsVolume, IsVolumeWith, disk_of};
ghost use Rattle.adf_uncached.specs.Uncached.{IsUncached, is_cached};
ghost use Rattle.adf_uncached.specs.Verdict.{FitsUncached};
ghost use Rattle.adf_volume.specs.Layout.{Layout};

use crate::manifests::{is_manifest, manifest_tree};
use crate::stop::Stop;
use adf_base::Letters;
use adf_blocks::Cause;
use adf_boot_blocks::BOOT_LEN;
use adf_check::{Checked, check_by};
use adf_tree::Tree;
use adf_uncached::{Uncached, check_uncached, is_cached, without_caches};
use adf_volume::Types;
use std::alloc::Global;

/// The boot blocks of the disk of a manifest.
pub const NO_BOOT: [u8; BOOT_LEN] = [0; BOOT_LEN];

/// The disk that is edited: its tree, the letters by which it is meant, how many blocks it has, bytes that begin with its boot
/// blocks, and whether its directories have caches.
#[derive(Drop)]
pub struct Old<'a> {
    pub tree: Tree,
    pub letters: Letters,
    pub blocks: u32,
    pub boot: &'a [u8],
    pub caches: bool,
}

// The volume of an image of types 0 to 3.
fn volume_of<'a>(alloc: Global, image: &'a [u8]) -> Result<Checked<'a>, Stop>
    ensures image { IfOk result (λ v. v ≡ image.now) }
    ensures fits { IfOk result (λ v. (t : TreeValue) × IsVolume v t) }
{
    match check_by(alloc, Types::WithInternational.letters_for(image), image) {
        Ok(volume) => Ok(volume),
        Err(fault) => match fault.cause {
            Cause::NoMemory => Err(Stop::NoMemory),
            _ => Err(Stop::Image(fault)),
        },
    }
}

// The tree of an image, and the number of its blocks.
fn tree_in(alloc: Global, image: &[u8]) -> Result<(Tree, u32), Stop>
    ensures tree { IfOk result (λ r. IsVolume image.now r.0) }
    ensures size { IfOk result (λ r. r.1 ≡ blocks image.now) }
{
    let volume = volume_of(alloc, image)?;
    let count = volume.counts().blocks;
    match volume.to_tree(alloc) {
        Ok(tree) => Ok((tree, count)),
        Err(_) => Err(Stop::NoMemory),
    }
}

// An image with directory caches, as one without.
fn uncached_of(alloc: Global, image: &[u8]) -> Result<Uncached, Stop>
    requires { is_cached image.now ≡ true }
    ensures { OnSurvey image.now (λ w _. IfOk result (IsUncached image.now w)) }
{
    match without_caches(alloc, image) {
        Ok(uncached) => Ok(uncached),
        Err(_) => Err(Stop::NoMemory),
    }
}

// The volume of an image with directory caches, as one without.
fn uncached_volume<'a>(alloc: Global, uncached: &'a Uncached) -> Result<Checked<'a>, Stop>
    ensures image { IfOk result (λ v. v ≡ uncached.now.image.items) }
    ensures fits { IfOk result (λ v. (t : TreeValue) × (l : Layout) × FitsUncached uncached.now.fault v t l) }
{
    match check_uncached(alloc, uncached) {
        Ok(volume) => Ok(volume),
        Err(fault) => match fault.cause {
            Cause::NoMemory => Err(Stop::NoMemory),
            _ => Err(Stop::Image(fault)),
        },
    }
}

// The tree of an image with directory caches, as one without, and the number of its blocks.
fn uncached_tree(alloc: Global, uncached: &Uncached) -> Result<(Tree, u32), Stop>
    ensures tree { IfOk result (λ r. IsUncachedTree uncached.now r.0) }
    ensures size { IfOk result (λ r. r.1 ≡ blocks uncached.now.image.items) }
{
    let volume = uncached_volume(alloc, uncached)?;
    let count = volume.counts().blocks;
    match volume.to_tree(alloc) {
        Ok(tree) => Ok((tree, count)),
        Err(_) => Err(Stop::NoMemory),
    }
}

// The tree of an image with directory caches, and the number of its blocks.
fn cached_tree(alloc: Global, image: &[u8]) -> Result<(Tree, u32), Stop>
    requires { is_cached image.now ≡ true }
    ensures tree { IfOk result (λ r. IsVolumeWith true image.now r.0) }
    ensures size { IfOk result (λ r. r.1 ≡ blocks image.now) }
{
    let uncached = uncached_of(alloc, image)?;
    let told = uncached_tree(alloc, &uncached)?;
    Ok(told)
}

// The tree of an image with or without directory caches, and the number of its blocks.
fn any_tree(alloc: Global, image: &[u8]) -> Result<(Tree, u32), Stop>
    ensures tree { IfOk result (λ r. IsVolumeWith (is_cached image.now) image.now r.0) }
    ensures size { IfOk result (λ r. r.1 ≡ blocks image.now) }
{
    if is_cached(image) {
        cached_tree(alloc, image)
    } else {
        tree_in(alloc, image)
    }
}

// The disk of an image.
fn image_disk<'a>(alloc: Global, image: &'a [u8]) -> Result<Old<'a>, Stop>
    ensures old { IfOk result (λ old. IsOfImage image.entry.now (disk_of old)) }
    ensures size { IfOk result (λ old. is_allowed old.blocks ≡ true) }
    ensures boot { IfOk result (λ old. BOOT_LEN ≤ length old.boot.now) }
{
    let (tree, blocks) = any_tree(alloc, image)?;
    let letters = tree.letters();
    Ok(Old {
        tree,
        letters,
        blocks,
        boot: image,
        caches: is_cached(image),
    })
}

// The disk of a manifest.
fn manifest_disk<'a>(alloc: Global, text: &[u8]) -> Result<Old<'a>, Stop>
    ensures old { IfOk result (λ old. IsOfManifest text.now (disk_of old)) }
    ensures size { IfOk result (λ old. is_allowed old.blocks ≡ true) }
    ensures boot { IfOk result (λ old. BOOT_LEN ≤ length old.boot.now) }
{
    let told = manifest_tree(alloc, text)?;
    Ok(Old {
        tree: told.tree,
        letters: told.letters,
        blocks: told.blocks,
        boot: &NO_BOOT,
        caches: false,
    })
}

/// The disk of an image, or of a manifest in its place.
pub fn old_disk<'a>(alloc: Global, image: &'a [u8]) -> Result<Old<'a>, Stop>
    ensures old { IfOk result (λ old. IsOld image.entry.now (disk_of old)) }
    ensures size { IfOk result (λ old. is_allowed old.blocks ≡ true) }
    ensures boot { IfOk result (λ old. BOOT_LEN ≤ length old.boot.now) }
{
    if is_manifest(image) {
        manifest_disk(alloc, image)
    } else {
        image_disk(alloc, image)
    }
}

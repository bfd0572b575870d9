// The tree of a volume and that of an image with directory caches.

ghost use Rattle.std.specs.Prelude.{◌≡◌, ◌⊎◌, ℕ, List, IfNone, IfOk, IfSome, true};
ghost use Rattle.adf_tree.specs.Tree.{Tree as TreeValue};
ghost use Rattle.adf_findings.specs.Survey.{OnSurvey};
ghost use Rattle.adf_volume.specs.{Fits.FitsOf, Layout.Layout};
ghost use Rattle.adf_volume.specs.declared.types.Types.TheVariants.{WithInternational};
ghost use Rattle.adf_uncached.specs.Uncached.{IsUncached};
ghost use Rattle.adf_cache_laying.specs.LaidCaches.{KeepsTree};

use crate::same_trees::is_same_tree;
use adf_base::NoMemory;
use adf_blocks::Cause;
use adf_check::{Checked, check_types};
use adf_tree::Tree;
use adf_uncached::Uncached;
use adf_volume::Types;
use std::alloc::Global;

// The volume of an image of types 0 to 3, if it has no fault. `NoMemory` if an allocation fails.
fn volume_in<'a>(alloc: Global, image: &'a [u8]) -> Result<Option<Checked<'a>>, NoMemory>
    ensures image { IfOk result (λ volume. IfSome volume (λ v. v ≡ image.now)) }
    ensures fits { IfOk result (λ volume. IfSome volume (λ v.
        (t : TreeValue) × (l : Layout) × FitsOf WithInternational v t l)) }
    ensures none { IfOk result (λ volume. IfNone volume ((t : TreeValue) (l : Layout)
        → FitsOf WithInternational image.now t l → ⊥)) }
{
    match check_types(alloc, Types::WithInternational, image) {
        Ok(volume) => Ok(Some(volume)),
        Err(fault) => match fault.cause {
            Cause::NoMemory => Err(NoMemory),
            _ => Ok(None),
        },
    }
}

// The tree of an image of types 0 to 3, if it has no fault. `NoMemory` if an allocation fails.
fn tree_in(alloc: Global, image: &[u8]) -> Result<Option<Tree>, NoMemory>
    ensures fits { IfOk result (λ tree. IfSome tree (λ t. (l : Layout) × FitsOf WithInternational image.now t l)) }
    ensures none { IfOk result (λ tree. IfNone tree ((t : TreeValue) (l : Layout)
        → FitsOf WithInternational image.now t l → ⊥)) }
{
    let Some(volume) = volume_in(alloc, image)? else {
        return Ok(None);
    };
    let tree = volume.to_tree(alloc)?;
    Ok(Some(tree))
}

// Whether a tree fits an image of types 0 to 3. `NoMemory` if an allocation fails.
fn has_tree(alloc: Global, image: &[u8], tree: &Tree) -> Result<bool, NoMemory>
    ensures { IfOk result (λ has. has ≡ true → (l : Layout) × FitsOf WithInternational image.now tree.now l) }
{
    match tree_in(alloc, image)? {
        Some(other) => Ok(is_same_tree(tree, &other)),
        None => Ok(false),
    }
}

/// Whether the tree of a volume, if it has one, is that of an image with directory caches, seen as one without. `NoMemory` if
/// an allocation fails.
pub fn keeps_tree(alloc: Global, volume: &[u8], uncached: &Uncached) -> Result<bool, NoMemory>
    ensures { IfOk result (λ keeps. (image : List ℕ) → OnSurvey image (λ v _. IsUncached image v uncached.now)
        → keeps ≡ true → KeepsTree volume.now image) }
{
    let Some(tree) = tree_in(alloc, volume)? else {
        return Ok(true);
    };
    if uncached.fault.is_some() {
        return Ok(false);
    }
    let has = has_tree(alloc, &uncached.image, &tree)?;
    Ok(has)
}

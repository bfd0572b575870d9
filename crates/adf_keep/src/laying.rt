// The laying of new volumes.

ghost use Rattle.std.specs.Prelude.{◌≡◌, ◌≤◌, List, ℕ, IfOk, length};
ghost use Rattle.adf_base.specs.declared.hash.Letters.{Letters};
ghost use Rattle.adf_blocks.specs.Sizes.{blocks as blocks_in};
ghost use Rattle.adf_boot_blocks.specs.Writing.{restored};
ghost use Rattle.adf_build.specs.{Building.IsBuildable, Laid.IsLaid};
ghost use Rattle.adf_volume.specs.{Fits.FitsBy, Layout.Layout, Types.letters_for};
ghost use Rattle.adf_keep.specs.Rescued.{letters_within};

use adf_base::NoMemory;
use adf_boot_blocks::{BOOT_LEN, restore};
use adf_build::build_types;
use adf_tree::Tree;
use adf_volume::Types;
use std::alloc::Global;

/// Lays the volume of a tree that fits in so many blocks. `NoMemory` if an allocation fails.
pub fn lay(alloc: Global, tree: &Tree, blocks: u32) -> Result<Vec<u8>, NoMemory>
    requires { IsBuildable tree.now blocks }
    ensures laid { IfOk result (λ image. IsLaid image.items tree.now) }
    ensures size { IfOk result (λ image. blocks_in image.items ≡ blocks) }
{
    match build_types(alloc, Types::WithInternational, tree, blocks) {
        Ok(image) => Ok(image),
        Err(_) => Err(NoMemory),
    }
}

// Puts boot blocks into a volume.
fn put_back(image: &mut Vec<u8>, boot: &[u8])
    requires whole { BOOT_LEN ≤ length image.old.items }
    requires boot { BOOT_LEN ≤ length boot.now }
    ensures { image.new.items ≡ restored image.old.items boot.now }
{
    restore(image, boot);
}

/// Lays the volume of a tree that fits in so many blocks, and puts these boot blocks into it. `NoMemory` if an allocation fails.
pub fn lay_with(alloc: Global, tree: &Tree, blocks: u32, boot: &[u8]) -> Result<Vec<u8>, NoMemory>
    requires fits { IsBuildable tree.now blocks }
    requires boot { BOOT_LEN ≤ length boot.now }
    ensures laid { IfOk result (λ image. (volume : List ℕ) × IsLaid volume tree.now
        × (blocks_in volume ≡ blocks) × (image.items ≡ restored volume boot.now)) }
    // It is accepted with that tree where these types are, if these may have its letters.
    ensures accepted { (types : Types) (letters : Letters) → tree.now.letters ≡ letters_within types letters
        → IfOk result (λ image. (l : Layout) × FitsBy (letters_for types image.items) image.items tree.now l) }
{
    let mut image = lay(alloc, tree, blocks)?;
    put_back(&mut image, boot);
    Ok(image)
}

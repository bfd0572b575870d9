// Building a tree and reading it back.

ghost use Rattle.std.specs.Prelude.{◌≡◌, IfOk, IfErr};
ghost use Rattle.adf_build.specs.Building.{IsBuildFault};
ghost use Rattle.adf_volume.specs.declared.types.Types.TheVariants.{Plain};

use crate::images::checked;
use adf_build::{BuildFault, build};
use adf_tree::Tree;
use adf_volume::Types;
use std::alloc::Global;

/// Builds a tree in a volume of so many blocks, checks the image, and returns the tree of the checked
/// volume: it is the tree given.
/// The image that was built is never refused, unless memory runs out.
pub fn build_and_read(alloc: Global, tree: &Tree, blocks: u32) -> Result<Tree, BuildFault>
    ensures same { IfOk result (λ t. t ≡ tree.now) }
    ensures fault { IfErr result (IsBuildFault Plain tree.now blocks) }
{
    let image = build(alloc, tree, blocks)?;
    let volume = match checked(alloc, Types::WithInternational, &image) {
        Ok(Ok(volume)) => volume,
        Ok(Err(_)) => unreachable!(),
        Err(_) => return Err(BuildFault::NoMemory),
    };
    match volume.to_tree(alloc) {
        Ok(tree) => Ok(tree),
        Err(_) => Err(BuildFault::NoMemory),
    }
}

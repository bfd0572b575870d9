// Looking up paths among the entries of a judged image.

ghost use Rattle.std.specs.Prelude.{◌≡◌, ◌⊎◌};
ghost use Rattle.adf_memory.specs.{Verdicts.WantsMemory, SurveyCalls.FindsFound};

use crate::judged::judge_image;
use adf_base::NoMemory;
use adf_blocks::Cause;
use adf_report::Report;
use adf_tree::{Name, PathFault, read_path};
use std::alloc::Global;

// Judges an image and looks up the entry that these names lead to.
fn judge_named(alloc: Global, image: &[u8], names: &[Name]) -> Result<Option<usize>, NoMemory> {
    match judge_image(alloc, image)? {
        Some(judged) => Ok(Report::of(alloc, &judged.judgement)?.find(names)),
        None if names.is_empty() => Ok(Some(0)),
        None => Ok(None),
    }
}

// Judges an image and looks up the entry that these names lead to, and tells its number.
fn find_named(alloc: Global, image: &[u8], names: &[Name], node: &mut usize) -> u8
    ensures number { (result ≡ 0) ⊎ (result ≡ 1) ⊎ WantsMemory result }
    ensures unchanged { ¬ (result ≡ 0) → node.new ≡ node.old }
{
    match judge_named(alloc, image, names) {
        Ok(Some(found)) => {
            *node = found;
            0
        }
        Ok(None) => 1,
        Err(_) => Cause::NoMemory.number(),
    }
}

/// Judges an image and looks up a path, in escape form, among the entries that exist: names are compared by the letters that the
/// volume is read by. Returns 0 and writes the entry's number to `node` if it is there, 1 if there is no such entry, 2 if the
/// text is not a path, and the number of `NoMemory` if memory ran out.
pub fn find_found(alloc: Global, image: &[u8], path: &[u8], node: &mut usize) -> u8
    ensures { FindsFound path.now node.old node.new result }
{
    match read_path(alloc, path) {
        Ok(names) => find_named(alloc, image, &names, node),
        Err(PathFault::BadText) => 2,
        Err(PathFault::NoMemory) => Cause::NoMemory.number(),
    }
}

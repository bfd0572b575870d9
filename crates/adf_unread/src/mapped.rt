// The blocks that a map of GNU ddrescue says were not read.

ghost use Rattle.std.specs.Prelude.{◌≡◌, IfOk};
ghost use Rattle.adf_unread.specs.Mapped.{map_marks};

use crate::image::most_count;
use adf_maps::Map;
use std::alloc::{AllocError, Global};

/// The marks of the blocks of an image that were not read by a map, as far as the largest volume reaches.
#[tactic(auto, using(crate::proofs::DroppedImages::map_steps))]
pub fn map_marks(alloc: Global, map: &Map, image: &[u8]) -> Result<Vec<bool>, AllocError>
    ensures { IfOk result (λ marks. marks.items ≡ map_marks map.now image.now) }
{
    let mut marks = Vec::new(alloc);
    for b in 0..most_count(image) {
        marks.push(map.is_unread(b))?;
    }
    Ok(marks)
}

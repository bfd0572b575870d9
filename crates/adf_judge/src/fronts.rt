// What is amiss with the type and the length of a volume.

use crate::amiss::AmissList;
use crate::claims::Claims;
use crate::judgement::Sign;
use crate::volumes::is_type_right;
use adf_base::{BLOCK_LEN, NoMemory};
use adf_evidence::Length;

/// Adds what is amiss with the type and the length: other roots, another length than the input has, blocks that were not read, and an
/// end that is missing.
pub(crate) fn find_fronts(
    input: &[u8],
    length: &Length,
    found: &Claims<'_>,
    list: &mut AmissList,
) -> Result<(), NoMemory> {
    if !is_type_right(found) {
        list.add(Sign::Type, 0, 0)?;
    }
    for root in &length.rivals {
        list.add(Sign::Root, 0, *root)?;
    }
    let stated = u32::try_from(input.len() / BLOCK_LEN).unwrap_or(u32::MAX);
    if length.blocks < stated {
        list.add_blocks(Sign::Length, length.blocks, stated)?;
    }
    find_missing(found, list)
}

// Adds the blocks that were not read and may be in use, and the end that is missing.
fn find_missing(found: &Claims<'_>, list: &mut AmissList) -> Result<(), NoMemory> {
    for b in 0..found.image.held() {
        if !found.image.is_held(b) && !found.is_spare(b) {
            list.extend(Sign::NoData, b)?;
        }
    }
    if found.image.held() < found.image.blocks() {
        list.add_blocks(Sign::NoData, found.image.held(), found.image.blocks())?;
    }
    Ok(())
}

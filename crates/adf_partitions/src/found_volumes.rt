// Volumes that are found by their roots, without the tables of a disk. Which these are is shown by rows.

ghost use Rattle.std.specs.Prelude.{◌≤◌, ◌^◌};

use crate::place::{Place, PlaceFault};
use adf_base::{BLOCK_LEN, Block};
use adf_blocks::{Cause, FIRST_PAGE, label_stated, read_root};
use adf_names::Label;
use std::alloc::{AllocError, Global};

// The word of a volume's first block that has its type.
const BOOT_TYPE: usize = 0;

// The lowest type of a volume, `DOS\0`.
const FIRST_TYPE: u32 = 0x444F_5300;

// The highest type of a volume, `DOS\5`.
const LAST_TYPE: u32 = 0x444F_5305;

/// A volume that was found by its root.
#[derive(Drop)]
pub struct FoundVolume {
    /// Where it lies, as its root says.
    pub place: Place,
    /// Its type: word 0 of its first block.
    pub dos_type: u32,
    /// Its label, cut to 30 bytes: of the root byte 432 its length, its bytes from byte 433 on.
    pub label: Label,
    /// `BeyondImage` if it ends beyond the image.
    pub fault: Option<PlaceFault>,
}

// Whether a block is a root, whatever its bitmap flag says.
fn is_root(root: Block<'_>) -> bool {
    match read_root(root) {
        Ok(_) => true,
        Err(cause) => cause == Cause::NotValidated,
    }
}

// The type of a volume with this first block, if it is one of 0 to 5.
fn boot_type(boot: &Block<'_>) -> Option<u32> {
    let dos_type = boot.word(BOOT_TYPE);
    if FIRST_TYPE <= dos_type && dos_type <= LAST_TYPE {
        Some(dos_type)
    } else {
        None
    }
}

// The place of the volume of a root, which is block `r`, if it has at least 4 blocks, and begins on the disk.
fn place_around(root: &Block<'_>, r: u32) -> Option<Place> {
    let half = root.word(FIRST_PAGE).checked_sub(1)?;
    let first = r.checked_sub(half)?;
    if half < 2 {
        return None;
    }
    Some(Place {
        first: u64::from(first),
        blocks: u64::from(half) * 2,
    })
}

// What is wrong with a place on a disk of so many blocks.
fn end_fault(blocks: u64, place: Place) -> Option<PlaceFault> {
    if place.first <= blocks && place.blocks <= blocks - place.first {
        None
    } else {
        Some(PlaceFault::BeyondImage)
    }
}

// The volume whose root is block `r`, if it is the root of one that begins on the disk, and with a boot block.
fn volume_around(bytes: &[u8], blocks: u64, r: u32) -> Option<FoundVolume> {
    let root = Block::at(bytes, r)?;
    let place = place_around(&root, r)?;
    let Ok(first) = u32::try_from(place.first) else {
        return None;
    };
    let dos_type = boot_type(&Block::at(bytes, first)?)?;
    let label = label_stated(&root);
    if is_root(root) {
        Some(FoundVolume {
            place,
            dos_type,
            label,
            fault: end_fault(blocks, place),
        })
    } else {
        None
    }
}

// How many blocks of a disk are searched.
fn searched_blocks(bytes: &[u8]) -> u64
    ensures { result ≤ 2 ^ 32 }
{
    ((bytes.len() / BLOCK_LEN) as u64).min(1 << 32)
}

/// The volumes of a disk that are found without its tables, in the order of their roots: each block that is a root (its bitmap
/// flag may say that it was not validated), names a first bitmap page of at least 3, and if that is the block behind it, belongs
/// to a volume that begins on the disk with `DOS` and a type of 0 to 5. That volume has the root in its middle. It may lie in
/// another one: an image in a file, or what a disk had before it was partitioned anew. Of a longer disk the first 2^32 blocks
/// are searched. `AllocError` if an allocation fails.
pub fn find_volumes(alloc: Global, bytes: &[u8]) -> Result<Vec<FoundVolume>, AllocError> {
    let blocks = searched_blocks(bytes);
    let mut found = Vec::new(alloc);
    for r in 0..blocks {
        if let Some(volume) = volume_around(bytes, blocks, r as u32) {
            found.push(volume)?;
        }
    }
    Ok(found)
}

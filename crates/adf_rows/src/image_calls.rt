// Library calls on images that no command makes.

use crate::outcome::CallOutcome;
use crate::trees::tree_of_lines;
use adf_base::Letters;
use adf_blocks::Cause;
use adf_build::build;
use adf_check::{Owner, Owners, check_types};
use adf_volume::Types;
use std::alloc::Global;

/// A volume of 16 blocks with one file of two data blocks.
pub const FILE: &str = "volume ofs 16 | file 0:0:0 00000000 a | fill 489 41";

/// The image of the volume.
pub fn file_image(alloc: Global) -> Option<Vec<u8>> {
    let tree = tree_of_lines(alloc, FILE).ok()?;
    build(alloc, &tree, 16).ok()
}

fn has_owner(owners: &Owners, b: u32, owner: Owner) -> bool {
    b < owners.len() && owners.get(b) == owner
}

/// The owners of 16 blocks: blocks 0 and 1 are those of the boot block, and the others free. One is claimed twice.
pub fn owners_new_outcome(alloc: Global) -> Option<CallOutcome> {
    let Ok(mut owners) = Owners::new(alloc, 16) else {
        return Some(CallOutcome::NoMemory);
    };
    let is_right = are_new(&owners) && claims_once(&mut owners);
    Some(CallOutcome::Done.only_if(is_right))
}

fn are_new(owners: &Owners) -> bool {
    for b in 0..16u32 {
        let owner = if b < 2 { Owner::Boot } else { Owner::Free };
        if !has_owner(owners, b, owner) {
            return false;
        }
    }
    owners.len() == 16
}

fn claims_once(owners: &mut Owners) -> bool {
    owners.len() > 2
        && owners.claim(2, Owner::Root) == Ok(())
        && owners.claim(2, Owner::Page(0)) == Err(Cause::Taken)
        && has_owner(owners, 2, Owner::Root)
}

// Where a check of an image ends, and why, where these types are accepted; the files and the letters if it accepts the image.
fn types_fault(
    alloc: Global,
    types: Types,
    image: &[u8],
) -> Result<(usize, Letters), (u32, Cause)> {
    match check_types(alloc, types, image) {
        Ok(volume) => Ok((volume.counts().files, volume.letters())),
        Err(fault) => Err((fault.block, fault.cause)),
    }
}

/// A check of the volume; and of it as one of other types, of which OFS ones with international letters are accepted.
pub fn check_types_outcome(alloc: Global) -> Option<CallOutcome> {
    let mut image = file_image(alloc)?;
    let plain = types_fault(alloc, Types::Plain, &image);
    *image.get_mut(3)? = 2;
    let international = types_fault(alloc, Types::WithInternational, &image);
    let refused = types_fault(alloc, Types::Plain, &image);
    *image.get_mut(3)? = 4;
    let cached = types_fault(alloc, Types::WithInternational, &image);
    *image.get_mut(3)? = 6;
    let unknown = types_fault(alloc, Types::WithInternational, &image);
    let started = [refused, cached, unknown]
        == [
            Err((0, Cause::International)),
            Err((0, Cause::DirCache)),
            Err((0, Cause::NotDos)),
        ];
    let sound = [plain, international];
    if sound.contains(&Err((0, Cause::NoMemory))) {
        return Some(CallOutcome::NoMemory);
    }
    let accepted = [Ok((1, Letters::Ascii)), Ok((1, Letters::International))];
    Some(CallOutcome::Done.only_if(started && sound == accepted))
}

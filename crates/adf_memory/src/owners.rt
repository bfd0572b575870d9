// The owners of blocks.

ghost use Rattle.std.specs.Prelude.{◌≡◌, ◌≤◌, ◌<◌, ℕ, length, slice_index};
ghost use Rattle.adf_blocks.specs.Sizes.{blocks};
ghost use Rattle.adf_memory.specs.{OwnerNumbers.IsOwnerNumber, CheckCalls.TellsOwners};

use adf_check::{Checked, check_types};
use adf_volume::Types;
use std::alloc::Global;

// The role of a block.
fn role_of(volume: &Checked<'_>, b: u32) -> u8
    requires { b < blocks volume.now }
    ensures { IsOwnerNumber volume.now b result }
{
    volume.owner_class(b).unwrap().number()
}

// Writes the roles of the first blocks, as many as there is room for.
fn put_roles(volume: &Checked<'_>, roles: &mut [u8])
    ensures roles { (b : ℕ) → b < length roles.new → b < blocks volume.now
        → IsOwnerNumber volume.now b (slice_index roles.new b) }
    ensures behind { (b : ℕ) → blocks volume.now ≤ b
        → slice_index roles.new b ≡ slice_index roles.old b }
{
    for b in 0..volume.counts().blocks {
        let at = b as usize;
        if at >= roles.len() {
            return;
        }
        roles[at] = role_of(volume, b);
    }
}

/// Checks an image as a volume of these types, by its letters, and writes the role of each block's owner, one byte for each
/// block, as far as `roles` has room. Returns 0 if the image is accepted, otherwise the number of a cause: that of the first
/// fault, or `NoMemory` if memory ran out.
pub fn owners_of(alloc: Global, types: Types, image: &[u8], roles: &mut [u8]) -> u8
    ensures { TellsOwners types image.now roles.old roles.new result }
{
    match check_types(alloc, types, image) {
        Ok(volume) => {
            put_roles(&volume, roles);
            0
        }
        Err(fault) => fault.cause.number(),
    }
}

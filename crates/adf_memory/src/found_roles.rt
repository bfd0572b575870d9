// The roles of blocks by what a judge says of an image.

ghost use Rattle.std.specs.Prelude.{◌≡◌, ◌≤◌, ℕ, OnErr, length, slice_index};
ghost use Rattle.adf_blocks.specs.Sizes.{blocks};
ghost use Rattle.adf_memory.specs.SurveyCalls.{TellsFoundRoles};

use crate::holdings::{Holding, holdings_of};
use crate::judged::judge_image;
use adf_base::NoMemory;
use adf_blocks::Cause;
use std::alloc::Global;

// Writes the roles of the first blocks, as many as there is room for.
fn put_roles(holdings: &[Holding], roles: &mut [u8])
    ensures behind { (b : ℕ) → length holdings.now ≤ b
        → slice_index roles.new b ≡ slice_index roles.old b }
{
    for b in 0..holdings.len() {
        if b >= roles.len() {
            return;
        }
        roles[b] = holdings[b].class.number();
    }
}

// Judges an image and writes the roles of its blocks, as many as there is room for; none if nothing is judged.
fn put_judged(alloc: Global, image: &[u8], roles: &mut [u8]) -> Result<(), NoMemory>
    ensures behind { (b : ℕ) → blocks image.now ≤ b → slice_index roles.new b ≡ slice_index roles.old b }
    ensures unchanged { OnErr result (roles.new ≡ roles.old) }
{
    if let Some(judged) = judge_image(alloc, image)? {
        put_roles(&holdings_of(alloc, &judged)?, roles);
    }
    Ok(())
}

/// Judges an image and writes the role of each block by the part that has it, one byte for each block, as far as `roles` has
/// room; nothing if no volume has so many blocks. Returns 0, or the number of `NoMemory` if memory ran out.
pub fn survey_owners(alloc: Global, image: &[u8], roles: &mut [u8]) -> u8
    ensures { TellsFoundRoles image.now roles.old roles.new result }
{
    match put_judged(alloc, image, roles) {
        Ok(()) => 0,
        Err(_) => Cause::NoMemory.number(),
    }
}

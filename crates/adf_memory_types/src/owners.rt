// The roles of the blocks of an image of type 0 to 5.

ghost use Rattle.std.specs.Prelude.{◌≡◌, List, set, true, ℕ};
ghost use Rattle.adf_cached_files.specs.InPlace.{IsReadInPlace};
ghost use Rattle.adf_uncached.specs.Uncached.{is_cached};
ghost use Rattle.adf_memory_types.specs.CachedOwners.{TellsAnyOwners, TellsWithCaches, with_cache_roles};

use crate::cached::is_cached_image;
use adf_cached_files::kept_in_place;
use adf_check::OwnerClass;
use adf_memory::owners_of;
use adf_uncached::Uncached;
use adf_volume::Types;
use std::alloc::Global;

// Writes the role of a block, if there is room.
#[tactic(auto, using(std::proofs::lemmas::List::set_past))]
fn put_role(roles: &mut [u8], at: usize, role: u8)
    ensures { roles.new ≡ set roles.old at role }
{
    if at < roles.len() {
        roles[at] = role;
    }
}

// Writes the role of the blocks of caches, as far as there is room.
fn put_cache_roles(roles: &mut [u8], blocks: &[u32])
    ensures { roles.new ≡ with_cache_roles blocks.now roles.old }
{
    for b in blocks {
        put_role(roles, *b as usize, OwnerClass::Ext.number());
    }
}

// Writes the roles of an image that is kept as one without caches, where it is read in place.
fn owners_right(alloc: Global, uncached: &Uncached, roles: &mut [u8]) -> u8
    ensures { (image : List ℕ) → IsReadInPlace image uncached.now
        → TellsWithCaches image roles.old roles.new result }
{
    let number = owners_of(alloc, Types::WithInternational, &uncached.image, roles);
    if number == 0 {
        put_cache_roles(roles, &uncached.blocks);
    }
    number
}

// Writes the roles of an image of a volume with directory caches.
fn owners_cached(alloc: Global, image: &[u8], roles: &mut [u8]) -> u8
    requires { is_cached image.now ≡ true }
    ensures { TellsWithCaches image.now roles.old roles.new result }
{
    match kept_in_place(alloc, image) {
        Ok(uncached) => owners_right(alloc, &uncached, roles),
        Err(fault) => fault.cause.number(),
    }
}

/// Checks an image as a volume of type 0 to 5, and writes the role of each block's owner, one byte for each block, as far as
/// `roles` has room. Returns 0 if the image is accepted, otherwise the number of a cause: that of the first fault, or `NoMemory`
/// if memory ran out. Of types 4 and 5 it takes memory for a copy of the image.
pub fn owners_of_types(alloc: Global, image: &[u8], roles: &mut [u8]) -> u8
    ensures { TellsAnyOwners image.now roles.old roles.new result }
{
    if is_cached_image(image) {
        return owners_cached(alloc, image, roles);
    }
    owners_of(alloc, Types::WithInternational, image, roles)
}

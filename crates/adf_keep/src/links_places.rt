// Where the headers of a volume are: a walk of its hash chains.

ghost use Rattle.std.specs.Prelude.{◌≡◌, ◌<◌, ◌≤◌, ℕ, List, IfOk, IfSome, OnOk, length, true};
ghost use Rattle.std.specs.List.{All};
ghost use Rattle.adf_blocks.specs.declared.layout.TheConstants.{SLOTS};
ghost use Rattle.adf_keep.specs.Links.{ArePlaces, IsDirectory, IsPlace, IsPlaceWalk, place_of_header};

use crate::held::Held;
use crate::links_words::{has_slots, root_of};
use adf_base::NoMemory;
use adf_blocks::{FIRST_SLOT, NEXT_IN_CHAIN, SLOTS};
use std::alloc::Global;

/// Where a header is: the block of its directory, 0 if no hash chain leads to it, and the slot of its chain.
#[derive(Clone, Copy, Drop)]
pub struct Place {
    pub directory: u32,
    pub slot: u32,
}

/// The place of a header.
pub fn place_of_header(places: &[Place], h: u32) -> Place
    ensures { result ≡ place_of_header places.now h }
{
    let none = Place {
        directory: 0,
        slot: 0,
    };
    places.get(h as usize).copied().unwrap_or(none)
}

// A walk: the places that are known so far, and the directories, in the order in which they were come to.
#[derive(Drop)]
struct Walk {
    places: Vec<Place>,
    directories: Vec<u32>,
}

// Whether a header has no place yet, and may have one: the boot blocks and the root have none.
fn is_new(image: &Held<'_>, places: &Vec<Place>, h: u32) -> bool
    ensures { result ≡ true → (1 ≤ h) × (h < length places.now.items) }
{
    2 <= h
        && h != root_of(image)
        && (h as usize) < places.len()
        && place_of_header(places, h).directory == 0
}

// Notes a header that has its place, if it is that of a directory.
#[tactic(auto, using(crate::proofs::LinkPlaces::directories_more, crate::proofs::LinkPlaces::place_directory))]
fn note_directory(image: &Held<'_>, walk: &mut Walk, place: Place, h: u32) -> Result<(), NoMemory>
    ensures { IsPlaceWalk image.now walk.old → IsPlace image.now place.directory place.slot h → OnOk result (IsPlaceWalk image.now walk.new) }
{
    if has_slots(image, h) {
        walk.directories.push(h)?;
    }
    Ok(())
}

// Puts the place of a header.
#[tactic(auto, using(crate::proofs::LinkPlaces::places_more))]
fn set_place(walk: &mut Walk, place: Place, h: u32)
    requires { h < length walk.old.places.items }
    ensures { (image : List ℕ) → IsPlaceWalk image walk.old → IsPlace image place.directory place.slot h → IsPlaceWalk image walk.new }
{
    walk.places[h as usize] = place;
}

// Gives a header its place, if it may have one and has none yet. Returns whether it had none.
fn put_place(image: &Held<'_>, walk: &mut Walk, place: Place, h: u32) -> Result<bool, NoMemory>
    ensures walk { IsPlaceWalk image.now walk.old → (1 ≤ h → IsPlace image.now place.directory place.slot h)
        → OnOk result (IsPlaceWalk image.now walk.new) }
    ensures new { IfOk result (λ is. is ≡ true → 1 ≤ h) }
{
    if !is_new(image, &walk.places, h) {
        return Ok(false);
    }
    set_place(walk, place, h);
    note_directory(image, walk, place, h)?;
    Ok(true)
}

// Gives the headers of a chain their places, up to one that has its place.
fn walk_chain(image: &Held<'_>, walk: &mut Walk, place: Place) -> Result<(), NoMemory>
    requires { place.slot < SLOTS }
    ensures { IsPlaceWalk image.now walk.old → IsDirectory image.now place.directory → OnOk result (IsPlaceWalk image.now walk.new) }
{
    let mut h = image.word(place.directory, FIRST_SLOT + place.slot as usize);
    for _ in 0..walk.places.len() {
        if !put_place(image, walk, place, h)? {
            return Ok(());
        }
        h = image.word(h, NEXT_IN_CHAIN);
    }
    Ok(())
}

// Gives the headers in the chains of a directory their places.
fn walk_directory(image: &Held<'_>, walk: &mut Walk, directory: u32) -> Result<(), NoMemory>
    ensures { IsPlaceWalk image.now walk.old → IsDirectory image.now directory → OnOk result (IsPlaceWalk image.now walk.new) }
{
    for slot in 0..SLOTS {
        walk_chain(image, walk, Place { directory, slot })?;
    }
    Ok(())
}

// The places of headers before any is known.
fn no_places(alloc: Global, count: u32) -> Result<Vec<Place>, NoMemory>
    ensures { (image : List ℕ) → IfOk result (λ places. ArePlaces image places.items) }
{
    let none = Place {
        directory: 0,
        slot: 0,
    };
    Ok(vec![in alloc; none; count as usize]?)
}

// The root, as the first directory.
#[tactic(auto, using(crate::proofs::LinkPlaces::root_alone))]
fn root_alone(alloc: Global, image: &Held<'_>) -> Result<Vec<u32>, NoMemory>
    ensures { IfOk result (λ directories. All (IsDirectory image.now) directories.items) }
{
    let mut directories = Vec::new(alloc);
    directories.push(root_of(image))?;
    Ok(directories)
}

// Directory `k` of a walk, counted from 0; `None` past the last.
#[tactic(auto, using(crate::proofs::LinkPlaces::directory_in))]
fn directory_at(walk: &Walk, k: usize) -> Option<u32>
    ensures { (image : List ℕ) → IsPlaceWalk image walk.now → IfSome result (IsDirectory image) }
{
    if k < walk.directories.len() {
        Some(walk.directories[k])
    } else {
        None
    }
}

/// The places of the headers that the hash chains of a volume lead to. `NoMemory` if an allocation fails.
pub fn places_in(alloc: Global, image: &Held<'_>) -> Result<Vec<Place>, NoMemory>
    ensures { IfOk result (λ places. ArePlaces image.now places.items) }
{
    let mut walk = Walk {
        places: no_places(alloc, image.blocks())?,
        directories: root_alone(alloc, image)?,
    };
    for k in 0..image.blocks() as usize {
        let Some(directory) = directory_at(&walk, k) else {
            break;
        };
        walk_directory(image, &mut walk, directory)?;
    }
    let Walk { places, .. } = walk;
    Ok(places)
}

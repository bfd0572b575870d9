// Whether an image has the links that are wanted.

ghost use Rattle.std.specs.Prelude.{◌≡◌, ◌≤◌, ℕ, List, IfOk, Some, slice_get, slice_index, true};
ghost use Rattle.adf_base.specs.{Hash.slot_by, Words.block};
ghost use Rattle.adf_volume.specs.Image.{name_of};
ghost use Rattle.adf_keep.specs.Links.{AreLed, AreLinkedKinds, AreMarkedLinks, ArePlaces, HasPath, IsAtPath, IsInHashChain, IsInLinkChain, IsWanted, LinkLeadsTo, LeadsToEntry};
ghost use Rattle.adf_keep.specs.declared.links.WantedLink.{WantedLink};

use crate::held::Held;
use crate::links::{LinkTarget, WantedLink};
use crate::links_led::led_from;
use crate::links_places::{Place, place_of_header};
use crate::links_words::{ORIGINAL, PATH_ROOM, PATH_START, is_same_meta, name_bytes, root_of};
use adf_base::{Block, Letters, NoMemory, slot_by};
use adf_blocks::{
    SECONDARY_TYPE, ST_DIR, ST_FILE, ST_LINK_DIR, ST_LINK_FILE, ST_SOFT_LINK, meta_stated,
};
use adf_names::Name;
use std::alloc::Global;

/// An image with links, the places of its headers, and the headers whose chains of links lead to its links.
#[derive(Clone, Copy, Drop)]
pub struct LinkedImage<'a> {
    pub image: &'a Held<'a>,
    pub letters: Letters,
    pub places: &'a [Place],
    pub led: &'a [u32],
}

/// Whether the header in a block has a name.
#[tactic(auto, unfolding(adf_volume::specs::Image::name_of))]
pub fn has_name(image: &Held<'_>, h: u32, name: &Name) -> bool
    ensures { result ≡ true → name_of image.now h ≡ name.now }
{
    match image.block(h) {
        Some(block) => match name_bytes(&block) {
            Some(bytes) => bytes == name.bytes(),
            None => false,
        },
        None => false,
    }
}

// Whether the header in block `h` is that of the entry at a path.
fn is_at(x: &LinkedImage<'_>, h: u32, path: &[Name]) -> bool
    ensures { ArePlaces x.now.image.now x.now.places.now → result ≡ true → IsAtPath x.now.image.now h path.now }
{
    let mut header = h;
    for k in 0..path.len() {
        let place = place_of_header(x.places, header);
        if place.directory == 0 || !has_name(x.image, header, &path[path.len() - 1 - k]) {
            return false;
        }
        header = place.directory;
    }
    header == root_of(x.image)
}

// Whether a soft link has a path.
fn has_path(head: &Block<'_>, path: &[u8]) -> bool
    ensures { (image : List ℕ) (own : ℕ) → head.now ≡ block image own → result ≡ true → HasPath image own path.now }
{
    path.len() < PATH_ROOM
        && head.bytes(PATH_START, path.len()) == path
        && head.byte(PATH_START + path.len()) == 0
}

// Whether secondary types are those of a hard link and of what it leads to.
fn are_linked_kinds(link: u32, target: u32) -> bool
    ensures { result ≡ true → AreLinkedKinds link target }
{
    link == ST_LINK_DIR && target == ST_DIR || link == ST_LINK_FILE && target == ST_FILE
}

// Whether the chain of links of header `target` leads to a link.
fn is_chained(x: &LinkedImage<'_>, own: u32, target: u32) -> bool
    ensures { AreLed x.now.image.now x.now.led.now → result ≡ true → IsInLinkChain x.now.image.now target own }
{
    target != 0 && led_from(x.led, own) == target
}

// Whether a hard link leads to the entry at a path.
fn leads_to_entry(x: &LinkedImage<'_>, own: u32, path: &[Name]) -> bool
    ensures { ArePlaces x.now.image.now x.now.places.now → AreLed x.now.image.now x.now.led.now
        → result ≡ true → LeadsToEntry x.now.image.now own path.now }
{
    let target = x.image.word(own, ORIGINAL);
    let kind = x.image.word(own, SECONDARY_TYPE);
    if !are_linked_kinds(kind, x.image.word(target, SECONDARY_TYPE)) {
        return false;
    }
    if !is_chained(x, own, target) {
        return false;
    }
    is_at(x, target, path)
}

// Whether a link leads to what is wanted.
fn leads_to(x: &LinkedImage<'_>, own: u32, head: &Block<'_>, to: &LinkTarget) -> bool
    requires { head.now ≡ block x.now.image.now own }
    ensures { ArePlaces x.now.image.now x.now.places.now → AreLed x.now.image.now x.now.led.now → result ≡ true → LinkLeadsTo x.now.image.now own to.now }
{
    match to {
        LinkTarget::Soft(path) => {
            head.word(SECONDARY_TYPE) == ST_SOFT_LINK && has_path(head, path)
        }
        LinkTarget::Hard(path) => leads_to_entry(x, own, path),
    }
}

// Whether the header in block `own` is in the directory and in the chain that are wanted.
fn is_placed(x: &LinkedImage<'_>, want: &WantedLink, own: u32) -> bool
    ensures { ArePlaces x.now.image.now x.now.places.now → result ≡ true → (d : ℕ) × IsAtPath x.now.image.now d want.now.directory.items
        × IsInHashChain x.now.image.now d (slot_by x.now.letters want.now.name) own }
{
    let place = place_of_header(x.places, own);
    place.directory != 0
        && place.slot == u32::from(slot_by(x.letters, want.name.bytes()))
        && is_at(x, place.directory, &want.directory)
}

// Whether the header in block `own` is that of a wanted link.
fn is_wanted(x: &LinkedImage<'_>, want: &WantedLink, own: u32) -> bool
    ensures { ArePlaces x.now.image.now x.now.places.now → AreLed x.now.image.now x.now.led.now → result ≡ true → IsWanted x.now.image.now x.now.letters want.now own }
{
    let Some(block) = x.image.block(own) else {
        return false;
    };
    is_placed(x, want, own)
        && has_name(x.image, own, &want.name)
        && is_same_meta(&want.meta, &meta_stated(&block))
        && leads_to(x, own, &block, &want.to)
}

// Whether a wanted link is there, if it has a block, which is 0 otherwise.
fn is_kept(x: &LinkedImage<'_>, want: &WantedLink, own: u32) -> bool
    ensures { ArePlaces x.now.image.now x.now.places.now → AreLed x.now.image.now x.now.led.now → result ≡ true → 1 ≤ own → IsWanted x.now.image.now x.now.letters want.now own }
{
    own == 0 || is_wanted(x, want, own)
}

// The block of a wanted link; 0 if it has none.
fn own_at(owns: &[u32], k: usize) -> u32
    ensures { result ≡ slice_index owns.now k }
{
    if k < owns.len() { owns[k] } else { 0 }
}

/// Whether each wanted link that has a block is there.
pub fn are_kept(x: &LinkedImage<'_>, wanted: &[WantedLink], owns: &[u32]) -> bool
    ensures { ArePlaces x.now.image.now x.now.places.now → AreLed x.now.image.now x.now.led.now → result ≡ true → (k : ℕ) (want : WantedLink) → slice_get wanted.now k ≡ Some want
        → 1 ≤ slice_index owns.now k → IsWanted x.now.image.now x.now.letters want (slice_index owns.now k) }
{
    for k in 0..wanted.len() {
        if !is_kept(x, &wanted[k], own_at(owns, k)) {
            return false;
        }
    }
    true
}

/// The marks of the blocks of links. `NoMemory` if an allocation fails.
pub fn link_marks(alloc: Global, count: u32, owns: &[u32]) -> Result<Vec<bool>, NoMemory>
    ensures { IfOk result (λ links. AreMarkedLinks count owns.now links.items) }
{
    let mut marks = vec![in alloc; false; count as usize]?;
    for own in owns {
        if *own != 0 && (*own as usize) < marks.len() {
            marks[*own as usize] = true;
        }
    }
    Ok(marks)
}

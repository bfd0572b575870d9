// The wanted links that can be had. What comes of them is judged afterwards, so nothing is promised here.

use crate::held::Held;
use crate::links::{LinkTarget, WantedLink};
use crate::links_kept::has_name;
use crate::links_places::{Place, place_of_header};
use crate::links_words::{PATH_ROOM, has_slots, name_bytes, root_of};
use adf_base::{Letters, NoMemory, slot_by};
use adf_blocks::{SECONDARY_TYPE, ST_DIR, ST_FILE, ST_LINK_DIR, ST_LINK_FILE, ST_SOFT_LINK};
use adf_drafts::ChildMap;
use adf_names::Name;
use adf_tree::Node;
use std::alloc::Global;

/// A link that is to be laid: the block of its directory, the slot of its name, its number among the wanted ones, its secondary
/// type, and the header that it leads to, 0 of a soft link.
#[derive(Clone, Copy, PartialEq, Eq, PartialOrd, Ord, Drop)]
pub struct Planned {
    pub directory: u32,
    pub slot: u32,
    pub number: usize,
    pub secondary: u32,
    pub target: u32,
}

// The number of a name that a link takes: no block has it.
const TAKEN: Node = Node(usize::MAX);

// A volume, and the headers of its entries by the block of their directory and their name.
#[derive(Drop)]
struct Named<'v> {
    volume: &'v Held<'v>,
    letters: Letters,
    children: ChildMap,
}

// Adds the name of the header in block `h`.
fn add_name(named: &mut Named<'_>, place: Place, h: u32) -> Result<(), NoMemory> {
    let Some(block) = named.volume.block(h) else {
        return Ok(());
    };
    let Some(name) = name_bytes(&block).and_then(Name::new) else {
        return Ok(());
    };
    let directory = Node(place.directory as usize);
    named
        .children
        .put(named.letters, directory, &name, Node(h as usize))
}

// The names of a volume.
fn names_of<'v>(
    alloc: Global,
    volume: &'v Held<'v>,
    letters: Letters,
    places: &[Place],
) -> Result<Named<'v>, NoMemory> {
    let mut named = Named {
        volume,
        letters,
        children: ChildMap::new(alloc),
    };
    for h in 0..volume.blocks() {
        let place = place_of_header(places, h);
        if place.directory != 0 {
            add_name(&mut named, place, h)?;
        }
    }
    Ok(named)
}

// The header of the entry at a path, of which each name is as it is in the volume.
fn header_at(named: &Named<'_>, path: &[Name]) -> Option<u32> {
    let mut header = root_of(named.volume);
    for name in path {
        if !has_slots(named.volume, header) {
            return None;
        }
        let child = named
            .children
            .get(named.letters, Node(header as usize), name)?;
        header = u32::try_from(child.0).ok()?;
        if !has_name(named.volume, header, name) {
            return None;
        }
    }
    Some(header)
}

// The secondary type of a link, and the header that it leads to; `None` if that is not there.
fn target_of(named: &Named<'_>, to: &LinkTarget) -> Option<(u32, u32)> {
    match to {
        LinkTarget::Soft(path) => {
            let fits = !path.is_empty() && path.len() < PATH_ROOM && !path.contains(&0);
            if fits { Some((ST_SOFT_LINK, 0)) } else { None }
        }
        LinkTarget::Hard(path) => {
            let header = header_at(named, path)?;
            match named.volume.word(header, SECONDARY_TYPE) {
                ST_DIR => Some((ST_LINK_DIR, header)),
                ST_FILE => Some((ST_LINK_FILE, header)),
                _ => None,
            }
        }
    }
}

// The link as it is to be laid, if its directory and what it leads to are there.
fn plan_of(named: &Named<'_>, want: &WantedLink, number: usize) -> Option<Planned> {
    let directory = header_at(named, &want.directory)?;
    if !has_slots(named.volume, directory) {
        return None;
    }
    let (secondary, target) = target_of(named, &want.to)?;
    Some(Planned {
        directory,
        slot: u32::from(slot_by(named.letters, want.name.bytes())),
        number,
        secondary,
        target,
    })
}

// Takes the name of a link, if it is free in its directory. Returns whether it is.
fn take_name(named: &mut Named<'_>, directory: u32, name: &Name) -> Result<bool, NoMemory> {
    let node = Node(directory as usize);
    if named.children.get(named.letters, node, name).is_some() {
        return Ok(false);
    }
    named.children.put(named.letters, node, name, TAKEN)?;
    Ok(true)
}

/// The wanted links that can be had in a volume, by directory and slot. `NoMemory` if an allocation fails.
pub fn plan_links(
    alloc: Global,
    volume: &Held<'_>,
    letters: Letters,
    places: &[Place],
    wanted: &[WantedLink],
) -> Result<Vec<Planned>, NoMemory> {
    let mut named = names_of(alloc, volume, letters, places)?;
    let mut plans = Vec::new(alloc);
    for k in 0..wanted.len() {
        if let Some(plan) = plan_of(&named, &wanted[k], k) {
            if take_name(&mut named, plan.directory, &wanted[k].name)? {
                plans.push(plan)?;
            }
        }
    }
    plans.sort()?;
    Ok(plans)
}

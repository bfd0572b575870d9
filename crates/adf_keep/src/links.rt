// Links that are laid into a volume.

ghost use Rattle.std.specs.Prelude.{◌≡◌, ◌==◌, IfOk, IfSome, map, not, true};
ghost use Rattle.adf_keep.specs.Links.{AreLaid, HasKept, IsLinked};

use crate::held::Held;
use crate::links_beside::is_beside;
use crate::links_kept::{LinkedImage, are_kept, link_marks};
use crate::links_laying::lay_all;
use crate::links_led::led_links;
use crate::links_places::places_in;
use crate::links_planned::plan_links;
use adf_base::{Letters, NoMemory};
use adf_names::{Meta, Name};
use std::alloc::Global;

/// What a link leads to.
#[derive(Drop)]
pub enum LinkTarget {
    /// A soft link: the path that it has.
    Soft(Vec<u8>),
    /// A hard link: the path of a file or a directory in the volume.
    Hard(Vec<Name>),
}

/// A link that is wanted in a volume: the path of its directory there, its name, its metadata, and what it leads to.
#[derive(Drop)]
pub struct WantedLink {
    pub directory: Vec<Name>,
    pub name: Name,
    pub meta: Meta,
    pub to: LinkTarget,
}

/// A volume with links, and which of those that were wanted it has.
#[derive(Drop)]
pub struct Linked {
    pub image: Vec<u8>,
    pub kept: Vec<bool>,
}

// Which of the wanted links have a block.
fn kept_of(alloc: Global, owns: &[u32]) -> Result<Vec<bool>, NoMemory>
    ensures { IfOk result (λ kept. kept.items ≡ map (λ b. not (b == 0)) owns.now) }
{
    Ok(owns.iter().map(|own| *own != 0).collect(alloc)?)
}

// The blocks of an image, if it has no part of a block beside them.
#[tactic(auto, using(crate::proofs::LinksKept::whole_front))]
fn whole_blocks(bytes: &[u8]) -> Option<Held<'_>>
    ensures { IfSome result (λ held. held ≡ bytes.now) }
{
    let held = Held::of(bytes, u32::MAX);
    if held.bytes().len() == bytes.len() {
        Some(held)
    } else {
        None
    }
}

// A volume, and the links that are wanted in it.
#[derive(Clone, Copy, Drop)]
struct Wish<'a> {
    volume: &'a Held<'a>,
    letters: Letters,
    wanted: &'a [WantedLink],
}

// Whether an image is a volume with the wanted links that have blocks, and with nothing else.
fn is_linked(
    alloc: Global,
    wish: &Wish<'_>,
    image: &Held<'_>,
    owns: &[u32],
) -> Result<bool, NoMemory>
    ensures { IfOk result (λ is. is ≡ true
        → IsLinked wish.now.volume.now wish.now.letters wish.now.wanted.now image.now owns.now) }
{
    let before = places_in(alloc, wish.volume)?;
    let links = link_marks(alloc, wish.volume.blocks(), owns)?;
    if owns.len() != wish.wanted.len() {
        return Ok(false);
    }
    if !is_beside(wish.volume, &before, image, &links) {
        return Ok(false);
    }
    let places = places_in(alloc, image)?;
    let led = led_links(alloc, image, owns)?;
    let x = LinkedImage {
        image,
        letters: wish.letters,
        places: &places,
        led: &led,
    };
    Ok(are_kept(&x, wish.wanted, owns))
}

// The same of an image that may have a part of a block beside its blocks; then it is not so.
fn is_linked_image(
    alloc: Global,
    wish: &Wish<'_>,
    image: &[u8],
    owns: &[u32],
) -> Result<bool, NoMemory>
    ensures { IfOk result (λ is. is ≡ true
        → IsLinked wish.now.volume.now wish.now.letters wish.now.wanted.now image.now owns.now) }
{
    match whole_blocks(image) {
        Some(held) => is_linked(alloc, wish, &held, owns),
        None => Ok(false),
    }
}

// A volume with the wanted links that can be had, if it is found to be so.
fn with_links(alloc: Global, wish: &Wish<'_>) -> Result<Option<Linked>, NoMemory>
    ensures { IfOk result (λ linked. IfSome linked (HasKept wish.now.volume.now wish.now.letters wish.now.wanted.now)) }
{
    let places = places_in(alloc, wish.volume)?;
    let plans = plan_links(alloc, wish.volume, wish.letters, &places, wish.wanted)?;
    let mut image = wish.volume.bytes().to_vec(alloc)?;
    let owns = lay_all(alloc, &mut image, wish.wanted, &plans)?;
    if !is_linked_image(alloc, wish, &image, &owns)? {
        return Ok(None);
    }
    let kept = kept_of(alloc, &owns)?;
    Ok(Some(Linked { image, kept }))
}

// The same of a volume that may have a part of a block beside its blocks; then no link can be had.
fn try_links(
    alloc: Global,
    volume: &[u8],
    letters: Letters,
    wanted: &[WantedLink],
) -> Result<Option<Linked>, NoMemory>
    ensures { IfOk result (λ linked. IfSome linked (HasKept volume.now letters wanted.now)) }
{
    match whole_blocks(volume) {
        Some(held) => {
            let wish = Wish {
                volume: &held,
                letters,
                wanted,
            };
            with_links(alloc, &wish)
        }
        None => Ok(None),
    }
}

/// A new volume with the links of those that are wanted that can be had: those of which the directory and what a hard link leads to
/// are there, the name is not used, and a block is free. Nothing else of the volume changes. `NoMemory` if an allocation fails.
pub fn lay_links(
    alloc: Global,
    volume: Vec<u8>,
    letters: Letters,
    wanted: &[WantedLink],
) -> Result<Linked, NoMemory>
    ensures { IfOk result (AreLaid volume.items letters wanted.now) }
{
    if let Some(linked) = try_links(alloc, &volume, letters, wanted)? {
        return Ok(linked);
    }
    let kept = vec![in alloc; false; wanted.len()]?;
    Ok(Linked {
        image: volume,
        kept,
    })
}

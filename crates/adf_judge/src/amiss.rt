// What is amiss: all that was made, chosen, doubted, renamed, cut, free or not reached.

use crate::claims::Claims;
use crate::judgement::{Amiss, Claim, Object, Origin, Sign};
use adf_base::{BLOCK_WORDS, NoMemory};
use adf_blocks::{NAME, PAGE_BITS};
use adf_evidence::COMMENT;
use std::alloc::Global;

const MOST_LABEL: u8 = 30;

const MOST_COMMENT: u8 = 79;

/// What is amiss, in order.
#[derive(Drop)]
pub(crate) struct AmissList {
    pub(crate) all: Vec<Amiss>,
}

impl AmissList {
    /// Nothing is amiss.
    pub(crate) fn new(alloc: Global) -> AmissList {
        AmissList {
            all: Vec::new(alloc),
        }
    }

    /// Adds a sign of the volume, at the blocks from `first` to before `past`.
    pub(crate) fn add_blocks(&mut self, sign: Sign, first: u32, past: u32) -> Result<(), NoMemory> {
        self.all.push(Amiss {
            sign,
            claim: 0,
            first,
            past,
        })?;
        Ok(())
    }

    /// Adds a sign of a claim, at one block.
    pub(crate) fn add(&mut self, sign: Sign, claim: usize, b: u32) -> Result<(), NoMemory> {
        self.all.push(Amiss {
            sign,
            claim,
            first: b,
            past: b.saturating_add(1),
        })?;
        Ok(())
    }

    /// Adds a block to the last run of this sign, if it is the next one, or begins a run.
    pub(crate) fn extend(&mut self, sign: Sign, b: u32) -> Result<(), NoMemory> {
        if let Some(last) = self.all.last_mut() {
            if last.sign == sign && last.claim == 0 && last.past == b {
                last.past = b.saturating_add(1);
                return Ok(());
            }
        }
        self.add(sign, 0, b)
    }
}

/// Adds everything that is amiss with a volume, but for its length and its type.
pub(crate) fn find_amiss(
    alloc: Global,
    found: &Claims<'_>,
    claims: &[Claim],
    list: &mut AmissList,
) -> Result<(), NoMemory> {
    find_root(found, list)?;
    find_pages(alloc, found, list)?;
    find_broken(alloc, found, list)?;
    for (i, claim) in claims.iter().enumerate() {
        find_of_claim(found, claim, i.saturating_add(1), list)?;
    }
    find_lost_blocks(found, list)
}

// A root that is not whole, and a label that is too long.
fn find_root(found: &Claims<'_>, list: &mut AmissList) -> Result<(), NoMemory> {
    let root = found.image.root();
    if !found.bitmap.has_root {
        list.add(Sign::Root, 0, root)?;
    }
    if found.bitmap.is_like_root && found.image.byte(root, NAME) > MOST_LABEL {
        list.add(Sign::LabelCut, 0, root)?;
    }
    Ok(())
}

// Pages of a valid bitmap that cannot be read.
fn find_pages(alloc: Global, found: &Claims<'_>, list: &mut AmissList) -> Result<(), NoMemory> {
    for i in &found.bitmap.lost_pages(alloc)? {
        let place = found.bitmap.place(*i);
        if !is_full_page(found, *i, place) {
            list.add(Sign::Bitmap, 0, place)?;
        }
    }
    Ok(())
}

// Whether a page of zeros, which has all of its blocks allocated, is right: something has each of them.
fn is_full_page(found: &Claims<'_>, i: usize, page: u32) -> bool {
    if !found.image.has(page) || !is_zero(found, page) {
        return false;
    }
    let number = u32::try_from(i).unwrap_or(u32::MAX);
    let first = number.saturating_mul(PAGE_BITS).saturating_add(2);
    let past = first.saturating_add(PAGE_BITS).min(found.image.blocks());
    (first..past).all(|b| b == page || found.has_block(b))
}

fn is_zero(found: &Claims<'_>, b: u32) -> bool {
    (0..BLOCK_WORDS).all(|i| found.image.word(b, i) == 0)
}

// Directories of which a hash chain is broken, or which are in doubt.
fn find_broken(alloc: Global, found: &Claims<'_>, list: &mut AmissList) -> Result<(), NoMemory> {
    let mut broken = Vec::new(alloc);
    for h in &found.walk.order {
        if found.is_dir(*h) && found.is_broken(*h) {
            broken.push(*h)?;
        }
    }
    broken.sort()?;
    for h in &broken {
        list.add(Sign::LostIn, found.place.get(*h) as usize, *h)?;
    }
    Ok(())
}

// What is amiss with a claim, `number` from 1 on.
fn find_of_claim(
    found: &Claims<'_>,
    claim: &Claim,
    number: usize,
    list: &mut AmissList,
) -> Result<(), NoMemory> {
    let h = claim.header;
    if let Some(sign) = sign_of(found, claim) {
        list.add(sign, number, h)?;
    }
    if claim.name.as_slice() != claim.stated_name.as_slice() {
        list.add(Sign::Renamed, number, h)?;
    }
    let has_comment = claim.is_given && claim.origin != Origin::Made;
    if has_comment && found.image.byte(h, COMMENT) > MOST_COMMENT {
        list.add(Sign::CommentCut, number, h)?;
    }
    Ok(())
}

// Why a claim is not as it was, if it is not.
fn sign_of(found: &Claims<'_>, claim: &Claim) -> Option<Sign> {
    let h = claim.header;
    if !claim.is_given {
        return Some(if found.is_right_link(h) {
            Sign::Link
        } else {
            Sign::Damaged
        });
    }
    if !found.walk.is_sound(h) || is_odd(found, claim) {
        return Some(Sign::InDoubt);
    }
    match claim.origin {
        Origin::Made => Some(Sign::Made),
        Origin::PerhapsDeleted => Some(Sign::PerhapsDeleted),
        Origin::Orphaned => Some(Sign::FoundAgain),
        Origin::Reached if found.freed.has(h) => Some(Sign::OwnedFree),
        Origin::Reached => None,
    }
}

// Whether a claim is reached, but not in its slot, or its data blocks do not lead to each other or are its by a date alone.
fn is_odd(found: &Claims<'_>, claim: &Claim) -> bool {
    let h = claim.header;
    let is_torn = claim.object == Object::File
        && (!found.files.is_joined(&found.image, h)
            || found.files.is_ffs && found.files.disputed.has(h));
    claim.origin == Origin::Reached && (found.walk.misplaced.has(h) || is_torn)
}

// Runs of allocated blocks that nothing has.
fn find_lost_blocks(found: &Claims<'_>, list: &mut AmissList) -> Result<(), NoMemory> {
    if !found.orphans.trusted || !found.bitmap.has_root {
        return Ok(());
    }
    for b in 2..found.image.blocks() {
        if !found.has_block(b) && found.bitmap.is_used(&found.image, b) {
            list.extend(Sign::Lost, b)?;
        }
    }
    Ok(())
}

// Which file each data block is of.

use crate::files::Files;
use crate::walk::Walk;
use adf_base::NoMemory;
use adf_blocks::NEXT_IN_CHAIN;
use adf_evidence::{Image, Marks, Moment, Numbers};
use std::alloc::Global;
use std::cmp::Reverse;

/// A file that claims data blocks; of several that claim one block the first in this order has it.
#[derive(Clone, Copy, PartialEq, Eq, PartialOrd, Ord)]
struct Claimant {
    /// Its rank, then whether a block of it is free, then whether its chain leads astray.
    sure: u32,
    date: Reverse<Moment>,
    /// How many of its blocks others claim.
    rivals: u32,
    place: usize,
    header: u32,
}

impl Files {
    /// Each data block is that of its first claimant: by rank; then of what no free block and no chain that leads astray tells
    /// against; then by the later date, then by how few of its blocks others claim. Who loses one block has only those that no other has.
    pub(crate) fn settle(
        &mut self,
        alloc: Global,
        image: &Image<'_>,
        walk: &Walk,
        is_freed: &Marks,
    ) -> Result<(), NoMemory> {
        let claimants = self.claimants(alloc, image, walk, is_freed)?;
        let beaten = self.own_first(alloc, image, &claimants)?;
        for &h in &beaten {
            let mine = self.apart(alloc, image, h)?;
            self.own_all(h, &mine);
        }
        Ok(())
    }

    /// Each file that is the first claimant of all of its blocks has them; the others are answered.
    fn own_first(
        &mut self,
        alloc: Global,
        image: &Image<'_>,
        claimants: &[Claimant],
    ) -> Result<Vec<u32>, NoMemory> {
        let sure = sure_column(alloc, image, claimants)?;
        let mut beaten = Vec::new(alloc);
        for each in claimants {
            let mine = self.apart(alloc, image, each.header)?;
            if self.is_contested(&mine) {
                beaten.push(each.header)?;
                self.dispute(&sure, each.header, &mine);
            } else {
                self.own_all(each.header, &mine);
            }
        }
        Ok(beaten)
    }

    /// The files of the walk, in the order in which they have blocks.
    fn claimants(
        &mut self,
        alloc: Global,
        image: &Image<'_>,
        walk: &Walk,
        is_freed: &Marks,
    ) -> Result<Vec<Claimant>, NoMemory> {
        let mut claimants = Vec::new(alloc);
        for place in 1..walk.order.len() {
            let header = walk.order.get(place).copied().unwrap_or(0);
            if walk.is_file(image, header) {
                let rank = self.rank(walk, header);
                claimants.push(Claimant {
                    sure: sureness(rank, is_freed.has(header), is_astray(image, walk, header)),
                    date: Reverse(image.moment(header)),
                    rivals: self.rivals(alloc, image, header)?,
                    place,
                    header,
                })?;
            }
        }
        claimants.sort()?;
        Ok(claimants)
    }

    /// Another has one of the blocks.
    fn is_contested(&self, mine: &[u32]) -> bool {
        for &d in mine {
            if self.owner.get(d) != 0 || self.is_part.has(d) {
                return true;
            }
        }
        false
    }

    /// The owners of the blocks that are as sure as this file have them by their date alone.
    fn dispute(&mut self, sure: &Numbers, h: u32, mine: &[u32]) {
        for &d in mine {
            let owner = self.owner.get(d);
            if owner != 0 && sure.get(owner) == sure.get(h) {
                self.disputed.set(owner, true);
            }
        }
    }

    /// The file has each of the blocks that no other has.
    fn own_all(&mut self, h: u32, mine: &[u32]) {
        for &d in mine {
            if self.owner.get(d) == 0 {
                self.owner.set(d, h);
            }
        }
    }

    /// How many of its blocks others claim.
    fn rivals(&mut self, alloc: Global, image: &Image<'_>, h: u32) -> Result<u32, NoMemory> {
        let mine = self.apart(alloc, image, h)?;
        let mut many = 0u32;
        for &d in &mine {
            if self.claims.get(d) > 1 {
                many = many.saturating_add(1);
            }
        }
        Ok(many)
    }
}

/// How sure each claimant is.
fn sure_column(
    alloc: Global,
    image: &Image<'_>,
    claimants: &[Claimant],
) -> Result<Numbers, NoMemory> {
    let mut sure = Numbers::new(alloc, image.blocks())?;
    for each in claimants {
        sure.set(each.header, each.sure);
    }
    Ok(sure)
}

/// The rank, then whether a block is free, then whether the chain leads astray.
fn sureness(rank: u32, is_freed: bool, is_astray: bool) -> u32 {
    rank.saturating_mul(4)
        .saturating_add(if is_freed { 2 } else { 0 })
        .saturating_add(u32::from(is_astray))
}

/// Whether its chain goes on to a sound header that is of another chain: so it was deleted.
fn is_astray(image: &Image<'_>, walk: &Walk, h: u32) -> bool {
    let b = image.word(h, NEXT_IN_CHAIN);
    if !walk.is_header.has(b) {
        return false;
    }
    let is_same = walk.home.get(b) == walk.home.get(h) && walk.slot.get(b) == walk.slot.get(h);
    !walk.is_header.has(h) || !is_same
}

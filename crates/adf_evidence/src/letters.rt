// Which letters the names of a volume are of, and whether its names are long.

use crate::columns::Marks;
use crate::image::{COMMENT, Image, slot_of_name};
use adf_base::{Letters, NoMemory};
use adf_blocks::{FIRST_SLOT, NEXT_IN_CHAIN, PARENT, SECONDARY_TYPE, SLOTS, ST_DIR};
use std::alloc::Global;

// The byte of the length of a long name, and the most bytes of one.
const LONG_NAME: usize = COMMENT;

const MOST_LONG: usize = 107;

/// How many headers are in the slot of their name by one reading of it alone.
#[derive(Clone, Copy, Debug, PartialEq, Eq)]
pub struct LetterVotes {
    /// By the letters of types 0 and 1.
    pub ascii: u32,
    /// By international letters.
    pub international: u32,
    /// By a short name, as types 0 to 5 have them.
    pub short: u32,
    /// By a long name, as types 6 and 7 have them.
    pub long: u32,
    /// Headers below the root tell the letters; else those of all sound directories were asked.
    pub is_below_root: bool,
}

// The directories whose headers are counted, and the headers that have been met.
#[derive(Drop)]
struct Tour {
    directories: Vec<u32>,
    met: Marks,
}

impl Tour {
    // Adds a directory.
    fn add(&mut self, b: u32) -> Result<(), NoMemory> {
        self.met.set(b, true);
        self.directories.push(b)?;
        Ok(())
    }
}

// The root alone.
fn tour_of_root(alloc: Global, image: &Image<'_>) -> Result<Tour, NoMemory> {
    let mut tour = Tour {
        directories: Vec::new(alloc),
        met: Marks::new(alloc, image.blocks())?,
    };
    tour.add(image.root())?;
    Ok(tour)
}

// All sound directories.
fn tour_of_all(alloc: Global, image: &Image<'_>) -> Result<Tour, NoMemory> {
    let mut tour = Tour {
        directories: Vec::new(alloc),
        met: Marks::new(alloc, image.blocks())?,
    };
    for b in 2..image.blocks() {
        if image.word(b, SECONDARY_TYPE) == ST_DIR && image.is_header(b) {
            tour.add(b)?;
        }
    }
    Ok(tour)
}

impl LetterVotes {
    /// The votes of the headers below the root; if none of these tells the letters, of those in all sound directories.
    pub fn new(alloc: Global, image: &Image<'_>) -> Result<LetterVotes, NoMemory> {
        let mut votes = LetterVotes {
            ascii: 0,
            international: 0,
            short: 0,
            long: 0,
            is_below_root: true,
        };
        votes.count(image, tour_of_root(alloc, image)?)?;
        if votes.ascii == 0 && votes.international == 0 {
            votes.is_below_root = false;
            votes.count(image, tour_of_all(alloc, image)?)?;
        }
        Ok(votes)
    }

    // Counts the headers in these directories and below.
    fn count(&mut self, image: &Image<'_>, mut tour: Tour) -> Result<(), NoMemory> {
        for i in 0..image.blocks() as usize {
            match tour.directories.get(i).copied() {
                Some(directory) => self.count_directory(image, &mut tour, directory)?,
                None => break,
            }
        }
        Ok(())
    }

    // Counts the headers in a directory.
    fn count_directory(
        &mut self,
        image: &Image<'_>,
        tour: &mut Tour,
        directory: u32,
    ) -> Result<(), NoMemory> {
        for slot in 0..SLOTS {
            self.count_chain(image, tour, directory, slot)?;
        }
        Ok(())
    }

    // Counts the headers in a hash chain of a directory, up to one that was met before or does not belong there.
    fn count_chain(
        &mut self,
        image: &Image<'_>,
        tour: &mut Tour,
        directory: u32,
        slot: u32,
    ) -> Result<(), NoMemory> {
        let mut b = image.word(directory, FIRST_SLOT + slot as usize);
        for _ in 0..image.blocks() {
            let is_new = image.has(b) && !tour.met.has(b);
            if !is_new || !image.is_header(b) || image.word(b, PARENT) != directory {
                break;
            }
            self.vote(image, b, slot);
            tour.met.set(b, true);
            if image.word(b, SECONDARY_TYPE) == ST_DIR {
                tour.add(b)?;
            }
            b = image.word(b, NEXT_IN_CHAIN);
        }
        Ok(())
    }

    // The vote of a header in the chain of a slot.
    fn vote(&mut self, image: &Image<'_>, b: u32, slot: u32) {
        let ascii = image.slot_of(b, Letters::Ascii);
        let international = image.slot_of(b, Letters::International);
        if ascii != international {
            self.ascii = self.ascii.saturating_add(u32::from(ascii == slot));
            let is_international = international == slot;
            self.international = self
                .international
                .saturating_add(u32::from(is_international));
        }
        let long = image.text(b, LONG_NAME, MOST_LONG);
        let is_long = !long.is_empty() && slot_of_name(long, Letters::International) == slot;
        let is_short = ascii == slot || international == slot;
        self.short = self.short.saturating_add(u32::from(is_short && !is_long));
        self.long = self.long.saturating_add(u32::from(is_long && !is_short));
    }

    /// Whether names are long: more headers tell so, or the stated type has long names and as many headers tell the contrary.
    pub fn is_long(&self, stated_type: u32) -> bool {
        let is_stated = stated_type == 6 || stated_type == 7;
        self.long > self.short || (is_stated && self.long == self.short)
    }

    /// Whether letters are international: the stated ones, unless more headers below the root tell the others; if none below the root
    /// tells, all headers that tell must tell the others.
    pub fn is_international(&self, is_stated: bool) -> bool {
        if self.is_below_root {
            self.international > self.ascii || (is_stated && self.international == self.ascii)
        } else if is_stated {
            self.ascii == 0 || self.international > 0
        } else {
            self.international > 0 && self.ascii == 0
        }
    }
}

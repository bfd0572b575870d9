// How many blocks a volume has.

use crate::image::Image;
use crate::middles::{Middle, Middles};
use adf_base::{BLOCK_LEN, NoMemory};
use std::alloc::Global;

// The lengths of floppies with 80 to 84 cylinders, of both densities.
const USUAL: [u32; 10] = [1760, 1782, 1804, 1826, 1848, 3520, 3564, 3608, 3652, 3696];

// The most blocks of a floppy of each density.
const MOST_LOW: u32 = 1848;

const MOST_HIGH: u32 = 3696;

// The most blocks that an image is read as whose length is not known: twice those of the largest floppy.
const LEAST_ROOM: u32 = 2 * MOST_HIGH;

/// How many blocks a volume has, and the middles of other lengths whose roots are not older.
#[derive(Drop)]
pub struct Length {
    pub blocks: u32,
    pub rivals: Vec<u32>,
}

// Which of the usual lengths are tried.
#[derive(Clone, Copy)]
enum Lengths {
    // Those of the density that the input's length fits, whose end is not missing, and that of 80 cylinders.
    Ended,
    // Those of the density that the input's length fits.
    Density,
    // All.
    Any,
}

// Whether a floppy has 80 cylinders.
fn is_floppy(blocks: u32) -> bool {
    blocks == 1760 || blocks == 3520
}

impl Lengths {
    // Whether a usual length is tried for an input that holds so many blocks.
    fn allow(self, held: u32, blocks: u32) -> bool {
        let most = if blocks <= MOST_LOW {
            MOST_LOW
        } else {
            MOST_HIGH
        };
        let has_density = held <= most;
        match self {
            Lengths::Ended => has_density && (blocks <= held || is_floppy(blocks)),
            Lengths::Density => has_density,
            Lengths::Any => true,
        }
    }
}

// The middles of these lengths.
fn middles_of(
    alloc: Global,
    image: &Image<'_>,
    stated: u32,
    lengths: Lengths,
) -> Result<Middles, NoMemory> {
    let mut usual = Vec::new(alloc);
    for blocks in &USUAL {
        if lengths.allow(image.held(), *blocks) {
            usual.push(*blocks)?;
        }
    }
    Middles::new(alloc, image, stated, &usual)
}

// The middles that the root may be in: those of lengths whose end is not missing; of longer ones, if none has a root but one of these does;
// of all, if nothing tells.
fn plausible(alloc: Global, image: &Image<'_>, stated: u32) -> Result<Middles, NoMemory> {
    let mut middles = middles_of(alloc, image, stated, Lengths::Ended)?;
    if middles.has_root() {
        return Ok(middles);
    }
    let longer = middles_of(alloc, image, stated, Lengths::Density)?;
    if longer.has_root() {
        middles = longer;
    }
    if middles.has_root() || middles.is_named() {
        Ok(middles)
    } else {
        middles_of(alloc, image, stated, Lengths::Any)
    }
}

// The length by its middles: that of a floppy with 80 cylinders stands if its middle has a root, and has no rivals if that is sound.
fn length_by(
    alloc: Global,
    image: &Image<'_>,
    middles: &Middles,
    stated: u32,
) -> Result<Length, NoMemory> {
    let first = middles.stated();
    let is_first = is_floppy(stated) && first.is_some_and(|middle| middle.has_root);
    let best = if is_first { first } else { middles.best(image) };
    match best {
        Some(best) if !is_first || !image.is_root(best.block) => Ok(Length {
            blocks: best.block.saturating_mul(2),
            rivals: middles.rivals(alloc, image, best)?,
        }),
        _ => Ok(Length {
            blocks: stated,
            rivals: Vec::new(alloc),
        }),
    }
}

// The even number of blocks that an input holds.
fn stated_blocks(input: &[u8]) -> u32 {
    match u32::try_from(input.len() / BLOCK_LEN) {
        Ok(held) => held / 2 * 2,
        Err(_) => u32::MAX - 1,
    }
}

/// The length that the user states; else the one that the roots and the headers of the input tell.
pub fn length_of(alloc: Global, input: &[u8], blocks: Option<u32>) -> Result<Length, NoMemory> {
    if let Some(blocks) = blocks {
        return Ok(Length {
            blocks,
            rivals: Vec::new(alloc),
        });
    }
    let stated = stated_blocks(input);
    let image = Image::new(alloc, input, stated.max(LEAST_ROOM), &[])?;
    let middles = plausible(alloc, &image, stated)?;
    length_by(alloc, &image, &middles, stated)
}

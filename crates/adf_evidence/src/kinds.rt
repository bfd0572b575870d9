// What the files of a volume tell of its kind.

use crate::columns::{Marks, Numbers};
use crate::image::Image;
use adf_base::NoMemory;
use adf_blocks::{EXTENSION, FIRST_POINTER, POINTERS, SIZE};
use adf_names::Kind;
use std::alloc::Global;

// The pointers in the table of a header or an extension block.
const TABLE: u32 = POINTERS as u32;

/// How many blocks the tables of files name, and what that tells of the kind.
#[derive(Drop)]
pub struct Kinds {
    // One more than the number of blocks that the tables of a file name; 0 where it was not asked.
    counts: Numbers,
    // The extension blocks of the files that were asked.
    counted: Marks,
}

// How many pointers the table of a header or an extension block has, up to the first one that is 0.
fn table_len(image: &Image<'_>, b: u32) -> u32 {
    for k in 1..TABLE + 1 {
        if pointer(image, b, k) == 0 {
            return k - 1;
        }
    }
    TABLE
}

// Pointer `k`, from 1 on, of the table of a header or an extension block.
fn pointer(image: &Image<'_>, b: u32, k: u32) -> u32 {
    image.word(b, (FIRST_POINTER + 1).saturating_sub(k as usize))
}

impl Kinds {
    /// No file was asked yet, of a volume of so many blocks.
    pub fn new(alloc: Global, blocks: u32) -> Result<Kinds, NoMemory> {
        Ok(Kinds {
            counts: Numbers::new(alloc, blocks)?,
            counted: Marks::new(alloc, blocks)?,
        })
    }

    /// How many blocks the tables of a file name.
    pub fn count(&mut self, image: &Image<'_>, header: u32) -> u32 {
        if self.counts.get(header) == 0 {
            let count = self.count_tables(image, header);
            self.counts.set(header, count.saturating_add(1));
        }
        self.counts.get(header).saturating_sub(1)
    }

    // Counts the pointers in the header and the extension blocks of a file.
    fn count_tables(&mut self, image: &Image<'_>, header: u32) -> u32 {
        let mut count = 0u32;
        let mut at = header;
        for _ in 0..image.blocks() {
            let len = table_len(image, at);
            count = count.saturating_add(len);
            at = image.word(at, EXTENSION);
            if len < TABLE || !image.is_extension(at, header) || self.counted.has(at) {
                break;
            }
            self.counted.set(at, true);
        }
        count
    }

    /// Whether a block that a header names says that it is an OFS data block of that file.
    pub fn is_ofs(&self, image: &Image<'_>, header: u32) -> bool {
        for k in 1..TABLE + 1 {
            if self.says_ofs(image, header, k) {
                return true;
            }
        }
        false
    }

    /// Whether the block that a header names for data block `k` says that it is this OFS data block.
    pub fn says_ofs(&self, image: &Image<'_>, header: u32, k: u32) -> bool {
        image.is_data(pointer(image, header, k), header, k)
    }

    /// Whether the block that a header names for data block `k` is held, and is not filled with a pattern.
    pub fn speaks(&self, image: &Image<'_>, header: u32, k: u32) -> bool {
        let b = pointer(image, header, k);
        image.has(b) && image.is_held(b) && !image.is_filled(b)
    }

    /// How many of the data blocks that a header names speak.
    pub fn speaking(&mut self, image: &Image<'_>, header: u32) -> u32 {
        let mut speaking = 0u32;
        for k in 1..self.count(image, header).min(TABLE) + 1 {
            speaking = speaking.saturating_add(u32::from(self.speaks(image, header, k)));
        }
        speaking
    }

    // How many of the data blocks that a header names speak, and say that they are OFS data blocks of that file.
    fn saying_ofs(&mut self, image: &Image<'_>, header: u32) -> u32 {
        let mut saying = 0u32;
        for k in 1..self.count(image, header).min(TABLE) + 1 {
            let says = self.speaks(image, header, k) && self.says_ofs(image, header, k);
            saying = saying.saturating_add(u32::from(says));
        }
        saying
    }

    /// What a file tells: the kind in which its size needs just as many blocks as its tables name; where both need as many, OFS if most
    /// of its blocks that speak say so.
    pub fn says(&mut self, image: &Image<'_>, header: u32) -> Option<Kind> {
        let size = image.word(header, SIZE);
        let count = self.count(image, header);
        let is_ofs = count == size.div_ceil(488);
        let is_ffs = count == size.div_ceil(512);
        if is_ofs != is_ffs {
            return Some(if is_ffs { Kind::Ffs } else { Kind::Ofs });
        }
        let saying = u64::from(self.saying_ofs(image, header));
        if 2 * saying > u64::from(self.speaking(image, header)) {
            Some(Kind::Ofs)
        } else {
            None
        }
    }
}

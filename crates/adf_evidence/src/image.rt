// The blocks of an image: what they hold, and what kind of block each is.

use crate::columns::Marks;
use crate::moment::Moment;
use adf_base::{BLOCK_LEN, BLOCK_WORDS, Block, Letters, NoMemory, Stamp, upper_by};
use adf_blocks::{
    NAME, OWN_KEY, PARENT, SECONDARY_TYPE, SLOTS, ST_DIR, ST_FILE, ST_LINK_DIR, ST_LINK_FILE,
    ST_ROOT, ST_SOFT_LINK, T_DATA, T_DIR_CACHE, T_LIST, T_SHORT, TYPE,
};
use std::alloc::Global;

/// The word of the root that holds the size of its hash table.
pub const HASH_SIZE: usize = 3;

/// The word of an entry's protection bits.
pub const PROTECTION: usize = 80;

/// The byte of the length of a comment; its text follows.
pub const COMMENT: usize = 328;

/// The first word of the date of the root or an entry.
pub const DATE: usize = 105;

/// The most bytes of a name or a comment that a header has room for.
pub const MOST_TEXT: usize = 79;

/// The blocks of a volume. A block that the input does not hold, or that was never read, reads as zeros.
#[derive(Drop)]
pub struct Image<'a> {
    input: &'a [u8],
    blocks: u32,
    held: u32,
    // The blocks that the input holds and that were read.
    readable: Marks,
    // The blocks with a right checksum.
    sealed: Marks,
}

// How many blocks of the volume an input holds.
fn held_blocks(input: &[u8], blocks: u32) -> u32 {
    match u32::try_from(input.len() / BLOCK_LEN) {
        Ok(held) => held.min(blocks),
        Err(_) => blocks,
    }
}

// The slot of a name of any length.
pub(crate) fn slot_of_name(name: &[u8], letters: Letters) -> u32 {
    let mut hash = (name.len() % 2048) as u32;
    for c in name {
        let upper = u32::from(upper_by(letters, *c));
        hash = hash.wrapping_mul(13).wrapping_add(upper) % 2048;
    }
    hash % SLOTS
}

impl<'a> Image<'a> {
    /// The image of a volume of so many blocks; `unread` marks the blocks of the input that were never read.
    pub fn new(
        alloc: Global,
        input: &'a [u8],
        blocks: u32,
        unread: &[bool],
    ) -> Result<Image<'a>, NoMemory> {
        let mut image = Image {
            input,
            blocks,
            held: held_blocks(input, blocks),
            readable: Marks::new(alloc, blocks)?,
            sealed: Marks::new(alloc, blocks)?,
        };
        image.mark_readable(unread);
        image.mark_sealed();
        Ok(image)
    }

    // Marks the blocks that were read.
    fn mark_readable(&mut self, unread: &[bool]) {
        for b in 0..self.held {
            let is_unread = unread.get(b as usize).copied().unwrap_or(false);
            self.readable.set(b, !is_unread);
        }
    }

    // Marks the blocks with a right checksum.
    fn mark_sealed(&mut self) {
        for b in 0..self.blocks {
            let is_sealed = match self.block(b) {
                Some(block) => block.long_sum() == 0,
                None => true,
            };
            self.sealed.set(b, is_sealed);
        }
    }

    // A block that was read.
    fn block(&self, b: u32) -> Option<Block<'a>> {
        if self.readable.has(b) {
            Block::at(self.input, b)
        } else {
            None
        }
    }

    /// The number of blocks of the volume.
    pub fn blocks(&self) -> u32 {
        self.blocks
    }

    /// How many blocks of the volume the input holds, from the first one on.
    pub fn held(&self) -> u32 {
        self.held
    }

    /// The block of the root.
    pub fn root(&self) -> u32 {
        self.blocks / 2
    }

    /// Whether the input holds a block of the volume, and it was read.
    pub fn is_held(&self, b: u32) -> bool {
        self.readable.has(b)
    }

    /// Word `i` of a block.
    pub fn word(&self, b: u32, i: usize) -> u32 {
        match self.block(b) {
            Some(block) if i < BLOCK_WORDS => block.word(i),
            _ => 0,
        }
    }

    /// The byte of a block at `at`.
    pub fn byte(&self, b: u32, at: usize) -> u8 {
        match self.block(b) {
            Some(block) if at < BLOCK_LEN => block.byte(at),
            _ => 0,
        }
    }

    /// The text of a block whose length is in the byte at `at`: at most `most` bytes, none behind the block's end.
    pub fn text(&self, b: u32, at: usize, most: usize) -> &'a [u8] {
        match self.block(b) {
            Some(block) if at < BLOCK_LEN => {
                let start = at + 1;
                let stated = block.byte(at) as usize;
                block.bytes(start, stated.min(most).min(BLOCK_LEN - start))
            }
            _ => &[],
        }
    }

    /// The date in three words of a block, from word `i` on.
    pub fn stamp(&self, b: u32, i: usize) -> Stamp {
        Stamp {
            days: self.word(b, i),
            mins: self.word(b, i.saturating_add(1)),
            ticks: self.word(b, i.saturating_add(2)),
        }
    }

    /// The date of a header.
    pub fn moment(&self, b: u32) -> Moment {
        Moment::of(self.stamp(b, DATE))
    }

    /// The slot of the name that a header states.
    pub fn slot_of(&self, b: u32, letters: Letters) -> u32 {
        slot_of_name(self.text(b, NAME, MOST_TEXT), letters)
    }

    /// The bytes of a block; `None` if the input does not hold it, or it was never read.
    pub fn block_bytes(&self, b: u32) -> Option<&'a [u8]> {
        match self.block(b) {
            Some(block) => Some(block.bytes(0, BLOCK_LEN)),
            None => None,
        }
    }

    /// Whether the number is that of a block behind the boot blocks.
    pub fn has(&self, b: u32) -> bool {
        2 <= b && b < self.blocks
    }

    /// Whether the checksum of a block is right.
    pub fn is_sealed(&self, b: u32) -> bool {
        self.sealed.has(b)
    }

    /// Whether a block is a sound header of an entry: its types, its own key and its checksum are right.
    pub fn is_header(&self, b: u32) -> bool {
        self.word(b, TYPE) == T_SHORT
            && self.word(b, OWN_KEY) == b
            && is_header_type(self.word(b, SECONDARY_TYPE))
            && self.is_sealed(b)
    }

    /// Whether a block is a sound extension block of the file with header `header`.
    pub fn is_extension(&self, b: u32, header: u32) -> bool {
        self.has(b)
            && self.word(b, TYPE) == T_LIST
            && self.word(b, OWN_KEY) == b
            && self.word(b, PARENT) == header
            && self.word(b, SECONDARY_TYPE) == ST_FILE
            && self.is_sealed(b)
    }

    /// Whether a block is the sound OFS data block `k`, from 1 on, of the file with header `header`.
    pub fn is_data(&self, b: u32, header: u32, k: u32) -> bool {
        self.has(b)
            && self.word(b, 0) == T_DATA
            && self.word(b, 1) == header
            && self.word(b, 2) == k
            && self.is_sealed(b)
    }

    /// Whether a block is a sound bitmap page: its first word is not the type of another block, and it is not of zeros.
    pub fn is_page(&self, b: u32) -> bool {
        let first = self.word(b, 0);
        let is_other = matches!(first, 0 | T_SHORT | T_DATA | T_LIST | T_DIR_CACHE);
        self.has(b) && !is_other && self.is_sealed(b)
    }

    /// Whether a block is one of a directory cache, by its type and its own key.
    pub fn is_cache(&self, b: u32) -> bool {
        self.word(b, TYPE) == T_DIR_CACHE && self.word(b, OWN_KEY) == b
    }

    /// Whether a block is a sound root.
    pub fn is_root(&self, b: u32) -> bool {
        self.word(b, TYPE) == T_SHORT
            && self.word(b, HASH_SIZE) == SLOTS
            && self.word(b, SECONDARY_TYPE) == ST_ROOT
            && self.is_sealed(b)
    }

    /// Whether two of the three words of a root are there, whatever the checksum is.
    pub fn is_like_root(&self, b: u32) -> bool {
        let has_type = self.word(b, TYPE) == T_SHORT;
        let has_size = self.word(b, HASH_SIZE) == SLOTS;
        let has_second = self.word(b, SECONDARY_TYPE) == ST_ROOT;
        (has_type && has_size) || (has_type && has_second) || (has_size && has_second)
    }

    /// Whether both halves of a block are alike, as in one that is filled with a pattern.
    pub fn is_filled(&self, b: u32) -> bool {
        match self.block(b) {
            Some(block) => block.bytes(0, 256) == block.bytes(256, 256),
            None => true,
        }
    }
}

/// Whether a secondary type is that of the header of an entry.
pub fn is_header_type(secondary: u32) -> bool {
    matches!(
        secondary,
        ST_DIR | ST_FILE | ST_SOFT_LINK | ST_LINK_DIR | ST_LINK_FILE
    )
}

// What directory caches of types 4 and 5 say of directories whose headers are lost.

use adf_base::{NoMemory, Stamp};
use adf_blocks::{ST_DIR, TYPE};
use adf_evidence::{Bitmap, Image, Numbers};
use std::alloc::Global;

/// The first words of the boot blocks of types 4 and 5.
const CACHED_TYPES: [u32; 2] = [0x444F_5304, 0x444F_5305];

/// The word of a block of a directory cache that holds the number of its records.
const RECORDS: usize = 3;

/// The word of a block of a directory cache that holds the block of the directory.
const CACHE_PARENT: usize = 2;

/// The most records of a block of a directory cache.
const MOST_RECORDS: u32 = 19;

/// The byte of a block of a directory cache where its first record begins.
const FIRST_RECORD: u32 = 24;

/// The byte of a record where its name begins, and those of its protection bits, its date, its type and its name's length.
const NAME_IN_RECORD: u32 = 24;

const PROTECTION_IN_RECORD: u32 = 8;

const DATE_IN_RECORD: u32 = 16;

const TYPE_IN_RECORD: u32 = 22;

const NAME_LENGTH_IN_RECORD: u32 = 23;

/// The bytes of a block.
const BLOCK_BYTES: u32 = 512;

/// The record of each directory in the cache of the one above it.
#[derive(Drop)]
pub(crate) struct Caches {
    /// The block of the cache with the record of a directory; 0 if none has one.
    pub(crate) record: Numbers,
    /// The byte of that block where the record begins.
    place: Numbers,
}

impl Caches {
    /// The records of all sound blocks of caches that the bitmap does not have free.
    pub(crate) fn new(
        alloc: Global,
        image: &Image<'_>,
        bitmap: &Bitmap,
    ) -> Result<Caches, NoMemory> {
        let mut caches = Caches {
            record: Numbers::new(alloc, image.blocks())?,
            place: Numbers::new(alloc, image.blocks())?,
        };
        if CACHED_TYPES.contains(&image.word(0, TYPE)) {
            for b in 2..image.blocks() {
                if image.is_cache(b) && image.is_sealed(b) && !bitmap.is_free(image, b) {
                    caches.read(image, b);
                }
            }
        }
        Ok(caches)
    }

    /// Reads the records of a sound block of a cache.
    fn read(&mut self, image: &Image<'_>, b: u32) {
        let mut at = FIRST_RECORD;
        for _ in 0..image.word(b, RECORDS).min(MOST_RECORDS) {
            let end = record_end(image, b, at);
            if end == 0 {
                break;
            }
            let h = number(image, b, at, 4);
            if image.has(h) && number(image, b, at.saturating_add(TYPE_IN_RECORD), 1) == ST_DIR {
                self.record.set(h, b);
                self.place.set(h, at);
            }
            at = end;
        }
    }

    /// Whether a cache has the record of a directory.
    pub(crate) fn has(&self, p: u32) -> bool {
        self.record.get(p) != 0
    }

    /// The directory whose cache has the record of `p`; 0 if none has.
    pub(crate) fn directory(&self, image: &Image<'_>, p: u32) -> u32 {
        if self.has(p) {
            image.word(self.record.get(p), CACHE_PARENT)
        } else {
            0
        }
    }

    // The fields of a record

    /// The name that the record of a directory has.
    pub(crate) fn name<'a>(&self, image: &Image<'a>, p: u32) -> &'a [u8] {
        let at = self.byte_of(p, NAME_LENGTH_IN_RECORD);
        image.text(self.record.get(p), at as usize, 255)
    }

    /// The comment that the record of a directory has.
    pub(crate) fn comment<'a>(&self, image: &Image<'a>, p: u32) -> &'a [u8] {
        let name = u32::try_from(self.name(image, p).len()).unwrap_or(0);
        let at = self.byte_of(p, NAME_IN_RECORD.saturating_add(name));
        image.text(self.record.get(p), at as usize, 255)
    }

    /// The protection bits that the record of a directory has.
    pub(crate) fn protection(&self, image: &Image<'_>, p: u32) -> u32 {
        let at = self.byte_of(p, PROTECTION_IN_RECORD);
        number(image, self.record.get(p), at, 4)
    }

    /// The date that the record of a directory has.
    pub(crate) fn date(&self, image: &Image<'_>, p: u32) -> Stamp {
        let b = self.record.get(p);
        let at = self.byte_of(p, DATE_IN_RECORD);
        Stamp {
            days: number(image, b, at, 2),
            mins: number(image, b, at.saturating_add(2), 2),
            ticks: number(image, b, at.saturating_add(4), 2),
        }
    }

    /// The byte of its block where byte `i` of a record is.
    fn byte_of(&self, p: u32, i: u32) -> u32 {
        self.place.get(p).saturating_add(i)
    }
}

/// The number in some bytes of a block, the highest first.
fn number(image: &Image<'_>, b: u32, at: u32, many: u32) -> u32 {
    let mut number = 0u32;
    for i in 0..many {
        let byte = image.byte(b, at.saturating_add(i) as usize);
        number = number.wrapping_mul(256).wrapping_add(u32::from(byte));
    }
    number
}

/// The end of a record: behind its name and its comment, at an even byte; 0 if the block ends before.
fn record_end(image: &Image<'_>, b: u32, at: u32) -> u32 {
    let comment = past_text(image, b, at.saturating_add(NAME_LENGTH_IN_RECORD));
    let end = past_text(image, b, comment);
    if comment >= BLOCK_BYTES || end > BLOCK_BYTES {
        return 0;
    }
    end.saturating_add(end % 2)
}

/// The byte behind a text whose length is in the byte at `at`.
fn past_text(image: &Image<'_>, b: u32, at: u32) -> u32 {
    let length = u32::from(image.byte(b, at as usize));
    at.saturating_add(1).saturating_add(length)
}

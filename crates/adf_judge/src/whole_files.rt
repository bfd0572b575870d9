// Which data blocks are a file's own, and which files are whole.

use crate::files::Files;
use crate::walk::Walk;
use adf_blocks::{DATA_HELD, DATA_NEXT, SIZE};
use adf_evidence::Image;

impl Files {
    /// The block that the table names for data block `k` is held and may be that: on OFS it says so, on FFS it is no sound header and
    /// no sound block of a directory cache.
    pub(crate) fn is_agreed(&self, image: &Image<'_>, walk: &Walk, h: u32, k: u32) -> bool {
        let d = self.names(image, h, k);
        if !image.has(d) || !image.is_held(d) {
            return false;
        }
        if !self.is_ffs {
            return image.is_data(d, h, k);
        }
        !walk.is_header.has(d) && !(image.is_cache(d) && image.is_sealed(d))
    }

    /// The block that the table names for data block `k` is the file's own.
    pub(crate) fn is_good(&self, image: &Image<'_>, walk: &Walk, h: u32, k: u32) -> bool {
        let d = self.names(image, h, k);
        let is_own = !self.is_ffs || self.owner.get(d) == h && !self.is_part.has(d);
        self.is_agreed(image, walk, h, k) && is_own
    }

    /// How many bytes of the file are in its data block `k`.
    pub(crate) fn size_of(&self, image: &Image<'_>, h: u32, k: u32) -> u32 {
        let before = self.chunk().saturating_mul(k.saturating_sub(1));
        let rest = image.word(h, SIZE).saturating_sub(before);
        rest.min(self.chunk())
    }

    /// OFS: each data block leads to the next one of the table, and says how many bytes of the file it has.
    pub(crate) fn is_joined(&self, image: &Image<'_>, h: u32) -> bool {
        if self.is_ffs {
            return true;
        }
        for at in 0..self.told.get(h) {
            if !self.is_next_right(image, h, at.saturating_add(1)) {
                return false;
            }
        }
        true
    }

    fn is_next_right(&self, image: &Image<'_>, h: u32, k: u32) -> bool {
        let d = self.names(image, h, k);
        image.word(d, DATA_HELD) == self.size_of(image, h, k)
            && image.word(d, DATA_NEXT) == self.names(image, h, k.saturating_add(1))
    }

    /// Each block of the file is its own, and its header's checksum is right.
    pub(crate) fn is_whole(&self, image: &Image<'_>, walk: &Walk, h: u32) -> bool {
        if !walk.is_sound(h) || self.told.get(h) != self.count(image, h) {
            return false;
        }
        for at in 0..self.told.get(h) {
            if !self.is_good(image, walk, h, at.saturating_add(1)) {
                return false;
            }
        }
        true
    }
}

// Directories that are made: nothing is left of them but the block that their entries state, or a record of a directory cache.

use crate::judgement::Origin;
use crate::orphans::Search;
use adf_base::NoMemory;
use adf_blocks::{DATA_HEAD, DATA_NUMBER, T_DATA, T_LIST, TYPE};
use adf_evidence::{Marks, Moment};

impl Search<'_, '_> {
    /// Makes the directories that are lost, each after the one that has it by a cache.
    pub(crate) fn make(&mut self) -> Result<(), NoMemory> {
        let mut is_tried = Marks::new(self.alloc, self.image.blocks())?;
        for b in 2..self.image.blocks() {
            let lost = self.lost_above(&mut is_tried, b)?;
            for &p in lost.iter().rev() {
                self.make_one(p)?;
            }
        }
        Ok(())
    }

    /// A lost directory and those above it by the caches, as far as none of them was tried.
    fn lost_above(&self, is_tried: &mut Marks, b: u32) -> Result<Vec<u32>, NoMemory> {
        let mut lost = Vec::new(self.alloc);
        let mut p = b;
        for _ in 0..self.image.blocks() {
            let is_named = self.waiting.first(p) != 0 || self.caches.has(p);
            if !self.image.has(p) || is_tried.has(p) || !is_named {
                break;
            }
            is_tried.set(p, true);
            lost.push(p)?;
            p = self.caches.directory(self.image, p);
        }
        Ok(lost)
    }

    fn make_one(&mut self, p: u32) -> Result<(), NoMemory> {
        if !self.may_be_made(p) {
            return Ok(());
        }
        let was_doubted = self.walk.doubted.has(p);
        self.walk.doubted.set(p, true);
        if !self.is_recorded(p) && !self.has_live_entry(p) {
            self.walk.doubted.set(p, was_doubted);
            return Ok(());
        }
        let q = self.caches.directory(self.image, p);
        let parent = if self.is_live_dir(q) {
            q
        } else {
            self.image.root()
        };
        self.walk.take(p, parent, Origin::Made)?;
        self.walk.has_gap = true;
        self.hang()
    }

    /// One of the headers that wait for a directory was not deleted.
    fn has_live_entry(&self, p: u32) -> bool {
        let mut h = self.waiting.first(p);
        for _ in 0..self.image.blocks() {
            if h == 0 {
                break;
            }
            if self.verdict(h).is_some() {
                return true;
            }
            h = self.waiting.next(h);
        }
        false
    }

    fn is_live_dir(&self, q: u32) -> bool {
        let is_known = q == self.image.root() || self.walk.origin.has(q);
        self.image.has(q) && is_known && self.walk.is_dir(self.image, q)
    }

    /// A trusted bitmap has a lost directory and the block of the cache with its record allocated, and the directory of that cache exists.
    fn is_recorded(&self, p: u32) -> bool {
        self.trusted
            && self.caches.has(p)
            && self.is_live_dir(self.caches.directory(self.image, p))
            && self.bitmap.is_used(self.image, p)
            && self.bitmap.is_used(self.image, self.caches.record.get(p))
    }

    /// A lost directory is no header of now and no part of a file, and a broken chain may have led to it.
    fn may_be_made(&self, p: u32) -> bool {
        if self.walk.is_header.has(p) && !self.is_superseded(p)
            || self.firm.has(p)
            || self.walk.origin.has(p)
            || p == self.image.root()
            || self.is_part(p)
            || self.is_later_data(p)
        {
            return false;
        }
        if self.trusted && self.bitmap.free(self.image, p).is_some() {
            return self.bitmap.is_used(self.image, p);
        }
        self.walk.led.get(p) != 0 || self.walk.has_gap
    }

    /// A file names the block that is later than all that waits for it.
    fn is_later_data(&self, p: u32) -> bool {
        let file = self.latest.get(p);
        if file == 0 {
            return false;
        }
        let mut latest = Moment::NONE;
        let mut h = self.waiting.first(p);
        for _ in 0..self.image.blocks() {
            if h == 0 {
                break;
            }
            latest = latest.latest(self.image.moment(h));
            h = self.waiting.next(h);
        }
        self.image.moment(file) > latest
    }

    /// It says itself, with a right checksum, that it is a part of a file whose header stands and leads to it.
    fn is_part(&self, b: u32) -> bool {
        if !self.image.is_sealed(b) {
            return false;
        }
        if self.image.word(b, TYPE) != T_DATA {
            return self.image.word(b, TYPE) == T_LIST && self.files.is_led_ext.has(b);
        }
        let h = self.image.word(b, DATA_HEAD);
        let k = self.image.word(b, DATA_NUMBER);
        self.image.has(h) && self.walk.is_header.has(h) && self.files.names(self.image, h, k) == b
    }
}

// The kind of a volume: what its files tell.

use crate::judgement::Object;
use crate::walk::Walk;
use adf_base::NoMemory;
use adf_blocks::SIZE;
use adf_evidence::{Bitmap, Image, Kinds, Moment};
use adf_names::Kind;
use std::alloc::Global;
use std::cmp::Reverse;

/// So many files are asked where none is reached.
const NEWEST: usize = 5;

/// A file that is asked for its kind; the newest ones come first.
#[derive(Clone, Copy, PartialEq, Eq, PartialOrd, Ord)]
struct Asked {
    date: Reverse<Moment>,
    place: usize,
    header: u32,
}

/// What the files that are reached tell.
#[derive(Clone, Copy)]
struct Told {
    ofs: u32,
    ffs: u32,
    /// How many of their data blocks speak.
    spoken: u32,
    /// The date of the earliest one; `None` if no file is reached.
    earliest: Option<Moment>,
}

/// What files are asked for the kind of a volume.
#[derive(Drop)]
pub(crate) struct KindPoll<'s, 'a> {
    pub(crate) image: &'s Image<'a>,
    pub(crate) bitmap: &'s Bitmap,
    pub(crate) walk: &'s Walk,
    pub(crate) kinds: &'s mut Kinds,
}

impl KindPoll<'_, '_> {
    /// Whether the kind is FFS: the stated one, unless more of the files that are reached tell the other. OFS gives way too if two or
    /// more blocks of reached files are not filled, and no block of the files of now says OFS.
    pub(crate) fn is_ffs(&mut self, alloc: Global, stated: Option<Kind>) -> Result<bool, NoMemory> {
        let mut told = self.reached_tell();
        told.ofs = told.ofs.saturating_add(self.doubted_tell());
        if told.ofs != 0 || told.ffs != 0 {
            let is_even = told.ffs == told.ofs;
            return Ok(told.ffs > told.ofs || is_even && stated != Some(Kind::Ofs));
        }
        match told.earliest {
            Some(earliest) if stated.is_some() || told.spoken >= 2 => {
                let is_silent = told.spoken >= 2 && !self.says_ofs_since(earliest);
                Ok(stated == Some(Kind::Ffs) || is_silent)
            }
            _ => self.newest_tell(alloc, stated),
        }
    }

    /// Whether a sound header is that of a file that is not empty.
    fn is_full(&self, h: u32) -> bool {
        self.walk.kind(self.image, h) == Object::File && self.image.word(h, SIZE) != 0
    }

    /// What the sound headers tell that are reached.
    fn reached_tell(&mut self) -> Told {
        let mut told = Told {
            ofs: 0,
            ffs: 0,
            spoken: 0,
            earliest: None,
        };
        let walk = self.walk;
        for &h in &walk.heads {
            if walk.origin.has(h) && self.is_full(h) {
                self.tell(&mut told, h);
            }
        }
        told
    }

    /// Adds what a file that is reached tells.
    fn tell(&mut self, told: &mut Told, h: u32) {
        match self.kinds.says(self.image, h) {
            Some(Kind::Ofs) => told.ofs = told.ofs.saturating_add(1),
            Some(Kind::Ffs) => told.ffs = told.ffs.saturating_add(1),
            None => {}
        }
        told.spoken = told
            .spoken
            .saturating_add(self.kinds.speaking(self.image, h));
        let moment = self.image.moment(h);
        let earliest = told.earliest.unwrap_or(moment);
        told.earliest = Some(if moment < earliest { moment } else { earliest });
    }

    /// How many files that are reached, and whose headers have a wrong checksum, tell OFS.
    fn doubted_tell(&self) -> u32 {
        let mut ofs = 0u32;
        for at in 1..self.walk.order.len() {
            let h = self.walk.order.get(at).copied().unwrap_or(0);
            let is_doubted = !self.walk.is_header.has(h) && self.walk.is_file(self.image, h);
            if is_doubted && self.kinds.is_ofs(self.image, h) {
                ofs = ofs.saturating_add(1);
            }
        }
        ofs
    }

    /// Whether a block of a file of now says OFS.
    fn says_ofs_since(&self, earliest: Moment) -> bool {
        for &h in &self.walk.heads {
            if self.is_full(h) && self.is_of_now(h, earliest) && self.kinds.is_ofs(self.image, h) {
                return true;
            }
        }
        false
    }

    /// Whether a file is no older than the earliest one that is reached, or the way to it may be lost and the bitmap has it allocated.
    fn is_of_now(&self, h: u32, earliest: Moment) -> bool {
        self.image.moment(h) >= earliest
            || self.may_be_lost(h) && self.bitmap.is_used(self.image, h)
    }

    /// Whether it is reached, or the way to it may be lost.
    fn may_be_lost(&self, h: u32) -> bool {
        let p = self.walk.home.get(h);
        let is_reached = p == self.image.root() || self.walk.origin.has(p);
        self.walk.origin.has(h) || self.walk.is_open(h) || !is_reached
    }

    /// Where no file is reached: of newest to oldest the first that tells its kind, or FFS once two blocks speak that do not say OFS.
    /// Where a kind is stated, the five newest files, and all that are as new, must all tell the other one.
    fn newest_tell(&mut self, alloc: Global, stated: Option<Kind>) -> Result<bool, NoMemory> {
        let asked = self.asked(alloc, stated)?;
        let Some(stated) = stated else {
            return Ok(self.first_tells(&asked));
        };
        let Some(last) = asked
            .get(NEWEST.min(asked.len()).saturating_sub(1))
            .copied()
        else {
            return Ok(stated == Kind::Ffs);
        };
        for each in &asked {
            if each.date > last.date {
                break;
            }
            match self.kinds.says(self.image, each.header) {
                Some(kind) if kind != stated => {}
                _ => return Ok(stated == Kind::Ffs),
            }
        }
        Ok(stated == Kind::Ofs)
    }

    /// The files that are asked, from the newest on.
    fn asked(&mut self, alloc: Global, stated: Option<Kind>) -> Result<Vec<Asked>, NoMemory> {
        let mut asked = Vec::new(alloc);
        for place in 0..self.walk.heads.len() {
            let header = self.walk.heads.get(place).copied().unwrap_or(0);
            if self.is_full(header) && self.may_be_lost(header) && self.is_asked(header, stated) {
                asked.push(Asked {
                    date: Reverse(self.image.moment(header)),
                    place,
                    header,
                })?;
            }
        }
        asked.sort()?;
        Ok(asked)
    }

    /// Whether a file is asked: it tells a kind where OFS is stated; else its first data block speaks.
    fn is_asked(&mut self, h: u32, stated: Option<Kind>) -> bool {
        match stated {
            Some(Kind::Ofs) => self.kinds.says(self.image, h).is_some(),
            _ => self.kinds.speaks(self.image, h, 1),
        }
    }

    fn first_tells(&mut self, asked: &[Asked]) -> bool {
        let mut spoken = 0u32;
        for each in asked {
            let said = self.kinds.says(self.image, each.header);
            spoken = spoken.saturating_add(self.kinds.speaking(self.image, each.header));
            if said.is_some() || spoken >= 2 {
                return said != Some(Kind::Ofs);
            }
        }
        true
    }
}

// What nothing leads to, and is given back: orphaned headers in the directories that they state, and directories made for those of
// which nothing is left.

use crate::caches::Caches;
use crate::files::Files;
use crate::judgement::{Object, Origin};
use crate::waiting::Waiting;
use crate::walk::Walk;
use adf_base::NoMemory;
use adf_evidence::{Bitmap, Image, Marks, Numbers};
use std::alloc::Global;

/// What the search for orphaned entries leaves to be asked.
#[derive(Drop)]
pub(crate) struct Orphans {
    /// The blocks of all that is reached.
    pub(crate) firm: Marks,
    /// The bitmap can be believed: its flag says that it is valid, and nothing that is reached is free.
    pub(crate) trusted: bool,
    pub(crate) caches: Caches,
}

/// The search for orphaned entries.
#[derive(Drop)]
pub(crate) struct Search<'s, 'a> {
    pub(crate) alloc: Global,
    pub(crate) image: &'s Image<'a>,
    pub(crate) bitmap: &'s Bitmap,
    pub(crate) walk: &'s mut Walk,
    pub(crate) files: &'s mut Files,
    pub(crate) firm: Marks,
    pub(crate) trusted: bool,
    pub(crate) caches: Caches,
    /// For each block the latest header of a file that names it.
    pub(crate) latest: Numbers,
    pub(crate) waiting: Waiting,
    /// How many entries of the walk have what waits for them.
    pub(crate) done: usize,
}

/// Gives back what was orphaned, in `walk` and `files`.
pub(crate) fn find_orphans(
    alloc: Global,
    image: &Image<'_>,
    bitmap: &Bitmap,
    walk: &mut Walk,
    files: &mut Files,
) -> Result<Orphans, NoMemory> {
    read_tables(image, walk, files)?;
    files.know(alloc, image, walk)?;
    let firm = files.firm(alloc, image, walk)?;
    let trusted = is_trusted(image, bitmap, &firm);
    let waiting = Waiting::new(alloc, image, walk)?;
    let mut search = Search {
        alloc,
        image,
        bitmap,
        walk,
        files,
        firm,
        trusted,
        caches: Caches::new(alloc, image, bitmap)?,
        latest: Numbers::new(alloc, 0)?,
        waiting,
        done: 0,
    };
    search.run()?;
    let Search {
        firm,
        trusted,
        caches,
        ..
    } = search;
    Ok(Orphans {
        firm,
        trusted,
        caches,
    })
}

/// Reads the tables of all files with a sound header.
fn read_tables(image: &Image<'_>, walk: &Walk, files: &mut Files) -> Result<(), NoMemory> {
    for &h in &walk.heads {
        if walk.kind(image, h) == Object::File {
            files.read_table(image, h)?;
        }
    }
    Ok(())
}

/// Whether a valid bitmap has none of these blocks free.
fn is_trusted(image: &Image<'_>, bitmap: &Bitmap, firm: &Marks) -> bool {
    if !bitmap.is_known || !bitmap.is_valid {
        return false;
    }
    for b in 2..image.blocks() {
        if firm.has(b) && bitmap.is_free(image, b) {
            return false;
        }
    }
    true
}

impl Search<'_, '_> {
    fn run(&mut self) -> Result<(), NoMemory> {
        self.hang()?;
        self.files.know(self.alloc, self.image, self.walk)?;
        self.latest = self.files.latest(self.alloc, self.image, self.walk)?;
        self.make()?;
        self.hang_led()?;
        self.files.know(self.alloc, self.image, self.walk)
    }

    /// Gives back what waits for the directories that are given back, each directory before what is in it.
    pub(crate) fn hang(&mut self) -> Result<(), NoMemory> {
        for at in self.done..self.image.blocks() as usize {
            let Some(&p) = self.walk.order.get(at) else {
                break;
            };
            self.done = at.saturating_add(1);
            if self.walk.is_dir(self.image, p) {
                self.hang_all(p)?;
            }
        }
        Ok(())
    }

    /// Gives back what waits for a directory.
    fn hang_all(&mut self, p: u32) -> Result<(), NoMemory> {
        let mut h = self.waiting.first(p);
        for _ in 0..self.image.blocks() {
            if h == 0 {
                break;
            }
            self.hang_one(h, p)?;
            h = self.waiting.next(h);
        }
        self.waiting.clear(p);
        Ok(())
    }

    fn hang_one(&mut self, h: u32, p: u32) -> Result<(), NoMemory> {
        if self.walk.origin.has(h) || self.is_superseded(h) {
            return Ok(());
        }
        match self.verdict(h) {
            None => Ok(()),
            // It is not empty, so it was not deleted.
            Some(Origin::PerhapsDeleted) if self.is_filled(h) => self.give(h, p, Origin::Orphaned),
            Some(origin) => self.give(h, p, origin),
        }
    }

    /// Gives back a header, and what its chains lead to.
    fn give(&mut self, h: u32, p: u32, origin: Origin) -> Result<(), NoMemory> {
        let at = self.walk.order.len();
        self.walk.take(h, p, origin)?;
        self.walk.follow(self.image, at, origin)
    }

    /// Whether it is a directory whose table leads to a header that names it.
    fn is_filled(&self, h: u32) -> bool {
        self.walk.kind(self.image, h) == Object::Directory && self.walk.leads_home(self.image, h)
    }

    /// Whether a file's header is older than two that name it as their directory, and that a trusted bitmap has allocated.
    pub(crate) fn is_superseded(&self, h: u32) -> bool {
        let is_file = self.walk.is_header.has(h) && self.walk.kind(self.image, h) == Object::File;
        if !is_file || !self.trusted {
            return false;
        }
        let mut many = 0u32;
        let mut b = self.waiting.first(h);
        for _ in 0..self.image.blocks() {
            if b == 0 {
                break;
            }
            if self.bitmap.is_used(self.image, b) && self.image.moment(b) > self.image.moment(h) {
                many = many.saturating_add(1);
            }
            b = self.waiting.next(b);
        }
        many >= 2
    }

    /// How a header is given back that nothing leads to; `None` if it was deleted.
    pub(crate) fn verdict(&self, h: u32) -> Option<Origin> {
        let own = self.files.own(self.image, self.walk, h);
        let is_taken = own.has_mark(self.image, &self.firm);
        if is_taken || self.trusted && own.first().has_free(self.image, self.bitmap) {
            return None;
        }
        let is_open = self.walk.is_open(h);
        let is_used = self.bitmap.is_known
            && self.bitmap.is_used(self.image, h)
            && !own.has_free(self.image, self.bitmap);
        if is_open && is_used && self.trusted {
            return Some(Origin::Orphaned);
        }
        if is_open || is_used {
            Some(Origin::PerhapsDeleted)
        } else {
            None
        }
    }

    /// Gives back each sound header that the broken chain of another directory leads to, and that exists, in that directory.
    fn hang_led(&mut self) -> Result<(), NoMemory> {
        for b in 2..self.image.blocks() {
            let p = self.walk.led.get(b);
            let is_left = p != 0 && self.walk.is_header.has(b) && !self.walk.origin.has(b);
            if is_left && self.is_live(b) {
                self.walk.misplaced.set(b, true);
                self.give(b, p, Origin::Orphaned)?;
                self.hang()?;
            }
        }
        Ok(())
    }

    /// Whether a trusted bitmap has a header and all blocks of its table allocated, or, where none tells, it is a directory that is not
    /// empty; and nothing that is reached has one of its blocks.
    fn is_live(&self, h: u32) -> bool {
        let own = self.files.own(self.image, self.walk, h);
        let is_told = self.trusted && self.bitmap.free(self.image, h).is_some();
        let is_there = if is_told {
            self.bitmap.is_used(self.image, h) && !own.has_free(self.image, self.bitmap)
        } else {
            self.is_filled(h)
        };
        is_there && !own.has_mark(self.image, &self.firm)
    }
}

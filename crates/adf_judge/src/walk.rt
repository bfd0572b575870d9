// The entries that hash chains lead to, from the root on, and from each directory that is given back. A header with a right checksum
// has one home: the directory and the slot that it states itself. So chains tell whether it exists, not where.

use crate::chains::Chain;
use crate::judgement::{Object, Origin};
use crate::objects::{is_link, object_of};
use crate::origins::{Origins, SlotMarks};
use adf_base::{Letters, NoMemory};
use adf_blocks::{FIRST_SLOT, PARENT, SECONDARY_TYPE, SLOTS, ST_DIR};
use adf_evidence::{Image, Marks, Numbers};
use std::alloc::Global;

/// What hash chains lead to: columns of one value for each block.
#[derive(Drop)]
pub(crate) struct Walk {
    /// The sound headers except the root, in order.
    pub(crate) heads: Vec<u32>,
    pub(crate) is_header: Marks,
    /// The directory that a sound header states.
    pub(crate) home: Numbers,
    /// The slot of its name.
    pub(crate) slot: Numbers,
    /// How an entry was found that is given back.
    pub(crate) origin: Origins,
    /// The directory of an entry that is given back.
    pub(crate) parent: Numbers,
    /// The root and all that is given back, each after its directory.
    pub(crate) order: Vec<u32>,
    /// The slots of a directory whose chain leads to what is no member of it.
    pub(crate) broken: SlotMarks,
    /// Directories whose own words are in doubt: all of their chains may be broken.
    pub(crate) doubted: Marks,
    /// Sound headers in a chain where they do not state that they belong.
    pub(crate) misplaced: Marks,
    /// The directory whose broken chain leads to a block.
    pub(crate) led: Numbers,
    /// A chain is broken, or a directory is in doubt.
    pub(crate) has_gap: bool,
    pub(crate) international: bool,
}

impl Walk {
    /// The walk from the root on.
    pub(crate) fn new(
        alloc: Global,
        image: &Image<'_>,
        international: bool,
    ) -> Result<Walk, NoMemory> {
        let mut walk = Walk::unwalked(alloc, image, international)?;
        walk.find_headers(image)?;
        walk.doubted.set(image.root(), walk.has_gap);
        walk.follow(image, 0, Origin::Reached)?;
        Ok(walk)
    }

    /// The root alone.
    fn unwalked(alloc: Global, image: &Image<'_>, international: bool) -> Result<Walk, NoMemory> {
        let blocks = image.blocks();
        Ok(Walk {
            heads: Vec::new(alloc),
            is_header: Marks::new(alloc, blocks)?,
            home: Numbers::new(alloc, blocks)?,
            slot: Numbers::new(alloc, blocks)?,
            origin: Origins::new(alloc, blocks)?,
            parent: Numbers::new(alloc, blocks)?,
            order: vec![in alloc; image.root()]?,
            broken: SlotMarks::new(alloc, blocks)?,
            doubted: Marks::new(alloc, blocks)?,
            misplaced: Marks::new(alloc, blocks)?,
            led: Numbers::new(alloc, blocks)?,
            has_gap: !image.is_root(image.root()),
            international,
        })
    }

    /// The letters that names are hashed by.
    pub(crate) fn letters(&self) -> Letters {
        if self.international {
            Letters::International
        } else {
            Letters::Ascii
        }
    }

    fn find_headers(&mut self, image: &Image<'_>) -> Result<(), NoMemory> {
        let letters = self.letters();
        for b in 2..image.blocks() {
            if b != image.root() && image.is_header(b) {
                self.heads.push(b)?;
                self.is_header.set(b, true);
                self.home.set(b, image.word(b, PARENT));
                self.slot.set(b, image.slot_of(b, letters));
            }
        }
        Ok(())
    }

    /// Gives back the header in block `b`, in the directory `p`.
    pub(crate) fn take(&mut self, b: u32, p: u32, origin: Origin) -> Result<(), NoMemory> {
        self.origin.set(b, origin);
        self.parent.set(b, p);
        self.order.push(b)?;
        if !self.is_sound(b) {
            self.doubted.set(b, true);
            self.has_gap = true;
        }
        Ok(())
    }

    /// Its checksum is right; a directory that is made has none.
    pub(crate) fn is_sound(&self, b: u32) -> bool {
        self.is_header.has(b) || self.origin.is_made(b)
    }

    /// Whether it is the root or a directory.
    pub(crate) fn is_dir(&self, image: &Image<'_>, b: u32) -> bool {
        b == image.root() || self.origin.is_made(b) || self.kind(image, b) == Object::Directory
    }

    /// Whether it is a file.
    pub(crate) fn is_file(&self, image: &Image<'_>, b: u32) -> bool {
        !self.origin.is_made(b) && self.kind(image, b) == Object::File
    }

    /// What a header is of; where its checksum is wrong, of a directory if its table leads to a header that names it, or if one bit of
    /// the type is wrong.
    pub(crate) fn kind(&self, image: &Image<'_>, b: u32) -> Object {
        let said = image.word(b, SECONDARY_TYPE);
        match object_of(said) {
            Some(object) if self.is_header.has(b) || !is_link(object) => object,
            known => {
                let is_near = known.is_none() && (said ^ ST_DIR).count_ones() == 1;
                if self.leads_home(image, b) || is_near {
                    Object::Directory
                } else {
                    Object::File
                }
            }
        }
    }

    /// Whether the table of a directory leads to a sound header of this slot that names it.
    pub(crate) fn leads_home(&self, image: &Image<'_>, p: u32) -> bool {
        for slot in 0..SLOTS {
            let b = image.word(p, FIRST_SLOT + slot as usize);
            if image.has(b) && self.is_at_home(Chain { directory: p, slot }, b) {
                return true;
            }
        }
        false
    }

    /// Whether the way to a sound header may be broken.
    pub(crate) fn is_open(&self, h: u32) -> bool {
        let p = self.home.get(h);
        self.doubted.has(p) || self.broken.has(p, self.slot.get(h))
    }
}

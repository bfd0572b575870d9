// What exists on a volume that is read as one kind, by these letters.

use crate::files::Files;
use crate::judgement::{Object, Origin};
use crate::orphans::{Orphans, find_orphans};
use crate::volumes::Volume;
use crate::walk::Walk;
use adf_base::NoMemory;
use adf_blocks::DATA_HELD;
use adf_evidence::{Bitmap, Image, Kinds, Marks, Numbers};
use std::alloc::Global;

/// The word of a hard link that points to the header which it leads to.
pub(crate) const LINK_TARGET: usize = 117;

/// What exists: the evidence, and what follows from it for each header.
#[derive(Drop)]
pub(crate) struct Claims<'a> {
    pub(crate) image: Image<'a>,
    pub(crate) bitmap: Bitmap,
    pub(crate) walk: Walk,
    pub(crate) files: Files,
    pub(crate) orphans: Orphans,
    /// Headers that are reached and have a block that the bitmap has free.
    pub(crate) freed: Marks,
    /// Headers of entries that are given back.
    pub(crate) intact: Marks,
    /// One more than the index of the claim of a header; 0 of the root.
    pub(crate) place: Numbers,
}

impl<'a> Claims<'a> {
    /// What exists on a volume.
    pub(crate) fn new(alloc: Global, volume: Volume<'a>) -> Result<Claims<'a>, NoMemory> {
        let Volume {
            image,
            bitmap,
            mut walk,
            is_ffs,
        } = volume;
        let blocks = image.blocks();
        let reached = walk.order.len();
        let mut files = Files::new(alloc, &image, &bitmap, is_ffs)?;
        let orphans = find_orphans(alloc, &image, &bitmap, &mut walk, &mut files)?;
        let mut claims = Claims {
            image,
            bitmap,
            walk,
            files,
            orphans,
            freed: Marks::new(alloc, blocks)?,
            intact: Marks::new(alloc, blocks)?,
            place: Numbers::new(alloc, blocks)?,
        };
        claims.find_freed(reached);
        claims.settle(alloc)?;
        claims.find_intact(&mut Kinds::new(alloc, blocks)?);
        Ok(claims)
    }

    /// The headers that are claimed, each directory before what is in it.
    pub(crate) fn headers(&self) -> &[u32] {
        self.walk.order.as_slice().get(1..).unwrap_or(&[])
    }

    // Of the first entries of the walk, which are reached, marks each with a block that the bitmap has free.
    fn find_freed(&mut self, reached: usize) {
        for at in 1..reached {
            let h = self.entry(at);
            let own = self.files.own(&self.image, &self.walk, h);
            let is_freed = own.has_free(&self.image, &self.bitmap);
            self.freed.set(h, is_freed);
        }
    }

    // Gives each data block that several files name to one of them.
    fn settle(&mut self, alloc: Global) -> Result<(), NoMemory> {
        let (image, walk, freed) = (&self.image, &self.walk, &self.freed);
        self.files.settle(alloc, image, walk, freed)
    }

    // Marks what is given back, and numbers all claims.
    fn find_intact(&mut self, kinds: &mut Kinds) {
        for at in 1..self.walk.order.len() {
            let h = self.entry(at);
            let is_intact = self.is_intact(kinds, h);
            self.intact.set(h, is_intact);
            self.place.set(h, u32::try_from(at).unwrap_or(0));
        }
    }

    // An entry of the walk, from the root on.
    fn entry(&self, at: usize) -> u32 {
        self.walk.order.get(at).copied().unwrap_or(0)
    }

    // A directory, or a whole file that, where nothing leads to it from the root, does not tell the other kind.
    fn is_intact(&self, kinds: &mut Kinds, h: u32) -> bool {
        if !self.is_file(h) {
            return self.is_dir(h);
        }
        self.files.is_whole(&self.image, &self.walk, h)
            && (self.origin(h) == Origin::Reached || !self.tells_other(kinds, h))
    }

    // Whether a file tells the kind that the volume is not read as.
    fn tells_other(&self, kinds: &mut Kinds, h: u32) -> bool {
        match kinds.says(&self.image, h) {
            Some(kind) => kind != self.files.kind(),
            None => false,
        }
    }

    pub(crate) fn is_dir(&self, h: u32) -> bool {
        self.walk.is_dir(&self.image, h)
    }

    pub(crate) fn is_file(&self, h: u32) -> bool {
        self.walk.is_file(&self.image, h)
    }

    /// How the entry of a header was found.
    pub(crate) fn origin(&self, h: u32) -> Origin {
        self.walk.origin.get(h).unwrap_or(Origin::PerhapsDeleted)
    }

    /// What the header of a claim is of.
    pub(crate) fn object(&self, h: u32) -> Object {
        if self.is_dir(h) {
            Object::Directory
        } else {
            self.walk.kind(&self.image, h)
        }
    }

    /// What a hard link leads to, by one more than the index of its claim: the file or the directory whose header it names.
    pub(crate) fn target(&self, h: u32) -> usize {
        let named = self.image.word(h, LINK_TARGET);
        let is_right = match self.object(h) {
            Object::FileLink => self.walk.origin.has(named) && self.is_file(named),
            Object::DirectoryLink => self.walk.origin.has(named) && self.is_dir(named),
            _ => false,
        };
        if is_right {
            self.place.get(named) as usize
        } else {
            0
        }
    }

    /// Whether it is a link with a right checksum, and, if a hard one, leads to a header of its kind.
    pub(crate) fn is_right_link(&self, h: u32) -> bool {
        let is_right = match self.object(h) {
            Object::SoftLink => true,
            Object::FileLink | Object::DirectoryLink => self.target(h) > 0,
            _ => false,
        };
        is_right && self.walk.is_sound(h)
    }

    /// Whether it may keep the name that its header states: it is given back, or is a right link.
    pub(crate) fn takes_name(&self, h: u32) -> bool {
        self.intact.has(h) || self.is_right_link(h)
    }

    /// Whether its checksum is right, and nothing that is whole says that it was deleted.
    pub(crate) fn is_certain(&self, h: u32) -> bool {
        let is_live = match self.origin(h) {
            Origin::Reached | Origin::Made => true,
            Origin::Orphaned => self.orphans.trusted && self.bitmap.is_used(&self.image, h),
            Origin::PerhapsDeleted => false,
        };
        self.walk.is_sound(h) && is_live && !self.freed.has(h)
    }

    /// Whether a hash chain of a directory is broken, or it is in doubt.
    pub(crate) fn is_broken(&self, h: u32) -> bool {
        self.walk.broken.has_any(h) || self.walk.doubted.has(h)
    }

    /// Whether data block `k` is the file's own.
    pub(crate) fn is_own(&self, h: u32, k: u32) -> bool {
        self.files.is_good(&self.image, &self.walk, h, k)
    }

    /// How many bytes of a file are in its own data block `k`: what an OFS block says itself counts only where the checksum of the
    /// header is wrong.
    pub(crate) fn held(&self, h: u32, k: u32) -> u32 {
        let size = self.files.size_of(&self.image, h, k);
        if self.files.is_ffs || self.walk.is_sound(h) {
            return size;
        }
        let block = self.files.names(&self.image, h, k);
        size.min(self.image.word(block, DATA_HELD))
    }

    /// Whether something that exists has a block.
    pub(crate) fn has_block(&self, b: u32) -> bool {
        self.files.is_part.has(b)
            || self.files.claims.get(b) > 0
            || self.walk.origin.has(b)
            || self.image.is_cache(b)
    }

    /// Whether nothing has the block, and a trusted bitmap has it free.
    pub(crate) fn is_spare(&self, b: u32) -> bool {
        self.orphans.trusted && !self.has_block(b) && self.bitmap.is_free(&self.image, b)
    }
}

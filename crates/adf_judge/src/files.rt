// The tables of files: their extension blocks, and the data blocks that they name.

use crate::judgement::Origin;
use crate::walk::Walk;
use adf_base::NoMemory;
use adf_blocks::{EXTENSION, FIRST_POINTER, SIZE};
use adf_evidence::{Bitmap, Image, Marks, Numbers};
use adf_names::Kind;
use std::alloc::Global;

/// The pointers to data blocks in a header or an extension block.
const POINTERS: u32 = adf_blocks::POINTERS as u32;

/// The rank of an entry whose checksum is wrong.
const DOUBTED: u32 = 3;

/// The extension blocks of each file, and the owners of data blocks: columns of one value for each block.
#[derive(Drop)]
pub(crate) struct Files {
    pub(crate) is_ffs: bool,
    /// The extension blocks of all files, those of one file in a row.
    pub(crate) extensions: Vec<u32>,
    pub(crate) first_extension: Numbers,
    pub(crate) many_extensions: Numbers,
    /// How many data blocks the table of a file names.
    pub(crate) told: Numbers,
    /// Files whose table is read.
    pub(crate) is_read: Marks,
    /// Extension blocks that the chain of the header leads to that they name.
    pub(crate) is_led_ext: Marks,
    /// Headers, extension blocks, pages of the bitmap and the root.
    pub(crate) is_part: Marks,
    /// How many files name a block.
    pub(crate) claims: Numbers,
    /// The file that a data block is of.
    pub(crate) owner: Numbers,
    /// Files that have a block by their date alone.
    pub(crate) disputed: Marks,
    /// The blocks of the one table that is read now.
    is_seen: Marks,
    /// How many entries of the walk are known.
    known: usize,
}

impl Files {
    /// No file of a volume of this kind.
    pub(crate) fn new(
        alloc: Global,
        image: &Image<'_>,
        bitmap: &Bitmap,
        is_ffs: bool,
    ) -> Result<Files, NoMemory> {
        let mut files = Files::empty(alloc, image.blocks(), is_ffs)?;
        for &page in &bitmap.pages {
            files.is_part.set(page, page != 0);
        }
        for &map in &bitmap.maps {
            files.is_part.set(map, map != 0);
        }
        if bitmap.is_like_root {
            files.is_part.set(image.root(), true);
        }
        Ok(files)
    }

    fn empty(alloc: Global, blocks: u32, is_ffs: bool) -> Result<Files, NoMemory> {
        Ok(Files {
            is_ffs,
            extensions: Vec::new(alloc),
            first_extension: Numbers::new(alloc, blocks)?,
            many_extensions: Numbers::new(alloc, blocks)?,
            told: Numbers::new(alloc, blocks)?,
            is_read: Marks::new(alloc, blocks)?,
            is_led_ext: Marks::new(alloc, blocks)?,
            is_part: Marks::new(alloc, blocks)?,
            claims: Numbers::new(alloc, blocks)?,
            owner: Numbers::new(alloc, blocks)?,
            disputed: Marks::new(alloc, blocks)?,
            is_seen: Marks::new(alloc, blocks)?,
            known: 1,
        })
    }

    /// The kind by which files are read.
    pub(crate) fn kind(&self) -> Kind {
        if self.is_ffs { Kind::Ffs } else { Kind::Ofs }
    }

    /// How many bytes of a file are in a data block.
    pub(crate) fn chunk(&self) -> u32 {
        if self.is_ffs { 512 } else { 488 }
    }

    /// How many data blocks the size of a file needs.
    pub(crate) fn count(&self, image: &Image<'_>, h: u32) -> u32 {
        let size = image.word(h, SIZE);
        if self.is_ffs {
            size.div_ceil(512)
        } else {
            size.div_ceil(488)
        }
    }

    /// Follows the extension blocks of a file, as many as its size needs.
    pub(crate) fn read_table(&mut self, image: &Image<'_>, h: u32) -> Result<(), NoMemory> {
        if self.is_read.has(h) {
            return Ok(());
        }
        let count = self.count(image, h);
        self.is_read.set(h, true);
        self.first_extension
            .set(h, number_of(self.extensions.len()));
        self.told.set(h, count.min(POINTERS));
        let mut at = h;
        for _ in 0..image.blocks() {
            if self.told.get(h) >= count {
                break;
            }
            at = image.word(at, EXTENSION);
            if !image.is_extension(at, h) || self.is_led_ext.has(at) {
                break;
            }
            self.add_extension(h, at, count)?;
        }
        Ok(())
    }

    /// The file has one more extension block.
    fn add_extension(&mut self, h: u32, e: u32, count: u32) -> Result<(), NoMemory> {
        self.is_led_ext.set(e, true);
        self.extensions.push(e)?;
        let many = self.many_extensions.get(h);
        self.many_extensions.set(h, many.saturating_add(1));
        let told = self.told.get(h).saturating_add(POINTERS);
        self.told.set(h, told.min(count));
        Ok(())
    }

    /// Extension block `k` of a file, from 1 on; 0 if there is none.
    pub(crate) fn extension(&self, h: u32, k: u32) -> u32 {
        if k == 0 || k > self.many_extensions.get(h) {
            return 0;
        }
        let at = self.first_extension.get(h).saturating_add(k - 1);
        self.extensions.get(at as usize).copied().unwrap_or(0)
    }

    /// The block that the table names for data block `k`, from 1 on; 0 if it names none.
    pub(crate) fn names(&self, image: &Image<'_>, h: u32, k: u32) -> u32 {
        if k == 0 || k > self.told.get(h) {
            return 0;
        }
        let place = (k - 1) / POINTERS;
        let at = if place == 0 {
            h
        } else {
            self.extension(h, place)
        };
        image.word(at, FIRST_POINTER - ((k - 1) % POINTERS) as usize)
    }

    /// The blocks of the volume that the table names, each once.
    pub(crate) fn apart(
        &mut self,
        alloc: Global,
        image: &Image<'_>,
        h: u32,
    ) -> Result<Vec<u32>, NoMemory> {
        let mut some = Vec::new(alloc);
        for k in 0..self.told.get(h) {
            let d = self.names(image, h, k.saturating_add(1));
            if image.has(d) && !self.is_seen.has(d) {
                self.is_seen.set(d, true);
                some.push(d)?;
            }
        }
        for &d in &some {
            self.is_seen.set(d, false);
        }
        Ok(some)
    }

    // Claims

    /// What is newly given back claims its header, its extension blocks, and the data blocks that its table names.
    pub(crate) fn know(
        &mut self,
        alloc: Global,
        image: &Image<'_>,
        walk: &Walk,
    ) -> Result<(), NoMemory> {
        for at in self.known..walk.order.len() {
            let h = walk.order.get(at).copied().unwrap_or(0);
            if !walk.origin.is_made(h) {
                self.is_part.set(h, true);
            }
            if walk.is_file(image, h) {
                self.read_table(image, h)?;
                self.claim_blocks(alloc, image, h)?;
            }
        }
        self.known = self.known.max(walk.order.len());
        Ok(())
    }

    fn claim_blocks(&mut self, alloc: Global, image: &Image<'_>, h: u32) -> Result<(), NoMemory> {
        for k in 0..self.many_extensions.get(h) {
            let e = self.extension(h, k.saturating_add(1));
            self.is_part.set(e, true);
        }
        let named = self.apart(alloc, image, h)?;
        for &d in &named {
            self.claims.set(d, self.claims.get(d).saturating_add(1));
        }
        Ok(())
    }

    /// How much an entry is trusted: 0 if the chains lead to it.
    pub(crate) fn rank(&self, walk: &Walk, h: u32) -> u32 {
        if !walk.is_sound(h) {
            return DOUBTED;
        }
        match walk.origin.get(h) {
            Some(Origin::Reached) | Some(Origin::Made) => 0,
            Some(Origin::Orphaned) => 1,
            Some(Origin::PerhapsDeleted) => 2,
            None => DOUBTED,
        }
    }
}

/// The number as a word.
fn number_of(len: usize) -> u32 {
    u32::try_from(len).unwrap_or(u32::MAX)
}

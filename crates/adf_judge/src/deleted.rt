// The headers that were deleted, and which of their blocks are still theirs: none that anything that exists has.

use crate::claims::{Claims, LINK_TARGET};
use crate::judgement::{DeletedHeader, Object};
use adf_base::NoMemory;
use adf_blocks::{
    FIRST_POINTER, NAME, OWN_KEY, PARENT, POINTERS, SECONDARY_TYPE, SIZE, ST_FILE, T_LIST, T_SHORT,
    TYPE,
};
use adf_evidence::{MOST_TEXT, Marks, Moment, Numbers};
use std::alloc::Global;
use std::cmp::Reverse;

/// The sound headers that nothing claims, and the blocks that what exists has.
#[derive(Drop)]
pub(crate) struct DeletedHeaders {
    /// The blocks of what exists.
    live: Marks,
    /// The latest deleted file that names a block, and the next one.
    first: Numbers,
    second: Numbers,
}

/// The order of deleted files: the latest first.
#[derive(Clone, Copy, Debug, PartialEq, Eq, PartialOrd, Ord)]
struct Age {
    moment: Reverse<Moment>,
    header: u32,
}

impl DeletedHeaders {
    /// What is deleted beside what exists.
    pub(crate) fn new(alloc: Global, found: &mut Claims<'_>) -> Result<DeletedHeaders, NoMemory> {
        let blocks = found.image.blocks();
        let mut deleted = DeletedHeaders {
            live: Marks::new(alloc, blocks)?,
            first: Numbers::new(alloc, blocks)?,
            second: Numbers::new(alloc, blocks)?,
        };
        deleted.find_live(found);
        for each in &files_by_age(alloc, found)? {
            deleted.name_blocks(alloc, found, each.header)?;
        }
        Ok(deleted)
    }

    // Marks the parts and data of what is claimed, blocks of caches, and what headers and extension blocks name that are none of a
    // sound header.
    fn find_live(&mut self, found: &Claims<'_>) {
        for b in 2..found.image.blocks() {
            if is_claimed(found, b) {
                self.live.set(b, true);
            }
            if !found.walk.origin.has(b)
                && (is_doubted_header(found, b) || is_extension_alone(found, b))
            {
                self.mark_table(found, b);
            }
        }
    }

    // Marks a block, and each block that the table in it names.
    fn mark_table(&mut self, found: &Claims<'_>, b: u32) {
        self.live.set(b, true);
        for k in 0..POINTERS {
            self.live.set(found.image.word(b, FIRST_POINTER - k), true);
        }
    }

    // Remembers a deleted file at each block that it names.
    fn name_blocks(
        &mut self,
        alloc: Global,
        found: &mut Claims<'_>,
        h: u32,
    ) -> Result<(), NoMemory> {
        for d in &found.files.apart(alloc, &found.image, h)? {
            if self.first.get(*d) == 0 {
                self.first.set(*d, h);
            } else if self.second.get(*d) == 0 {
                self.second.set(*d, h);
            }
        }
        Ok(())
    }

    /// Whether the block for data block `k` is still that of the deleted file: nothing that exists has it, no bitmap has it
    /// allocated, and it agrees.
    pub(crate) fn is_own(&self, found: &Claims<'_>, h: u32, k: u32) -> bool {
        let d = found.files.names(&found.image, h, k);
        if !found.files.is_agreed(&found.image, &found.walk, h, k) || self.live.has(d) {
            return false;
        }
        !found.files.is_ffs || !found.bitmap.is_used(&found.image, d)
    }

    // FFS: the latest other deleted file that names the first of its blocks that another one names; 0 if none does.
    fn rival(&self, alloc: Global, found: &mut Claims<'_>, h: u32) -> Result<u32, NoMemory> {
        if !found.files.is_ffs {
            return Ok(0);
        }
        for d in &found.files.apart(alloc, &found.image, h)? {
            let first = self.first.get(*d);
            let other = if first == h {
                self.second.get(*d)
            } else {
                first
            };
            if other != 0 {
                return Ok(other);
            }
        }
        Ok(0)
    }

    /// The deleted headers, in order.
    pub(crate) fn all(
        &self,
        alloc: Global,
        found: &mut Claims<'_>,
    ) -> Result<Vec<DeletedHeader>, NoMemory> {
        let mut all = Vec::new(alloc);
        for h in &deleted_headers(alloc, found)? {
            all.push(self.deleted(alloc, found, *h)?)?;
        }
        Ok(all)
    }

    // A deleted header.
    fn deleted(
        &self,
        alloc: Global,
        found: &mut Claims<'_>,
        header: u32,
    ) -> Result<DeletedHeader, NoMemory> {
        let object = found.walk.kind(&found.image, header);
        let mut deleted = DeletedHeader {
            header,
            object,
            name: Vec::from_slice(alloc, found.image.text(header, NAME, MOST_TEXT))?,
            meta: found.meta_of_header(header),
            size: 0,
            directory: found.walk.home.get(header),
            needs: 0,
            overwritten: 0,
            rival: 0,
            target: 0,
        };
        match object {
            Object::File => {
                deleted.size = found.image.word(header, SIZE);
                deleted.needs = found.files.count(&found.image, header);
                deleted.overwritten = deleted.needs.saturating_sub(self.own_blocks(found, header));
                deleted.rival = self.rival(alloc, found, header)?;
            }
            Object::DirectoryLink | Object::FileLink => {
                deleted.target = found.image.word(header, LINK_TARGET);
            }
            Object::Directory | Object::SoftLink => {}
        }
        Ok(deleted)
    }

    // How many of its data blocks are still those of a deleted file.
    fn own_blocks(&self, found: &Claims<'_>, h: u32) -> u32 {
        let mut own = 0u32;
        for k in 0..found.files.told.get(h) {
            let is_own = self.is_own(found, h, k.saturating_add(1));
            own = own.saturating_add(u32::from(is_own));
        }
        own
    }
}

// The sound headers that nothing claims.
fn deleted_headers(alloc: Global, found: &Claims<'_>) -> Result<Vec<u32>, NoMemory> {
    let mut deleted = Vec::new(alloc);
    for h in &found.walk.heads {
        if !found.walk.origin.has(*h) {
            deleted.push(*h)?;
        }
    }
    Ok(deleted)
}

// The deleted files, the latest first.
fn files_by_age(alloc: Global, found: &Claims<'_>) -> Result<Vec<Age>, NoMemory> {
    let mut files = Vec::new(alloc);
    for h in &deleted_headers(alloc, found)? {
        if found.walk.kind(&found.image, *h) == Object::File {
            files.push(Age {
                moment: Reverse(found.image.moment(*h)),
                header: *h,
            })?;
        }
    }
    files.sort()?;
    Ok(files)
}

// Whether a block is a part or data of what is claimed, or a sound block of a directory cache.
fn is_claimed(found: &Claims<'_>, b: u32) -> bool {
    found.files.is_part.has(b)
        || found.files.claims.get(b) > 0
        || found.image.is_cache(b) && found.image.is_sealed(b)
}

// Whether a block says that it is the header of a file, with a wrong checksum, in a directory that is claimed.
fn is_doubted_header(found: &Claims<'_>, b: u32) -> bool {
    let directory = found.image.word(b, PARENT);
    found.image.word(b, TYPE) == T_SHORT
        && found.image.word(b, OWN_KEY) == b
        && found.image.word(b, SECONDARY_TYPE) == ST_FILE
        && !found.walk.is_header.has(b)
        && (directory == found.image.root() || found.walk.origin.has(directory))
}

// Whether a block says that it is an extension block, and the header that it names is gone.
fn is_extension_alone(found: &Claims<'_>, b: u32) -> bool {
    let header = found.image.word(b, PARENT);
    found.image.word(b, TYPE) == T_LIST
        && found.image.word(b, OWN_KEY) == b
        && found.image.word(b, SECONDARY_TYPE) == ST_FILE
        && !found.bitmap.is_free(&found.image, b)
        && found.image.has(header)
        && !found.walk.is_header.has(header)
}

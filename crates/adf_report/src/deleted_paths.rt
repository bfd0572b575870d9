// The paths of deleted entries.

use crate::path_text::PathEnd;
use crate::reports::Report;
use adf_judge::Object;
use std::alloc::{AllocError, Global};

// How many directories are followed upwards at most.
const MOST_STEPS: u32 = 256;

// What a path has in place of the directories that are not known.
const UNKNOWN: &[u8] = b"?";

// A directory: its name, and the block of the one that it is in.
#[derive(Clone, Copy)]
struct Step<'a> {
    name: &'a [u8],
    directory: u32,
}

impl<'j> Report<'j, '_> {
    // The directory that is claimed with its header in a block.
    fn claimed_directory(&self, block: u32) -> Option<Step<'j>> {
        let claim = self.claim(self.claim_at(block))?;
        if claim.object != Object::Directory {
            return None;
        }
        Some(Step {
            name: claim.name.as_slice(),
            directory: self.header_of(claim.directory),
        })
    }

    // The deleted directory with its header in a block.
    fn deleted_directory(&self, block: u32) -> Option<Step<'j>> {
        let deleted = self.deleted(self.deleted_at(block)?)?;
        if deleted.object != Object::Directory {
            return None;
        }
        Some(Step {
            name: deleted.name.as_slice(),
            directory: deleted.directory,
        })
    }

    // The directory with its header in a block, claimed or deleted.
    fn directory_in(&self, block: u32) -> Option<Step<'j>> {
        match self.claimed_directory(block) {
            Some(step) => Some(step),
            None => self.deleted_directory(block),
        }
    }

    // Adds the names of the directories from one up, at most 256; the block where this ends is that of the root, or of no directory.
    fn climb_blocks(&self, block: u32, path: &mut PathEnd<'j>) -> Result<u32, AllocError> {
        let mut at = block;
        for _i in 0..MOST_STEPS {
            let Some(step) = self.directory_in(at) else {
                return Ok(at);
            };
            at = step.directory;
            path.add(step.name, at)?;
        }
        Ok(at)
    }

    /// The path of a deleted entry as lines have it, as far up as headers are directories, claimed or deleted; it begins with `?`
    /// if it does not reach the root.
    pub fn deleted_path(&self, alloc: Global, index: usize) -> Result<Vec<u8>, AllocError> {
        let mut path = PathEnd::new(alloc);
        let Some(deleted) = self.deleted(index) else {
            return path.into_text(alloc, false);
        };
        path.add(deleted.name.as_slice(), deleted.directory)?;
        let end = self.climb_blocks(deleted.directory, &mut path)?;
        if end != self.root() {
            path.add(UNKNOWN, end)?;
        }
        path.into_text(alloc, false)
    }
}

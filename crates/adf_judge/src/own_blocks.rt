// A header and the blocks that its own table names.

use crate::files::Files;
use crate::judgement::Object;
use crate::walk::Walk;
use adf_blocks::FIRST_POINTER;
use adf_evidence::{Bitmap, Image, Marks};

/// The pointers to data blocks in a header.
const POINTERS: u32 = 72;

/// A header and the first of the blocks that its table names.
#[derive(Clone, Copy)]
pub(crate) struct OwnBlocks {
    header: u32,
    pointers: u32,
}

impl Files {
    /// A header, and if it is a file's the blocks that its own table names.
    pub(crate) fn own(&self, image: &Image<'_>, walk: &Walk, h: u32) -> OwnBlocks {
        let pointers = if walk.kind(image, h) == Object::File {
            self.count(image, h).min(POINTERS)
        } else {
            0
        };
        OwnBlocks {
            header: h,
            pointers,
        }
    }
}

impl OwnBlocks {
    /// The header and at most the first of its blocks.
    pub(crate) fn first(self) -> OwnBlocks {
        OwnBlocks {
            header: self.header,
            pointers: self.pointers.min(1),
        }
    }

    /// The block that pointer `i` names.
    fn pointer(self, image: &Image<'_>, i: u32) -> u32 {
        image.word(self.header, FIRST_POINTER.saturating_sub(i as usize))
    }

    /// The bitmap has one of them free.
    pub(crate) fn has_free(self, image: &Image<'_>, bitmap: &Bitmap) -> bool {
        if bitmap.is_free(image, self.header) {
            return true;
        }
        for i in 0..self.pointers {
            if bitmap.is_free(image, self.pointer(image, i)) {
                return true;
            }
        }
        false
    }

    /// One of them is marked.
    pub(crate) fn has_mark(self, image: &Image<'_>, marks: &Marks) -> bool {
        if marks.has(self.header) {
            return true;
        }
        for i in 0..self.pointers {
            if marks.has(self.pointer(image, i)) {
                return true;
            }
        }
        false
    }
}

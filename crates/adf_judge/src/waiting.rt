// Headers that nothing leads to, by the directory that they state.

use crate::walk::Walk;
use adf_base::NoMemory;
use adf_evidence::{Image, Numbers};
use std::alloc::Global;

/// For each directory a list of the headers that state it and that nothing leads to, in order.
#[derive(Drop)]
pub(crate) struct Waiting {
    first: Numbers,
    next: Numbers,
}

impl Waiting {
    /// All sound headers that the walk has not found.
    pub(crate) fn new(alloc: Global, image: &Image<'_>, walk: &Walk) -> Result<Waiting, NoMemory> {
        let mut waiting = Waiting {
            first: Numbers::new(alloc, image.blocks())?,
            next: Numbers::new(alloc, image.blocks())?,
        };
        for &h in walk.heads.iter().rev() {
            if !walk.origin.has(h) {
                let p = walk.home.get(h);
                waiting.next.set(h, waiting.first.get(p));
                waiting.first.set(p, h);
            }
        }
        Ok(waiting)
    }

    /// The first header that waits for a directory; 0 if none does.
    pub(crate) fn first(&self, p: u32) -> u32 {
        self.first.get(p)
    }

    /// The header that waits behind this one for the same directory; 0 if it is the last.
    pub(crate) fn next(&self, h: u32) -> u32 {
        self.next.get(h)
    }

    /// Nothing waits for a directory any more.
    pub(crate) fn clear(&mut self, p: u32) {
        self.first.set(p, 0);
    }
}

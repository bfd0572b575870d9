// Which blocks of an image were never read.

use adf_base::NoMemory;
use adf_maps::Map;
use adf_unread::{UnreadRun, blank_marks, map_marks, unread_runs};
use std::alloc::Global;

/// What tells which blocks were never read: a map, and whether each blank block counts as one.
#[derive(Clone, Copy)]
pub struct Unread<'w> {
    pub map: &'w Option<Map>,
    pub blank: bool,
}

// Marks the blocks that other marks have.
fn add_marks(marks: &mut Vec<bool>, more: &[bool]) -> Result<(), NoMemory> {
    for b in 0..more.len() {
        if b >= marks.len() {
            marks.push(more[b])?;
        } else if more[b] {
            marks[b] = true;
        }
    }
    Ok(())
}

// A number of blocks, as far as 32 bits go.
fn block_number(count: usize) -> u32 {
    count.min(0xFFFF_FFFF) as u32
}

impl Unread<'_> {
    /// Whether any block may count as never read.
    pub fn is_asked(&self) -> bool {
        self.map.is_some() || self.blank
    }

    // The marks of the blocks of an image that the map says were never read.
    fn mapped(&self, alloc: Global, image: &[u8]) -> Result<Vec<bool>, NoMemory> {
        match self.map {
            Some(map) => Ok(map_marks(alloc, map, image)?),
            None => Ok(Vec::new(alloc)),
        }
    }

    /// The marks of the blocks of an image that were never read.
    pub fn marks(&self, alloc: Global, image: &[u8]) -> Result<Vec<bool>, NoMemory> {
        let mut marks = self.mapped(alloc, image)?;
        if self.blank {
            let blank = blank_marks(alloc, image)?;
            add_marks(&mut marks, &blank)?;
        }
        Ok(marks)
    }

    /// The runs of blocks of an input that the map says were never read.
    pub fn runs(&self, alloc: Global, input: &[u8]) -> Result<Vec<UnreadRun>, NoMemory> {
        let marks = self.mapped(alloc, input)?;
        Ok(unread_runs(alloc, &marks, block_number(marks.len()))?)
    }

    /// Whether the map is that of a disk of another size than an input and the image that is surveyed of it, both in bytes.
    pub fn is_of_other_disk(&self, input: usize, image: usize) -> bool {
        match self.map {
            Some(map) => map.end() != input as u64 && map.end() != image as u64,
            None => false,
        }
    }
}

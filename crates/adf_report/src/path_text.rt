// The text of a path: a long one begins with the block of a directory.

use adf_json::joined;
use adf_names::{push_names, push_number};
use std::alloc::{AllocError, Global};

/// The most bytes of a path that is written, and one for a `/` after it.
const ROOM: usize = 1_025;

/// The names of the end of a path, the last one first, and the block of the header of the directory that each is in.
#[derive(Drop)]
pub struct PathEnd<'a> {
    names: Vec<&'a [u8]>,
    blocks: Vec<u32>,
}

/// How many names have more bytes than are written, with a `/` after each: no name of a line has less than a byte, but one of an
/// object may.
pub fn most_names(json: bool) -> u32 {
    if json { 1_026 } else { 513 }
}

// The number at an index; 0 past the last.
fn number_at(numbers: &Vec<u32>, k: usize) -> u32 {
    numbers.get(k).copied().unwrap_or(0)
}

// The bytes of the names of a path, with a `/` between two.
fn joined_names(alloc: Global, names: &[&[u8]], json: bool) -> Result<Vec<u8>, AllocError> {
    if json {
        return joined(alloc, names);
    }
    let mut text = Vec::new(alloc);
    push_names(&mut text, names)?;
    Ok(text)
}

// Appends the block that a long path begins with.
fn push_first_block(text: &mut Vec<u8>, block: u32) -> Result<(), AllocError> {
    text.extend_from_slice(b"\\block ")?;
    push_number(text, block, b'/')
}

// How many bytes a name takes, with a `/` after it.
fn name_room(alloc: Global, name: &[u8], json: bool) -> Result<usize, AllocError> {
    let text = joined_names(alloc, &[name], json)?;
    Ok(text.len().saturating_add(1))
}

// Whether so many bytes have room after a block.
fn is_room(alloc: Global, used: usize, block: u32) -> Result<bool, AllocError> {
    let mut text = Vec::new(alloc);
    push_first_block(&mut text, block)?;
    Ok(text.len().saturating_add(used) <= ROOM)
}

impl<'a> PathEnd<'a> {
    /// No names.
    pub fn new(alloc: Global) -> PathEnd<'a> {
        PathEnd {
            names: Vec::new(alloc),
            blocks: Vec::new(alloc),
        }
    }

    /// Adds the name above, and the block of the directory that it is in.
    pub fn add(&mut self, name: &'a [u8], block: u32) -> Result<(), AllocError> {
        self.names.push(name)?;
        self.blocks.push(block)?;
        Ok(())
    }

    // How many of the names are written: all, where they have room; otherwise as many as have room after their block.
    fn most_kept(&self, alloc: Global, json: bool) -> Result<usize, AllocError> {
        let mut used = 0usize;
        let mut kept = 0;
        for k in 0..self.names.len() {
            used = used.saturating_add(name_room(alloc, self.names[k], json)?);
            if ROOM < used {
                return Ok(kept);
            }
            if is_room(alloc, used, number_at(&self.blocks, k))? {
                kept = k + 1;
            }
        }
        Ok(self.names.len())
    }

    /// The text of the path, or with `json` its names joined by `/`.
    pub fn into_text(self, alloc: Global, json: bool) -> Result<Vec<u8>, AllocError> {
        let kept = self.most_kept(alloc, json)?;
        let PathEnd { mut names, blocks } = self;
        let mut text = Vec::new(alloc);
        if kept != names.len() {
            push_first_block(&mut text, number_at(&blocks, kept.saturating_sub(1)))?;
        }
        names.truncate(kept);
        names.reverse();
        text.extend_from_slice(&joined_names(alloc, &names, json)?)?;
        Ok(text)
    }
}

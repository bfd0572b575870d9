// One value for each block of an image.

use adf_base::NoMemory;
use std::alloc::Global;

/// A number for each block; 0 for any other.
#[derive(Drop)]
pub struct Numbers {
    values: Vec<u32>,
}

impl Numbers {
    /// Zeros for so many blocks.
    pub fn new(alloc: Global, blocks: u32) -> Result<Numbers, NoMemory> {
        Ok(Numbers {
            values: vec![in alloc; 0u32; blocks as usize]?,
        })
    }

    /// The number of a block; 0 if there is no such block.
    pub fn get(&self, b: u32) -> u32 {
        self.values.get(b as usize).copied().unwrap_or(0)
    }

    /// Sets the number of a block, if there is such a block.
    pub fn set(&mut self, b: u32, value: u32) {
        if (b as usize) < self.values.len() {
            self.values[b as usize] = value;
        }
    }
}

/// Whether something holds of each block; `false` for any other.
#[derive(Drop)]
pub struct Marks {
    values: Vec<bool>,
}

impl Marks {
    /// No mark, of so many blocks.
    pub fn new(alloc: Global, blocks: u32) -> Result<Marks, NoMemory> {
        Ok(Marks {
            values: vec![in alloc; false; blocks as usize]?,
        })
    }

    /// Whether a block is marked.
    pub fn has(&self, b: u32) -> bool {
        self.values.get(b as usize).copied().unwrap_or(false)
    }

    /// Marks a block, if there is such a block.
    pub fn set(&mut self, b: u32, value: bool) {
        if (b as usize) < self.values.len() {
            self.values[b as usize] = value;
        }
    }
}

// Columns of the walk: how an entry was found, and which hash chains of a directory are broken.

use crate::judgement::Origin;
use adf_base::NoMemory;
use adf_evidence::Numbers;
use std::alloc::Global;

/// How the header in each block was found; `None` if it was not, or for any other block.
#[derive(Drop)]
pub(crate) struct Origins {
    values: Vec<Option<Origin>>,
}

impl Origins {
    /// Nothing is found, of so many blocks.
    pub(crate) fn new(alloc: Global, blocks: u32) -> Result<Origins, NoMemory> {
        let none: Option<Origin> = None;
        Ok(Origins {
            values: vec![in alloc; none; blocks as usize]?,
        })
    }

    /// How the header in a block was found.
    pub(crate) fn get(&self, b: u32) -> Option<Origin> {
        self.values.get(b as usize).copied().unwrap_or(None)
    }

    /// Whether the header in a block was found at all.
    pub(crate) fn has(&self, b: u32) -> bool {
        self.get(b).is_some()
    }

    /// Whether nothing but the block is left of a directory.
    pub(crate) fn is_made(&self, b: u32) -> bool {
        matches!(self.get(b), Some(Origin::Made))
    }

    /// Sets how the header in a block was found, if there is such a block.
    pub(crate) fn set(&mut self, b: u32, origin: Origin) {
        if (b as usize) < self.values.len() {
            self.values[b as usize] = Some(origin);
        }
    }
}

/// One mark for each of the 72 slots of each block.
#[derive(Drop)]
pub(crate) struct SlotMarks {
    low: Numbers,
    middle: Numbers,
    high: Numbers,
}

impl SlotMarks {
    /// No mark, of so many blocks.
    pub(crate) fn new(alloc: Global, blocks: u32) -> Result<SlotMarks, NoMemory> {
        Ok(SlotMarks {
            low: Numbers::new(alloc, blocks)?,
            middle: Numbers::new(alloc, blocks)?,
            high: Numbers::new(alloc, blocks)?,
        })
    }

    /// Whether a slot of a directory is marked.
    pub(crate) fn has(&self, p: u32, slot: u32) -> bool {
        let bits = match slot / 32 {
            0 => self.low.get(p),
            1 => self.middle.get(p),
            _ => self.high.get(p),
        };
        bits >> (slot % 32) & 1 == 1
    }

    /// Whether any slot of a directory is marked.
    pub(crate) fn has_any(&self, p: u32) -> bool {
        self.low.get(p) != 0 || self.middle.get(p) != 0 || self.high.get(p) != 0
    }

    /// Marks a slot of a directory.
    pub(crate) fn mark(&mut self, p: u32, slot: u32) {
        let bit = 1u32 << (slot % 32);
        match slot / 32 {
            0 => self.low.set(p, self.low.get(p) | bit),
            1 => self.middle.set(p, self.middle.get(p) | bit),
            _ => self.high.set(p, self.high.get(p) | bit),
        }
    }
}

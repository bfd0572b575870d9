// The bytes of files that can be recovered.

use crate::reports::Report;
use adf_base::BLOCK_LEN;
use adf_blocks::chunk_len;
use adf_judge::{DataBlock, Object};
use adf_names::push_number;
use std::alloc::{AllocError, Global};

/// A run of bytes of a file that are lost: the first and the last, counted from 0.
#[derive(Clone, Copy, Debug, PartialEq, Eq)]
pub struct Gap {
    pub first: u32,
    pub last: u32,
}

/// The bytes of a file, with zeros for those that are lost, and the runs of these zeros.
#[derive(Drop)]
pub struct Salvage {
    pub bytes: Vec<u8>,
    pub gaps: Vec<Gap>,
}

// A file of which bytes are recovered: its header, how many bytes it has, and whether it is deleted.
#[derive(Clone, Copy)]
struct FileAt {
    header: u32,
    size: u32,
    is_deleted: bool,
}

// A number of bytes, as far as 32 bits go.
fn byte_number(count: usize) -> u32 {
    count.min(0xFFFF_FFFF) as u32
}

impl Salvage {
    /// No bytes.
    pub fn new(alloc: Global) -> Salvage {
        Salvage {
            bytes: Vec::new(alloc),
            gaps: Vec::new(alloc),
        }
    }

    // Appends a gap, which goes on with the last one or not.
    fn push_gap(&mut self, gap: Gap) -> Result<(), AllocError> {
        let count = self.gaps.len();
        if count > 0 && self.gaps[count - 1].last.saturating_add(1) == gap.first {
            self.gaps[count - 1].last = gap.last;
            return Ok(());
        }
        Ok(self.gaps.push(gap)?)
    }

    /// Appends what is left of the next `most` bytes, and zeros for the others.
    pub fn push_piece(&mut self, piece: &[u8], most: usize) -> Result<(), AllocError> {
        self.bytes.extend_from_slice(piece)?;
        if most <= piece.len() {
            return Ok(());
        }
        let first = self.bytes.len();
        let end = first.saturating_add(most - piece.len());
        self.bytes.resize(end, 0)?;
        self.push_gap(Gap {
            first: byte_number(first),
            last: byte_number(end.saturating_sub(1)),
        })
    }

    /// Whether no byte is lost.
    pub fn is_whole(&self) -> bool {
        self.gaps.is_empty()
    }

    /// The bytes up to the last that is not lost.
    pub fn kept(&self) -> &[u8] {
        let count = self.bytes.len();
        let end = match self.gaps.last().copied() {
            Some(gap) if (gap.last as usize).saturating_add(1) == count => gap.first as usize,
            _ => count,
        };
        self.bytes.get(..end).unwrap_or(&self.bytes)
    }
}

/// Appends the lines of bytes that are lost.
pub fn push_gaps(text: &mut Vec<u8>, gaps: &[Gap]) -> Result<(), AllocError> {
    for gap in gaps {
        text.extend_from_slice(b"bytes ")?;
        push_number(text, gap.first, b' ')?;
        text.extend_from_slice(b"to ")?;
        push_number(text, gap.last, b':')?;
        text.extend_from_slice(b" no data\n")?;
    }
    Ok(())
}

impl<'i> Report<'_, 'i> {
    /// How many bytes of a file a data block has at most.
    pub fn chunk(&self) -> u32 {
        chunk_len(self.judgement.reading.kind) as u32
    }

    /// A size that a header states, but no more than the volume has bytes.
    pub fn bounded_size(&self, size: u32) -> u32 {
        let bytes = u64::from(self.judgement.reading.blocks) * BLOCK_LEN as u64;
        u64::from(size).min(bytes) as u32
    }

    // Data block `k` of a file, from 1 on, if it is the file's own.
    fn own_block(&self, file: FileAt, k: u32) -> Option<DataBlock> {
        if file.is_deleted {
            self.judgement.deleted_block(file.header, k)
        } else {
            self.judgement.data_block(file.header, k)
        }
    }

    // What is left of data block `k` of a file, at most so many bytes.
    fn piece(&self, file: FileAt, k: u32, most: usize) -> &'i [u8] {
        let Some(data) = self.own_block(file, k) else {
            return &[];
        };
        let Some(block) = self.judgement.block_bytes(data.block) else {
            return &[];
        };
        let start = BLOCK_LEN.saturating_sub(self.chunk() as usize);
        let held = most.min(data.held as usize);
        block.get(start..start.saturating_add(held)).unwrap_or(&[])
    }

    // What is left of a file.
    fn salvage_of(&self, alloc: Global, file: FileAt) -> Result<Salvage, AllocError> {
        let mut salvage = Salvage::new(alloc);
        let mut left = file.size;
        for k in 0..file.size {
            if left == 0 {
                return Ok(salvage);
            }
            let most = left.min(self.chunk());
            salvage.push_piece(self.piece(file, k + 1, most as usize), most as usize)?;
            left -= most;
        }
        Ok(salvage)
    }

    /// What is left of a claimed file, by its number; nothing of anything else. `AllocError` if an allocation fails.
    pub fn salvage(&self, alloc: Global, number: usize) -> Result<Salvage, AllocError> {
        match self.claim(number) {
            Some(claim) if claim.object == Object::File => {
                let file = FileAt {
                    header: claim.header,
                    size: self.bounded_size(claim.size),
                    is_deleted: false,
                };
                self.salvage_of(alloc, file)
            }
            _ => Ok(Salvage::new(alloc)),
        }
    }

    /// What is left of a deleted file, by its index; nothing of anything else. `AllocError` if an allocation fails.
    pub fn deleted_salvage(&self, alloc: Global, index: usize) -> Result<Salvage, AllocError> {
        match self.deleted(index) {
            Some(deleted) if deleted.object == Object::File => {
                let file = FileAt {
                    header: deleted.header,
                    size: self.bounded_size(deleted.size),
                    is_deleted: true,
                };
                self.salvage_of(alloc, file)
            }
            _ => Ok(Salvage::new(alloc)),
        }
    }
}

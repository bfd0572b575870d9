// The bytes of files in blocks that are marked, as blank blocks and those that were never read.

use crate::reports::{Report, number_after};
use adf_base::NoMemory;
use adf_evidence::Numbers;
use adf_json::{Member, push_object};
use adf_judge::Object;
use adf_names::push_number;
use std::alloc::{AllocError, Global};

/// Bytes of a claimed file: its number, and the first and the last byte, counted from 0.
#[derive(Clone, Copy, Debug, PartialEq, Eq)]
pub struct ByteRange {
    pub claim: usize,
    pub first: u32,
    pub last: u32,
}

// The number of the first claimed file that names each marked block, and the number of its data block there.
#[derive(Drop)]
struct MarkedBlocks {
    claims: Numbers,
    numbers: Numbers,
}

impl MarkedBlocks {
    // Notes that a file names a block, if that is marked, and no file before names it.
    fn note(&mut self, marks: &[bool], claim: u32, k: u32, b: u32) {
        let is_marked = marks.get(b as usize).copied().unwrap_or(false);
        if b != 0 && is_marked && self.claims.get(b) == 0 {
            self.claims.set(b, claim);
            self.numbers.set(b, k);
        }
    }
}

// Appends a range, which goes on with the last one or not.
fn push_range(ranges: &mut Vec<ByteRange>, next: ByteRange) -> Result<(), AllocError> {
    let count = ranges.len();
    if count > 0
        && ranges[count - 1].claim == next.claim
        && u64::from(ranges[count - 1].last) + 1 == u64::from(next.first)
    {
        ranges[count - 1].last = next.last;
        return Ok(());
    }
    Ok(ranges.push(next)?)
}

impl Report<'_, '_> {
    // Notes the marked blocks that a file names.
    fn note_file(&self, marks: &[bool], number: u32, header: u32, marked: &mut MarkedBlocks) {
        for k in 0..self.judgement.named_blocks(header) {
            let b = self.judgement.named_block(header, k + 1);
            marked.note(marks, number, k + 1, b);
        }
    }

    // The marked blocks that claimed files name.
    fn marked_blocks(&self, alloc: Global, marks: &[bool]) -> Result<MarkedBlocks, NoMemory> {
        let blocks = self.judgement.reading.blocks;
        let mut marked = MarkedBlocks {
            claims: Numbers::new(alloc, blocks)?,
            numbers: Numbers::new(alloc, blocks)?,
        };
        for i in 0..self.judgement.claims.len() {
            let claim = &self.judgement.claims[i];
            if claim.object == Object::File {
                self.note_file(marks, number_after(i), claim.header, &mut marked);
            }
        }
        Ok(marked)
    }

    // The bytes of data block `k`, from 1 on, of a claimed file, if it has so many.
    fn range_of(&self, number: usize, k: u32) -> Option<ByteRange> {
        let claim = self.claim(number)?;
        let size = u64::from(self.bounded_size(claim.size));
        let first = u64::from(self.chunk()) * u64::from(k.checked_sub(1)?);
        if size <= first {
            return None;
        }
        let end = first.saturating_add(u64::from(self.chunk()));
        let last = size.min(end).saturating_sub(1);
        Some(ByteRange {
            claim: number,
            first: u32::try_from(first).ok()?,
            last: u32::try_from(last).ok()?,
        })
    }

    /// The bytes of claimed files in marked blocks, in the order of blocks; those of neighbouring blocks of a file that follow one
    /// another are one range. `NoMemory` if an allocation fails.
    pub fn marked_bytes(&self, alloc: Global, marks: &[bool]) -> Result<Vec<ByteRange>, NoMemory> {
        let marked = self.marked_blocks(alloc, marks)?;
        let mut ranges = Vec::new(alloc);
        for b in 0..self.judgement.reading.blocks {
            if let Some(range) = self.range_of(
                marked.claims.get(b) as usize,
                marked.numbers.get(b),
            ) {
                push_range(&mut ranges, range)?;
            }
        }
        Ok(ranges)
    }

    // Appends the line of a range, which begins with a word.
    fn push_range_line(
        &self,
        alloc: Global,
        word: &str,
        range: &ByteRange,
        text: &mut Vec<u8>,
    ) -> Result<(), AllocError> {
        text.extend_from_slice(word.as_bytes())?;
        text.extend_from_slice(b": ")?;
        self.push_path(alloc, range.claim, text)?;
        text.extend_from_slice(b", bytes ")?;
        push_number(text, range.first, b' ')?;
        text.extend_from_slice(b"to ")?;
        push_number(text, range.last, b'\n')
    }

    // Appends the object of a range.
    fn push_range_object(
        &self,
        alloc: Global,
        word: &str,
        range: &ByteRange,
        text: &mut Vec<u8>,
    ) -> Result<(), AllocError> {
        let path = self.path(alloc, range.claim, true)?;
        push_object(
            text,
            &[
                Member::text("line", word),
                Member::bytes("path", &path),
                Member::number("first", range.first),
                Member::number("last", range.last),
            ],
        )
    }

    /// The lines of the bytes of claimed files in marked blocks, which begin with a word (`blank`, `unread`); or with `json` their
    /// objects. `NoMemory` if an allocation fails.
    pub fn marked_text(
        &self,
        alloc: Global,
        word: &str,
        marks: &[bool],
        json: bool,
    ) -> Result<Vec<u8>, NoMemory> {
        let mut text = Vec::new(alloc);
        for range in &self.marked_bytes(alloc, marks)? {
            if json {
                self.push_range_object(alloc, word, range, &mut text)?;
            } else {
                self.push_range_line(alloc, word, range, &mut text)?;
            }
        }
        Ok(text)
    }
}

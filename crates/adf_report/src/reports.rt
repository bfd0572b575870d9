// A judgement, and where each of its headers is.

use adf_base::NoMemory;
use adf_evidence::Numbers;
use adf_judge::{Claim, DeletedHeader, Judgement, Object, Sign};
use std::alloc::Global;

/// A judgement with the tables that its text needs. A claim has a number, one more than its index; 0 is the root.
#[derive(Drop)]
pub struct Report<'j, 'i> {
    pub judgement: &'j Judgement<'i>,
    claims: Numbers,
    deleted: Numbers,
    broken: Vec<bool>,
    damaged: Vec<bool>,
}

/// Whether no data block of a deleted entry was used again or is named by another one.
pub fn is_whole(deleted: &DeletedHeader) -> bool {
    deleted.overwritten == 0 && deleted.rival == 0
}

/// One more than an index, as far as 32 bits go.
pub fn number_after(index: usize) -> u32 {
    index.min(0xFFFF_FFFE) as u32 + 1
}

// The numbers of claims by the blocks of their headers.
fn claim_numbers(alloc: Global, judgement: &Judgement<'_>) -> Result<Numbers, NoMemory> {
    let mut numbers = Numbers::new(alloc, judgement.reading.blocks)?;
    for i in 0..judgement.claims.len() {
        numbers.set(judgement.claims[i].header, number_after(i));
    }
    Ok(numbers)
}

// The numbers of deleted entries by the blocks of their headers.
fn deleted_numbers(alloc: Global, judgement: &Judgement<'_>) -> Result<Numbers, NoMemory> {
    let mut numbers = Numbers::new(alloc, judgement.reading.blocks)?;
    for i in 0..judgement.deleted.len() {
        numbers.set(judgement.deleted[i].header, number_after(i));
    }
    Ok(numbers)
}

// Whether a mark is set; not past the last.
fn has_mark(marks: &Vec<bool>, n: usize) -> bool {
    marks.get(n).copied().unwrap_or(false)
}

// The claims, by their numbers, that have this sign.
fn signed(alloc: Global, judgement: &Judgement<'_>, sign: Sign) -> Result<Vec<bool>, NoMemory> {
    let mut marks = vec![in alloc; false; judgement.claims.len().saturating_add(1)]?;
    for amiss in &judgement.amiss {
        if amiss.sign == sign && amiss.claim < marks.len() {
            marks[amiss.claim] = true;
        }
    }
    Ok(marks)
}

impl<'j, 'i> Report<'j, 'i> {
    /// The report of a judgement. `NoMemory` if an allocation fails.
    pub fn of(alloc: Global, judgement: &'j Judgement<'i>) -> Result<Report<'j, 'i>, NoMemory> {
        Ok(Report {
            judgement,
            claims: claim_numbers(alloc, judgement)?,
            deleted: deleted_numbers(alloc, judgement)?,
            broken: signed(alloc, judgement, Sign::LostIn)?,
            damaged: signed(alloc, judgement, Sign::Damaged)?,
        })
    }

    /// The claim with a number; `None` for the root and past the last.
    pub fn claim(&self, number: usize) -> Option<&'j Claim> {
        self.judgement.claims.get(number.checked_sub(1)?)
    }

    /// The deleted entry with an index.
    pub fn deleted(&self, index: usize) -> Option<&'j DeletedHeader> {
        self.judgement.deleted.get(index)
    }

    /// The number of the claim whose header is in a block; 0 if there is none.
    pub fn claim_at(&self, block: u32) -> usize {
        self.claims.get(block) as usize
    }

    /// The index of the deleted entry whose header is in a block.
    pub fn deleted_at(&self, block: u32) -> Option<usize> {
        (self.deleted.get(block) as usize).checked_sub(1)
    }

    /// The block of the root.
    pub fn root(&self) -> u32 {
        self.judgement.reading.blocks / 2
    }

    /// The block of the header of a claim; that of the root for 0 and past the last.
    pub fn header_of(&self, number: usize) -> u32 {
        match self.claim(number) {
            Some(claim) => claim.header,
            None => self.root(),
        }
    }

    /// Whether a claim is a hard link that leads to an entry, or a soft link with a path, and nothing is wrong with it.
    pub fn is_right_link(&self, number: usize) -> bool {
        let Some(claim) = self.claim(number) else {
            return false;
        };
        if has_mark(&self.damaged, number) {
            return false;
        }
        match claim.object {
            Object::SoftLink => !self.soft_path(number).is_empty(),
            Object::DirectoryLink | Object::FileLink => claim.target != 0,
            _ => false,
        }
    }

    /// Whether a claim is listed as sound: an intact entry that surely exists, with no broken hash chain; or a right link.
    pub fn is_sound(&self, number: usize) -> bool {
        let Some(claim) = self.claim(number) else {
            return false;
        };
        match claim.object {
            Object::Directory => self.is_intact(claim) && !has_mark(&self.broken, number),
            Object::File => self.is_intact(claim),
            _ => self.is_right_link(number),
        }
    }

    // Whether a directory or file is given back, and surely exists.
    fn is_intact(&self, claim: &Claim) -> bool {
        claim.is_given && claim.is_certain
    }
}

// What of an image is not in the volume of its rescue, or in doubt there.

use crate::reports::Report;
use adf_judge::{Amiss, Origin, Sign};
use adf_keep::{LeftOut, Why};
use adf_names::push_names;
use std::alloc::{AllocError, Global};

/// Why something of an image is not in the volume of its rescue, or in doubt there.
#[derive(Clone, Copy, Debug, PartialEq, Eq)]
pub enum Reason {
    /// The entry is a file that is not whole, or a wrong link.
    Damaged = 1,
    /// The entry is a link.
    Link,
    /// There is no room for the entry.
    NoRoom,
    /// A hash chain of the directory is broken.
    Headers,
    /// The blocks are lost.
    Blocks,
    /// The entry is kept, but its name, directory or data may have been others.
    InDoubt,
    /// The entry is kept, but may have been deleted.
    PerhapsDeleted,
    /// The entry is kept, but no directory led to it.
    FoundAgain,
    /// The directory was made, of what names its block.
    Made,
    /// The entry is kept by another name.
    Renamed,
    /// The comment of the entry is too long, and was cut.
    CommentCut,
    /// The label of the volume is too long, and was cut.
    LabelCut,
    /// A page of the bitmap cannot be read.
    Bitmap,
}

impl Reason {
    /// Its number, from 1 to 13.
    pub fn number(self) -> u8 {
        self as u8
    }
}

/// Something of an image that is not in the volume of its rescue, or in doubt there.
#[derive(Drop)]
pub struct Loss {
    pub why: Reason,
    /// The header of the entry, or of the directory with the broken hash chain, 0 for the root; or the first block that is lost.
    pub first: u32,
    /// The same header; or the last block that is lost.
    pub last: u32,
    /// The text of its path: empty for the root and for blocks; of an entry that is renamed both paths, the stated one first, with
    /// `: ` between them.
    pub path: Vec<u8>,
}

/// What a rescue made of a judgement: the claims and the deleted files that the keeper left out, by their indexes; the name of the
/// directory for deleted files; and for each claim, by its index, whether it is a link that was laid.
#[derive(Clone, Copy)]
pub struct RescueResult<'a> {
    pub left_out: &'a [LeftOut],
    pub deleted_out: &'a [LeftOut],
    pub deleted_directory: &'a [u8],
    pub laid_links: &'a [bool],
}

// The reason of an entry that the keeper left out.
fn of_left_out(why: Why) -> Reason {
    match why {
        Why::NoRoom => Reason::NoRoom,
        _ => Reason::Damaged,
    }
}

// The reason of a link that was laid, if it is in doubt.
fn of_laid_link(origin: Origin) -> Option<Reason> {
    match origin {
        Origin::Orphaned => Some(Reason::FoundAgain),
        Origin::PerhapsDeleted => Some(Reason::PerhapsDeleted),
        _ => None,
    }
}

// The reason of what is amiss.
fn of_sign(sign: Sign) -> Reason {
    match sign {
        Sign::Type | Sign::Root | Sign::Length | Sign::NoData | Sign::Lost => Reason::Blocks,
        Sign::LabelCut => Reason::LabelCut,
        Sign::Bitmap => Reason::Bitmap,
        Sign::LostIn => Reason::Headers,
        Sign::Damaged => Reason::Damaged,
        Sign::Link => Reason::Link,
        Sign::InDoubt => Reason::InDoubt,
        Sign::Made => Reason::Made,
        Sign::PerhapsDeleted | Sign::OwnedFree => Reason::PerhapsDeleted,
        Sign::FoundAgain => Reason::FoundAgain,
        Sign::Renamed => Reason::Renamed,
        Sign::CommentCut => Reason::CommentCut,
    }
}

// The loss of blocks.
fn of_blocks(alloc: Global, why: Reason, amiss: &Amiss) -> Loss {
    Loss {
        why,
        first: amiss.first,
        last: amiss.past.saturating_sub(1).max(amiss.first),
        path: Vec::new(alloc),
    }
}

impl Report<'_, '_> {
    // The block of the header of a claim; 0 for the root.
    fn loss_header(&self, number: usize) -> u32 {
        match self.claim(number) {
            Some(claim) => claim.header,
            None => 0,
        }
    }

    // The loss of a claim, or in the root.
    fn of_claim(&self, alloc: Global, why: Reason, number: usize) -> Result<Loss, AllocError> {
        let header = self.loss_header(number);
        Ok(Loss {
            why,
            first: header,
            last: header,
            path: self.path(alloc, number, false)?,
        })
    }

    // The loss of the name of a claim.
    fn of_renamed(&self, alloc: Global, number: usize) -> Result<Loss, AllocError> {
        let mut loss = self.of_claim(alloc, Reason::Renamed, number)?;
        let mut paths = self.stated_path(alloc, number)?;
        paths.extend_from_slice(b": ")?;
        paths.extend_from_slice(&loss.path)?;
        loss.path = paths;
        Ok(loss)
    }

    // The reason of what is amiss with a link, if it is one that is not laid or in doubt.
    fn link_reason(&self, number: usize, laid_links: &[bool]) -> Option<Reason> {
        let index = number.checked_sub(1)?;
        if !laid_links.get(index).copied().unwrap_or(false) {
            return Some(Reason::Link);
        }
        of_laid_link(self.claim(number)?.origin)
    }

    // Appends the loss of a link, if it is not laid, or in doubt.
    fn push_link(
        &self,
        alloc: Global,
        number: usize,
        laid_links: &[bool],
        losses: &mut Vec<Loss>,
    ) -> Result<(), AllocError> {
        match self.link_reason(number, laid_links) {
            Some(why) => Ok(losses.push(self.of_claim(alloc, why, number)?)?),
            None => Ok(()),
        }
    }

    // Appends the loss of what is amiss.
    fn push_amiss(
        &self,
        alloc: Global,
        amiss: &Amiss,
        laid_links: &[bool],
        losses: &mut Vec<Loss>,
    ) -> Result<(), AllocError> {
        let why = of_sign(amiss.sign);
        let loss = match why {
            Reason::Link => return self.push_link(alloc, amiss.claim, laid_links, losses),
            Reason::Blocks | Reason::LabelCut | Reason::Bitmap => of_blocks(alloc, why, amiss),
            Reason::Renamed => self.of_renamed(alloc, amiss.claim)?,
            _ => self.of_claim(alloc, why, amiss.claim)?,
        };
        Ok(losses.push(loss)?)
    }

    // The loss of a deleted file for which there is no room, in a directory of this name.
    fn of_deleted(
        &self,
        alloc: Global,
        directory: &[u8],
        index: usize,
    ) -> Result<Loss, AllocError> {
        let (header, name) = match self.deleted(index) {
            Some(deleted) => (deleted.header, deleted.name.as_slice()),
            None => (0, b"".as_slice()),
        };
        let mut path = Vec::new(alloc);
        push_names(&mut path, &[directory, name])?;
        Ok(Loss {
            why: Reason::NoRoom,
            first: header,
            last: header,
            path,
        })
    }

    /// All that is not in the volume of a rescue, or in doubt there: what the keeper left out, what is amiss, and the deleted files
    /// for which there is no room. `AllocError` if an allocation fails.
    pub fn losses(
        &self,
        alloc: Global,
        rescued: &RescueResult<'_>,
    ) -> Result<Vec<Loss>, AllocError> {
        let mut losses = Vec::new(alloc);
        for left_out in rescued.left_out {
            let number = left_out.index.saturating_add(1);
            losses.push(self.of_claim(alloc, of_left_out(left_out.why), number)?)?;
        }
        for amiss in &self.judgement.amiss {
            self.push_amiss(alloc, amiss, rescued.laid_links, &mut losses)?;
        }
        for left_out in rescued.deleted_out {
            losses.push(self.of_deleted(alloc, rescued.deleted_directory, left_out.index)?)?;
        }
        Ok(losses)
    }
}

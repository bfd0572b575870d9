// The judgement of an image.

use crate::amiss::{AmissList, find_amiss};
use crate::claims::Claims;
use crate::deleted::DeletedHeaders;
use crate::fronts::find_fronts;
use crate::judgement::{Amiss, Claim, DeletedHeader, Reading, Refusal};
use crate::names::Names;
use crate::volumes::{reading_of, stated_type, volume_of};
use adf_base::NoMemory;
use adf_blocks::is_allowed_size;
use adf_evidence::{Image, Length, LetterVotes, length_of};
use std::alloc::Global;

/// What is asked: as many blocks as the user states, and which blocks of the input were never read.
#[derive(Clone, Copy, Debug)]
pub struct Question<'a> {
    pub blocks: Option<u32>,
    pub unread: &'a [bool],
}

/// A data block of a file: its number, and how many bytes of the file are in it.
#[derive(Clone, Copy, Debug, PartialEq, Eq)]
pub struct DataBlock {
    pub block: u32,
    pub held: u32,
}

/// What exists on a volume.
#[derive(Drop)]
pub struct Judgement<'a> {
    pub reading: Reading,
    /// Directories before what is in them.
    pub claims: Vec<Claim>,
    pub amiss: Vec<Amiss>,
    pub deleted: Vec<DeletedHeader>,
    found: Claims<'a>,
    gone: DeletedHeaders,
}

impl<'a> Judgement<'a> {
    /// How many data blocks the table of a claimed or deleted file names, in its header and its extension blocks.
    pub fn named_blocks(&self, header: u32) -> u32 {
        self.found.files.told.get(header)
    }

    /// The block that the table of a claimed or deleted file names for its data block `k`, from 1 on; 0 if it names none.
    pub fn named_block(&self, header: u32, k: u32) -> u32 {
        self.found.files.names(&self.found.image, header, k)
    }

    /// Data block `k` of a claimed file, if it is the file's own.
    pub fn data_block(&self, header: u32, k: u32) -> Option<DataBlock> {
        if !self.found.is_own(header, k) {
            return None;
        }
        Some(DataBlock {
            block: self.named_block(header, k),
            held: self.found.held(header, k),
        })
    }

    /// Data block `k` of a deleted file, if it is still its own.
    pub fn deleted_block(&self, header: u32, k: u32) -> Option<DataBlock> {
        if !self.gone.is_own(&self.found, header, k) {
            return None;
        }
        Some(DataBlock {
            block: self.named_block(header, k),
            held: self.found.files.size_of(&self.found.image, header, k),
        })
    }

    /// Extension block `k` of a claimed or deleted file, from 1 on; 0 if there is none.
    pub fn extension_block(&self, header: u32, k: u32) -> u32 {
        self.found.files.extension(header, k)
    }

    /// Whether a hash chain of a directory is broken, or its own words are in doubt.
    pub fn is_directory_broken(&self, header: u32) -> bool {
        self.found.is_broken(header)
    }

    /// Whether the root, a page of the bitmap, a directory cache, or a claimed entry has the block.
    pub fn has_block(&self, b: u32) -> bool {
        b == self.found.image.root() || self.found.has_block(b)
    }

    /// The bytes of a block of the input; `None` if it does not hold the block, or that was never read.
    pub fn block_bytes(&self, b: u32) -> Option<&'a [u8]> {
        self.found.image.block_bytes(b)
    }
}

/// Judges an image: the same bytes and question always give the same judgement. `NoMemory` if an allocation fails.
pub fn judge<'a>(
    alloc: Global,
    input: &'a [u8],
    question: &Question<'_>,
) -> Result<Result<Judgement<'a>, Refusal>, NoMemory> {
    let length = length_of(alloc, input, question.blocks)?;
    if !is_allowed_size(length.blocks) {
        return Ok(Err(Refusal::BadSize));
    }
    let image = Image::new(alloc, input, length.blocks, question.unread)?;
    let stated = stated_type(&image);
    let votes = LetterVotes::new(alloc, &image)?;
    if votes.is_long(stated) {
        return Ok(Err(Refusal::LongNames));
    }
    let volume = volume_of(alloc, image, &votes, stated)?;
    let found = Claims::new(alloc, volume)?;
    Ok(Ok(judgement_of(alloc, input, &length, found)?))
}

// The judgement, once it is known what exists.
fn judgement_of<'a>(
    alloc: Global,
    input: &'a [u8],
    length: &Length,
    found: Claims<'a>,
) -> Result<Judgement<'a>, NoMemory> {
    let mut found = found;
    let names = Names::new(alloc, &found)?;
    let mut claims = Vec::new(alloc);
    for header in found.headers() {
        claims.push(found.claim(alloc, &names, *header)?)?;
    }
    let mut list = AmissList::new(alloc);
    find_fronts(input, length, &found, &mut list)?;
    find_amiss(alloc, &found, &claims, &mut list)?;
    let gone = DeletedHeaders::new(alloc, &mut found)?;
    let deleted = gone.all(alloc, &mut found)?;
    Ok(Judgement {
        reading: reading_of(&found),
        claims,
        amiss: list.all,
        deleted,
        found,
        gone,
    })
}

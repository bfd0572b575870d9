// What a judge says of an image in the memory of a caller.

ghost use Rattle.std.specs.Prelude.{◌≡◌, ◌≤◌, ◌<◌, IfOk, IfSome};
ghost use Rattle.adf_blocks.specs.Sizes.{blocks as blocks_of};

use adf_base::{BLOCK_LEN, Block, NoMemory};
use adf_blocks::MOST_BLOCKS;
use adf_judge::{Claim, Judgement, Object, Question, judge};
use std::alloc::Global;

/// A word of a block; 0 if the image has no such block.
pub fn word_in(image: &[u8], b: u32, i: usize) -> u32
    requires { i < 128 }
{
    match Block::at(image, b) {
        Some(block) => block.word(i),
        None => 0,
    }
}

/// The number of blocks of an image, if it is whole blocks, and a volume can have so many.
pub fn whole_blocks(image: &[u8]) -> Option<u32>
    ensures { IfSome result (λ n. (0 < n) × (n ≡ blocks_of image.now)) }
{
    let blocks = image.len() / BLOCK_LEN;
    if image.len() % BLOCK_LEN != 0 || blocks == 0 || blocks > MOST_BLOCKS as usize {
        return None;
    }
    Some(blocks as u32)
}

/// An image, judged as a volume of as many blocks as it has. Its entries are numbered from 1.
#[derive(Drop)]
pub struct Judged<'a> {
    pub image: &'a [u8],
    pub blocks: u32,
    pub judgement: Judgement<'a>,
    ghost some: { 0 < blocks },
}

/// Judges an image: `None` if no volume has so many blocks, or it is of a type that is not read.
pub fn judge_image<'a>(alloc: Global, image: &'a [u8]) -> Result<Option<Judged<'a>>, NoMemory>
    ensures { IfOk result (λ o. IfSome o (λ judged. judged.blocks ≡ blocks_of image.now)) }
{
    let Some(blocks) = whole_blocks(image) else {
        return Ok(None);
    };
    let question = Question {
        blocks: Some(blocks),
        unread: &[],
    };
    match judge(alloc, image, &question)? {
        Ok(judgement) => Ok(Some(Judged {
            image,
            blocks,
            judgement,
        })),
        Err(_) => Ok(None),
    }
}

impl<'a> Judged<'a> {
    /// The number of entries: no more than blocks.
    pub fn len(&self) -> usize
        ensures { result ≤ self.now.blocks }
    {
        self.judgement.claims.len().min(self.blocks as usize)
    }

    /// An entry, by its place in the table; `None` past the last.
    pub fn entry(&self, i: usize) -> Option<&Claim> {
        self.judgement.claims.get(i)
    }

    /// An entry, if it is a file.
    pub fn file(&self, i: usize) -> Option<&Claim> {
        let claim = self.entry(i)?;
        if claim.object == Object::File {
            Some(claim)
        } else {
            None
        }
    }

    /// A block that is told: 0 in place of one that the image does not have.
    pub fn told_block(&self, b: u32) -> u32
        ensures { result < self.now.blocks }
    {
        if b < self.blocks { b } else { 0 }
    }

    /// A number of an entry that is told: 0 in place of one past the last.
    pub fn told_entry(&self, n: usize) -> usize
        ensures { result ≤ self.now.blocks }
    {
        if n <= self.len() { n } else { 0 }
    }
}

// The image that is surveyed of an input: of the volume's length, and with its type.

use crate::remarks::{Remark, Saying};
use adf_base::{BLOCK_LEN, Letters};
use adf_judge::{Reading, Refusal};
use adf_names::{Kind, letters_of_type, type_number};
use adf_unread::UnreadRun;
use std::alloc::{AllocError, Global};

/// The image that is surveyed of an input.
#[derive(Drop)]
pub struct SurveyedImage {
    pub image: Vec<u8>,
    /// The first block of it that the input does not hold whole; its number of blocks, if it holds all.
    pub held: u32,
    /// What is reported before the findings.
    pub remarks: Vec<Remark>,
    /// `DOS` and a type were written, since the input does not begin with them.
    pub is_begun: bool,
    /// The type was written, since the input states another.
    pub is_retyped: bool,
}

/// The number of blocks of the image that is surveyed, by how the input is judged and how many blocks are asked for; `None` if the
/// input is surveyed as it is.
pub fn surveyed_blocks(judged: Result<&Reading, Refusal>, asked: Option<u32>) -> Option<u32> {
    match judged {
        Ok(reading) => Some(reading.blocks),
        Err(_) => asked,
    }
}

// How many bytes so many blocks have.
fn byte_count(blocks: u32) -> usize {
    blocks as usize * BLOCK_LEN
}

// The image of so many blocks that begins with these bytes, with zeros for what is missing.
fn sized(alloc: Global, bytes: &[u8], blocks: u32) -> Result<Vec<u8>, AllocError> {
    let count = byte_count(blocks);
    let mut image = Vec::from_slice(alloc, bytes.get(..count).unwrap_or(bytes))?;
    image.resize(count, 0)?;
    Ok(image)
}

// A number of blocks, as far as 32 bits go.
fn block_number(count: usize) -> u32 {
    count.min(0xFFFF_FFFF) as u32
}

// The number of blocks that the bytes begin, whole or not.
fn blocks_begun(bytes: &[u8]) -> u32 {
    block_number(bytes.len().div_ceil(BLOCK_LEN))
}

// The type that an input states: that after `DOS`, up to 5.
fn stated_type(input: &[u8]) -> Option<u8> {
    match input {
        [b'D', b'O', b'S', number, ..] if *number <= 5 => Some(*number),
        _ => None,
    }
}

// Whether a type is that of a kind and letters, with directory caches or without.
fn is_type_of(number: u8, kind: Kind, letters: Letters) -> bool {
    let is_ffs = number % 2 == 1;
    let is_international = letters_of_type(u32::from(number)) == Letters::International;
    is_ffs == (kind == Kind::Ffs) && is_international == (letters == Letters::International)
}

// The byte after `DOS`, if at least two of these letters are right.
fn type_byte(input: &[u8]) -> Option<u8> {
    match input {
        [b'D', b'O', _, number, ..] | [b'D', _, b'S', number, ..] | [_, b'O', b'S', number, ..] => {
            Some(*number)
        }
        _ => None,
    }
}

// The type that the image gets: its own byte, if that is of the kind and letters; else the one without directory caches.
fn type_to_put(input: &[u8], kind: Kind, letters: Letters) -> u8 {
    match type_byte(input) {
        Some(number) if number <= 5 && is_type_of(number, kind, letters) => number,
        _ => type_number(letters, kind),
    }
}

// Writes `DOS` and a type at the start of an image.
fn put_type(image: &mut Vec<u8>, number: u8) {
    if image.len() < 4 {
        return;
    }
    image[0] = b'D';
    image[1] = b'O';
    image[2] = b'S';
    image[3] = number;
}

impl SurveyedImage {
    // The input as it is, or so many blocks of it.
    fn of(alloc: Global, input: &[u8], blocks: Option<u32>) -> Result<SurveyedImage, AllocError> {
        let image = match blocks {
            Some(blocks) => sized(alloc, input, blocks)?,
            None => Vec::from_slice(alloc, input)?,
        };
        let held = block_number(input.len().min(image.len()) / BLOCK_LEN);
        Ok(SurveyedImage {
            image,
            held,
            remarks: Vec::new(alloc),
            is_begun: false,
            is_retyped: false,
        })
    }

    // Reports the blocks of this many that the input does not hold.
    fn report_missing(&mut self, blocks: u32) -> Result<(), AllocError> {
        if self.held < blocks {
            self.remarks.push(Remark {
                first: self.held,
                last: blocks - 1,
                says: Saying::NoData,
            })?;
        }
        Ok(())
    }

    // Reports the blocks of the input after this many.
    fn report_behind(&mut self, blocks: u32, input: &[u8]) -> Result<(), AllocError> {
        let begun = blocks_begun(input);
        if blocks < begun {
            self.remarks.push(Remark {
                first: blocks,
                last: begun - 1,
                says: Saying::Behind,
            })?;
        }
        Ok(())
    }

    // Reports the blocks that were never read.
    fn report_unread(&mut self, unread: &[UnreadRun]) -> Result<(), AllocError> {
        for run in unread {
            self.remarks.push(Remark {
                first: run.first,
                last: run.last,
                says: Saying::NoData,
            })?;
        }
        Ok(())
    }

    // Gives the image the type of a kind and letters, and reports it, if that is not the stated one.
    fn be_typed(&mut self, input: &[u8], kind: Kind, letters: Letters) -> Result<(), AllocError> {
        let stated = stated_type(input);
        let says = match stated {
            Some(number) if is_type_of(number, kind, letters) => return Ok(()),
            Some(_) => Saying::FilesOf(kind, letters),
            None => Saying::NotDos,
        };
        self.is_begun = stated.is_none();
        self.is_retyped = stated.is_some();
        self.remarks.push(Remark::of_boot(says))?;
        put_type(&mut self.image, type_to_put(input, kind, letters));
        Ok(())
    }

    // Reports what the judgement of the input says of the image.
    fn be_judged(
        &mut self,
        input: &[u8],
        judged: Result<&Reading, Refusal>,
    ) -> Result<(), AllocError> {
        match judged {
            Ok(reading) => self.be_typed(input, reading.kind, reading.letters),
            Err(Refusal::LongNames) => Ok(self.remarks.push(Remark::of_boot(Saying::LongNames))?),
            Err(Refusal::BadSize) => Ok(()),
        }
    }
}

/// The image that is surveyed of an input, by how it is judged, how many blocks are asked for, and the runs of blocks that were
/// never read. It has zeros for what the input does not hold, and the type of the judged kind and letters. `AllocError` if an
/// allocation fails.
pub fn surveyed_image(
    alloc: Global,
    input: &[u8],
    judged: Result<&Reading, Refusal>,
    asked: Option<u32>,
    unread: &[UnreadRun],
) -> Result<SurveyedImage, AllocError> {
    let blocks = surveyed_blocks(judged, asked);
    let mut surveyed = SurveyedImage::of(alloc, input, blocks)?;
    if let Some(blocks) = blocks {
        surveyed.report_missing(blocks)?;
        if asked.is_none() {
            surveyed.report_behind(blocks, input)?;
        }
    }
    surveyed.report_unread(unread)?;
    surveyed.be_judged(input, judged)?;
    Ok(surveyed)
}

// The image that is surveyed in place of an image, in the memory of the caller.

ghost use Rattle.std.specs.Prelude.{◌≡◌, ◌≤◌, ◌<◌, IfErr, IfOk, OnErr, drop, length};
ghost use Rattle.adf_memory.specs.Rescuing.{sized};
ghost use Rattle.adf_memory.specs.SurveyCalls.{HasSurveyed, PutsSubject};

use crate::rescuing::asked_blocks;
use crate::tables::put_all;
use adf_base::{BLOCK_LEN, NoMemory};
use adf_blocks::Cause;
use adf_judge::{Judgement, Question, Reading, Refusal, judge};
use adf_report::{SurveyedImage, surveyed_blocks, surveyed_image};
use std::alloc::Global;

/// The number of a room that is smaller than the image that is surveyed.
const SMALL_ROOM: u8 = 24;

/// What is told of the image that is surveyed. Fields that do not apply are 0.
#[repr(C)]
#[derive(Clone, Copy)]
pub struct SubjectTold {
    /// The bytes of the image that is surveyed.
    pub length: usize,
    /// The first block of it that the given image does not hold whole; its blocks, if that holds all.
    pub held: u32,
    /// 1 if the given image does not begin with `DOS` and a type, and they stand in its place, otherwise 0.
    pub is_begun: u8,
    /// 1 if the type is the one that the volume is judged to have, in place of another, otherwise 0.
    pub is_retyped: u8,
}

// What is told beside the length where nothing is surveyed.
fn untold(length: usize) -> SubjectTold
    ensures { result.length ≡ length }
{
    SubjectTold {
        length,
        held: 0,
        is_begun: 0,
        is_retyped: 0,
    }
}

// How an image is read, or why it is not.
fn reading_of<'j>(judged: &'j Result<Judgement<'_>, Refusal>) -> Result<&'j Reading, Refusal> {
    match judged {
        Ok(judgement) => Ok(&judgement.reading),
        Err(refusal) => Err(*refusal),
    }
}

// The bytes of the image that is surveyed of an image that is judged so.
fn surveyed_len(image: &[u8], judged: Result<&Reading, Refusal>, asked: Option<u32>) -> usize {
    match surveyed_blocks(judged, asked) {
        Some(blocks) => blocks as usize * BLOCK_LEN,
        None => image.len(),
    }
}

// Puts the first four bytes of another image at the front of an image, if both have them.
fn put_start(image: &mut [u8], other: &[u8])
    ensures { drop 4 image.new ≡ drop 4 image.old }
{
    if image.len() >= 4 && other.len() >= 4 {
        image[..4].copy_from_slice(&other[..4]);
    }
}

// Fills a room with the bytes of an image and zeros, but for the first four, which are those of the image that is surveyed.
fn put_surveyed(image: &[u8], surveyed: &[u8], room: &mut [u8])
    ensures { drop 4 room.new ≡ drop 4 (sized (length room.old) image.now) }
{
    room.fill(0);
    put_all(room, image);
    put_start(room, surveyed);
}

// Puts the image that is surveyed of an image at the front of a room that has as many bytes.
fn put_front(image: &[u8], surveyed: &SurveyedImage, count: usize, room: &mut [u8]) -> SubjectTold
    requires { count ≤ length room.old }
    ensures { HasSurveyed image.now room.old room.new result }
{
    put_surveyed(image, &surveyed.image, &mut room[..count]);
    SubjectTold {
        length: count,
        held: surveyed.held,
        is_begun: u8::from(surveyed.is_begun),
        is_retyped: u8::from(surveyed.is_retyped),
    }
}

// Writes the image that is surveyed of an image to the front of a room; else answers how many bytes it has, if the room is
// smaller.
fn put_judged(
    alloc: Global,
    image: &[u8],
    asked: Option<u32>,
    room: &mut [u8],
) -> Result<Result<SubjectTold, usize>, NoMemory>
    ensures surveyed { IfOk result (λ r. IfOk r (HasSurveyed image.now room.old room.new)) }
    ensures small { IfOk result (λ r. IfErr r (λ n. length room.old < n)) }
    ensures refused { OnErr result (room.new ≡ room.old) }
    ensures unchanged { IfOk result (λ r. OnErr r (room.new ≡ room.old)) }
{
    let question = Question {
        blocks: asked,
        unread: &[],
    };
    let judged = judge(alloc, image, &question)?;
    let length = surveyed_len(image, reading_of(&judged), asked);
    if room.len() < length {
        return Ok(Err(length));
    }
    let surveyed = surveyed_image(alloc, image, reading_of(&judged), asked, &[])?;
    Ok(Ok(put_front(image, &surveyed, length, room)))
}

/// Writes the image that `adf-survey` surveys in place of an image to the front of the room, and tells what is changed in
/// it. It has as many blocks as the volume is judged to have, or if `blocks` is not 0, as many as that: the first blocks of the
/// image, with zeros for what is not there; and `DOS` and the type of the kind and the letters that the volume is judged to have,
/// where the image has another. What is not judged stays as it is. Returns 0; or 24 if the room is smaller, or the number of
/// `NoMemory` if memory ran out.
pub fn put_subject(
    alloc: Global,
    image: &[u8],
    blocks: u32,
    room: &mut [u8],
    told: &mut SubjectTold,
) -> u8
    ensures { PutsSubject image.now room.old room.new told.new result }
{
    match put_judged(alloc, image, asked_blocks(blocks), room) {
        Ok(Ok(surveyed)) => {
            *told = surveyed;
            0
        }
        Ok(Err(length)) => {
            *told = untold(length);
            SMALL_ROOM
        }
        Err(_) => {
            *told = untold(0);
            Cause::NoMemory.number()
        }
    }
}

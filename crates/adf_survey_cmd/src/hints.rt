// The hint to the program that reads whole hard disks.

ghost use Rattle.std.specs.Prelude.{◌≡◌, IfOk};
ghost use Rattle.adf_survey_cmd.specs.Answer.{answer_status};

use crate::answer::Answer;
use adf_base::{BLOCK_LEN, Block};
use adf_boot_blocks::begins_with_dos;
use adf_partitions::{MARK, RDSK, RDSK_BLOCKS};
use std::alloc::AllocError;

// Whether the bytes hold the whole block, and it begins with `RDSK`.
fn begins_table(bytes: &[u8], b: u32) -> bool {
    match Block::at(bytes, b) {
        Some(block) => block.word(MARK) == RDSK,
        None => false,
    }
}

// Whether one of the first blocks begins with `RDSK`.
fn has_table(bytes: &[u8]) -> bool {
    for b in 0..RDSK_BLOCKS {
        if begins_table(bytes, b) {
            return true;
        }
    }
    false
}

// Whether the first 16 blocks of an input say that it is no volume but a whole hard disk.
fn is_hard_disk(input: &[u8]) -> bool {
    let front = &input[..input.len().min(RDSK_BLOCKS as usize * BLOCK_LEN)];
    !begins_with_dos(front) && has_table(front)
}

/// An answer of an input: on a hard disk one of status 1 gets the hint behind its lines.
pub fn hinted(input: &[u8], answer: Answer) -> Result<Answer, AllocError>
    ensures output { IfOk result (λ a. a.output ≡ answer.output) }
    ensures status { IfOk result (λ a. answer_status a ≡ answer_status answer) }
{
    let mut answer = answer;
    if answer.status() == 1 && is_hard_disk(input) {
        answer.errors.extend_from_slice(
            b"a hard disk with a partition table: adf-disk list tells its partitions\n",
        )?;
        answer.is_clean = false;
    }
    Ok(answer)
}

// What an input held before it was formatted.

use crate::judged::Judged;
use adf_base::NoMemory;
use adf_judge::{Judgement, Question, judge};
use std::alloc::Global;

// The marks of the blocks that were never read, of the root, and of the blocks of what exists.
fn masks(
    alloc: Global,
    judged: &Judged<'_>,
    judgement: &Judgement<'_>,
) -> Result<Vec<bool>, NoMemory> {
    let unread = judged.asked.unread.marks(alloc, judged.asked.input)?;
    let blocks = judgement.reading.blocks;
    let mut marks = Vec::new(alloc);
    for b in 0..blocks {
        let was_unread = unread.get(b as usize).copied().unwrap_or(false);
        marks.push(was_unread || b == blocks / 2 || judgement.has_block(b))?;
    }
    Ok(marks)
}

/// What is judged to exist without all that exists now, by its judgement, and without the root: what the input held before it was
/// formatted. `None` if there is no root now, or the rest is not judged.
pub fn before_format<'w>(
    alloc: Global,
    judged: &Judged<'w>,
    judgement: &Judgement<'_>,
) -> Result<Option<Judgement<'w>>, NoMemory> {
    if !judgement.has_block(judgement.reading.blocks / 2) {
        return Ok(None);
    }
    let marks = masks(alloc, judged, judgement)?;
    let question = Question {
        blocks: Some(judgement.reading.blocks),
        unread: &marks,
    };
    match judge(alloc, judged.asked.input, &question)? {
        Ok(hidden) => Ok(Some(hidden)),
        Err(_) => Ok(None),
    }
}

// An input that is judged.

ghost use Rattle.std.specs.Prelude.{◌≡◌, IfOk};

use crate::unread::Unread;
use adf_base::{BLOCK_LEN, NoMemory};
use adf_judge::{Judgement, Question, Reading, Refusal, judge};
use adf_report::{SurveyedImage, surveyed_blocks, surveyed_image};
use adf_unread::drop_unread;
use std::alloc::Global;

/// What is asked of: the bytes of an input, how many blocks are stated, and which blocks were never read.
#[derive(Clone, Copy)]
pub struct Asked<'w> {
    pub input: &'w [u8],
    pub blocks: Option<u32>,
    pub unread: Unread<'w>,
}

/// The same, and what is judged to exist on it.
#[derive(Drop)]
pub struct Judged<'w> {
    pub asked: Asked<'w>,
    pub judgement: Result<Judgement<'w>, Refusal>,
}

impl<'w> Judged<'w> {
    /// Judges an input.
    pub fn of(alloc: Global, asked: Asked<'w>) -> Result<Judged<'w>, NoMemory>
        ensures { IfOk result (λ j. j.asked ≡ asked.entry) }
    {
        let marks = asked.unread.marks(alloc, asked.input)?;
        let question = Question {
            blocks: asked.blocks,
            unread: &marks,
        };
        let judgement = judge(alloc, asked.input, &question)?;
        Ok(Judged { asked, judgement })
    }

    /// How the input is read, or why it is not.
    pub fn reading(&self) -> Result<&Reading, Refusal> {
        match &self.judgement {
            Ok(judgement) => Ok(&judgement.reading),
            Err(refusal) => Err(*refusal),
        }
    }

    // How many bytes the image has that is surveyed.
    fn surveyed_len(&self) -> usize {
        match surveyed_blocks(self.reading(), self.asked.blocks) {
            Some(blocks) => blocks as usize * BLOCK_LEN,
            None => self.asked.input.len(),
        }
    }

    /// Whether the map is that of a disk of another size.
    pub fn has_other_map(&self) -> bool {
        self.asked
            .unread
            .is_of_other_disk(self.asked.input.len(), self.surveyed_len())
    }

    /// The image that is surveyed, without what was never read, and the marks of that.
    pub fn surveyed(&self, alloc: Global) -> Result<(SurveyedImage, Vec<bool>), NoMemory> {
        let asked = &self.asked;
        let runs = asked.unread.runs(alloc, asked.input)?;
        let mut surveyed = surveyed_image(alloc, asked.input, self.reading(), asked.blocks, &runs)?;
        let marks = asked.unread.marks(alloc, &surveyed.image)?;
        drop_unread(&marks, &mut surveyed.image);
        Ok((surveyed, marks))
    }
}

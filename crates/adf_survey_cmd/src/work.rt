// The work that words ask for.

ghost use Rattle.std.specs.Prelude.{◌≡◌, false, IfOk, IfSome};
ghost use Rattle.adf_runs.specs.{Outcomes.Blames, Outcomes.Does, Streams.seen};
ghost use Rattle.adf_survey_cmd.specs.Answer.{answer_status, reply_of};
ghost use Rattle.adf_survey_cmd.specs.Answers.{InputAnswer, Promises};
ghost use Rattle.adf_survey_cmd.specs.CommandLine.{InquiryValue};
ghost use Rattle.adf_survey_cmd.specs.Judged.{front_of};
ghost use Rattle.adf_survey_cmd.specs.Work.{Meets};

use crate::answer::{Answer, write_answer};
use crate::command_line::{SURVEY_USAGE as USAGE, parse_survey, survey_file};
use crate::copying::copy_file;
use crate::deleting::tell_deleted;
use crate::hints::hinted;
use crate::judged::{Asked, Judged};
use crate::reporting::{ReportForm, report_blanks, report_findings};
use crate::rescuing::{rescue_accepted, rescue_judged};
use crate::task::{Task, task_for};
use crate::unread::Unread;
use adf_base::{BLOCK_LEN, NoMemory};
use adf_blocks::MOST_BLOCKS;
use adf_file_runs::FileProgram;
use adf_judge::{dump, refusal_text};
use adf_maps::Map;
use adf_runs::{Outcome, Program, Sink, Source, WorkFault, read_input};
use std::alloc::Global;

/// The most bytes of an image.
const MOST_IMAGE_BYTES: usize = MOST_BLOCKS as usize * BLOCK_LEN;

/// What is done with an image as it is, or as if it had so many blocks, what a map says was not read
/// of it, and whether each blank block of it counts as never read.
#[derive(Drop)]
pub struct Work {
    pub blocks: Option<u32>,
    pub map: Option<Map>,
    pub blank: bool,
    pub task: Task,
}

// All that is judged, or why it is not.
fn tell_claims(alloc: Global, judged: &Judged<'_>) -> Result<Answer, NoMemory> {
    let mut text = Vec::new(alloc);
    match &judged.judgement {
        Ok(judgement) => dump(judgement, &mut text)?,
        Err(refusal) => {
            text.extend_from_slice(refusal_text(*refusal).as_bytes())?;
            text.push(b'\n')?;
        }
    }
    Ok(Answer::whole(alloc, text))
}

// The first blocks of an input, if so many are stated; `None` if it does not hold them.
fn front_of(input: &[u8], blocks: Option<u32>) -> Option<&[u8]>
    ensures { IfSome result (λ front. front.now ≡ front_of blocks input.now) }
{
    match blocks {
        None => Some(input),
        Some(blocks) => input.get(..blocks as usize * BLOCK_LEN),
    }
}

impl Task {
    // Does the task with what is judged.
    fn on_judged(&self, alloc: Global, judged: &Judged<'_>) -> Result<Answer, NoMemory>
        ensures { IfOk result (Promises self.now judged.now.asked) }
    {
        match self {
            Task::Report { list, json } => {
                let form = ReportForm {
                    list: *list,
                    json: *json,
                };
                report_findings(alloc, judged, form)
            }
            Task::Cat { names, damaged } => copy_file(alloc, judged, names, *damaged),
            Task::Rescue(wish) => rescue_judged(alloc, judged, *wish),
            Task::Deleted(file) => tell_deleted(alloc, judged, *file),
            Task::Blanks => report_blanks(alloc, judged),
            Task::Claims => tell_claims(alloc, judged),
        }
    }

    // Does the task with an input that is accepted and need not be judged, if it is one and the task a rescue.
    fn on_accepted(&self, alloc: Global, asked: &Asked<'_>) -> Result<Option<Answer>, NoMemory>
        ensures { IfOk result (λ o. IfSome o (Promises self.now asked.now)) }
    {
        match (self, front_of(asked.input, asked.blocks)) {
            (Task::Rescue(wish), Some(front)) if !asked.unread.is_asked() => {
                rescue_accepted(alloc, asked.input, front, *wish)
            }
            _ => Ok(None),
        }
    }

    // Does the task with an input, unless the map is that of another disk.
    fn on_asked(&self, alloc: Global, asked: Asked<'_>) -> Result<Answer, NoMemory>
        ensures { IfOk result (Promises self.now asked.entry) }
    {
        if let Some(answer) = self.on_accepted(alloc, &asked)? {
            return Ok(answer);
        }
        let judged = Judged::of(alloc, asked)?;
        if judged.has_other_map() {
            return Ok(Answer::refused_with(alloc, "the map of a disk of another size\n")?);
        }
        self.on_judged(alloc, &judged)
    }
}

impl Work {
    // What is answered of an input.
    fn answer(&self, alloc: Global, input: &[u8]) -> Result<Answer, NoMemory>
        ensures { (r : InquiryValue) → Meets self.now r → IfOk result (λ a. InputAnswer r input.now (reply_of a)) }
    {
        let asked = Asked {
            input,
            blocks: self.blocks,
            unread: Unread {
                map: &self.map,
                blank: self.blank,
            },
        };
        let answer = self.task.on_asked(alloc, asked)?;
        Ok(hinted(input, answer)?)
    }

    // Writes what is answered of an input.
    fn on_bytes<W: Sink>(&self, alloc: Global, input: &[u8], output: &mut W) -> Outcome
        requires { W.has_failed output.old ≡ false }
        ensures does { (r : InquiryValue) → Meets self.now r
            → Does (InputAnswer r input.now) result (seen W.held W.has_failed output.old output.new) }
        ensures blames { Blames result false (W.has_failed output.new) }
    {
        write_answer(self.answer(alloc, input), output)
    }
}

impl Program for Work {
    ghost use Rattle.std.proofs.Common.{◌*◌, ◌+◌, inl, refl, rules, take, true};
    ghost use Rattle.adf_runs.specs.Commands.{bad_path};
    ghost use Rattle.adf_survey_cmd.specs.{Answers.survey_command, CommandLine.asked_beside, CommandLine.cat};
    ghost use Rattle.adf_blocks.specs.declared.layout.TheConstants.{MOST_BLOCKS};

    ghost command = { survey_command };

    ghost serves = { Meets };

    fn usage() -> &'static str {
        USAGE
    }

    fn of(alloc: Global, words: &[&str]) -> Result<Work, WorkFault> {
        let inquiry = parse_survey(alloc, words)?;
        let task = task_for(alloc, inquiry.question)?;
        Ok(Work {
            blocks: inquiry.blocks,
            map: inquiry.map,
            blank: inquiry.blank,
            task,
        })
    }

    fn limit(&self) -> usize {
        MOST_IMAGE_BYTES
    }

    fn on<W: Sink>(&self, alloc: Global, bytes: &[u8], output: &mut W) -> Outcome {
        let most = MOST_IMAGE_BYTES + 1;
        self.on_bytes(alloc, &bytes[..bytes.len().min(most)], output)
    }

    fn on_input<R: Source, W: Sink>(
        &self,
        alloc: Global,
        input: &mut R,
        output: &mut W,
    ) -> Outcome {
        match read_input(alloc, input, MOST_IMAGE_BYTES) {
            Ok(bytes) => self.on_bytes(alloc, &bytes, output),
            Err(outcome) => outcome,
        }
    }

    ghost consistent = { record {
      taken = Prim.search rules;
      unread = λ words h. (
        asked_beside h.0 h.1 h.2 (cat h.3 h.4),
        h.5,
        λ input. inl (h.6, refl),
      );
    } };
}

impl FileProgram for Work {
    ghost use Rattle.adf_survey_cmd.specs.CommandLine.{survey_file};

    ghost file_of = { survey_file };

    fn file_named<'a>(alloc: Global, words: &'a [&str]) -> Result<Option<&'a str>, WorkFault> {
        match survey_file(alloc, words) {
            Ok(file) => Ok(file),
            Err(fault) => Err(WorkFault::from(fault)),
        }
    }
}

// What is done for words, once they and their path are read.

ghost use Rattle.std.specs.Prelude.{IfErr, IfOk};
ghost use Rattle.adf_runs.specs.WorkFaults.{IsNoWork};
ghost use Rattle.adf_survey_cmd.specs.Answers.{HasBadSurveyPath};
ghost use Rattle.adf_survey_cmd.specs.CommandLine.{question_value};
ghost use Rattle.adf_survey_cmd.specs.Work.{ServesQuestion};

use crate::command_line::{Question, RescueWish};
use adf_runs::WorkFault;
use adf_tree::{Name, read_path};
use std::alloc::Global;

/// What is done with an image.
#[derive(Drop)]
pub enum Task {
    /// The findings, and with `list` what exists.
    Report { list: bool, json: bool },
    /// The names of the path, and whether the file may be damaged.
    Cat { names: Vec<Name>, damaged: bool },
    Rescue(RescueWish),
    /// The deleted headers, or what is left of the file of one, by its block.
    Deleted(Option<u32>),
    /// The bytes of files in blank blocks.
    Blanks,
    /// All that is judged.
    Claims,
}

/// The task that is asked.
pub fn task_for(alloc: Global, question: Question<'_>) -> Result<Task, WorkFault>
    ensures ok { IfOk result (λ task. ServesQuestion task (question_value question.entry)) }
    ensures fault { IfErr result (λ fault.
        IsNoWork fault ⊥ (HasBadSurveyPath (question_value question.entry))) }
{
    match question {
        Question::Report { list, json } => Ok(Task::Report { list, json }),
        Question::Cat { path, damaged } => {
            let names = read_path(alloc, path.as_bytes())?;
            Ok(Task::Cat { names, damaged })
        }
        Question::Rescue(wish) => Ok(Task::Rescue(wish)),
        Question::Deleted { file } => Ok(Task::Deleted(file)),
        Question::Blanks => Ok(Task::Blanks),
        Question::Claims => Ok(Task::Claims),
    }
}

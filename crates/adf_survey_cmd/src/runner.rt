// The whole command.

ghost use Rattle.std.specs.Prelude.{◌≡◌, ℕ, List, Some, false, true};
ghost use Rattle.adf_words.specs.CommandLine.{texts_of};
ghost use Rattle.adf_survey_cmd.specs.CommandLine.{survey_file};
ghost use Rattle.adf_runs.specs.{Commands.IsUnanswered, Commands.TakesEnough, Streams.seen};
ghost use Rattle.adf_file_runs.specs.FileRuns.{RunEndsOnFiles, known_files};
ghost use Rattle.adf_survey_cmd.specs.MapRuns.{SurveyEnds};
ghost use Rattle.adf_survey_cmd.specs.Answers.{survey_command};

use crate::command_line::ABOUT;
use crate::map_runs::run_mapped;
use crate::work::Work;
use adf_file_runs::{
    About, ChangeFiles, Changing, Files, Invocation, SystemProgram, run_program_on_files,
};
use adf_runs::{Sink, Source};
use std::alloc::Global;

/// Does what the words ask for, on the file that they name, or else on the input; the first word is the program's name. Returns
/// the status:
///
/// - 0 if there is no finding, the bytes of a sound file are written, or a rescue leaves nothing out;
/// - 1 if findings are written; or if nothing, no file or no sound file is under the path, or a rescue leaves anything out or
///   has no entry, which is said on errors;
/// - 2 if the words are not accepted, or the path is not read, which is said on errors; nothing is read, and output is empty;
/// - 3 if the file cannot be opened, a device failed or an allocation failed, which is said on errors.
pub fn run_files<F: Files, R: Source, W: Sink, E: Sink>(
    alloc: Global,
    asked: &Invocation<'_, F>,
    input: &mut R,
    output: &mut W,
    errors: &mut E,
) -> u8
    requires reads { R.has_failed input.old ≡ false }
    requires writes { W.has_failed output.old ≡ false }
    requires tells { E.has_failed errors.old ≡ false }
    ensures ends { RunEndsOnFiles survey_command survey_file (texts_of asked.now.words.now)
        (known_files F.bytes_of F.may_fail F.may_open asked.now.files.now) (seen R.left R.has_failed input.old input.new) result
        (seen W.held W.has_failed output.old output.new) (seen E.held E.has_failed errors.old errors.new) }
    ensures untouched { IsUnanswered survey_command (texts_of asked.now.words.now)
        → (input.new ≡ input.old) × (output.new ≡ output.old) }
    ensures unread { (name : List ℕ) → survey_file (texts_of asked.now.words.now) ≡ Some name
        → input.new ≡ input.old }
    ensures unwritten { R.has_failed input.new ≡ true → output.new ≡ output.old }
    ensures at_most { TakesEnough survey_command (texts_of asked.now.words.now)
        (R.left input.old) (R.left input.new) }
{
    run_program_on_files::<Work, F, R, W, E>(alloc, asked, input, output, errors)
}

impl SystemProgram for Work {
    ghost ends = { λ words files after input n output errors.
        (after ≡ files.bytes_of) × SurveyEnds words files input n output errors };

    fn about() -> About {
        ABOUT
    }

    fn start<F: ChangeFiles, R: Source, W: Sink, E: Sink>(
        alloc: Global,
        asked: &mut Changing<'_, F>,
        input: &mut R,
        output: &mut W,
        errors: &mut E,
    ) -> u8 {
        let alone = Invocation {
            words: asked.words,
            files: &asked.files,
        };
        run_mapped(alloc, &alone, input, output, errors)
    }
}

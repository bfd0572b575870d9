// The whole command.

ghost use Rattle.std.specs.Prelude.{◌≡◌, false, true};
ghost use Rattle.adf_cmd.specs.Answers.{RequestsHaveOneAnswer, WordsAskForOneRequest, adf_command};
ghost use Rattle.adf_words.specs.CommandLine.{texts_of};
ghost use Rattle.adf_runs.specs.{Commands.IsUnanswered, Commands.RunEnds, Commands.TakesEnough, Streams.seen};

use crate::work::Work;
use adf_runs::{Sink, Source, run_program};
use std::alloc::Global;

/// Runs the command that the words name, and returns its status; the first word is the program's name:
///
/// - 0 if the answer is written to output;
/// - 1 if the input is refused: `check` says so on output, the others on errors;
/// - 2 if the words are not accepted, or the path is not a path, as errors say; nothing is read, and output is empty;
/// - 3 if a device failed or memory ran out, as errors say.
pub fn run<R: Source, W: Sink, E: Sink>(
    alloc: Global,
    words: &[&str],
    input: &mut R,
    output: &mut W,
    errors: &mut E,
) -> u8
    requires reads { R.has_failed input.old ≡ false }
    requires writes { W.has_failed output.old ≡ false }
    requires tells { E.has_failed errors.old ≡ false }
    ensures ends { RunEnds adf_command (texts_of words.now) (seen R.left R.has_failed input.old input.new) result
        (seen W.held W.has_failed output.old output.new) (seen E.held E.has_failed errors.old errors.new) }
    ensures untouched { IsUnanswered adf_command (texts_of words.now)
        → (input.new ≡ input.old) × (output.new ≡ output.old) }
    ensures unwritten { R.has_failed input.new ≡ true → output.new ≡ output.old }
    ensures at_most { TakesEnough adf_command (texts_of words.now)
        (R.left input.old) (R.left input.new) }
{
    run_program::<Work, R, W, E>(alloc, words, input, output, errors)
}

/// Words ask for one request, and a request and an input have one answer: one status, one output and one text on errors.
pub fn one_answer()
    ensures request { WordsAskForOneRequest }
    ensures answer { RequestsHaveOneAnswer }
{}

// The whole command.

ghost use Rattle.std.specs.Prelude.{◌≡◌, false};
ghost use Rattle.adf_runs.specs.Streams.{seen};
ghost use Rattle.adf_words.specs.CommandLine.{texts_of};
ghost use Rattle.adf_merge_cmd.specs.{Answers.MergeEnds, CommandLine.AreRefusedByMerge};

use crate::command_line::{ABOUT, MERGE_USAGE as USAGE, parse_merge};
use crate::merging::answer;
use crate::names::{read_map_texts, read_names};
use adf_file_runs::{About, ChangeFiles, Changing, Files, SystemProgram};
use adf_runs::{Sink, Source, WorkFault};
use std::alloc::Global;

/// Merges the readings that the words name; the first word is the program's name. Returns the status:
///
/// - 0 if the merged image is written, nothing was left to chance, and each block was in a reading;
/// - 1 if it is written, and errors say which blocks were left to chance or in no reading; or if a reading or a map is refused,
///   as errors say;
/// - 2 if the words are not accepted, as errors say; nothing is read or written;
/// - 3 if a file, output or an allocation failed, as errors say.
pub fn run<F: Files, W: Sink, E: Sink>(
    alloc: Global,
    words: &[&str],
    files: &F,
    output: &mut W,
    errors: &mut E,
) -> u8
    requires writes { W.has_failed output.old ≡ false }
    requires tells { E.has_failed errors.old ≡ false }
    ensures ends { MergeEnds (texts_of words.now) (F.bytes_of files.now) result
        (seen W.held W.has_failed output.old output.new) (seen E.held E.has_failed errors.old errors.new) }
    ensures untouched { AreRefusedByMerge (texts_of words.now) → output.new ≡ output.old }
{
    let order = match parse_merge(alloc, words) {
        Ok(order) => order,
        Err(fault) => return WorkFault::from(fault).refuse(USAGE, errors),
    };
    let readings = match read_names(alloc, files, &order.readings) {
        Ok(readings) => readings,
        Err(why) => return why.refuse(alloc, errors),
    };
    match read_map_texts(alloc, files, &order.maps) {
        Ok(texts) => answer(alloc, &order, &readings, &texts, output).finish(errors),
        Err(why) => why.refuse(alloc, errors),
    }
}

/// The program; it reads no input.
pub struct Merging;

impl SystemProgram for Merging {
    ghost ends = { λ words files after input n output errors.
        (after ≡ files.bytes_of) × MergeEnds words files.bytes_of n output errors };

    fn about() -> About {
        ABOUT
    }

    fn start<F: ChangeFiles, R: Source, W: Sink, E: Sink>(
        alloc: Global,
        asked: &mut Changing<'_, F>,
        _input: &mut R,
        output: &mut W,
        errors: &mut E,
    ) -> u8 {
        run(alloc, asked.words, &asked.files, output, errors)
    }
}

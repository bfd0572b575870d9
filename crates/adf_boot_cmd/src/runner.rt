// The whole command.

ghost use Rattle.std.specs.Prelude.{◌≡◌, false};
ghost use Rattle.adf_file_runs.specs.FileRuns.{known_files};
ghost use Rattle.adf_boot_cmd.specs.{CommandLine.AreRefusedByBoot, Answers.BootEnds, Changing.BootRunEnds};
ghost use Rattle.adf_words.specs.CommandLine.{texts_of};
ghost use Rattle.adf_runs.specs.Streams.{seen};

use crate::boot_file::work_for;
use crate::changing::{boot_change, change_boot};
use crate::command_line::{ABOUT, BOOT_USAGE as USAGE, parse_boot};
use crate::work::Work;
use adf_file_runs::{About, ChangeFiles, Changing, Files, SystemProgram, refuse_file};
use adf_runs::{Sink, Source, WorkFault};
use std::alloc::Global;

/// Does what the words ask for, on the file that they name or else on the input; the first one is the program's name. Returns the
/// status:
///
/// - 0 if an Amiga starts from the boot blocks that output tells of, or if an image is written;
/// - 1 if it does not, or if the image or the boot file has a wrong size or does not begin with `DOS`, which is said on errors;
/// - 2 if the words are not accepted, which is said on errors; nothing is read, and output is empty;
/// - 3 if a file, a device or an allocation failed, which is said on errors.
pub fn run<F: Files, R: Source, W: Sink, E: Sink>(
    alloc: Global,
    words: &[&str],
    files: &F,
    input: &mut R,
    output: &mut W,
    errors: &mut E,
) -> u8
    requires reads { R.has_failed input.old ≡ false }
    requires writes { W.has_failed output.old ≡ false }
    requires tells { E.has_failed errors.old ≡ false }
    ensures ends { BootEnds (texts_of words.now)
        (known_files F.bytes_of F.may_fail F.may_open files.now) (seen R.left R.has_failed input.old input.new) result
        (seen W.held W.has_failed output.old output.new) (seen E.held E.has_failed errors.old errors.new) }
    ensures untouched { AreRefusedByBoot (texts_of words.now)
        → (input.new ≡ input.old) × (output.new ≡ output.old) }
{
    let asked = match parse_boot(alloc, words) {
        Ok(asked) => asked,
        Err(fault) => return WorkFault::from(fault).refuse(USAGE, errors),
    };
    let work = match work_for(alloc, files, asked.request) {
        Ok(work) => work,
        Err(fault) => return fault.refuse(alloc, errors),
    };
    match asked.file {
        None => work.on_input(alloc, input, output).finish(errors),
        Some(name) => match files.open(name.as_bytes()) {
            Ok(mut source) => work.on_input(alloc, &mut source, output).finish(errors),
            Err(why) => refuse_file(alloc, name, why, errors),
        },
    }
}

impl SystemProgram for Work {
    ghost ends = { BootRunEnds };

    fn about() -> About {
        ABOUT
    }

    fn start<F: ChangeFiles, R: Source, W: Sink, E: Sink>(
        alloc: Global,
        asked: &mut Changing<'_, F>,
        input: &mut R,
        output: &mut W,
        errors: &mut E,
    ) -> u8 {
        match boot_change(asked.words) {
            Some(change) => change_boot(alloc, &change, &mut asked.files, errors),
            None => run(alloc, asked.words, &asked.files, input, output, errors),
        }
    }
}

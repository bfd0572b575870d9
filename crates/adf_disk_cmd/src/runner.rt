// The whole command.

ghost use Rattle.std.specs.Prelude.{◌≡◌, ℕ, List, Some, false, true};
ghost use Rattle.adf_disk_cmd.specs.Answers.{DamagedTablesAreTold, disk_command};
ghost use Rattle.adf_runs.specs.{Commands.IsUnanswered, Commands.TakesEnough, Streams.seen};
ghost use Rattle.adf_file_runs.specs.FileRuns.{RunEndsOnFiles, known_files};
ghost use Rattle.adf_words.specs.CommandLine.{texts_of};
ghost use Rattle.adf_disk_cmd.specs.{CommandLine.disk_file, NewDisks.DiskRunEnds};

use crate::command_line::ABOUT;
use crate::disk_files::{build_into, new_disk};
use crate::host_plans::run_plans;
use crate::job::Job;
use adf_file_runs::{
    About, ChangeFiles, Changing, Files, Invocation, SystemProgram, run_program_on_files,
};
use adf_runs::{Outcome, Sink, Source};
use std::alloc::Global;

/// Does what the words ask for, on the file that they name, or else on the input; the first word is the program's name. Returns
/// the status:
///
/// - 0 if the partitions of sound tables are listed, all of them are sound volumes, a search finds one, or the whole volume or a
///   new disk is written;
/// - 1 if the tables have a fault, or a partition is not a sound volume, which output tells; or if a search finds no volume,
///   there is no such partition, something is wrong with its place, `volume` finds a fault of the tables, or no disk can be
///   built, which errors tell;
/// - 2 if the words are not accepted, which is said on errors; nothing is read, and output is empty;
/// - 3 if the file cannot be opened, a device failed or an allocation failed, which is said on errors.
pub fn run_files<F: Files, R: Source, W: Sink, E: Sink>(
    alloc: Global,
    asked: &Invocation<'_, F>,
    input: &mut R,
    output: &mut W,
    errors: &mut E,
) -> u8
    requires reads { R.has_failed input.old ≡ false }
    requires writes { W.has_failed output.old ≡ false }
    requires tells { E.has_failed errors.old ≡ false }
    ensures ends { RunEndsOnFiles disk_command disk_file (texts_of asked.now.words.now)
        (known_files F.bytes_of F.may_fail F.may_open asked.now.files.now) (seen R.left R.has_failed input.old input.new) result
        (seen W.held W.has_failed output.old output.new) (seen E.held E.has_failed errors.old errors.new) }
    ensures untouched { IsUnanswered disk_command (texts_of asked.now.words.now)
        → (input.new ≡ input.old) × (output.new ≡ output.old) }
    ensures unread { (name : List ℕ) → disk_file (texts_of asked.now.words.now) ≡ Some name
        → input.new ≡ input.old }
    ensures unwritten { R.has_failed input.new ≡ true → output.new ≡ output.old }
    ensures at_most { TakesEnough disk_command (texts_of asked.now.words.now)
        (R.left input.old) (R.left input.new) }
{
    run_program_on_files::<Job, F, R, W, E>(alloc, asked, input, output, errors)
}

impl SystemProgram for Job {
    ghost ends = { DiskRunEnds };

    fn about() -> About {
        ABOUT
    }

    fn start<F: ChangeFiles, R: Source, W: Sink, E: Sink>(
        alloc: Global,
        asked: &mut Changing<'_, F>,
        input: &mut R,
        output: &mut W,
        errors: &mut E,
    ) -> u8 {
        match new_disk(alloc, asked.words) {
            Ok(Some(disk)) => build_into(alloc, &disk, &mut asked.files, input, errors),
            Ok(None) => {
                let alone = Invocation {
                    words: asked.words,
                    files: &asked.files,
                };
                run_plans(alloc, &alone, input, output, errors)
            }
            Err(_) => Outcome::NoMemory.finish(errors),
        }
    }
}

/// What is told of a disk whose tables have a fault, by its partitions, is never told at status 0.
pub fn damaged_tables_are_told()
    ensures { DamagedTablesAreTold }
{}

// Files whose images get other boot blocks, in their place or in that of another file.

ghost use Rattle.std.specs.Prelude.{◌≡◌, ◌≢◌, ◌⊎◌, IfErr, IfOk, [], false, option_map};
ghost use Rattle.adf_boot_cmd.specs.Changing.{Answers, ChangeEnds, boot_change, change_into, image_asked};
ghost use Rattle.adf_boot_cmd.specs.CommandLine.{boot_request_value};
ghost use Rattle.adf_boot_cmd.specs.{Answers.tell, Work.order_of};
ghost use Rattle.adf_file_runs.specs.FileRuns.{known_files};
ghost use Rattle.adf_runs.specs.Outcomes.{status_of};
ghost use Rattle.adf_words.specs.CommandLine.{texts_of};

use crate::boot_file::work_for;
use crate::command_line::{BOOT_USAGE, BootRequest, BootWords, parse_boot};
use crate::work::Work;
use adf_boot_blocks::MOST_BYTES;
use adf_file_runs::{ChangeFiles, refuse_change, refuse_file};
use adf_runs::{Outcome, Sink, Source, WorkFault, read_input, say};
use std::alloc::Global;
use std::marker::Model;

/// The words of a change, and the file that gets the new image, if it is not that of the old one.
#[derive(Drop)]
pub struct BootChange<'a> {
    pub target: Option<&'a str>,
    pub words: &'a [&'a str],
}

impl<'a> Model for BootChange<'a> {
    ghost use Rattle.std.specs.Prelude.{option_map};
    ghost use Rattle.adf_boot_cmd.specs.Changing.{BootChange as BootChangeValue};
    ghost use Rattle.adf_words.specs.CommandLine.{texts_of};

    ghost Value = { BootChangeValue };

    ghost view = { λ c. record { target = option_map (λ s. s.now) c.target; words = texts_of c.words.now } };
}

// The change into another file, whose name stands first.
fn change_into<'a>(words: &'a [&'a str]) -> Option<BootChange<'a>>
    ensures { result ≡ change_into (texts_of words.now) }
{
    match words {
        [] => None,
        [target, ..] => Some(BootChange {
            target: Some(*target),
            words,
        }),
    }
}

/// The change that arguments ask for by their first word: `-o NEW` or `-i`.
pub fn boot_change<'a>(args: &'a [&'a str]) -> Option<BootChange<'a>>
    ensures { result ≡ boot_change (texts_of args.now) }
{
    let [_, words @ ..] = args else {
        return None;
    };
    match words {
        [flag, rest @ ..] if *flag == "-o" => change_into(rest),
        [flag, ..] if *flag == "-i" => Some(BootChange {
            target: None,
            words,
        }),
        _ => None,
    }
}

// The file whose image words ask other boot blocks for.
fn image_asked<'a>(asked: &BootWords<'a>) -> Option<&'a str>
    ensures { option_map (λ s. s.now) result
        ≡ image_asked (boot_request_value asked.now.request) (option_map (λ s. s.now) asked.now.file) }
{
    match asked.request {
        BootRequest::Tell { .. } => None,
        _ => asked.file,
    }
}

// The image that a work makes of an input, or how the work went.
fn image_from<R: Source>(alloc: Global, work: &Work, input: &mut R) -> Result<Vec<u8>, Outcome>
    requires reads { R.has_failed input.old ≡ false }
    requires writes { order_of work.now ≢ tell }
    ensures new { IfOk result (λ new. Answers (order_of work.now) (R.left input.old) 0 new.items) }
    ensures refused { IfErr result (λ outcome. (status_of outcome ≡ 3)
        ⊎ ((status_of outcome ≡ 1) × Answers (order_of work.now) (R.left input.old) 1 [])) }
{
    let image = match read_input(alloc, input, MOST_BYTES) {
        Ok(image) => image,
        Err(outcome) => return Err(outcome),
    };
    match work.new_image(alloc, &image) {
        Ok(new) => Ok(new),
        Err(outcome) => Err(outcome),
    }
}

/// Gives the target of a change the image that its words make, and returns the status: 0 if that is done; 1 if the image or the
/// boot file is refused; 2 if the words are; 3 if a file or an allocation failed. If it is not 0, each file is as it was, and
/// errors say why.
pub fn change_boot<F: ChangeFiles, E: Sink>(
    alloc: Global,
    change: &BootChange<'_>,
    files: &mut F,
    errors: &mut E,
) -> u8
    requires { E.has_failed errors.old ≡ false }
    ensures { ChangeEnds change.now (known_files F.Files.bytes_of F.Files.may_fail F.Files.may_open files.old)
        (F.Files.bytes_of files.new) result }
{
    let asked = match parse_boot(alloc, change.words) {
        Ok(asked) => asked,
        Err(fault) => return WorkFault::from(fault).refuse(BOOT_USAGE, errors),
    };
    let image = match image_asked(&asked) {
        Some(image) => image,
        None => {
            say(errors, BOOT_USAGE.as_bytes());
            return 2;
        }
    };
    let work = match work_for(alloc, files, asked.request) {
        Ok(work) => work,
        Err(fault) => return fault.refuse(alloc, errors),
    };
    let mut source = match files.open(image.as_bytes()) {
        Ok(source) => source,
        Err(why) => return refuse_file(alloc, image, why, errors),
    };
    let new = match image_from(alloc, &work, &mut source) {
        Ok(new) => new,
        Err(outcome) => return outcome.finish(errors),
    };
    let target = change.target.unwrap_or(image);
    match files.replace(alloc, target.as_bytes(), &new) {
        Ok(()) => 0,
        Err(why) => refuse_change(alloc, target, why, errors),
    }
}

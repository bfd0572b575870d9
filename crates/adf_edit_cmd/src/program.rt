// The program: with no word but its name it reads an input and writes a new image, with others it changes a disk.

ghost use Rattle.std.specs.Prelude.{◌≡◌, List, false, ℕ};
ghost use Rattle.adf_edit_cmd.specs.{Answers.Edits, Answers.edit_command, Changing.EditEnds, Changing.WordsEnd};
ghost use Rattle.adf_runs.specs.Commands.{IsUnanswered, RunEnds, TakesEnough, on_output};
ghost use Rattle.adf_runs.specs.{Outcomes.Does, Outcomes.DoesSilently, Streams.seen};
ghost use Rattle.adf_words.specs.CommandLine.{texts_of};
ghost use Rattle.adf_file_runs.specs.FileRuns.{known_files};

use crate::changing::change_disk;
use crate::editing::new_image;
use crate::script_file::{change_by_file, script_asked};
use crate::stop::Stop;
use crate::words::order_asked;
use adf_file_runs::{About, ChangeFiles, Changing, SystemProgram};
use adf_runs::{
    Outcome, Program, Sink, Source, WorkFault, read_input, run_program, say, write_all,
};
use std::alloc::Global;

/// The most bytes of an input: 2^40.
pub const MOST_INPUT_BYTES: usize = 1 << 40;

/// What is said of words that are refused.
const USAGE: &str = "usage: adf-edit [-o NEW] IMAGE EDIT [+ EDIT]..\n\
    \x20      adf-edit [-o NEW] -f SCRIPT IMAGE\n\
    \x20      adf-edit -o NEW MANIFEST\n\
    \x20      adf-edit < INPUT > IMAGE\n\
    man adf-edit tells more\n";

/// What the program tells of itself.
const ABOUT: About = About {
    name: "adf-edit",
    help: "Removes, moves, adds and changes entries of an Amiga volume, and lays its tree anew.\n\n\
    usage: adf-edit [-o NEW] IMAGE EDIT [+ EDIT]..\n\
    \x20      adf-edit [-o NEW] -f SCRIPT IMAGE\n\
    \x20      adf-edit -o NEW MANIFEST\n\
    \x20      adf-edit < INPUT > IMAGE\n\
    \x20      adf-edit --help, adf-edit --version\n\n\
    An EDIT is one of:\n\
    \x20 put HOST PATH        add a file with the bytes of the file HOST\n\
    \x20 replace HOST PATH    give a file the bytes of HOST\n\
    \x20 remove PATH          remove a file, or an empty directory\n\
    \x20 move PATH NEW        give an entry another path\n\
    \x20 dir PATH             add a directory\n\
    \x20 note PATH TEXT       set a comment\n\
    \x20 protect PATH FLAGS   set a protection: hsparwed with - for a letter, or 0000000f\n\
    \x20 date PATH DATE       set a date: as `adf list` writes it, or 5295:750:0\n\
    \x20 label TEXT           set the label\n\
    \x20 letters KIND         make it `ascii`, `international` or `cached`; among the last ones\n\
    \x20 boot KIND            `install` code that starts it, or `clear` it; among the last ones\n\n\
    The new disk takes the place of IMAGE, or of NEW, at once or not at all.\n\
    With -o a manifest may stand for the IMAGE, and EDIT be left out.\n\
    SCRIPT is a file with an EDIT on each line; if a line has a tab, tabs stand between its words.\n\
    INPUT is a script, whose last line is `end`, then the bytes of its files, then the image.\n\
    man adf-edit tells more.\n",
    waits: None,
};

// Writes an image.
fn write_image<W: Sink>(output: &mut W, image: &[u8]) -> Outcome
    requires { W.has_failed output.old ≡ false }
    ensures { Does (λ reply. reply ≡ on_output 0 image.now) result (seen W.held W.has_failed output.old output.new) }
{
    match write_all(output, image) {
        Ok(()) => Outcome::Done,
        Err(_) => Outcome::WriteFault,
    }
}

// Says why no image is written; output gets nothing.
fn refuse(alloc: Global, stop: Stop) -> Outcome
    ensures { (input : List ℕ) → DoesSilently (Edits input) result }
{
    if let Stop::NoMemory = stop {
        return Outcome::NoMemory;
    }
    match format!(in alloc; "{stop}\n") {
        Ok(line) => Outcome::Refused(line),
        Err(_) => Outcome::NoMemory,
    }
}

// Writes the image that a script makes of another, or says why there is none.
fn edit_input<W: Sink>(alloc: Global, input: &[u8], output: &mut W) -> Outcome
    requires { W.has_failed output.old ≡ false }
    ensures { Does (Edits input.now) result (seen W.held W.has_failed output.old output.new) }
{
    match new_image(alloc, input) {
        Ok(image) => write_image(output, &image),
        Err(stop) => refuse(alloc, stop),
    }
}

/// The work; there is one.
#[derive(Drop)]
pub enum Work {
    Edit,
}

impl Program for Work {
    ghost use Rattle.std.proofs.Common.{rules};
    ghost use Rattle.adf_edit_cmd.specs.Answers.{edit_command};

    ghost command = { edit_command };

    ghost serves = { λ work r. Unit {0} };

    fn usage() -> &'static str {
        USAGE
    }

    fn of(_alloc: Global, words: &[&str]) -> Result<Work, WorkFault> {
        if 1 < words.len() {
            return Err(WorkFault::Usage);
        }
        Ok(Work::Edit)
    }

    fn limit(&self) -> usize {
        MOST_INPUT_BYTES
    }

    fn on<W: Sink>(&self, alloc: Global, bytes: &[u8], output: &mut W) -> Outcome {
        let part = &bytes[..bytes.len().min(MOST_INPUT_BYTES)];
        edit_input(alloc, part, output)
    }

    fn on_input<R: Source, W: Sink>(
        &self,
        alloc: Global,
        input: &mut R,
        output: &mut W,
    ) -> Outcome {
        match read_input(alloc, input, MOST_INPUT_BYTES) {
            Ok(bytes) => self.on(alloc, &bytes, output),
            Err(outcome) => outcome,
        }
    }

    ghost consistent = { record {
      taken = Prim.search rules;
      unread = λ words none. absurd none;
    } };
}

/// Edits an image: the input is a script, the bytes of its files, and the image. Returns the status:
///
/// - 0 if the new image is written;
/// - 1 if there is none, as errors say; output is empty;
/// - 2 if there are words, which errors say; nothing is read, and output is empty;
/// - 3 if a device failed or an allocation failed, as errors say.
pub fn run<R: Source, W: Sink, E: Sink>(
    alloc: Global,
    words: &[&str],
    input: &mut R,
    output: &mut W,
    errors: &mut E,
) -> u8
    requires reads { R.has_failed input.old ≡ false }
    requires writes { W.has_failed output.old ≡ false }
    requires tells { E.has_failed errors.old ≡ false }
    ensures ends { RunEnds edit_command (texts_of words.now) (seen R.left R.has_failed input.old input.new) result
        (seen W.held W.has_failed output.old output.new) (seen E.held E.has_failed errors.old errors.new) }
    ensures untouched { IsUnanswered edit_command (texts_of words.now)
        → (input.new ≡ input.old) × (output.new ≡ output.old) }
    ensures at_most { TakesEnough edit_command (texts_of words.now)
        (R.left input.old) (R.left input.new) }
{
    run_program::<Work, R, W, E>(alloc, words, input, output, errors)
}

// Does what words behind the name of the program ask for, and returns the status.
fn run_order<F: ChangeFiles, E: Sink>(
    alloc: Global,
    words: &[&str],
    files: &mut F,
    errors: &mut E,
) -> u8
    requires { E.has_failed errors.old ≡ false }
    ensures { WordsEnd (texts_of words.now)
        (known_files F.Files.bytes_of F.Files.may_fail F.Files.may_open files.old) (F.Files.bytes_of files.new) result }
{
    match order_asked(alloc, words) {
        Ok(Some(order)) => change_disk(alloc, &order, files, errors),
        Ok(None) => {
            say(errors, USAGE.as_bytes());
            2
        }
        Err(_) => {
            say(errors, b"no memory\n");
            3
        }
    }
}

// Does what words behind the name of the program ask for, by a file of edits or by themselves, and returns the status.
fn run_words<F: ChangeFiles, E: Sink>(
    alloc: Global,
    words: &[&str],
    files: &mut F,
    errors: &mut E,
) -> u8
    requires { E.has_failed errors.old ≡ false }
    ensures { WordsEnd (texts_of words.now)
        (known_files F.Files.bytes_of F.Files.may_fail F.Files.may_open files.old) (F.Files.bytes_of files.new) result }
{
    match script_asked(words) {
        Some(order) => change_by_file(alloc, &order, files, errors),
        None => run_order(alloc, words, files, errors),
    }
}

impl SystemProgram for Work {
    ghost ends = { EditEnds };

    fn about() -> About {
        ABOUT
    }

    fn start<F: ChangeFiles, R: Source, W: Sink, E: Sink>(
        alloc: Global,
        asked: &mut Changing<'_, F>,
        input: &mut R,
        output: &mut W,
        errors: &mut E,
    ) -> u8 {
        let words = asked.words;
        match words {
            [_, _, ..] => run_words(alloc, &words[1..], &mut asked.files, errors),
            _ => run(alloc, words, input, output, errors),
        }
    }
}

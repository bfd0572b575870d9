// What starts a program.

ghost use Rattle.std.specs.Prelude.{◌≡◌, None, Some, false, if◌then◌else◌};
ghost use Rattle.adf_words.specs.CommandLine.{texts_of};
ghost use Rattle.adf_runs.specs.Streams.{seen};
ghost use Rattle.adf_file_runs.specs.{About.telling_asked, FileRuns.known_files, declared.about.Telling.Telling};

use crate::about::{About, tell, telling_asked};
use crate::announced_input::AnnouncedInput;
use crate::changes::{ChangeFiles, Changing};
use crate::named_errors::NamedErrors;
use crate::system_changes::SystemChanges;
use adf_runs::{Device, Sink, Source};
use std::alloc::Global;
use std::io::IsTerminal;

/// A program that the system starts, on words, files that it may replace, and devices.
pub trait SystemProgram {
    ghost use Rattle.std.specs.Prelude.{List, Option, ℕ};
    ghost use Rattle.adf_runs.specs.Streams.{Seen};
    ghost use Rattle.adf_file_runs.specs.FileRuns.{KnownFiles};

    /// How a run on words ends: over files, with the bytes of each afterwards, and an input, at a status, with what output and
    /// errors got.
    ghost ends: { List (List ℕ) → KnownFiles → (List ℕ → Option (List ℕ)) → Seen → ℕ → Seen → Seen → Type 0 };

    /// What it tells of itself.
    fn about() -> About;

    /// Does what the words ask for, and returns the status; the first word is the program's name.
    fn start<F: ChangeFiles, R: Source, W: Sink, E: Sink>(
        alloc: Global,
        asked: &mut Changing<'_, F>,
        input: &mut R,
        output: &mut W,
        errors: &mut E,
    ) -> u8
        requires reads { R.has_failed input.old ≡ false }
        requires writes { W.has_failed output.old ≡ false }
        requires tells { E.has_failed errors.old ≡ false }
        ensures ends { ends (texts_of asked.old.words.now)
            (known_files F.Files.bytes_of F.Files.may_fail F.Files.may_open asked.old.files)
            (F.Files.bytes_of asked.new.files)
            (seen R.left R.has_failed input.old input.new) result
            (seen W.held W.has_failed output.old output.new) (seen E.held E.has_failed errors.old errors.new) };
}

/// Tells what the words ask of the program itself, or else runs it, and returns the status.
pub fn answer<P: SystemProgram, F: ChangeFiles, R: Source, W: Sink, E: Sink>(
    alloc: Global,
    asked: &mut Changing<'_, F>,
    input: &mut R,
    output: &mut W,
    errors: &mut E,
) -> u8
    requires reads { R.has_failed input.old ≡ false }
    requires writes { W.has_failed output.old ≡ false }
    requires tells { E.has_failed errors.old ≡ false }
    ensures told { (telling : Telling) → telling_asked (texts_of asked.old.words.now) ≡ Some telling
        → (asked.new ≡ asked.old) × (input.new ≡ input.old) × (result ≡ (if W.has_failed output.new then 3 else 0)) }
    ensures ends { telling_asked (texts_of asked.old.words.now) ≡ None → P.ends (texts_of asked.old.words.now)
        (known_files F.Files.bytes_of F.Files.may_fail F.Files.may_open asked.old.files)
        (F.Files.bytes_of asked.new.files)
        (seen R.left R.has_failed input.old input.new) result
        (seen W.held W.has_failed output.old output.new) (seen E.held E.has_failed errors.old errors.new) }
{
    match telling_asked(asked.words) {
        Some(telling) => tell(&P::about(), telling, output, errors),
        None => P::start(alloc, asked, input, output, errors),
    }
}

/// Runs a program on words and what else the system gives; the first word is the program's name. Returns its status.
pub fn run_on<P: SystemProgram>(rt: &HostRuntime, words: &[&str]) -> u8 {
    let about = P::about();
    let waits = if rt.stdin().is_terminal() {
        about.waits
    } else {
        None
    };
    let waiting = NamedErrors::new(about.name, Device::new(rt.stderr()));
    let mut input = AnnouncedInput::new(Device::new(rt.stdin()), waiting, waits);
    let mut output = Device::new(rt.stdout());
    let mut errors = NamedErrors::new(about.name, Device::new(rt.stderr()));
    let mut asked = Changing {
        words,
        files: SystemChanges::new(rt),
    };
    answer::<P, _, _, _, _>(rt.alloc(), &mut asked, &mut input, &mut output, &mut errors)
}

// Programs whose words may name a file, and runs of them.

ghost use Rattle.std.specs.Prelude.{◌≡◌, ℕ, List, Option, Some, false, true, IfErr, IfOk, option_map};
ghost use Rattle.adf_words.specs.CommandLine.{texts_of};
ghost use Rattle.adf_runs.specs.{Commands.IsUnanswered, Commands.TakesEnough, Streams.seen, WorkFaults.IsNoWork};
ghost use Rattle.adf_file_runs.specs.FileRuns.{RunEndsOnFiles, known_files, without_files};

use crate::files::Files;
use crate::refusals::refuse_file;
use adf_runs::{Outcome, Program, Sink, Source, WorkFault};
use std::alloc::Global;

/// A program whose words may name a file, which is then its input.
pub trait FileProgram: Program {
    /// The file that words name; `None` for standard input.
    ghost file_of: { List (List ℕ) → Option (List ℕ) };

    /// The file that the words name, `None` for standard input; the first word is the program's name.
    fn file_named<'a>(alloc: Global, words: &'a [&str]) -> Result<Option<&'a str>, WorkFault>
        ensures ok { IfOk result (λ file.
            option_map (λ s. s.now) file ≡ file_of (texts_of words.entry.now)) }
        ensures fault { IfErr result (λ fault.
            IsNoWork fault (Self.Program.command.refuses (texts_of words.entry.now)) ⊥) };
}

/// The words of a command line, and what opens the file that they may name.
#[derive(Drop)]
pub struct Invocation<'a, F> {
    pub words: &'a [&'a str],
    pub files: &'a F,
}

/// Runs a program on the file that the words name, or else on the input, and returns its status. If the words are refused
/// nothing is read or written; if they name a file, the input is not read. If the file cannot be opened, the status is 3, and
/// errors get its name, escaped, and why.
pub fn run_program_on_files<P: FileProgram, F: Files, R: Source, W: Sink, E: Sink>(
    alloc: Global,
    asked: &Invocation<'_, F>,
    input: &mut R,
    output: &mut W,
    errors: &mut E,
) -> u8
    requires reads { R.has_failed input.old ≡ false }
    requires writes { W.has_failed output.old ≡ false }
    requires tells { E.has_failed errors.old ≡ false }
    ensures ends { RunEndsOnFiles P.command P.file_of (texts_of asked.now.words.now)
        (known_files F.bytes_of F.may_fail F.may_open asked.now.files.now) (seen R.left R.has_failed input.old input.new) result
        (seen W.held W.has_failed output.old output.new) (seen E.held E.has_failed errors.old errors.new) }
    ensures untouched { IsUnanswered P.command (texts_of asked.now.words.now)
        → (input.new ≡ input.old) × (output.new ≡ output.old) }
    ensures unread { (name : List ℕ) → P.file_of (texts_of asked.now.words.now) ≡ Some name
        → input.new ≡ input.old }
    ensures unwritten { R.has_failed input.new ≡ true → output.new ≡ output.old }
    ensures at_most { TakesEnough P.command (texts_of asked.now.words.now)
        (R.left input.old) (R.left input.new) }
{
    let work = match P::of(alloc, asked.words) {
        Ok(work) => work,
        Err(fault) => return fault.refuse(P::usage(), errors),
    };
    match P::file_named(alloc, asked.words) {
        Ok(None) => work.on_input(alloc, input, output).finish(errors),
        Ok(Some(name)) => match asked.files.open(name.as_bytes()) {
            Ok(mut source) => work.on_input(alloc, &mut source, output).finish(errors),
            Err(why) => refuse_file(alloc, name, why, errors),
        },
        Err(fault) => fault.refuse(P::usage(), errors),
    }
}

/// A program without files: words that name one are refused.
#[derive(Drop)]
pub struct WithoutFiles<P> {
    work: P,
}

impl<P: FileProgram> Program for WithoutFiles<P> {
    ghost use Rattle.std.proofs.Common.{inl, inr};

    ghost command = { without_files P.command P.file_of };

    ghost serves = { λ program r. P.serves program.work r };

    fn usage() -> &'static str {
        P::usage()
    }

    fn of(alloc: Global, words: &[&str]) -> Result<WithoutFiles<P>, WorkFault> {
        match P::file_named(alloc, words) {
            Ok(None) => match P::of(alloc, words) {
                Ok(work) => Ok(WithoutFiles { work }),
                Err(fault) => Err(fault),
            },
            Ok(Some(_)) => Err(WorkFault::Usage),
            Err(fault) => Err(fault),
        }
    }

    fn limit(&self) -> usize {
        self.work.limit()
    }

    fn on<W: Sink>(&self, alloc: Global, bytes: &[u8], output: &mut W) -> Outcome {
        self.work.on(alloc, bytes, output)
    }

    fn on_input<R: Source, W: Sink>(
        &self,
        alloc: Global,
        input: &mut R,
        output: &mut W,
    ) -> Outcome {
        self.work.on_input(alloc, input, output)
    }

    ghost consistent = { record {
      taken = λ words r asked refused. elim refused [
        | inl by_words ↦ P.Program.consistent.taken words r asked.1 by_words
        | inr named ↦ named asked.0
      ];
      unread = λ words bad.
          let told = P.Program.consistent.unread words bad.1 in (told.0, (bad.0, told.1), told.2);
    } };
}

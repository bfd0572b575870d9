// Programs, and runs of them.

ghost use Rattle.std.specs.Prelude.{◌≡◌, ◌+◌, ◌<◌, ◌^◌, ℕ, List, false, true, IfErr, IfOk, IfSome, OnOk};
ghost use Rattle.adf_words.specs.CommandLine.{texts_of};
ghost use Rattle.adf_runs.specs.Commands.{Command, IsConsistent, IsUnanswered, IsConsumed, RunEnds, TakesEnough};
ghost use Rattle.adf_runs.specs.Outcomes.{Blames, EndsBy, is_read_fault};
ghost use Rattle.adf_runs.specs.{Streams.TakesAtMost, Streams.at_hand, Streams.seen, WorkFaults.IsNoWork};

use crate::devices::{Sink, Source};
use crate::outcome::Outcome;
use crate::work_fault::WorkFault;
use std::alloc::Global;

/// A program that does one work on one input. Its values are the works that words ask for, once their path is read.
pub trait Program: Drop {
    /// What words ask for, and how that is answered.
    ghost command: { Command (List (List ℕ)) };

    /// The work is what is asked for.
    ghost serves: { Self → command.Request → Type 0 };

    /// What is said of words that are refused.
    fn usage() -> &'static str
        ensures { result.now ≡ command.usage };

    /// The work that the words ask for; the first one is the program's name.
    fn of(alloc: Global, words: &[&str]) -> Result<Self, WorkFault>
        ensures ok { IfOk result (λ work. (r : command.Request)
            × command.asks (texts_of words.now) r × serves work r) }
        ensures answered { OnOk result (¬ IsUnanswered command (texts_of words.now)) }
        ensures fault { IfErr result (λ fault. IsNoWork fault
            (command.refuses (texts_of words.now)) (command.asks_bad_path (texts_of words.now))) };

    /// The most bytes of an input that belong to an answer.
    fn limit(&self) -> usize
        ensures exact { (r : command.Request) → serves self.now r → result ≡ command.limit r }
        ensures small { result < 2 ^ 63 };

    /// Does the work on the bytes of an input, without copying them.
    fn on<W: Sink>(&self, alloc: Global, bytes: &[u8], output: &mut W) -> Outcome
        requires { W.has_failed output.old ≡ false }
        ensures ends { (r : command.Request) → serves self.now r
            → EndsBy (command.answer r bytes.now) result (W.held output.old) (W.held output.new) }
        ensures blames { Blames result false (W.has_failed output.new) };

    /// Reads an input, and does the work on it.
    fn on_input<R: Source, W: Sink>(&self, alloc: Global, input: &mut R, output: &mut W) -> Outcome
        requires reads { R.has_failed input.old ≡ false }
        requires writes { W.has_failed output.old ≡ false }
        ensures ends { (r : command.Request) → serves self.now r
            → IfSome (R.left input.old) (λ bytes.
            EndsBy (command.answer r bytes) result (W.held output.old) (W.held output.new)) }
        ensures blames { Blames result (R.has_failed input.new) (W.has_failed output.new) }
        ensures unwritten { is_read_fault result ≡ true → output.new ≡ output.old }
        ensures at_most { (r : command.Request) → serves self.now r
            → TakesAtMost (command.limit r + 1) (R.left input.old) (R.left input.new) };

    /// The words that ask for something are not refused, and a path that is not read is answered so.
    ghost consistent: { IsConsistent command };
}

/// Runs a program, and returns its status. If the words are refused nothing is read or written, and if the input failed nothing
/// is written.
pub fn run_program<P: Program, R: Source, W: Sink, E: Sink>(
    alloc: Global,
    words: &[&str],
    input: &mut R,
    output: &mut W,
    errors: &mut E,
) -> u8
    requires reads { R.has_failed input.old ≡ false }
    requires writes { W.has_failed output.old ≡ false }
    requires tells { E.has_failed errors.old ≡ false }
    ensures ends { RunEnds P.command (texts_of words.now) (seen R.left R.has_failed input.old input.new) result
        (seen W.held W.has_failed output.old output.new) (seen E.held E.has_failed errors.old errors.new) }
    ensures untouched { IsUnanswered P.command (texts_of words.now)
        → (input.new ≡ input.old) × (output.new ≡ output.old) }
    ensures unwritten { R.has_failed input.new ≡ true → output.new ≡ output.old }
    ensures at_most { TakesEnough P.command (texts_of words.now)
        (R.left input.old) (R.left input.new) }
{
    match P::of(alloc, words) {
        Ok(work) => work.on_input(alloc, input, output).finish(errors),
        Err(fault) => fault.refuse(P::usage(), errors),
    }
}

/// How a run over bytes in memory ended.
#[derive(Clone, Copy, Debug, PartialEq, Eq)]
pub struct Ran {
    /// The status.
    pub status: u8,
    /// How many bytes of the input were consumed, from the front: none if no work began.
    pub consumed: usize,
}

/// Runs a program, as `run_program` does, over bytes in memory, without copying them.
pub fn run_program_on<P: Program, W: Sink, E: Sink>(
    alloc: Global,
    words: &[&str],
    input: &[u8],
    output: &mut W,
    errors: &mut E,
) -> Ran
    requires writes { W.has_failed output.old ≡ false }
    requires tells { E.has_failed errors.old ≡ false }
    ensures ends { RunEnds P.command (texts_of words.now) (at_hand input.now) result.status
        (seen W.held W.has_failed output.old output.new) (seen E.held E.has_failed errors.old errors.new) }
    ensures untouched { IsUnanswered P.command (texts_of words.now) → output.new ≡ output.old }
    ensures consumed { IsConsumed P.command (texts_of words.now) input.now result.status result.consumed }
{
    match P::of(alloc, words) {
        Ok(work) => Ran {
            status: work.on(alloc, input, output).finish(errors),
            consumed: input.len().min(work.limit() + 1),
        },
        Err(fault) => Ran {
            status: fault.refuse(P::usage(), errors),
            consumed: 0,
        },
    }
}

// Programs over memory.

ghost use Rattle.std.specs.Prelude.{◌≡◌, false};
ghost use Rattle.adf_runs.specs.{Commands.IsUnanswered, Commands.IsConsumed, Commands.RunEnds, Streams.at_hand, Streams.seen};
ghost use Rattle.adf_memory.specs.{Words.in_memory, Words.RunsInMemory};

use crate::memory::{CallerMemory, Moved};
use crate::words::words_in;
use adf_runs::{Program, Ran, Sink, WorkFault, run_program_on};
use std::alloc::Global;

// Runs a program for the words in memory, on an input in memory.
fn run_words<P: Program, W: Sink, E: Sink>(
    alloc: Global,
    words: &[u8],
    input: &[u8],
    output: &mut W,
    errors: &mut E,
) -> Ran
    requires writes { W.has_failed output.old ≡ false }
    requires tells { E.has_failed errors.old ≡ false }
    ensures ends { RunEnds (in_memory P.command) words.now (at_hand input.now) result.status
        (seen W.held W.has_failed output.old output.new) (seen E.held E.has_failed errors.old errors.new) }
    ensures untouched { IsUnanswered (in_memory P.command) words.now → output.new ≡ output.old }
    ensures consumed { IsConsumed (in_memory P.command) words.now input.now result.status result.consumed }
{
    match words_in(alloc, words) {
        Ok(texts) => run_program_on::<P, W, E>(alloc, &texts, input, output, errors),
        Err(fault) => Ran {
            status: WorkFault::from(fault).refuse(P::usage(), errors),
            consumed: 0,
        },
    }
}

/// Runs a program over memory. Output and errors are filled from the front. Returns the exit status.
pub fn run_in_memory<P: Program>(
    alloc: Global,
    words: &[u8],
    input: &[u8],
    output: &mut [u8],
    errors: &mut [u8],
    moved: &mut Moved,
) -> u8
    ensures { RunsInMemory P.command words.now input.now output.old output.new errors.new moved.new result }
{
    let most_output = output.len();
    let most_errors = errors.len();
    let mut output_room = CallerMemory::new(output);
    let mut errors_room = CallerMemory::new(errors);
    let ran = run_words::<P, CallerMemory<'_>, CallerMemory<'_>>(
        alloc,
        words,
        input,
        &mut output_room,
        &mut errors_room,
    );
    *moved = Moved::of(
        ran.consumed,
        &output_room,
        most_output,
        &errors_room,
        most_errors,
    );
    ran.status
}

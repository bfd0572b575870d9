// The command `check`.

ghost use Rattle.std.specs.Prelude.{◌≡◌, false, IfOk, List, string_bytes, ℕ};
ghost use Rattle.adf_tree.specs.Tree.{Tree};
ghost use Rattle.adf_volume.specs.{Fits.Fits, Layout.Layout, Walk.FirstFault};
ghost use Rattle.adf_cmd.specs.{Answers.Answer, CheckAnswers.IsCheckAnswer};
ghost use Rattle.adf_words.specs.CommandLine.{check};
ghost use Rattle.adf_texts.specs.Lines.{ok_line};
ghost use Rattle.adf_runs.specs.{Streams.seen, Outcomes.Does};

use crate::images::checked;
use adf_check::{Checked, Counts, Fault};
use adf_runs::{Outcome, Sink, write_all};
use adf_texts::{push_counts, refused_line};
use adf_volume::Types;
use std::alloc::{AllocError, Global};

/// The answer to an image.
#[derive(Drop)]
struct CheckAnswer {
    /// Whether the image is accepted.
    sound: bool,
    /// The line that is written of it, with its line feed.
    line: String,
}

// The line of an accepted image.
fn accepted_line(alloc: Global, counts: &Counts) -> Result<String, AllocError>
    ensures { IfOk result (λ line. string_bytes line ≡ ok_line counts.now) }
{
    let mut line = String::new(alloc);
    push_counts(&mut line, counts)?;
    Ok(line)
}

// The answer to an accepted image.
fn acceptance(alloc: Global, volume: &Checked<'_>) -> Result<CheckAnswer, AllocError>
    ensures { (t : Tree) (l : Layout) → Fits volume.now t l → IfOk result (IsCheckAnswer volume.now) }
{
    let line = accepted_line(alloc, &volume.counts())?;
    Ok(CheckAnswer { sound: true, line })
}

// The answer to an image with this first fault.
fn refusal(alloc: Global, fault: Fault) -> Result<CheckAnswer, AllocError>
    ensures { (image : List ℕ) → FirstFault image fault.block fault.cause → IfOk result (IsCheckAnswer image) }
{
    let line = refused_line(alloc, fault)?;
    Ok(CheckAnswer { sound: false, line })
}

// The answer to an image. `AllocError` if an allocation failed; it says nothing about the image.
fn answer_to_image(alloc: Global, image: &[u8]) -> Result<CheckAnswer, AllocError>
    ensures { IfOk result (IsCheckAnswer image.now) }
{
    match checked(alloc, Types::Plain, image)? {
        Ok(volume) => acceptance(alloc, &volume),
        Err(fault) => refusal(alloc, fault),
    }
}

/// Checks an image, and writes the verdict.
pub fn check_image<W: Sink>(alloc: Global, image: &[u8], output: &mut W) -> Outcome
    requires { W.has_failed output.old ≡ false }
    ensures { Does (Answer check image.now) result (seen W.held W.has_failed output.old output.new) }
{
    let Ok(answer) = answer_to_image(alloc, image) else {
        return Outcome::NoMemory;
    };
    match write_all(output, answer.line.as_bytes()) {
        Ok(()) if answer.sound => Outcome::Done,
        Ok(()) => Outcome::FaultWritten,
        Err(_) => Outcome::WriteFault,
    }
}

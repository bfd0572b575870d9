// What is answered, before it is written.

ghost use Rattle.std.specs.Prelude.{◌≡◌, [], IfOk, false, true};
ghost use Rattle.adf_runs.specs.{Outcomes.Blames, Outcomes.Does, Outcomes.outcome_text, Outcomes.status_of, Streams.seen};
ghost use Rattle.adf_survey_cmd.specs.Answer.{IsWrittenOf, answer_status, status_by};

use adf_base::NoMemory;
use adf_runs::{Outcome, Sink, write_all};
use std::alloc::{AllocError, Global};

/// What is answered: the bytes for output, the lines for errors, and whether nothing else is wrong.
#[derive(Drop)]
pub struct Answer {
    pub output: Vec<u8>,
    pub errors: Vec<u8>,
    pub is_clean: bool,
}

impl Answer {
    /// These bytes, with nothing wrong.
    pub fn whole(alloc: Global, output: Vec<u8>) -> Answer
        ensures output { result.output ≡ output }
        ensures status { answer_status result ≡ 0 }
    {
        Answer {
            output,
            errors: Vec::new(alloc),
            is_clean: true,
        }
    }

    /// These bytes, which tell that something is wrong.
    pub fn faulty(alloc: Global, output: Vec<u8>) -> Answer
        ensures { answer_status result ≡ 1 }
    {
        Answer {
            output,
            errors: Vec::new(alloc),
            is_clean: false,
        }
    }

    /// No bytes, and these lines on errors.
    pub fn refused(alloc: Global, errors: Vec<u8>) -> Answer
        ensures output { result.output.items ≡ [] }
        ensures status { answer_status result ≡ 1 }
    {
        Answer {
            output: Vec::new(alloc),
            errors,
            is_clean: false,
        }
    }

    /// No bytes, and this text on errors.
    pub fn refused_with(alloc: Global, text: &str) -> Result<Answer, AllocError>
        ensures output { IfOk result (λ a. a.output.items ≡ []) }
        ensures status { IfOk result (λ a. answer_status a ≡ 1) }
    {
        let errors = Vec::from_slice(alloc, text.as_bytes())?;
        Ok(Answer::refused(alloc, errors))
    }

    /// The status: 0 if nothing is wrong.
    pub fn status(&self) -> u8
        ensures { result ≡ answer_status self.now }
    {
        if self.is_clean && self.errors.is_empty() {
            0
        } else {
            1
        }
    }
}

// The outcome of an answer that is written, by its lines.
fn outcome_of(errors: Vec<u8>, is_clean: bool) -> Outcome
    ensures status { status_of result ≡ status_by is_clean errors.items }
    ensures text { outcome_text result ≡ errors.items }
    ensures blames { Blames result false false }
{
    if !errors.is_empty() {
        return Outcome::LeftOut(errors);
    }
    if is_clean {
        Outcome::Done
    } else {
        Outcome::FaultWritten
    }
}

/// Writes an answer, if there was memory for it, and says how that went.
pub fn write_answer<W: Sink>(answer: Result<Answer, NoMemory>, output: &mut W) -> Outcome
    requires { W.has_failed output.old ≡ false }
    ensures { Does (IsWrittenOf answer) result (seen W.held W.has_failed output.old output.new) }
{
    let Ok(answer) = answer else {
        return Outcome::NoMemory;
    };
    let Answer {
        output: bytes,
        errors,
        is_clean,
    } = answer;
    match write_all(output, &bytes) {
        Ok(()) => outcome_of(errors, is_clean),
        Err(_) => Outcome::WriteFault,
    }
}

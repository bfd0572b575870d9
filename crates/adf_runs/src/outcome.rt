// How the work of a command went.

ghost use Rattle.std.specs.Prelude.{◌≡◌, false};
ghost use Rattle.adf_runs.specs.Outcomes.{after_reading, after_writing, outcome_text, status_of};
ghost use Rattle.adf_runs.specs.Streams.{Says};

use crate::devices::Sink;
use crate::streams::{StreamFault, say};
use adf_base::NoMemory;
use std::alloc::AllocError;
use std::io;

/// How the work of a command went.
#[derive(Drop)]
pub enum Outcome {
    /// The answer is written.
    Done,
    /// What is wrong with the image is written to output.
    FaultWritten,
    /// The input is refused, and errors are to get this line.
    Refused(String),
    /// The answer is written, and errors are to get these lines on what it leaves out.
    LeftOut(Vec<u8>),
    /// Nothing is there under the path.
    NoSuchPath,
    /// The path leads to the root or a directory.
    NotAFile,
    /// The path leads to a file that is not sound.
    Damaged,
    ReadFault,
    WriteFault,
    NoMemory,
}

impl From<AllocError> for Outcome {
    ghost use Rattle.adf_runs.specs.declared.outcome.Outcome.TheVariants.{NoMemory};

    ghost from_gives = { λ _ w. w ≡ NoMemory };

    fn from(_e: AllocError) -> Outcome {
        Outcome::NoMemory
    }
}

impl From<NoMemory> for Outcome {
    ghost use Rattle.adf_runs.specs.declared.outcome.Outcome.TheVariants.{NoMemory};

    ghost from_gives = { λ _ w. w ≡ NoMemory };

    fn from(_e: NoMemory) -> Outcome {
        Outcome::NoMemory
    }
}

impl From<io::Error> for Outcome {
    ghost use Rattle.adf_runs.specs.Outcomes.{status_of};

    ghost from_gives = { λ _ w. status_of w ≡ 3 };

    fn from(error: io::Error) -> Outcome {
        match error.kind() {
            io::ErrorKind::OutOfMemory => Outcome::NoMemory,
            _ => Outcome::ReadFault,
        }
    }
}

impl Outcome {
    /// What comes of a fault in reading the input.
    pub fn after_reading(fault: StreamFault) -> Outcome
        ensures { result ≡ after_reading fault }
    {
        match fault {
            StreamFault::Device => Outcome::ReadFault,
            StreamFault::NoMemory => Outcome::NoMemory,
        }
    }

    /// What comes of a fault in writing the answer.
    pub fn after_writing(fault: StreamFault) -> Outcome
        ensures { result ≡ after_writing fault }
    {
        match fault {
            StreamFault::Device => Outcome::WriteFault,
            StreamFault::NoMemory => Outcome::NoMemory,
        }
    }

    /// The status that the run ends with.
    pub fn status(&self) -> u8
        ensures { result ≡ status_of self.now }
    {
        match self {
            Outcome::Done => 0,
            Outcome::FaultWritten => 1,
            Outcome::Refused(_) => 1,
            Outcome::LeftOut(_) => 1,
            Outcome::NoSuchPath => 1,
            Outcome::NotAFile => 1,
            Outcome::Damaged => 1,
            Outcome::ReadFault => 3,
            Outcome::WriteFault => 3,
            Outcome::NoMemory => 3,
        }
    }

    /// What is said on errors.
    pub fn text(&self) -> &[u8]
        ensures { result.now ≡ outcome_text self.now }
    {
        match self {
            Outcome::Done => b"",
            Outcome::FaultWritten => b"",
            Outcome::Refused(line) => line.as_bytes(),
            Outcome::LeftOut(lines) => lines.as_slice(),
            Outcome::NoSuchPath => b"no such path\n",
            Outcome::NotAFile => b"not a file\n",
            Outcome::Damaged => b"damaged\n",
            Outcome::ReadFault => b"read fault\n",
            Outcome::WriteFault => b"write fault\n",
            Outcome::NoMemory => b"no memory\n",
        }
    }

    /// Says on errors how the work went, and returns the status.
    pub fn finish<E: Sink>(&self, errors: &mut E) -> u8
        requires { E.has_failed errors.old ≡ false }
        ensures status { result ≡ status_of self.now }
        ensures said { Says (E.has_failed errors.new) (E.held errors.old) (E.held errors.new)
            (outcome_text self.now) }
    {
        say(errors, self.text());
        self.status()
    }
}

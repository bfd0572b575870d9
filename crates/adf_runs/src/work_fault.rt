// Why no work is begun.

ghost use Rattle.std.specs.Prelude.{◌≡◌, false};
ghost use Rattle.adf_runs.specs.{Streams.Says, WorkFaults.refusal_line, WorkFaults.refusal_status};

use crate::devices::Sink;
use crate::streams::say;
use adf_names::PathFault;
use adf_words::ArgsError;
use std::error::Error;
use std::fmt;

/// Why no work is begun.
#[derive(Clone, Copy, Debug, PartialEq, Eq)]
pub enum WorkFault {
    /// The words are refused.
    Usage,
    /// The path of `cat` is not a path.
    BadPath,
    /// Memory was refused.
    NoMemory,
}

impl fmt::Display for WorkFault {
    ghost use Rattle.std.specs.Prelude.{Some};
    ghost use Rattle.adf_runs.specs.WorkFaults.{work_fault_text};

    ghost output = { λ x. Some (work_fault_text x) };

    fn fmt<W: fmt::Write>(&self, f: &mut fmt::Formatter<W>) -> fmt::Result {
        f.write_str(match self {
            WorkFault::Usage => "bad words",
            WorkFault::BadPath => "bad path",
            WorkFault::NoMemory => "no memory",
        })
    }
}

impl Error for WorkFault {}

impl From<ArgsError> for WorkFault {
    ghost use Rattle.adf_runs.specs.WorkFaults.{args_refused};

    ghost from_gives = { λ fault f. f ≡ args_refused fault };

    fn from(fault: ArgsError) -> WorkFault {
        match fault {
            ArgsError::Usage => WorkFault::Usage,
            ArgsError::NoMemory => WorkFault::NoMemory,
        }
    }
}

impl From<PathFault> for WorkFault {
    ghost use Rattle.adf_runs.specs.WorkFaults.{path_refused};

    ghost from_gives = { λ fault f. f ≡ path_refused fault };

    fn from(fault: PathFault) -> WorkFault {
        match fault {
            PathFault::BadText => WorkFault::BadPath,
            PathFault::NoMemory => WorkFault::NoMemory,
        }
    }
}

impl WorkFault {
    /// The status that the run ends with.
    pub fn status(self) -> u8
        ensures { result ≡ refusal_status self }
    {
        match self {
            WorkFault::Usage => 2,
            WorkFault::BadPath => 2,
            WorkFault::NoMemory => 3,
        }
    }

    /// Says on errors why no work is begun, by the usage if the words are refused, and returns the status.
    pub fn refuse<E: Sink>(self, usage: &str, errors: &mut E) -> u8
        requires { E.has_failed errors.old ≡ false }
        ensures status { result ≡ refusal_status self }
        ensures said { Says (E.has_failed errors.new) (E.held errors.old) (E.held errors.new)
            (refusal_line usage.now self) }
    {
        let line = match self {
            WorkFault::Usage => usage,
            WorkFault::BadPath => "bad path\n",
            WorkFault::NoMemory => "no memory\n",
        };
        say(errors, line.as_bytes());
        self.status()
    }
}

// What the system gives to a program.

ghost use Rattle.std.specs.Prelude.{◌≡◌, IfErr, false};
ghost use Rattle.adf_runs.specs.Outcomes.{status_of};

use crate::devices::Sink;
use crate::outcome::Outcome;
use crate::streams::say;
use std::alloc::Global;
use std::rt::Env;

/// The words that the system gives to a program; the first one is the program's name. If one is not UTF-8 or an allocation
/// fails, how the run ends.
pub fn command_words(system: &(impl Env + Alloc<A = Global>)) -> Result<Vec<String>, Outcome>
    ensures { IfErr result (λ outcome. status_of outcome ≡ 3) }
{
    Ok(std::env::args(system)?.collect(system.alloc())?)
}

/// Says on errors why the words cannot be had, and returns the status 3.
pub fn refuse_words<E: Sink>(fault: &Outcome, errors: &mut E) -> u8
    requires { E.has_failed errors.old ≡ false }
    ensures { result ≡ 3 }
{
    match fault {
        Outcome::NoMemory => say(errors, b"no memory\n"),
        _ => say(errors, b"an argument is not UTF-8\n"),
    }
    3
}

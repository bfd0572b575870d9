// What a program tells of itself.

ghost use Rattle.std.specs.Prelude.{◌≡◌, false, if◌then◌else◌};
ghost use Rattle.adf_words.specs.CommandLine.{texts_of};
ghost use Rattle.adf_file_runs.specs.About.{telling_among, telling_asked, telling_named};

use adf_runs::{Outcome, Sink, write_all, write_both};

/// The version of the programs and of the library: 10000 for each major version, 100 for each minor one.
pub const VERSION_NUMBER: u32 = 10100;

// The same as a text, behind the name of a program.
const VERSION_END: &str = " 1.1\n";

/// What a program tells of itself.
#[derive(Clone, Copy, Debug)]
pub struct About {
    pub name: &'static str,
    /// The lines of its help.
    pub help: &'static str,
    /// What it says before it reads from a terminal, if anything.
    pub waits: Option<&'static str>,
}

/// What a program is asked of itself.
#[derive(Clone, Copy, Debug, PartialEq, Eq)]
pub enum Telling {
    Help,
    Version,
}

// What a lone argument asks of the program itself.
fn telling_named(word: &str) -> Option<Telling>
    ensures { result ≡ telling_named word.now }
{
    if word == "--help" {
        Some(Telling::Help)
    } else if word == "--version" {
        Some(Telling::Version)
    } else {
        None
    }
}

// What arguments ask of it.
#[tactic(auto, unfolding(crate::specs::About::telling_among))]
fn telling_among(words: &[&str]) -> Option<Telling>
    ensures { result ≡ telling_among (texts_of words.now) }
{
    for word in words {
        if *word == "--" {
            return None;
        }
        if let Some(telling) = telling_named(word) {
            return Some(telling);
        }
    }
    None
}

/// What the arguments ask of the program itself: the first `--help` or `--version` after its name and before any `--`; `None` if
/// there is none.
pub fn telling_asked(args: &[&str]) -> Option<Telling>
    ensures { result ≡ telling_asked (texts_of args.now) }
{
    match args {
        [_, words @ ..] => telling_among(words),
        [] => None,
    }
}

/// Writes what is asked to output, and returns the status: 0, or 3 if output failed, which errors tell.
pub fn tell<W: Sink, E: Sink>(about: &About, telling: Telling, output: &mut W, errors: &mut E) -> u8
    requires writes { W.has_failed output.old ≡ false }
    requires tells { E.has_failed errors.old ≡ false }
    ensures { result ≡ (if W.has_failed output.new then 3 else 0) }
{
    let written = match telling {
        Telling::Help => write_all(output, about.help.as_bytes()),
        Telling::Version => write_both(output, about.name.as_bytes(), VERSION_END.as_bytes()),
    };
    let outcome = match written {
        Ok(()) => Outcome::Done,
        Err(_) => Outcome::WriteFault,
    };
    outcome.finish(errors)
}

// The arguments of `adf`, by clap.

ghost use Rattle.std.specs.Prelude.{◌≡◌, IfOk, IfErr, false, true, ℕ, ◌==◌, List, [], ◌∷◌, codes, option_map};
ghost use Rattle.clap.specs.Words.{app_of, fault_of, found_of, rows_of, subcommand_of, subcommand_rows_of};
ghost use Rattle.clap.specs.declared.builder.command.Command.TheViews.{out-Command};
ghost use Rattle.adf_words.specs.CommandLine.{AsksFor, ExplainsArgs, AreRefused, adf_app, request_value, build, build_app, cat};
ghost use Rattle.adf_words.specs.CommandLine.{check, convert, convert_app, list, met, plain_app, request_named, texts_of};
ghost use Rattle.adf_words.specs.{CommandLine.with_plain, declared.command_line.ArgsError.TheVariants.Usage};

use crate::arguments::{
    bare_command, cat_command, first_text, flag, has_flag, matches_of, required, with_subcommand,
};
use adf_names::Kind;
use clap::{ArgMatches, Command};
use std::alloc::{AllocError, Global};
use std::error::Error;
use std::fmt;

/// What is said of arguments that are refused.
pub const USAGE: &str =
    "usage: adf check < IMAGE\n       adf list < IMAGE\n       adf cat PATH < IMAGE\n       adf build [--list] < MANIFEST\n\
    \x20      adf convert ofs|ffs < IMAGE\nan image or a manifest comes on standard input; man adf tells more\n";

/// What a command line asks for.
#[derive(Clone, Copy, Debug)]
pub enum Request<'a> {
    Check,
    List,
    /// The text of the path.
    Cat(&'a str),
    Build { list: bool },
    Convert(Kind),
}

/// Why the arguments give no request.
#[derive(Clone, Copy, Debug, PartialEq, Eq)]
pub enum ArgsError {
    /// The arguments are refused, or the command or its value is missing.
    Usage,
    /// Memory was refused.
    NoMemory,
}

impl fmt::Display for ArgsError {
    ghost use Rattle.std.specs.Prelude.{Some};
    ghost use Rattle.adf_words.specs.CommandLine.{args_error_text};

    ghost output = { λ x. Some (args_error_text x) };

    fn fmt<W: fmt::Write>(&self, f: &mut fmt::Formatter<W>) -> fmt::Result {
        f.write_str(match self {
            ArgsError::Usage => "bad words",
            ArgsError::NoMemory => "no memory",
        })
    }
}

impl Error for ArgsError {}

impl From<AllocError> for ArgsError {
    ghost use Rattle.adf_words.specs.declared.command_line.ArgsError.TheVariants.{NoMemory};

    ghost from_gives = { λ _ x. x ≡ NoMemory };

    fn from(_error: AllocError) -> ArgsError {
        ArgsError::NoMemory
    }
}

// The command `build [--list]`.
fn build_command<'a>(alloc: Global) -> Result<Command<'a>, AllocError>
    ensures app { IfOk result (λ c. app_of c ≡ build_app) }
    ensures local { IfOk result (λ c. (out-Command c).has_globals ≡ false) }
{
    Command::new(alloc, "build").arg(flag(alloc, "list"))
}

// The command `convert KIND`.
fn convert_command<'a>(alloc: Global) -> Result<Command<'a>, AllocError>
    ensures app { IfOk result (λ c. app_of c ≡ convert_app) }
    ensures local { IfOk result (λ c. (out-Command c).has_globals ≡ false) }
{
    Command::new(alloc, "convert").arg(required(alloc, "kind"))
}

// The command line with one more subcommand, which has no argument.
fn with_plain<'a>(
    alloc: Global,
    command: Command<'a>,
    name: &'a str,
) -> Result<Command<'a>, AllocError>
    ensures { IfOk result (λ c. app_of c ≡ with_plain (app_of command.entry) name.entry.now) }
{
    command.subcommand(Command::new(alloc, name))
}

// The subcommands that have no argument.
fn plain_command<'a>(alloc: Global) -> Result<Command<'a>, AllocError>
    ensures { IfOk result (λ c. app_of c ≡ plain_app) }
{
    let checks = with_plain(alloc, bare_command(alloc, "adf"), "check")?;
    with_plain(alloc, checks, "list")
}

// The command line, with its subcommands.
fn command<'a>(alloc: Global) -> Result<Command<'a>, AllocError>
    ensures { IfOk result (λ c. app_of c ≡ adf_app) }
{
    let cats = with_subcommand(plain_command(alloc), cat_command(alloc));
    let builds = with_subcommand(cats, build_command(alloc));
    with_subcommand(builds, convert_command(alloc))
}

// The request that a subcommand's name and matches are.
fn request_named<'a>(name: &str, found: &ArgMatches<'a>) -> Option<Request<'a>>
    ensures { option_map request_value result
        ≡ request_named name.now (rows_of (found_of found.now)) }
{
    if name == "check" {
        Some(Request::Check)
    } else if name == "list" {
        Some(Request::List)
    } else if name == "cat" {
        match first_text(found, "path") {
            Some(path) => Some(Request::Cat(path)),
            None => None,
        }
    } else if name == "build" {
        Some(Request::Build {
            list: has_flag(found, "list"),
        })
    } else if name == "convert" {
        match first_text(found, "kind") {
            Some(text) => match Kind::named(text) {
                Some(kind) => Some(Request::Convert(kind)),
                None => None,
            },
            None => None,
        }
    } else {
        None
    }
}

// The request that the matches are.
fn request_in<'a>(matches: &ArgMatches<'a>) -> Option<Request<'a>>
    ensures { option_map request_value result ≡ met (subcommand_rows_of matches.now) }
{
    match matches.subcommand() {
        Some((name, found)) => request_named(name, found),
        None => None,
    }
}

// The matches of the arguments.
fn adf_matches<'a>(alloc: Global, args: &'a [&str]) -> Result<ArgMatches<'a>, ArgsError>
    ensures taken { IfOk result (λ _. fault_of adf_app (texts_of args.entry.now) ≡ []) }
    ensures subcommand { IfOk result (λ matches.
        subcommand_rows_of matches ≡ subcommand_of adf_app (texts_of args.entry.now)) }
    ensures refused { IfErr result (λ fault. fault ≡ Usage
        → ¬ (fault_of adf_app (texts_of args.entry.now) ≡ [])) }
{
    matches_of(command(alloc)?, args)
}

/// Reads the arguments; the first one is the program's name. `Usage` if and only if clap refuses them or its matches lack the
/// command or its value; `NoMemory` if an allocation failed.
pub fn parse<'a>(alloc: Global, args: &'a [&str]) -> Result<Request<'a>, ArgsError>
    ensures ok { IfOk result (λ request.
        AsksFor (texts_of args.entry.now) (request_value request)) }
    ensures refused { IfErr result (λ fault. ExplainsArgs fault (AreRefused (texts_of args.entry.now))) }
{
    let matches = adf_matches(alloc, args)?;
    request_in(&matches).ok_or(ArgsError::Usage)
}

/// The commands of the documentation are taken with the request that they name, and other arguments are
/// refused, calls for help among them.
#[tactic(auto, unfolding(clap::proofs::OnLiterals::clap_on_literals))]
pub fn words_as_documented()
    ensures check { AsksFor (codes "adf" ∷ codes "check" ∷ []) check }
    ensures list { AsksFor (codes "adf" ∷ codes "list" ∷ []) list }
    ensures build { AsksFor (codes "adf" ∷ codes "build" ∷ []) (build false) }
    ensures build_list { AsksFor (codes "adf" ∷ codes "build" ∷ codes "--list" ∷ []) (build true) }
    ensures convert_ofs { AsksFor (codes "adf" ∷ codes "convert" ∷ codes "ofs" ∷ [])
        (convert Kind.Ofs) }
    ensures convert_ffs { AsksFor (codes "adf" ∷ codes "convert" ∷ codes "ffs" ∷ [])
        (convert Kind.Ffs) }
    ensures cat { (first : ℕ) (rest : List ℕ) → (first == 45) ≡ false
        → AsksFor (codes "adf" ∷ codes "cat" ∷ (first ∷ rest) ∷ []) (cat (first ∷ rest)) }
    ensures cat_any { (path : List ℕ)
        → AsksFor (codes "adf" ∷ codes "cat" ∷ codes "--" ∷ path ∷ []) (cat path) }
    ensures no_args { AreRefused [] }
    ensures no_command { AreRefused (codes "adf" ∷ []) }
    ensures unknown { AreRefused (codes "adf" ∷ codes "frob" ∷ []) }
    ensures no_path { AreRefused (codes "adf" ∷ codes "cat" ∷ []) }
    ensures dash { AreRefused (codes "adf" ∷ codes "cat" ∷ codes "-x" ∷ []) }
    ensures two_paths { AreRefused (codes "adf" ∷ codes "cat" ∷ codes "a" ∷ codes "b" ∷ []) }
    ensures no_kind { AreRefused (codes "adf" ∷ codes "convert" ∷ []) }
    ensures unknown_kind { AreRefused (codes "adf" ∷ codes "convert" ∷ codes "pfs" ∷ []) }
    ensures help { AreRefused (codes "adf" ∷ codes "--help" ∷ []) }
    ensures help_arg { AreRefused (codes "adf" ∷ codes "help" ∷ []) }
    ensures check_help { AreRefused (codes "adf" ∷ codes "check" ∷ codes "--help" ∷ []) }
{}

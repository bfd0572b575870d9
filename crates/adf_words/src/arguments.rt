// What the command lines of the programs share, by clap.

ghost use Rattle.std.specs.Prelude.{◌≡◌, ◌≤◌, [], IfErr, IfOk, IfSome, codes, false, option_map, true};
ghost use Rattle.clap.specs.Words.{App, HasMatchesOf, Rule, app_of, fault_of, first_of, found_of, is_simple_and_free, rows_of};
ghost use Rattle.clap.specs.Words.{rule_of, with_rule, with_subcommand};
ghost use Rattle.clap.specs.declared.builder.command.Command.TheViews.{out-Command};
ghost use Rattle.adf_words.specs.Arguments.{bare_app, cat_app, flag_rule, has_flag, number_named, required_rule};
ghost use Rattle.adf_words.specs.{CommandLine.texts_of, declared.command_line.ArgsError.TheVariants.Usage};

use crate::command_line::ArgsError;
use clap::error::ErrorKind;
use clap::{Arg, ArgAction, ArgMatches, Command};
use std::alloc::{AllocError, Global};

/// A program of this name. Arguments for help are refused like others, so that clap lays out no text for them.
pub fn bare_command<'a>(alloc: Global, name: &'a str) -> Command<'a>
    ensures { app_of result ≡ bare_app name.entry.now }
{
    Command::new(alloc, name)
        .disable_help_flag(true)
        .disable_help_subcommand(true)
}

/// A command with one more subcommand. Fails if there is no command or no subcommand, or if an allocation failed.
pub fn with_subcommand<'a>(
    command: Result<Command<'a>, AllocError>,
    subcommand: Result<Command<'a>, AllocError>,
) -> Result<Command<'a>, AllocError>
    ensures { (a s : App) → IfOk command.entry (λ c. app_of c ≡ a)
        → IfOk subcommand.entry (λ c. app_of c ≡ s)
        → IfOk subcommand.entry (λ c. (out-Command c).has_globals ≡ false)
        → IfOk result (λ c. app_of c ≡ with_subcommand a s.top) }
{
    command?.subcommand(subcommand?)
}

/// A command with one more argument. Fails if there is no command, or if an allocation failed.
pub fn with_argument<'a>(
    command: Result<Command<'a>, AllocError>,
    argument: Arg<'a>,
) -> Result<Command<'a>, AllocError>
    ensures app { (a : App) (r : Rule) → IfOk command.entry (λ c. app_of c ≡ a)
        → rule_of argument.entry ≡ r → argument.entry.global ≡ false
        → IfOk result (λ c. app_of c ≡ with_rule a r) }
    ensures local { IfOk command.entry (λ c. (out-Command c).has_globals ≡ false)
        → argument.entry.global ≡ false
        → IfOk result (λ c. (out-Command c).has_globals ≡ false) }
{
    command?.arg(argument)
}

/// The argument of this name, which must be there.
pub fn required<'a>(alloc: Global, name: &'a str) -> Arg<'a>
    ensures rule { rule_of result ≡ required_rule name.entry.now }
    ensures local { result.global ≡ false }
{
    Arg::new(alloc, name).required(true)
}

/// The flag of this name, behind `--`.
pub fn flag<'a>(alloc: Global, name: &'a str) -> Arg<'a>
    ensures rule { rule_of result ≡ flag_rule name.entry.now }
    ensures local { result.global ≡ false }
{
    Arg::new(alloc, name).long(name).action(ArgAction::SetTrue)
}

/// The command `cat PATH`. Fails if an allocation failed.
pub fn cat_command<'a>(alloc: Global) -> Result<Command<'a>, AllocError>
    ensures app { IfOk result (λ c. app_of c ≡ cat_app) }
    ensures local { IfOk result (λ c. (out-Command c).has_globals ≡ false) }
{
    Command::new(alloc, "cat").arg(required(alloc, "path"))
}

/// The matches of the arguments. `Usage` if and only if clap refuses them, `NoMemory` if an allocation failed.
pub fn matches_of<'a>(command: Command<'a>, args: &'a [&str]) -> Result<ArgMatches<'a>, ArgsError>
    requires free { is_simple_and_free (app_of command) ≡ true }
    ensures matches { IfOk result (HasMatchesOf (app_of command.entry) (texts_of args.entry.now)) }
    ensures taken { IfOk result (λ _. fault_of (app_of command.entry) (texts_of args.entry.now) ≡ []) }
    ensures refused { IfErr result (λ fault. fault ≡ Usage
        → ¬ (fault_of (app_of command.entry) (texts_of args.entry.now) ≡ [])) }
{
    match command.try_get_matches_from(args) {
        Ok(matches) => Ok(matches),
        Err(error) => match error.kind() {
            ErrorKind::OutOfMemory => Err(ArgsError::NoMemory),
            _ => Err(ArgsError::Usage),
        },
    }
}

/// The first value of an argument.
pub fn first_text<'a>(found: &ArgMatches<'a>, id: &str) -> Option<&'a str>
    ensures { option_map (λ s. s.now) result ≡ first_of id.now (rows_of (found_of found.now)) }
{
    found.get_str(id)
}

/// Whether a flag is among the matches.
pub fn has_flag(found: &ArgMatches<'_>, id: &str) -> bool
    ensures { result ≡ has_flag id.now (rows_of (found_of found.now)) }
{
    match first_text(found, id) {
        Some(text) => text == "true",
        None => false,
    }
}

/// The number that a text is: decimal digits, up to this one.
pub fn number_named(text: &str, most: u32) -> Option<u32>
    ensures named { result ≡ number_named most text.now }
    ensures few { IfSome result (λ n. n ≤ most) }
{
    let bytes = text.as_bytes();
    if bytes.is_empty() || bytes[0] == b'+' {
        return None;
    }
    match text.parse::<u32>() {
        Ok(number) if number <= most => Some(number),
        _ => None,
    }
}

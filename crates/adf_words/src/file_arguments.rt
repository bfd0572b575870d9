// The argument FILE, by clap.

ghost use Rattle.std.specs.Prelude.{◌≡◌, IfOk, false, option_map};
ghost use Rattle.clap.specs.Words.{App, app_of, found_of, rows_of, rule_of, subcommand_rows_of};
ghost use Rattle.clap.specs.declared.builder.command.Command.TheViews.{out-Command};
ghost use Rattle.adf_words.specs.FileArguments.{file_app, file_matched, file_met, file_rule, with_file};

use crate::arguments::{first_text, with_subcommand};
use clap::{Arg, ArgMatches, Command};
use std::alloc::{AllocError, Global};

/// The argument FILE.
pub fn file_argument<'a>(alloc: Global) -> Arg<'a>
    ensures rule { rule_of result ≡ file_rule }
    ensures local { result.global ≡ false }
{
    Arg::new(alloc, "file")
}

// A command of this name, whose argument is FILE.
fn file_command<'a>(alloc: Global, name: &'a str) -> Result<Command<'a>, AllocError>
    ensures app { IfOk result (λ c. app_of c ≡ file_app name.entry.now) }
    ensures local { IfOk result (λ c. (out-Command c).has_globals ≡ false) }
{
    Command::new(alloc, name).arg(file_argument(alloc))
}

/// The command line with one more subcommand, whose argument is FILE.
pub fn with_file<'a>(
    alloc: Global,
    command: Result<Command<'a>, AllocError>,
    name: &'a str,
) -> Result<Command<'a>, AllocError>
    ensures { (a : App) → IfOk command.entry (λ c. app_of c ≡ a)
        → IfOk result (λ c. app_of c ≡ with_file a name.entry.now) }
{
    with_subcommand(command, file_command(alloc, name))
}

// The file that matches name, if any.
fn file_matched<'a>(found: &ArgMatches<'a>) -> Option<&'a str>
    ensures { option_map (λ s. s.now) result ≡ file_matched (rows_of (found_of found.now)) }
{
    match first_text(found, "file") {
        Some(text) if text != "-" => Some(text),
        _ => None,
    }
}

/// The file that the matches name, if any: those of the subcommand where there is one.
pub fn file_met<'a>(matches: &ArgMatches<'a>) -> Option<&'a str>
    ensures { option_map (λ s. s.now) result
        ≡ file_met (rows_of (found_of matches.now)) (subcommand_rows_of matches.now) }
{
    match matches.subcommand() {
        Some((_, found)) => file_matched(found),
        None => file_matched(matches),
    }
}

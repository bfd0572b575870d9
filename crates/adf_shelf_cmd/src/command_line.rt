// The arguments of `adf-shelf`, by clap.

ghost use Rattle.std.specs.Prelude.{◌≡◌, IfOk, IfErr, [], codes, option_map, unwrap_or};
ghost use Rattle.clap.specs.Words.{all_of, app_of, fault_of, found_of, matches_of, rows_of};
ghost use Rattle.adf_words.specs.CommandLine.{ExplainsArgs, texts_of};
ghost use Rattle.adf_words.specs.declared.command_line.ArgsError.TheVariants.{Usage};
ghost use Rattle.adf_shelf_cmd.specs.CommandLine.{AsksShelf, AreRefusedByShelf, order_in, shelf_app};

use adf_file_runs::About;
use adf_words::{ArgsError, flag, has_flag, matches_of, with_argument};
use clap::{Arg, ArgAction, ArgMatches, Command};
use std::alloc::{AllocError, Global};
use std::marker::Model;

/// What is said of arguments that are refused.
pub const SHELF_USAGE: &str = "usage: adf-shelf [--null] [--any-type] [--json] [FILE..]\n";

/// What the program tells of itself.
pub const ABOUT: About = About {
    name: "adf-shelf",
    help: "Checks many images, and writes for each its name, a tab, and the line of `adf check`.\n\n\
    usage: adf-shelf [--null] [--any-type] [--json] [FILE..]\n\
    \x20      adf-shelf --help, adf-shelf --version\n\n\
    Without a FILE the names come on standard input, one a line; with --null each ends in a zero byte.\n\
    With --any-type volumes of types 2 to 5 are checked too; with --json each line is an object.\n\
    man adf-shelf tells more.\n",
    waits: None,
};

/// What a command line asks for.
#[derive(Drop)]
pub struct Order<'a> {
    /// Whether names that are read end in zero bytes.
    pub null: bool,
    /// Whether volumes of types 2 to 5 are accepted too.
    pub any_type: bool,
    /// Whether objects are written in place of lines.
    pub json: bool,
    /// The names; if there are none, they are read from the input.
    pub files: Vec<&'a str>,
}

impl<'a> Model for Order<'a> {
    ghost use Rattle.adf_words.specs.CommandLine.{texts_of};
    ghost use Rattle.adf_shelf_cmd.specs.CommandLine.{ShelfOrder};

    ghost Value = { ShelfOrder };

    ghost view = { λ o. record { null = o.null; any_type = o.any_type; json = o.json; files = texts_of o.files.items } };
}

// The command line. Arguments for help are refused like others, so that clap lays out no text for them.
fn command<'a>(alloc: Global) -> Result<Command<'a>, AllocError>
    ensures { IfOk result (λ c. app_of c ≡ shelf_app) }
{
    let files = Arg::new(alloc, "files").action(ArgAction::Append);
    let bare = Command::new(alloc, "adf-shelf").disable_help_flag(true);
    let nulls = with_argument(Ok(bare), flag(alloc, "null"));
    let types = with_argument(nulls, flag(alloc, "any-type"));
    let objects = with_argument(types, flag(alloc, "json"));
    with_argument(objects, files)
}

// The values of an argument.
fn all_texts<'m, 'a>(found: &'m ArgMatches<'a>, id: &str) -> Option<&'m [&'a str]>
    ensures { option_map (λ s. texts_of s.now) result
        ≡ all_of id.now (rows_of (found_of found.entry.now)) }
{
    found.get_raw(id)
}

// The names.
fn names_in<'a>(alloc: Global, found: &ArgMatches<'a>) -> Result<Vec<&'a str>, AllocError>
    ensures { IfOk result (λ names. texts_of names.items
        ≡ unwrap_or (all_of (codes "files") (rows_of (found_of found.now))) []) }
{
    match all_texts(found, "files") {
        Some(names) => Vec::from_slice(alloc, names),
        None => Ok(Vec::new(alloc)),
    }
}

// The order that the matches are.
fn order_in<'a>(alloc: Global, found: &ArgMatches<'a>) -> Result<Order<'a>, AllocError>
    ensures { IfOk result (λ order. order ≡ order_in (rows_of (found_of found.now))) }
{
    let files = names_in(alloc, found)?;
    let null = has_flag(found, "null");
    let any_type = has_flag(found, "any-type");
    let json = has_flag(found, "json");
    Ok(Order {
        null,
        any_type,
        json,
        files,
    })
}

// The matches of the arguments.
fn shelf_matches<'a>(alloc: Global, args: &'a [&str]) -> Result<ArgMatches<'a>, ArgsError>
    ensures taken { IfOk result (λ _. fault_of shelf_app (texts_of args.entry.now) ≡ []) }
    ensures rows { IfOk result (λ matches.
        rows_of (found_of matches) ≡ matches_of shelf_app (texts_of args.entry.now)) }
    ensures refused { IfErr result (λ fault. fault ≡ Usage
        → ¬ (fault_of shelf_app (texts_of args.entry.now) ≡ [])) }
{
    matches_of(command(alloc)?, args)
}

/// Reads the arguments; the first one is the program's name. `Usage` if and only if clap refuses them, `NoMemory` if an
/// allocation failed.
pub fn parse_shelf<'a>(alloc: Global, args: &'a [&str]) -> Result<Order<'a>, ArgsError>
    ensures ok { IfOk result (λ order. AsksShelf (texts_of args.entry.now) order) }
    ensures refused { IfErr result (λ fault. ExplainsArgs fault (AreRefusedByShelf (texts_of args.entry.now))) }
{
    let matches = shelf_matches(alloc, args)?;
    Ok(order_in(alloc, &matches)?)
}

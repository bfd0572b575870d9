// The arguments of `adf-merge`, by clap.

ghost use Rattle.std.specs.Prelude.{◌≡◌, IfErr, IfOk, [], false, option_map, unwrap_or};
ghost use Rattle.clap.specs.Words.{all_of, app_of, fault_of, found_of, matches_of, rows_of, rule_of};
ghost use Rattle.adf_words.specs.{CommandLine.texts_of, declared.command_line.ArgsError.TheVariants.Usage};
ghost use Rattle.adf_merge_cmd.specs.CommandLine.{AsksMerge, ExplainsMergeArgs, are_enough, map_rule, merge_app, readings_rule};

use adf_file_runs::About;
use adf_readings::MOST_READINGS;
use adf_words::{ArgsError, matches_of, with_argument};
use clap::{Arg, ArgAction, ArgMatches, Command};
use std::alloc::{AllocError, Global};
use std::marker::Model;

/// What is said of arguments that are refused.
pub const MERGE_USAGE: &str = "usage: adf-merge [--map MAP ..] A B [C..] > NEW\n\
    2 to 100 readings of one disk, and no more maps; man adf-merge tells more\n";

/// What the program tells of itself.
pub const ABOUT: About = About {
    name: "adf-merge",
    help: "Merges several readings of one disk, each with other bad blocks, into one image.\n\n\
    usage: adf-merge [--map MAP ..] A B [C..] > NEW\n\
    \x20      adf-merge --help, adf-merge --version\n\n\
    Each block of NEW is that of a reading. What is left to chance is said on standard error.\n\
    --map MAP  the map of GNU ddrescue of the first reading, then of the second and so on;\n\
    \x20          - for one that has none\n\
    man adf-merge tells more.\n",
    waits: None,
};

// The argument A B ..
fn readings_argument<'a>(alloc: Global) -> Arg<'a>
    ensures rule { rule_of result ≡ readings_rule }
    ensures local { result.global ≡ false }
{
    Arg::new(alloc, "readings").action(ArgAction::Append)
}

// The option --map MAP.
fn map_argument<'a>(alloc: Global) -> Arg<'a>
    ensures rule { rule_of result ≡ map_rule }
    ensures local { result.global ≡ false }
{
    Arg::new(alloc, "map").long("map").action(ArgAction::Append)
}

// The command line. Arguments for help are refused like others, so that clap lays out no text for them.
fn command<'a>(alloc: Global) -> Result<Command<'a>, AllocError>
    ensures { IfOk result (λ c. app_of c ≡ merge_app) }
{
    let bare = Command::new(alloc, "adf-merge").disable_help_flag(true);
    let mapped = with_argument(Ok(bare), map_argument(alloc));
    with_argument(mapped, readings_argument(alloc))
}

// The values of an argument.
fn values<'m, 'a>(found: &'m ArgMatches<'a>, id: &str) -> Option<&'m [&'a str]>
    ensures { option_map (λ s. texts_of s.now) result
        ≡ all_of id.now (rows_of (found_of found.entry.now)) }
{
    found.get_raw(id)
}

// The names that an argument has.
fn names<'a>(alloc: Global, found: &ArgMatches<'a>, id: &str) -> Result<Vec<&'a str>, AllocError>
    ensures { IfOk result (λ names. texts_of names.items ≡ unwrap_or (all_of id.now (rows_of (found_of found.now))) []) }
{
    match values(found, id) {
        Some(names) => Vec::from_slice(alloc, names),
        None => Ok(Vec::new(alloc)),
    }
}

/// What words ask for: to merge the readings of these names, the first of which have these maps.
#[derive(Drop)]
pub struct MergeOrder<'a> {
    pub readings: Vec<&'a str>,
    pub maps: Vec<&'a str>,
}

impl<'a> Model for MergeOrder<'a> {
    ghost use Rattle.adf_words.specs.CommandLine.{texts_of};
    ghost use Rattle.adf_merge_cmd.specs.CommandLine.{MergeOrder as MergeOrderValue};

    ghost Value = { MergeOrderValue };

    ghost view = { λ o. record { readings = texts_of o.readings.items; maps = texts_of o.maps.items } };
}

impl MergeOrder<'_> {
    // Whether there are as many readings as are merged, and no more maps.
    fn are_enough(&self) -> bool
        ensures { result ≡ are_enough self.now }
    {
        let readings = self.readings.len();
        2 <= readings && readings <= MOST_READINGS && self.maps.len() <= readings
    }
}

// The matches of the arguments.
fn merge_matches<'a>(alloc: Global, args: &'a [&str]) -> Result<ArgMatches<'a>, ArgsError>
    ensures taken { IfOk result (λ _. fault_of merge_app (texts_of args.entry.now) ≡ []) }
    ensures rows { IfOk result (λ matches.
        rows_of (found_of matches) ≡ matches_of merge_app (texts_of args.entry.now)) }
    ensures refused { IfErr result (λ fault. fault ≡ Usage
        → ¬ (fault_of merge_app (texts_of args.entry.now) ≡ [])) }
{
    matches_of(command(alloc)?, args)
}

/// Reads the arguments; the first one is the program's name. `Usage` if and only if clap refuses them or they do not name 2 to
/// 100 readings, or name more maps; `NoMemory` if an allocation failed.
pub fn parse_merge<'a>(alloc: Global, args: &'a [&str]) -> Result<MergeOrder<'a>, ArgsError>
    ensures ok { IfOk result (λ order. AsksMerge (texts_of args.entry.now) order) }
    ensures refused { IfErr result (λ fault. ExplainsMergeArgs fault (texts_of args.entry.now)) }
{
    let matches = merge_matches(alloc, args)?;
    let order = MergeOrder {
        readings: names(alloc, &matches, "readings")?,
        maps: names(alloc, &matches, "map")?,
    };
    if order.are_enough() {
        Ok(order)
    } else {
        Err(ArgsError::Usage)
    }
}

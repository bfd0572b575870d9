// The arguments of `adf-disk`, by clap.

ghost use Rattle.std.specs.Prelude.{◌≡◌, ◌==◌, IfOk, IfErr, ℕ, List, [], ◌∷◌, codes, false, option_map, true};
ghost use Rattle.clap.specs.Words.{app_of, fault_of, found_of, matches_of, rows_of, subcommand_of, subcommand_rows_of};
ghost use Rattle.clap.specs.declared.builder.command.Command.TheViews.{out-Command};
ghost use Rattle.adf_words.specs.{CommandLine.ExplainsArgs, CommandLine.texts_of, FileArguments.file_meant};
ghost use Rattle.adf_words.specs.declared.command_line.ArgsError.TheVariants.{Usage};
ghost use Rattle.adf_disk_cmd.specs.CommandLine.{AreRefusedByDisk, AsksDisk, AsksDiskOf, disk_file, build};
ghost use Rattle.adf_disk_cmd.specs.CommandLine.{check, disk_app, disk_met, disk_request_named, disk_request_value, list};
ghost use Rattle.adf_disk_cmd.specs.CommandLine.{disk_survey_app, disk_survey_flags, lists_and_checks, name, number, propose, search};
ghost use Rattle.adf_disk_cmd.specs.CommandLine.{survey_request, telling_app, volume, volume_app, wanted_named};
ghost use Rattle.adf_disk_cmd.specs.CommandLine.{wanted_value, with_telling};

use adf_blocks::MOST_BLOCKS;
use adf_file_runs::About;
use adf_words::{
    ArgsError, bare_command, file_argument, file_met, first_text, flag, has_flag, matches_of,
    number_named, required, with_argument, with_file, with_subcommand,
};
use clap::{ArgMatches, Command};
use std::alloc::{AllocError, Global};

/// What is said of arguments that are refused.
pub const DISK_USAGE: &str =
    "usage: adf-disk list [--json] [FILE]\n       adf-disk check [--json] [FILE]\n       adf-disk survey [--search [--plan]] [--json] [FILE]\n       \
    adf-disk volume NAME [FILE]\n       adf-disk build [-o DISK] [PLAN]\n\
    without a FILE the disk or its plan comes on standard input; man adf-disk tells more\n";

/// What the program tells of itself.
pub const ABOUT: About = About {
    name: "adf-disk",
    help: "Lists and checks the partitions of a whole Amiga hard disk, cuts out its volumes, and builds a disk from a plan.\n\n\
    usage: adf-disk list [--json] [FILE]     a line for each partition\n\
    \x20      adf-disk check [--json] [FILE]    a verdict on each volume\n\
    \x20      adf-disk survey [--json] [FILE]   the same as list\n\
    \x20      adf-disk survey --search [FILE]   the volumes that are found without a table\n\
    \x20      adf-disk survey --search --plan   the same as a plan of a new disk\n\
    \x20      adf-disk volume NAME [FILE]       the volume of a partition, by its name or its number\n\
    \x20      adf-disk build [PLAN] > DISK      a new disk\n\
    \x20      adf-disk build -o DISK [PLAN]     the same, into a file with holes for zeros\n\
    \x20      adf-disk --help, adf-disk --version\n\n\
    With --json each line is an object.\n\
    Without a FILE, or with -, the disk or its plan comes on standard input. A PLAN that is a file may name the file of a volume:\n\
    partition DH0 ffs 20 work.hdf. With -o the DISK is put in its place at once or not at all. man adf-disk tells more.\n",
    waits: Some("waiting for standard input; adf-disk --help tells more\n"),
};

/// A partition, by its number or its name.
#[derive(Clone, Copy, Debug)]
pub enum Wanted<'a> {
    /// A number: the text has decimal digits alone, and is at most 8,388,608.
    Number(u32),
    /// The text of a name: any other text.
    Name(&'a str),
}

/// What a command line asks for.
#[derive(Clone, Copy, Debug)]
pub enum DiskRequest<'a> {
    /// The partitions that are found, as lines or as objects.
    List { json: bool },
    /// What a check says of each volume.
    Check { json: bool },
    /// The volumes that are found by their roots.
    Search { json: bool },
    /// A plan of them.
    Propose,
    Volume(Wanted<'a>),
    Build,
}

// The command `volume NAME [FILE]`.
fn volume_command<'a>(alloc: Global) -> Result<Command<'a>, AllocError>
    ensures app { IfOk result (λ c. app_of c ≡ volume_app) }
    ensures local { IfOk result (λ c. (out-Command c).has_globals ≡ false) }
{
    let volumes = with_argument(Ok(Command::new(alloc, "volume")), required(alloc, "name"));
    with_argument(volumes, file_argument(alloc))
}

// A command that tells of a disk, as `list [--json] [FILE]`.
fn telling_command<'a>(alloc: Global, name: &'a str) -> Result<Command<'a>, AllocError>
    ensures app { IfOk result (λ c. app_of c ≡ telling_app name.entry.now) }
    ensures local { IfOk result (λ c. (out-Command c).has_globals ≡ false) }
{
    let named = Ok(Command::new(alloc, name));
    let tells = with_argument(named, flag(alloc, "json"));
    with_argument(tells, file_argument(alloc))
}

// The command `survey [--search] [--plan] [--json]`, without a file.
fn survey_flags<'a>(alloc: Global) -> Result<Command<'a>, AllocError>
    ensures app { IfOk result (λ c. app_of c ≡ disk_survey_flags) }
    ensures local { IfOk result (λ c. (out-Command c).has_globals ≡ false) }
{
    let named = Ok(Command::new(alloc, "survey"));
    let searches = with_argument(named, flag(alloc, "search"));
    let plans = with_argument(searches, flag(alloc, "plan"));
    with_argument(plans, flag(alloc, "json"))
}

// The command `survey [--search] [--plan] [--json] [FILE]`.
fn survey_command<'a>(alloc: Global) -> Result<Command<'a>, AllocError>
    ensures app { IfOk result (λ c. app_of c ≡ disk_survey_app) }
    ensures local { IfOk result (λ c. (out-Command c).has_globals ≡ false) }
{
    with_argument(survey_flags(alloc), file_argument(alloc))
}

// The subcommands `list` and `check`.
fn lists_and_checks<'a>(alloc: Global) -> Result<Command<'a>, AllocError>
    ensures { IfOk result (λ c. app_of c ≡ lists_and_checks) }
{
    let bare = Ok(bare_command(alloc, "adf-disk"));
    let lists = with_subcommand(bare, telling_command(alloc, "list"));
    with_subcommand(lists, telling_command(alloc, "check"))
}

// The command line.
fn command<'a>(alloc: Global) -> Result<Command<'a>, AllocError>
    ensures { IfOk result (λ c. app_of c ≡ disk_app) }
{
    let surveys = with_subcommand(lists_and_checks(alloc), survey_command(alloc));
    let builds = with_file(alloc, surveys, "build");
    with_subcommand(builds, volume_command(alloc))
}

// The partition that a text means.
fn wanted_named<'a>(text: &'a str) -> Wanted<'a>
    ensures { wanted_value result ≡ wanted_named text.entry.now }
{
    match number_named(text, MOST_BLOCKS) {
        Some(number) => Wanted::Number(number),
        None => Wanted::Name(text),
    }
}

// The request to survey a disk: to search it, or to propose a plan, which is no object, or to list its partitions, as `list` does.
fn survey_request<'a>(searches: bool, plans: bool, json: bool) -> Option<DiskRequest<'a>>
    ensures { option_map disk_request_value result ≡ survey_request searches plans json }
{
    match (searches, plans, json) {
        (true, false, _) => Some(DiskRequest::Search { json }),
        (true, true, false) => Some(DiskRequest::Propose),
        (false, false, _) => Some(DiskRequest::List { json }),
        _ => None,
    }
}

// The request that a subcommand's name and matches are.
fn request_named<'a>(command: &str, found: &ArgMatches<'a>) -> Option<DiskRequest<'a>>
    ensures { option_map disk_request_value result
        ≡ disk_request_named command.now (rows_of (found_of found.now)) }
{
    if command == "list" {
        Some(DiskRequest::List {
            json: has_flag(found, "json"),
        })
    } else if command == "check" {
        Some(DiskRequest::Check {
            json: has_flag(found, "json"),
        })
    } else if command == "survey" {
        let searches = has_flag(found, "search");
        let plans = has_flag(found, "plan");
        survey_request(searches, plans, has_flag(found, "json"))
    } else if command == "build" {
        Some(DiskRequest::Build)
    } else if command == "volume" {
        match first_text(found, "name") {
            Some(text) => Some(DiskRequest::Volume(wanted_named(text))),
            None => None,
        }
    } else {
        None
    }
}

// The request that the matches are.
fn request_in<'a>(matches: &ArgMatches<'a>) -> Option<DiskRequest<'a>>
    ensures { option_map disk_request_value result ≡ disk_met (subcommand_rows_of matches.now) }
{
    match matches.subcommand() {
        Some((name, found)) => request_named(name, found),
        None => None,
    }
}

// The matches of the arguments.
fn disk_matches<'a>(alloc: Global, args: &'a [&str]) -> Result<ArgMatches<'a>, ArgsError>
    ensures taken { IfOk result (λ _. fault_of disk_app (texts_of args.entry.now) ≡ []) }
    ensures rows { IfOk result (λ matches.
        rows_of (found_of matches) ≡ matches_of disk_app (texts_of args.entry.now)) }
    ensures subcommand { IfOk result (λ matches.
        subcommand_rows_of matches ≡ subcommand_of disk_app (texts_of args.entry.now)) }
    ensures refused { IfErr result (λ fault. fault ≡ Usage
        → ¬ (fault_of disk_app (texts_of args.entry.now) ≡ [])) }
{
    matches_of(command(alloc)?, args)
}

/// Reads the arguments; the first one is the program's name. `Usage` if and only if clap refuses them or its matches lack the
/// command or its value; `NoMemory` if an allocation failed.
pub fn parse_disk<'a>(alloc: Global, args: &'a [&str]) -> Result<DiskRequest<'a>, ArgsError>
    ensures ok { IfOk result (λ request.
        AsksDisk (texts_of args.entry.now) (disk_request_value request)) }
    ensures refused { IfErr result (λ fault. ExplainsArgs fault (AreRefusedByDisk (texts_of args.entry.now))) }
{
    let matches = disk_matches(alloc, args)?;
    request_in(&matches).ok_or(ArgsError::Usage)
}

/// The file that the arguments name, `None` if they name none or `-`, which is standard input. `Usage` if and only if clap
/// refuses them, `NoMemory` if an allocation failed.
pub fn disk_file<'a>(alloc: Global, args: &'a [&str]) -> Result<Option<&'a str>, ArgsError>
    ensures ok { IfOk result (λ file.
        option_map (λ s. s.now) file ≡ disk_file (texts_of args.entry.now)) }
    ensures refused { IfErr result (λ fault. ExplainsArgs fault (AreRefusedByDisk (texts_of args.entry.now))) }
{
    let matches = disk_matches(alloc, args)?;
    Ok(file_met(&matches))
}

/// The arguments of the documentation are taken with what they ask for and the file that they name, and other
/// arguments are refused, calls for help among them. A name is any text that is no number.
#[tactic(auto, unfolding(clap::proofs::OnLiterals::clap_on_literals))]
pub fn disk_words_as_documented()
    ensures list { AsksDiskOf (codes "adf-disk" ∷ codes "list" ∷ []) (list false) None }
    ensures check { AsksDiskOf (codes "adf-disk" ∷ codes "check" ∷ []) (check false) None }
    ensures survey { AsksDiskOf (codes "adf-disk" ∷ codes "survey" ∷ []) (list false) None }
    ensures build { AsksDiskOf (codes "adf-disk" ∷ codes "build" ∷ []) build None }
    ensures number { AsksDiskOf (codes "adf-disk" ∷ codes "volume" ∷ codes "2" ∷ []) (volume (number 2)) None }
    ensures name { AsksDiskOf (codes "adf-disk" ∷ codes "volume" ∷ codes "DH0" ∷ [])
        (volume (name (codes "DH0"))) None }
    ensures any_name { (first : ℕ) (rest : List ℕ) → (first == 45) ≡ false
        → AsksDiskOf (codes "adf-disk" ∷ codes "volume" ∷ (first ∷ rest) ∷ [])
        (volume (wanted_named (first ∷ rest))) None }
    ensures dashed_name { (text : List ℕ)
        → AsksDiskOf (codes "adf-disk" ∷ codes "volume" ∷ codes "--" ∷ text ∷ [])
        (volume (wanted_named text)) None }
    ensures list_file { AsksDiskOf (codes "adf-disk" ∷ codes "list" ∷ codes "a.hdf" ∷ [])
        (list false) (Some (codes "a.hdf")) }
    ensures list_input { AsksDiskOf (codes "adf-disk" ∷ codes "list" ∷ codes "-" ∷ []) (list false) None }
    ensures list_any { (file : List ℕ) → AsksDiskOf
        (codes "adf-disk" ∷ codes "list" ∷ codes "--" ∷ file ∷ []) (list false) (file_meant file) }
    ensures check_file { AsksDiskOf (codes "adf-disk" ∷ codes "check" ∷ codes "a.hdf" ∷ [])
        (check false) (Some (codes "a.hdf")) }
    ensures survey_file { AsksDiskOf (codes "adf-disk" ∷ codes "survey" ∷ codes "a.hdf" ∷ [])
        (list false) (Some (codes "a.hdf")) }
    ensures build_file { AsksDiskOf (codes "adf-disk" ∷ codes "build" ∷ codes "plan" ∷ [])
        build (Some (codes "plan")) }
    ensures volume_file { AsksDiskOf
        (codes "adf-disk" ∷ codes "volume" ∷ codes "DH0" ∷ codes "a.hdf" ∷ [])
        (volume (name (codes "DH0"))) (Some (codes "a.hdf")) }
    ensures volume_any { (text file : List ℕ) → AsksDiskOf
        (codes "adf-disk" ∷ codes "volume" ∷ codes "--" ∷ text ∷ file ∷ [])
        (volume (wanted_named text)) (file_meant file) }
    ensures list_json { AsksDiskOf (codes "adf-disk" ∷ codes "list" ∷ codes "--json" ∷ []) (list true) None }
    ensures check_json { AsksDiskOf (codes "adf-disk" ∷ codes "check" ∷ codes "--json" ∷ codes "a.hdf" ∷ [])
        (check true) (Some (codes "a.hdf")) }
    ensures survey_json { AsksDiskOf (codes "adf-disk" ∷ codes "survey" ∷ codes "a.hdf" ∷ codes "--json" ∷ [])
        (list true) (Some (codes "a.hdf")) }
    ensures search { AsksDiskOf (codes "adf-disk" ∷ codes "survey" ∷ codes "--search" ∷ []) (search false) None }
    ensures search_file { AsksDiskOf (codes "adf-disk" ∷ codes "survey" ∷ codes "--search" ∷ codes "a.hdf" ∷ [])
        (search false) (Some (codes "a.hdf")) }
    ensures search_json { AsksDiskOf
        (codes "adf-disk" ∷ codes "survey" ∷ codes "--json" ∷ codes "a.hdf" ∷ codes "--search" ∷ [])
        (search true) (Some (codes "a.hdf")) }
    ensures plan { AsksDiskOf (codes "adf-disk" ∷ codes "survey" ∷ codes "--search" ∷ codes "--plan" ∷ []) propose None }
    ensures plan_file { AsksDiskOf
        (codes "adf-disk" ∷ codes "survey" ∷ codes "--plan" ∷ codes "--search" ∷ codes "a.hdf" ∷ [])
        propose (Some (codes "a.hdf")) }
    ensures plan_alone { AreRefusedByDisk (codes "adf-disk" ∷ codes "survey" ∷ codes "--plan" ∷ []) }
    ensures plan_json { AreRefusedByDisk
        (codes "adf-disk" ∷ codes "survey" ∷ codes "--search" ∷ codes "--plan" ∷ codes "--json" ∷ []) }
    ensures search_list { AreRefusedByDisk (codes "adf-disk" ∷ codes "list" ∷ codes "--search" ∷ []) }
    ensures no_args { AreRefusedByDisk [] }
    ensures no_command { AreRefusedByDisk (codes "adf-disk" ∷ []) }
    ensures unknown { AreRefusedByDisk (codes "adf-disk" ∷ codes "frob" ∷ []) }
    ensures no_name { AreRefusedByDisk (codes "adf-disk" ∷ codes "volume" ∷ []) }
    ensures dash { AreRefusedByDisk (codes "adf-disk" ∷ codes "volume" ∷ codes "-x" ∷ []) }
    ensures volume_two { AreRefusedByDisk
        (codes "adf-disk" ∷ codes "volume" ∷ codes "DH0" ∷ codes "a" ∷ codes "b" ∷ []) }
    ensures list_two { AreRefusedByDisk
        (codes "adf-disk" ∷ codes "list" ∷ codes "a" ∷ codes "b" ∷ []) }
    ensures build_two { AreRefusedByDisk
        (codes "adf-disk" ∷ codes "build" ∷ codes "a" ∷ codes "b" ∷ []) }
    ensures json_twice { AreRefusedByDisk
        (codes "adf-disk" ∷ codes "list" ∷ codes "--json" ∷ codes "--json" ∷ []) }
    ensures json_list { AreRefusedByDisk (codes "adf-disk" ∷ codes "--json" ∷ codes "list" ∷ []) }
    ensures json_volume { AreRefusedByDisk
        (codes "adf-disk" ∷ codes "volume" ∷ codes "--json" ∷ codes "DH0" ∷ []) }
    ensures json_build { AreRefusedByDisk (codes "adf-disk" ∷ codes "build" ∷ codes "--json" ∷ []) }
    ensures file_list { AreRefusedByDisk (codes "adf-disk" ∷ codes "a.hdf" ∷ codes "list" ∷ []) }
    ensures help { AreRefusedByDisk (codes "adf-disk" ∷ codes "--help" ∷ []) }
    ensures help_arg { AreRefusedByDisk (codes "adf-disk" ∷ codes "help" ∷ []) }
    ensures version { AreRefusedByDisk (codes "adf-disk" ∷ codes "--version" ∷ []) }
{}

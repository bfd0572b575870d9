// The arguments of `adf-survey`, by clap.

ghost use Rattle.std.specs.Prelude.{◌≡◌, IfOk, IfErr, [], false, option_map};
ghost use Rattle.clap.specs.Words.{app_of, fault_of, found_of, matches_of, rows_of, subcommand_of, subcommand_rows_of};
ghost use Rattle.clap.specs.declared.builder.command.Command.TheViews.{out-Command};
ghost use Rattle.adf_words.specs.{CommandLine.ExplainsArgs, CommandLine.texts_of};
ghost use Rattle.adf_words.specs.declared.command_line.ArgsError.TheVariants.{Usage};
ghost use Rattle.adf_survey_cmd.specs.CommandLine.{AreRefusedBySurvey, AsksSurvey, blocks_met, cat_asked, cat_met, survey_file_app};
ghost use Rattle.adf_survey_cmd.specs.CommandLine.{flagged_survey, inquiry_met, inquiry_value, map_met, question_met};
ghost use Rattle.adf_survey_cmd.specs.CommandLine.{question_named, question_value, rescue_met, survey_app, survey_cat_app};
ghost use Rattle.adf_survey_cmd.specs.CommandLine.{survey_file, survey_rescue_app, types_kept, wish_met};

use adf_blocks::MOST_BLOCKS;
use adf_file_runs::About;
use adf_maps::{Map, MapFault, read_map};
use adf_volume::Types;
use adf_words::{
    ArgsError, bare_command, cat_command, file_argument, file_met, first_text, flag, has_flag,
    matches_of, number_named, with_argument, with_subcommand,
};
use clap::{Arg, ArgMatches, Command};
use std::alloc::{AllocError, Global};

/// What is said of arguments that are refused.
pub const SURVEY_USAGE: &str =
    "usage: adf-survey [--blocks N] [--map MAP] [--blank] [--list] [--json] [FILE]\n\
    \x20      adf-survey [--blocks N] [--map MAP] [--blank] cat [--damaged] PATH [FILE]\n\
    \x20      adf-survey [--blocks N] [--map MAP] [--blank] cat --deleted BLOCK [FILE]\n\
    \x20      adf-survey [--blocks N] [--map MAP] [--blank] rescue [--keep-type] [--deleted] [--before-format] [FILE]\n\
    \x20      adf-survey [--blocks N] [--map MAP] [--blank] rescue --keep-all [--deleted] [FILE]\n\
    \x20      adf-survey [--blocks N] [--map MAP] [--blank] deleted [FILE]\n\
    \x20      adf-survey [--blocks N] [--map MAP] [--blank] blank [FILE]\n\
    \x20      adf-survey [--blocks N] [--map MAP] [--blank] claims [FILE]\n\
    without a FILE the image comes on standard input; man adf-survey tells more\n";

/// What the program tells of itself.
pub const ABOUT: About = About {
    name: "adf-survey",
    help: "Tells all that is wrong in an image of an Amiga floppy or hard disk, and reads what is sound.\n\n\
    usage: adf-survey [--blocks N] [--map MAP] [--blank] [--list] [--json] [FILE]\n\
    \x20          each finding; with --list each entry that is found too; with --json each line is an object\n\
    \x20      adf-survey [--blocks N] [--map MAP] [--blank] cat [--damaged] PATH [FILE]\n\
    \x20          a sound file; with --damaged what is left of any file\n\
    \x20      adf-survey [--blocks N] [--map MAP] [--blank] cat --deleted BLOCK [FILE]\n\
    \x20          what is left of the deleted file whose header is in this block\n\
    \x20      adf-survey [--blocks N] [--map MAP] [--blank] rescue [--keep-type] [--deleted] [--before-format] [FILE] > NEW\n\
    \x20          a new volume of all that can be kept; with --keep-type of the letters of the image;\n\
    \x20          with --deleted also of the deleted files that are whole, in a directory deleted;\n\
    \x20          with --before-format of what was there before the disk was formatted, and not of what stands now\n\
    \x20      adf-survey [--blocks N] [--map MAP] [--blank] rescue --keep-all [--deleted] [FILE] > NEW\n\
    \x20          as with --keep-type, and with the links that can be kept\n\
    \x20      adf-survey [--blocks N] [--map MAP] [--blank] deleted [FILE]\n\
    \x20          each deleted file and directory whose header still stands, and what speaks for it\n\
    \x20      adf-survey [--blocks N] [--map MAP] [--blank] blank [FILE]\n\
    \x20          which bytes of files are whole blocks of zeros, or of a pattern of dumping programs\n\
    \x20      adf-survey [--blocks N] [--map MAP] [--blank] claims [FILE]\n\
    \x20          all that is judged, for a comparison with other judges\n\
    \x20      adf-survey --help, adf-survey --version\n\n\
    Without a FILE, or with -, the image comes on standard input. --blocks N reads it as if it had N blocks.\n\
    --map MAP is the map that GNU ddrescue wrote of the reading: what it says was not read is no data.\n\
    With --blank each block of zeros, or of a pattern of dumping programs, counts as one that was never read.\n\
    man adf-survey tells more.\n",
    waits: Some("waiting for standard input; adf-survey --help tells more\n"),
};

/// What a rescue is to have: a volume of these types, and perhaps the whole deleted files and the links; and whether it is of what
/// was there before the image was formatted.
#[derive(Clone, Copy, Debug, PartialEq, Eq)]
pub struct RescueWish {
    pub types: Types,
    pub with_deleted: bool,
    pub before_format: bool,
    pub with_links: bool,
}

/// What is asked of an image.
#[derive(Clone, Copy, Debug)]
pub enum Question<'a> {
    /// All findings, and with `list` what exists, as lines or as objects.
    Report { list: bool, json: bool },
    /// The bytes of a file by the text of its path: of an intact one, or of one that may be damaged.
    Cat { path: &'a str, damaged: bool },
    /// A new volume.
    Rescue(RescueWish),
    /// The deleted headers, or the bytes of the file of one, by its block.
    Deleted { file: Option<u32> },
    /// The bytes of files in blank blocks.
    Blanks,
    /// All that is judged.
    Claims,
}

/// What a command line asks for.
#[derive(Drop)]
pub struct Inquiry<'a> {
    /// As if the image had so many blocks, at most those of the largest volume; `None`: as it is.
    pub blocks: Option<u32>,
    /// What a map says was not read.
    pub map: Option<Map>,
    /// Each blank block counts as never read.
    pub blank: bool,
    pub question: Question<'a>,
}

// The command line without its subcommands.
fn flagged<'a>(alloc: Global) -> Result<Command<'a>, AllocError>
    ensures { IfOk result (λ c. app_of c ≡ flagged_survey) }
{
    let blocks = Arg::new(alloc, "blocks").long("blocks");
    let numbered = with_argument(Ok(bare_command(alloc, "adf-survey")), blocks);
    let mapped = with_argument(numbered, Arg::new(alloc, "map").long("map"));
    let blanked = with_argument(mapped, flag(alloc, "blank"));
    let listed = with_argument(blanked, flag(alloc, "list"));
    let objects = with_argument(listed, flag(alloc, "json"));
    with_argument(objects, file_argument(alloc))
}

// The command `cat [--damaged] PATH [FILE]`, or `cat --deleted BLOCK [FILE]`.
fn survey_cat_command<'a>(alloc: Global) -> Result<Command<'a>, AllocError>
    ensures app { IfOk result (λ c. app_of c ≡ survey_cat_app) }
    ensures local { IfOk result (λ c. (out-Command c).has_globals ≡ false) }
{
    let damaged = with_argument(cat_command(alloc), flag(alloc, "damaged"));
    let cats = with_argument(damaged, flag(alloc, "deleted"));
    with_argument(cats, file_argument(alloc))
}

// The command `rescue [--keep-type] [--keep-all] [--deleted] [--before-format] [FILE]`.
fn survey_rescue_command<'a>(alloc: Global) -> Result<Command<'a>, AllocError>
    ensures app { IfOk result (λ c. app_of c ≡ survey_rescue_app) }
    ensures local { IfOk result (λ c. (out-Command c).has_globals ≡ false) }
{
    let typed = with_argument(Ok(Command::new(alloc, "rescue")), flag(alloc, "keep-type"));
    let linked = with_argument(typed, flag(alloc, "keep-all"));
    let rescues = with_argument(linked, flag(alloc, "deleted"));
    let formatted = with_argument(rescues, flag(alloc, "before-format"));
    with_argument(formatted, file_argument(alloc))
}

// The command `NAME [FILE]`.
fn file_command<'a>(alloc: Global, name: &'a str) -> Result<Command<'a>, AllocError>
    ensures app { IfOk result (λ c. app_of c ≡ survey_file_app name.now) }
    ensures local { IfOk result (λ c. (out-Command c).has_globals ≡ false) }
{
    with_argument(Ok(Command::new(alloc, name)), file_argument(alloc))
}

// The command line.
fn command<'a>(alloc: Global) -> Result<Command<'a>, AllocError>
    ensures { IfOk result (λ c. app_of c ≡ survey_app) }
{
    let cats = with_subcommand(flagged(alloc), survey_cat_command(alloc));
    let rescues = with_subcommand(cats, survey_rescue_command(alloc));
    let deletes = with_subcommand(rescues, file_command(alloc, "deleted"));
    let blanks = with_subcommand(deletes, file_command(alloc, "blank"));
    with_subcommand(blanks, file_command(alloc, "claims"))
}

// The blocks that the matches name, if any.
fn blocks_in(matches: &ArgMatches<'_>) -> Option<Option<u32>>
    ensures { result ≡ blocks_met (rows_of (found_of matches.now)) }
{
    match first_text(matches, "blocks") {
        Some(text) => match number_named(text, MOST_BLOCKS) {
            Some(blocks) => Some(Some(blocks)),
            None => None,
        },
        None => Some(None),
    }
}

// What `cat` asks of the file under a path, or with `--deleted` of the one whose header is in a block.
fn cat_asked(deleted_one: bool, damaged: bool, text: &str) -> Option<Question<'_>>
    ensures { option_map question_value result ≡ cat_asked deleted_one damaged text.now }
{
    if !deleted_one {
        return Some(Question::Cat {
            path: text,
            damaged,
        });
    }
    if damaged {
        return None;
    }
    match number_named(text, MOST_BLOCKS) {
        Some(block) => Some(Question::Deleted { file: Some(block) }),
        None => None,
    }
}

// What the matches of `cat` ask.
#[tactic(auto, unfolding(crate::specs::CommandLine::cat_met))]
fn cat_in<'a>(found: &ArgMatches<'a>) -> Option<Question<'a>>
    ensures { option_map question_value result ≡ cat_met (rows_of (found_of found.now)) }
{
    let deleted_one = has_flag(found, "deleted");
    let damaged = has_flag(found, "damaged");
    match first_text(found, "path") {
        Some(text) => cat_asked(deleted_one, damaged, text),
        None => None,
    }
}

// The types that the volume of a rescue may have.
fn types_kept(keep_letters: bool) -> Types
    ensures { result ≡ types_kept keep_letters }
{
    if keep_letters {
        Types::WithInternational
    } else {
        Types::Plain
    }
}

// The rescue that the matches of `rescue` ask for.
fn wish_in(found: &ArgMatches<'_>) -> RescueWish
    ensures { result ≡ wish_met (rows_of (found_of found.now)) }
{
    let with_links = has_flag(found, "keep-all");
    RescueWish {
        types: types_kept(with_links || has_flag(found, "keep-type")),
        with_deleted: has_flag(found, "deleted"),
        before_format: has_flag(found, "before-format"),
        with_links,
    }
}

// What the matches of `rescue` ask.
#[tactic(auto, unfolding(crate::specs::CommandLine::rescue_met))]
fn rescue_in<'a>(found: &ArgMatches<'a>) -> Option<Question<'a>>
    ensures { option_map question_value result ≡ rescue_met (rows_of (found_of found.now)) }
{
    let wish = wish_in(found);
    if wish.with_links && wish.before_format {
        None
    } else {
        Some(Question::Rescue(wish))
    }
}

// What a subcommand's name and matches ask.
fn question_named<'a>(name: &str, found: &ArgMatches<'a>) -> Option<Question<'a>>
    ensures { option_map question_value result
        ≡ question_named name.now (rows_of (found_of found.now)) }
{
    if name == "cat" {
        cat_in(found)
    } else if name == "rescue" {
        rescue_in(found)
    } else if name == "deleted" {
        Some(Question::Deleted { file: None })
    } else if name == "blank" {
        Some(Question::Blanks)
    } else if name == "claims" {
        Some(Question::Claims)
    } else {
        None
    }
}

// What the matches ask.
fn question_in<'a>(matches: &ArgMatches<'a>) -> Option<Question<'a>>
    ensures { option_map question_value result
        ≡ question_met (rows_of (found_of matches.now)) (subcommand_rows_of matches.now) }
{
    let list = has_flag(matches, "list");
    let json = has_flag(matches, "json");
    let excludes = list || json || first_text(matches, "file").is_some();
    match matches.subcommand() {
        Some(_) if excludes => None,
        Some((name, found)) => question_named(name, found),
        None => Some(Question::Report { list, json }),
    }
}

// The map whose text the matches have, if any; `None` if it is the text of no map.
fn map_in(alloc: Global, matches: &ArgMatches<'_>) -> Result<Option<Option<Map>>, AllocError>
    ensures { IfOk result (λ map. map ≡ map_met (rows_of (found_of matches.now))) }
{
    let Some(text) = first_text(matches, "map") else {
        return Ok(Some(None));
    };
    match read_map(alloc, text.as_bytes()) {
        Ok(map) => Ok(Some(Some(map))),
        Err(MapFault::NoMap) => Ok(None),
        Err(MapFault::NoMemory) => Err(AllocError),
    }
}

// What the matches ask for.
fn inquiry_in<'a>(
    alloc: Global,
    matches: &ArgMatches<'a>,
) -> Result<Option<Inquiry<'a>>, AllocError>
    ensures { IfOk result (λ o. option_map inquiry_value o
        ≡ inquiry_met (rows_of (found_of matches.now)) (subcommand_rows_of matches.now)) }
{
    let Some(map) = map_in(alloc, matches)? else {
        return Ok(None);
    };
    let blank = has_flag(matches, "blank");
    match (blocks_in(matches), question_in(matches)) {
        (Some(blocks), Some(question)) => Ok(Some(Inquiry {
            blocks,
            map,
            blank,
            question,
        })),
        _ => Ok(None),
    }
}

// The matches of the arguments.
fn survey_matches<'a>(alloc: Global, args: &'a [&str]) -> Result<ArgMatches<'a>, ArgsError>
    ensures taken { IfOk result (λ _. fault_of survey_app (texts_of args.entry.now) ≡ []) }
    ensures rows { IfOk result (λ matches.
        rows_of (found_of matches) ≡ matches_of survey_app (texts_of args.entry.now)) }
    ensures subcommand { IfOk result (λ matches.
        subcommand_rows_of matches ≡ subcommand_of survey_app (texts_of args.entry.now)) }
    ensures refused { IfErr result (λ fault. fault ≡ Usage
        → ¬ (fault_of survey_app (texts_of args.entry.now) ≡ [])) }
{
    matches_of(command(alloc)?, args)
}

/// Reads the arguments; the first one is the program's name. `Usage` if and only if clap refuses them or its matches lack the
/// path, have `--list`, `--json` or a file before a command, have no number of blocks or of a block, no text of a map, `--damaged`
/// beside `--deleted`, or `--keep-all` beside `--before-format`; `NoMemory` if an allocation failed.
pub fn parse_survey<'a>(alloc: Global, args: &'a [&str]) -> Result<Inquiry<'a>, ArgsError>
    ensures ok { IfOk result (λ inquiry.
        AsksSurvey (texts_of args.entry.now) (inquiry_value inquiry)) }
    ensures refused { IfErr result (λ fault. ExplainsArgs fault (AreRefusedBySurvey (texts_of args.entry.now))) }
{
    let matches = survey_matches(alloc, args)?;
    inquiry_in(alloc, &matches)?.ok_or(ArgsError::Usage)
}

/// The file that the arguments name, `None` if they name none or `-`, which is standard input. `Usage` if and only if clap
/// refuses them, `NoMemory` if an allocation failed.
pub fn survey_file<'a>(alloc: Global, args: &'a [&str]) -> Result<Option<&'a str>, ArgsError>
    ensures ok { IfOk result (λ file.
        option_map (λ s. s.now) file ≡ survey_file (texts_of args.entry.now)) }
    ensures refused { IfErr result (λ fault. ExplainsArgs fault (AreRefusedBySurvey (texts_of args.entry.now))) }
{
    let matches = survey_matches(alloc, args)?;
    Ok(file_met(&matches))
}

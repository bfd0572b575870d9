// The arguments of `adf-boot`, by clap.

ghost use Rattle.std.specs.Prelude.{◌≡◌, IfOk, IfErr, [], false, option_map};
ghost use Rattle.clap.specs.Words.{app_of, fault_of, found_of, matches_of, rows_of, subcommand_of, subcommand_rows_of};
ghost use Rattle.clap.specs.declared.builder.command.Command.TheViews.{out-Command};
ghost use Rattle.adf_boot_cmd.specs.CommandLine.{AreRefusedByBoot, AsksBoot, boot_app, boot_file, boot_met};
ghost use Rattle.adf_boot_cmd.specs.CommandLine.{boot_request_named, boot_request_value, copy_app, told_app};
ghost use Rattle.adf_words.specs.CommandLine.{ExplainsArgs, texts_of};
ghost use Rattle.adf_words.specs.declared.command_line.ArgsError.TheVariants.{Usage};

use adf_file_runs::About;
use adf_words::{
    ArgsError, bare_command, file_argument, file_met, first_text, flag, has_flag, matches_of,
    required, with_argument, with_file, with_subcommand,
};
use clap::{ArgMatches, Command};
use std::alloc::{AllocError, Global};

/// What is said of arguments that are refused.
pub const BOOT_USAGE: &str =
    "usage: adf-boot [--json] [FILE]\n       adf-boot install [FILE] > NEW\n       adf-boot copy BOOTFILE [FILE] > NEW\n\
    \x20      adf-boot clear [FILE] > NEW\n       adf-boot -i COMMAND FILE\n       adf-boot -o NEW COMMAND FILE\n\
    without a FILE the image comes on standard input; man adf-boot tells more\n";

/// What the program tells of itself.
pub const ABOUT: About = About {
    name: "adf-boot",
    help: "Tells whether an Amiga starts from an image, and writes images with other boot blocks.\n\n\
    usage: adf-boot [--json] [FILE]             the state, the type and the CRC-32 of the boot blocks\n\
    \x20      adf-boot install [FILE] > NEW        with code that starts AmigaDOS\n\
    \x20      adf-boot copy BOOTFILE [FILE] > NEW  with the first 1,024 bytes of another file\n\
    \x20      adf-boot clear [FILE] > NEW          without code\n\
    \x20      adf-boot -i COMMAND FILE             one of these commands, in FILE itself\n\
    \x20      adf-boot -o NEW COMMAND FILE         one of these commands, into the file NEW\n\
    \x20      adf-boot --help, adf-boot --version\n\n\
    Without a FILE the image comes on standard input.\n\
    With -i or -o the file is replaced at once or not at all. man adf-boot tells more.\n",
    waits: None,
};

/// What a command line asks for.
#[derive(Clone, Copy, Debug)]
pub enum BootRequest<'a> {
    /// What the boot blocks are: as a line, or as an object.
    Tell { json: bool },
    Install,
    Clear,
    /// The name of the boot file.
    Copy(&'a str),
}

/// What a command line asks for, and the file that it names; `None` for standard input.
#[derive(Clone, Copy, Debug)]
pub struct BootWords<'a> {
    pub request: BootRequest<'a>,
    pub file: Option<&'a str>,
}

// The command `copy BOOTFILE [FILE]`.
fn copy_command<'a>(alloc: Global) -> Result<Command<'a>, AllocError>
    ensures app { IfOk result (λ c. app_of c ≡ copy_app) }
    ensures local { IfOk result (λ c. (out-Command c).has_globals ≡ false) }
{
    let copies = with_argument(Ok(Command::new(alloc, "copy")), required(alloc, "boot"));
    with_argument(copies, file_argument(alloc))
}

// The command line without its subcommands.
fn told_command<'a>(alloc: Global) -> Result<Command<'a>, AllocError>
    ensures { IfOk result (λ c. app_of c ≡ told_app) }
{
    let flagged = with_argument(Ok(bare_command(alloc, "adf-boot")), flag(alloc, "json"));
    with_argument(flagged, file_argument(alloc))
}

// The command line.
fn command<'a>(alloc: Global) -> Result<Command<'a>, AllocError>
    ensures { IfOk result (λ c. app_of c ≡ boot_app) }
{
    let installs = with_file(alloc, told_command(alloc), "install");
    let clears = with_file(alloc, installs, "clear");
    with_subcommand(clears, copy_command(alloc))
}

// The request that a subcommand's name and matches are.
fn request_named<'a>(name: &str, found: &ArgMatches<'a>) -> Option<BootRequest<'a>>
    ensures { option_map boot_request_value result
        ≡ boot_request_named name.now (rows_of (found_of found.now)) }
{
    if name == "install" {
        Some(BootRequest::Install)
    } else if name == "clear" {
        Some(BootRequest::Clear)
    } else if name == "copy" {
        match first_text(found, "boot") {
            Some(text) => Some(BootRequest::Copy(text)),
            None => None,
        }
    } else {
        None
    }
}

// The request that the matches are.
fn request_in<'a>(matches: &ArgMatches<'a>) -> Option<BootRequest<'a>>
    ensures { option_map boot_request_value result
        ≡ boot_met (rows_of (found_of matches.now)) (subcommand_rows_of matches.now) }
{
    let json = has_flag(matches, "json");
    let excludes = json || first_text(matches, "file").is_some();
    match matches.subcommand() {
        Some(_) if excludes => None,
        Some((name, found)) => request_named(name, found),
        None => Some(BootRequest::Tell { json }),
    }
}

// The matches of the arguments.
fn boot_matches<'a>(alloc: Global, args: &'a [&str]) -> Result<ArgMatches<'a>, ArgsError>
    ensures taken { IfOk result (λ _. fault_of boot_app (texts_of args.entry.now) ≡ []) }
    ensures rows { IfOk result (λ matches.
        rows_of (found_of matches) ≡ matches_of boot_app (texts_of args.entry.now)) }
    ensures subcommand { IfOk result (λ matches.
        subcommand_rows_of matches ≡ subcommand_of boot_app (texts_of args.entry.now)) }
    ensures refused { IfErr result (λ fault. fault ≡ Usage
        → ¬ (fault_of boot_app (texts_of args.entry.now) ≡ [])) }
{
    matches_of(command(alloc)?, args)
}

/// Reads the arguments; the first one is the program's name. `Usage` if and only if clap refuses them or its matches lack the
/// boot file or have a flag or a file before a command; `NoMemory` if an allocation failed.
pub fn parse_boot<'a>(alloc: Global, args: &'a [&str]) -> Result<BootWords<'a>, ArgsError>
    ensures ok { IfOk result (λ words.
        AsksBoot (texts_of args.entry.now) (boot_request_value words.request)) }
    ensures file { IfOk result (λ words.
        option_map (λ s. s.now) words.file ≡ boot_file (texts_of args.entry.now)) }
    ensures refused { IfErr result (λ fault. ExplainsArgs fault (AreRefusedByBoot (texts_of args.entry.now))) }
{
    let matches = boot_matches(alloc, args)?;
    let request = request_in(&matches).ok_or(ArgsError::Usage)?;
    Ok(BootWords {
        request,
        file: file_met(&matches),
    })
}

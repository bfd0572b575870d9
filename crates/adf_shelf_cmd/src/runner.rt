// The whole command.

ghost use Rattle.std.specs.Prelude.{◌≡◌, ◌≢◌, ◌≤◌, Bool, [], false, if◌then◌else◌};
ghost use Rattle.adf_volume.specs.declared.types.Types.TheVariants.{Plain, WithInternational};
ghost use Rattle.adf_words.specs.CommandLine.{texts_of};
ghost use Rattle.adf_runs.specs.Streams.{seen};
ghost use Rattle.adf_shelf_cmd.specs.CommandLine.{AsksShelf, AreRefusedByShelf, ShelfOrder};
ghost use Rattle.adf_shelf_cmd.specs.Lines.{Ends, IsLineOf, IsReportOf, IsRunStatus};
ghost use Rattle.adf_shelf_cmd.specs.Names.{are_unread, name_end, names_asked, types_asked};

use crate::batch::{Stop, say_more, write_verdicts};
use crate::command_line::{Order, SHELF_USAGE as USAGE, parse_shelf};
use crate::names::{Names, TextNames, WordNames};
use crate::report::ImageChecks;
use adf_file_runs::Files;
use adf_runs::{Sink, say};
use adf_volume::Types;
use adf_words::ArgsError;
use std::alloc::Global;
use std::io::BufRead;

// Writes the lines of names, says on errors why files could not be opened and why it stopped, and answers the status.
fn run_names<N: Names, F: Files, W: Sink, E: Sink>(
    checks: ImageChecks,
    names: &mut N,
    files: &F,
    output: &mut W,
    errors: &mut E,
) -> u8
    requires writes { W.has_failed output.old ≡ false }
    requires tells { E.has_failed errors.old ≡ false }
    ensures ends { Ends (IsLineOf checks.json (IsReportOf checks.types (F.bytes_of files.now) (F.may_fail files.now)))
        (N.left names.old) (N.has_failed names.new) result (seen W.held W.has_failed output.old output.new) }
    ensures status { IsRunStatus result }
{
    match write_verdicts(checks, names, files, output, errors) {
        Ok(status) => status,
        Err(stop) => {
            say_more(errors, stop.line().as_bytes());
            3
        }
    }
}

// The byte that ends a name in the input.
fn name_end(null: bool) -> u8
    ensures { result ≡ name_end null }
{
    if null { 0 } else { b'\n' }
}

// The types that are accepted.
fn types_asked(any_type: bool) -> Types
    ensures { result ≡ (if any_type then WithInternational else Plain) }
{
    if any_type {
        Types::WithInternational
    } else {
        Types::Plain
    }
}

// Writes the lines of the names of an order, or where it has none of those in the input.
fn run_order<B: BufRead, F: Files, W: Sink, E: Sink>(
    alloc: Global,
    order: &Order<'_>,
    input: &mut TextNames<B>,
    files: &F,
    output: &mut W,
    errors: &mut E,
) -> u8
    requires writes { W.has_failed output.old ≡ false }
    requires tells { E.has_failed errors.old ≡ false }
    ensures ends { Ends (IsLineOf order.now.json
        (IsReportOf (types_asked order.now) (F.bytes_of files.now) (F.may_fail files.now)))
        (names_asked order.now (B.remaining input.old.text)) (are_unread order.now.files input.new.failed) result
        (seen W.held W.has_failed output.old output.new) }
    ensures status { IsRunStatus result }
    ensures unread { order.now.files ≢ [] → input.new ≡ input.old }
{
    let types = types_asked(order.any_type);
    let checks = ImageChecks {
        alloc,
        types,
        json: order.json,
    };
    if order.files.is_empty() {
        input.end = name_end(order.null);
        return run_names(checks, input, files, output, errors);
    }
    let mut named = WordNames::new(&order.files);
    run_names(checks, &mut named, files, output, errors)
}

/// Writes the verdict on each image that the words name, or else the input, in order; the first word is
/// the program's name. Returns the status:
///
/// - 0 if all are sound;
/// - 1 if one is refused, and all were read;
/// - 2 if the words are not accepted, as errors say; nothing is read or written;
/// - 3 if an image could not be read, as its line says, or if the names, a device or memory failed, as
///   errors say.
///
/// Errors also say why a file could not be opened, as far as the system does.
pub fn run<B: BufRead, F: Files, W: Sink, E: Sink>(
    alloc: Global,
    words: &[&str],
    input: &mut TextNames<B>,
    files: &F,
    output: &mut W,
    errors: &mut E,
) -> u8
    requires writes { W.has_failed output.old ≡ false }
    requires tells { E.has_failed errors.old ≡ false }
    ensures most { result ≤ 3 }

    // Where the words are taken, output has the lines of the names, or the work stopped.
    ensures ends { (order : ShelfOrder) → AsksShelf (texts_of words.now) order
        → (unread : Bool) × (input.old.failed ≡ false → unread ≡ are_unread order.files input.new.failed)
        × Ends (IsLineOf order.json
        (IsReportOf (types_asked order) (F.bytes_of files.now) (F.may_fail files.now)))
        (names_asked order (B.remaining input.old.text)) unread result
        (seen W.held W.has_failed output.old output.new) }

    // Where the words name images, the input is not read.
    ensures unread { (order : ShelfOrder) → AsksShelf (texts_of words.now) order
        → order.files ≢ [] → input.new ≡ input.old }

    // At status 2 the words are refused; where they are, nothing was read or written.
    ensures usage { result ≡ 2 → AreRefusedByShelf (texts_of words.now) }
    ensures refused { AreRefusedByShelf (texts_of words.now) → ¬ (result ≡ 3) → result ≡ 2 }
    ensures untouched { AreRefusedByShelf (texts_of words.now)
        → (input.new ≡ input.old) × (output.new ≡ output.old) }
{
    match parse_shelf(alloc, words) {
        Ok(order) => run_order(alloc, &order, input, files, output, errors),
        Err(ArgsError::Usage) => {
            say(errors, USAGE.as_bytes());
            2
        }
        Err(ArgsError::NoMemory) => {
            say(errors, Stop::NoMemory.line().as_bytes());
            3
        }
    }
}

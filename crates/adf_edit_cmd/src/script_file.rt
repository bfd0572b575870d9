// Edits in a file: each line has the words of one.

ghost use Rattle.std.specs.Prelude.{◌≡◌, IfSome, false, option_map};
ghost use Rattle.std.specs.Option.{unwrap_or};
ghost use Rattle.adf_edit_cmd.specs.Changing.{IsTargetOf, OrderEnds};
ghost use Rattle.adf_file_runs.specs.FileRuns.{known_files};
ghost use Rattle.adf_words.specs.CommandLine.{texts_of};

use crate::changing::{NoChange, change_disk, read_file, tell_no_change};
use crate::lines::has_byte;
use crate::stop::Stop;
use crate::words::{Line, Order, add_line, operands};
use adf_file_runs::{ChangeFiles, Unopened, refuse_file};
use adf_runs::Sink;
use std::alloc::{AllocError, Global};
use std::str;

/// What words ask for: the file of the edits, the image that they are applied to, and the file that gets the new one.
#[derive(Drop)]
pub struct ScriptOrder<'a> {
    pub script: &'a str,
    pub image: &'a str,
    pub target: &'a str,
}

// The words of a line.
fn words_in<'a>(alloc: Global, line: &'a str) -> Result<Vec<&'a str>, AllocError> {
    if has_byte(line.as_bytes(), b'\t') {
        return line.split('\t').collect(alloc);
    }
    line.split(' ').collect(alloc)
}

// The lines of a text.
fn text_lines<'a>(alloc: Global, text: &'a str) -> Result<Vec<&'a str>, AllocError> {
    text.lines().collect(alloc)
}

// Appends the edit of a line, and returns whether it is one.
fn add_filed<'a>(
    alloc: Global,
    edits: &mut Vec<Line<'a>>,
    line: &'a str,
) -> Result<bool, AllocError> {
    let words = words_in(alloc, line)?;
    add_line(alloc, edits, &words)
}

// The edits of lines. `BadLine` is the first line that is none.
fn lines_filed<'a>(alloc: Global, lines: Vec<&'a str>) -> Result<Vec<Line<'a>>, Stop> {
    let mut edits = Vec::new(alloc);
    for line in lines {
        match add_filed(alloc, &mut edits, line) {
            Ok(true) => {}
            Ok(false) => return Err(Stop::BadLine(edits.len() + 1)),
            Err(_) => return Err(Stop::NoMemory),
        }
    }
    Ok(edits)
}

// The edits of a text.
fn edits_in<'a>(alloc: Global, text: &'a str) -> Result<Vec<Line<'a>>, Stop> {
    match text_lines(alloc, text) {
        Ok(lines) => lines_filed(alloc, lines),
        Err(_) => Err(Stop::NoMemory),
    }
}

// The order of a file of edits and these operands.
fn script_on<'a>(
    target: Option<&'a str>,
    script: &'a str,
    words: &'a [&'a str],
) -> Option<ScriptOrder<'a>>
    ensures { IfSome result (λ o. o.target.now ≡ unwrap_or (option_map (λ s. s.now) target.entry) o.image.now) }
{
    match words {
        [image] => Some(ScriptOrder {
            script,
            image: *image,
            target: target.unwrap_or(*image),
        }),
        _ => None,
    }
}

// -f SCRIPT IMAGE
fn script_behind<'a>(target: Option<&'a str>, words: &'a [&'a str]) -> Option<ScriptOrder<'a>>
    ensures { IfSome result (λ o. o.target.now ≡ unwrap_or (option_map (λ s. s.now) target.entry) o.image.now) }
{
    match words {
        [flag, script, rest @ ..] if *flag == "-f" => script_on(target, *script, operands(rest)),
        _ => None,
    }
}

/// The order of a file of edits that words ask for, behind the name of the program: `[-o NEW] -f SCRIPT IMAGE`.
pub fn script_asked<'a>(words: &'a [&'a str]) -> Option<ScriptOrder<'a>>
    ensures { IfSome result (λ o. IsTargetOf (texts_of words.now) o.image.now o.target.now) }
{
    match words {
        [flag, target, rest @ ..] if *flag == "-o" => script_behind(Some(*target), rest),
        [_, _, ..] => script_behind(None, words),
        _ => None,
    }
}

// Does what the text of a file of edits asks for, and returns the status.
fn change_by_text<F: ChangeFiles, E: Sink>(
    alloc: Global,
    order: &ScriptOrder<'_>,
    text: &str,
    files: &mut F,
    errors: &mut E,
) -> u8
    requires { E.has_failed errors.old ≡ false }
    ensures { OrderEnds (known_files F.Files.bytes_of F.Files.may_fail F.Files.may_open files.old) (F.Files.bytes_of files.new)
        order.now.image.now order.now.target.now result }
{
    let lines = match edits_in(alloc, text) {
        Ok(lines) => lines,
        Err(Stop::NoMemory) => return tell_no_change(alloc, NoChange::NoMemory, errors),
        Err(stop) => return tell_no_change(alloc, NoChange::Edits(stop), errors),
    };
    let order = Order {
        lines,
        image: order.image,
        target: order.target,
    };
    change_disk(alloc, &order, files, errors)
}

/// Does what an order of a file of edits asks for, and returns the status, as `change_disk` does.
pub fn change_by_file<F: ChangeFiles, E: Sink>(
    alloc: Global,
    order: &ScriptOrder<'_>,
    files: &mut F,
    errors: &mut E,
) -> u8
    requires { E.has_failed errors.old ≡ false }
    ensures { OrderEnds (known_files F.Files.bytes_of F.Files.may_fail F.Files.may_open files.old) (F.Files.bytes_of files.new)
        order.now.image.now order.now.target.now result }
{
    let bytes = match read_file(alloc, files, order.script) {
        Ok(bytes) => bytes,
        Err(why) => return tell_no_change(alloc, why, errors),
    };
    match str::from_utf8(&bytes) {
        Ok(text) => change_by_text(alloc, order, text, files, errors),
        Err(_) => refuse_file(alloc, order.script, Unopened::NotText, errors),
    }
}

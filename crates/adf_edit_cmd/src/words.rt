// The words of the program: an image, and edits that stand for lines of a script.

ghost use Rattle.std.specs.Prelude.{◌≡◌, IfOk, IfSome, option_map};
ghost use Rattle.std.specs.Option.{unwrap_or};
ghost use Rattle.adf_words.specs.CommandLine.{texts_of};
ghost use Rattle.adf_edit_cmd.specs.Changing.{IsTargetOf};

use crate::lines::has_byte;
use std::alloc::{AllocError, Global};

/// A line of a script, up to the size of the host file that it takes, if it takes one.
#[derive(Drop)]
pub struct Line<'a> {
    pub text: String,
    pub host: Option<&'a str>,
}

/// What words ask for: the lines, the image that they are applied to, and the file that gets the new one.
#[derive(Drop)]
pub struct Order<'a> {
    pub lines: Vec<Line<'a>>,
    pub image: &'a str,
    pub target: &'a str,
}

// Whether a word may end a line.
fn may_end(word: &str) -> bool {
    !has_byte(word.as_bytes(), b'\n')
}

// Whether a word may stand before a `:`.
fn may_lead(word: &str) -> bool {
    !has_byte(word.as_bytes(), b'\n') && !has_byte(word.as_bytes(), b':')
}

// Whether a verb has one word behind it.
fn takes_one(verb: &str) -> bool {
    verb == "remove" || verb == "dir" || verb == "label" || verb == "letters" || verb == "boot"
}

// Whether a verb has a path and a value behind it.
fn takes_two(verb: &str) -> bool {
    verb == "move" || verb == "note" || verb == "protect" || verb == "date"
}

// The first word of the line for a verb with a host file and a path.
fn host_verb(verb: &str) -> Option<&'static str> {
    if verb == "put" {
        Some("file")
    } else if verb == "replace" {
        Some("replace")
    } else {
        None
    }
}

// VERB TEXT
fn line_of_one<'a>(alloc: Global, verb: &str, text: &str) -> Result<Option<Line<'a>>, AllocError> {
    if !(takes_one(verb) && may_end(text)) {
        return Ok(None);
    }
    let text = format!(in alloc; "{verb} {text}")?;
    Ok(Some(Line { text, host: None }))
}

// VERB PATH VALUE
fn line_of_two<'a>(
    alloc: Global,
    verb: &str,
    path: &str,
    value: &str,
) -> Result<Option<Line<'a>>, AllocError> {
    if !(takes_two(verb) && may_lead(path) && may_end(value)) {
        return Ok(None);
    }
    let text = format!(in alloc; "{verb} {path}:{value}")?;
    Ok(Some(Line { text, host: None }))
}

// VERB HOST PATH
fn line_of_host<'a>(
    alloc: Global,
    verb: &str,
    host: &'a str,
    path: &str,
) -> Result<Option<Line<'a>>, AllocError> {
    let Some(verb) = host_verb(verb) else {
        return Ok(None);
    };
    if !may_lead(path) {
        return Ok(None);
    }
    let text = format!(in alloc; "{verb} {path}:")?;
    let host = Some(host);
    Ok(Some(Line { text, host }))
}

// The line of an edit.
fn line_of<'a>(alloc: Global, edit: &[&'a str]) -> Result<Option<Line<'a>>, AllocError> {
    match edit {
        [] | [_] => Ok(None),
        [verb, text] => line_of_one(alloc, verb, text),
        [verb, first, second] => match line_of_two(alloc, verb, first, second)? {
            Some(line) => Ok(Some(line)),
            None => line_of_host(alloc, verb, first, second),
        },
        [_, _, _, _, ..] => Ok(None),
    }
}

/// Appends the line of an edit, and returns whether it has one.
pub fn add_line<'a>(
    alloc: Global,
    lines: &mut Vec<Line<'a>>,
    edit: &[&'a str],
) -> Result<bool, AllocError> {
    match line_of(alloc, edit)? {
        Some(line) => {
            lines.push(line)?;
            Ok(true)
        }
        None => Ok(false),
    }
}

/// The lines of the edits that were read, and the words of the next one.
#[derive(Drop)]
struct Reading<'a> {
    lines: Vec<Line<'a>>,
    edit: Vec<&'a str>,
}

// Reads a word, and returns whether the edit that it ends has a line.
fn read_word<'a>(
    alloc: Global,
    reading: &mut Reading<'a>,
    word: &'a str,
) -> Result<bool, AllocError> {
    if word == "+" {
        let added = add_line(alloc, &mut reading.lines, &reading.edit)?;
        reading.edit.clear();
        return Ok(added);
    }
    reading.edit.push(word)?;
    Ok(true)
}

// The lines of edits with `+` between them; `None` if an edit has none.
fn lines_of<'a>(alloc: Global, words: &'a [&'a str]) -> Result<Option<Vec<Line<'a>>>, AllocError> {
    let mut reading = Reading {
        lines: Vec::new(alloc),
        edit: Vec::new(alloc),
    };
    for word in words {
        if !read_word(alloc, &mut reading, *word)? {
            return Ok(None);
        }
    }
    let mut lines = reading.lines;
    if !add_line(alloc, &mut lines, &reading.edit)? {
        return Ok(None);
    }
    Ok(Some(lines))
}

// Whether a word begins with `-`.
fn begins_dash(word: &str) -> bool {
    match word.as_bytes() {
        [first, ..] => *first == b'-',
        [] => false,
    }
}

/// The image and the edits: what stands behind `--`, or begins with no `-`.
pub fn operands<'a>(words: &'a [&'a str]) -> &'a [&'a str] {
    match words {
        [] => words,
        [word, rest @ ..] => {
            if *word == "--" {
                rest
            } else if begins_dash(word) {
                &words[..0]
            } else {
                words
            }
        }
    }
}

// The lines of the edits for a target: there may be none for a target that is named.
fn lines_for<'a>(
    alloc: Global,
    target: Option<&'a str>,
    words: &'a [&'a str],
) -> Result<Option<Vec<Line<'a>>>, AllocError> {
    match (target, words) {
        (Some(_), []) => Ok(Some(Vec::new(alloc))),
        _ => lines_of(alloc, words),
    }
}

// The order of operands, whose image goes into the target, or else into its own place.
fn order_on<'a>(
    alloc: Global,
    target: Option<&'a str>,
    words: &'a [&'a str],
) -> Result<Option<Order<'a>>, AllocError>
    ensures { IfOk result (λ order. IfSome order (λ o.
        o.target.now ≡ unwrap_or (option_map (λ s. s.now) target.entry) o.image.now)) }
{
    let [image, edits @ ..] = words else {
        return Ok(None);
    };
    let Some(lines) = lines_for(alloc, target, edits)? else {
        return Ok(None);
    };
    let target = target.unwrap_or(*image);
    Ok(Some(Order {
        lines,
        image: *image,
        target,
    }))
}

/// What words ask for, behind the name of the program: `[-o NEW] IMAGE EDIT [+ EDIT]..` or `-o NEW IMAGE`; `None` if they are
/// refused.
pub fn order_asked<'a>(alloc: Global, words: &'a [&'a str]) -> Result<Option<Order<'a>>, AllocError>
    ensures { IfOk result (λ order. IfSome order (λ o. IsTargetOf (texts_of words.now) o.image.now o.target.now)) }
{
    match words {
        [flag, target, rest @ ..] if *flag == "-o" => {
            order_on(alloc, Some(*target), operands(rest))
        }
        _ => order_on(alloc, None, operands(words)),
    }
}

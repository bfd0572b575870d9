// The rows of a map: the words of each line that tells something.

ghost use Rattle.std.specs.Prelude.{◌≡◌, ◌==◌, IfOk, map};
ghost use Rattle.std.specs.List.{slice_split};
ghost use Rattle.adf_maps.specs.Maps.{is_blank, is_silent, rows_in, rows_of, words_of};

use std::alloc::{AllocError, Global};

// Whether a byte stands between words.
fn is_blank(c: u8) -> bool
    ensures { result ≡ is_blank c }
{
    c == b' ' || c == b'\t' || c == b'\r'
}

// The words of a line.
fn words_of<'a>(alloc: Global, line: &'a [u8]) -> Result<Vec<&'a [u8]>, AllocError>
    ensures { IfOk result (λ words. map (λ w. w.now) words.items ≡ words_of line.now) }
{
    line.split(|c| is_blank(*c))
        .filter(|w| !w.is_empty())
        .collect(alloc)
}

// The lines of a text.
fn lines_of<'a>(alloc: Global, text: &'a [u8]) -> Result<Vec<&'a [u8]>, AllocError>
    ensures { IfOk result (λ lines. map (λ l. l.now) lines.items ≡ slice_split (λ c. c == 10) text.now) }
{
    text.split(|c| *c == b'\n').collect(alloc)
}

// Whether a line tells nothing: it has no words, or is a comment.
fn is_silent(words: &[&[u8]]) -> bool
    ensures { result ≡ is_silent (map (λ w. w.now) words.now) }
{
    match words {
        [] => true,
        [first, ..] => first.first() == Some(&b'#'),
    }
}

// The rows of lines.
fn rows_in<'a>(alloc: Global, lines: &[&'a [u8]]) -> Result<Vec<Vec<&'a [u8]>>, AllocError>
    ensures { IfOk result (λ rows. map (λ r. map (λ w. w.now) r.items) rows.items ≡ rows_in (map (λ l. l.now) lines.now)) }
{
    let mut rows = Vec::new(alloc);
    for line in lines {
        let words = words_of(alloc, *line)?;
        if !is_silent(&words) {
            rows.push(words)?;
        }
    }
    Ok(rows)
}

/// The rows of a text.
pub fn rows_of<'a>(alloc: Global, text: &'a [u8]) -> Result<Vec<Vec<&'a [u8]>>, AllocError>
    ensures { IfOk result (λ rows. map (λ r. map (λ w. w.now) r.items) rows.items ≡ rows_of text.now) }
{
    let lines = lines_of(alloc, text)?;
    rows_in(alloc, &lines)
}

// The lines of `list`.

ghost use Rattle.std.specs.Prelude.{◌≡◌, ◌++◌, codes, ℕ, List, OnOk};
ghost use Rattle.adf_tree.specs.declared.entry.Entry.{Entry};
ghost use Rattle.adf_names.specs.PathTexts.{path_text};
ghost use Rattle.adf_volume.specs.Rows.{row_of_entry};
ghost use Rattle.adf_texts.specs.RowTexts.{columns, head_lines, row_size, row_word};
ghost use Rattle.adf_texts.specs.VolumeLines.{AreDates, blocks_line, entry_lines, escaped_line, lines_with, opening_lines};
ghost use Rattle.adf_texts.specs.VolumeLines.{text_line};
ghost use Rattle.adf_names.specs.Digits.{right_in_ten};

use adf_base::Stamp;
use adf_blocks::HeadBody;
use adf_fields::push_stamp;
use adf_names::{push_escaped, push_hex, push_number, push_path, push_right};
use adf_tree::{Kind, Label, Meta, Name, Stamps};
use adf_volume::{Row, RowBody};
use std::alloc::AllocError;

/// Appends the lines before the entries: the kind and the number of blocks, the label if it is not empty, and
/// the dates.
pub fn push_opening_lines(
    text: &mut Vec<u8>,
    kind: Kind,
    label: &Label,
    stamps: Stamps,
    blocks: u32,
) -> Result<(), AllocError>
    ensures { (date : Stamp → List ℕ) → AreDates date
        → OnOk result
        (text.new.items ≡ text.old.items ++ opening_lines date kind label.now stamps blocks) }
{
    push_blocks_line(text, kind, blocks)?;
    push_escaped_line(text, b"label ", label.bytes())?;
    push_date_line(text, b"root ", stamps.root)?;
    push_date_line(text, b"altered ", stamps.altered)?;
    push_date_line(text, b"created ", stamps.created)
}

/// Appends the line of an entry, from its row, and the line of its note if it has one.
pub fn push_entry_lines(text: &mut Vec<u8>, row: &Row, path: &[Name]) -> Result<(), AllocError>
    ensures { (date : Stamp → List ℕ) (e : Entry) → AreDates date → row.now ≡ row_of_entry e
        → OnOk result (text.new.items ≡ text.old.items ++ entry_lines date path.now e) }
{
    push_row_lines(text, row, path)
}

// Appends the line of a row, and the line of its note if it has one.
fn push_row_lines(text: &mut Vec<u8>, row: &Row, path: &[Name]) -> Result<(), AllocError>
    ensures { (date : Stamp → List ℕ) → AreDates date
        → OnOk result (text.new.items ≡ text.old.items
        ++ lines_with date (path_text path.now) (row_word row.now.body) (row_size row.now.body) row.now.meta) }
{
    push_columns(text, row.body, &row.meta)?;
    push_path(text, path)?;
    push_line_end(text, &row.meta)
}

/// Appends the line of an entry with this text of its path, from its header, and the line of its note if it has one.
pub fn push_head_lines(
    text: &mut Vec<u8>,
    body: HeadBody,
    meta: &Meta,
    path: &[u8],
) -> Result<(), AllocError>
    ensures { (date : Stamp → List ℕ) → AreDates date
        → OnOk result (text.new.items ≡ text.old.items ++ head_lines date path.now body meta.now) }
{
    push_columns(text, RowBody::of(body), meta)?;
    text.extend_from_slice(path)?;
    push_line_end(text, meta)
}

// Appends the columns before the path in the line of an entry.
fn push_columns(text: &mut Vec<u8>, body: RowBody, meta: &Meta) -> Result<(), AllocError>
    ensures { (date : Stamp → List ℕ) → AreDates date
        → OnOk result (text.new.items ≡ text.old.items ++ columns date body meta.now) }
{
    push_word(text, body)?;
    push_hex(text, meta.protect, b' ')?;
    push_size(text, body)?;
    push_date(text, meta.stamp)?;
    text.extend_from_slice(b" ")
}

// Appends the end of an entry's line, and the line of its note if it has one.
fn push_line_end(text: &mut Vec<u8>, meta: &Meta) -> Result<(), AllocError>
    ensures { OnOk result (text.new.items ≡ text.old.items
        ++ (codes "\n" ++ escaped_line (codes "note ") meta.now.comment)) }
{
    text.extend_from_slice(b"\n")?;
    push_escaped_line(text, b"note ", meta.comment.bytes())
}

// Appends the word of a row and a space.
fn push_word(text: &mut Vec<u8>, body: RowBody) -> Result<(), AllocError>
    ensures { OnOk result (text.new.items ≡ text.old.items ++ (row_word body ++ codes " ")) }
{
    match body {
        RowBody::Dir => text.extend_from_slice(b"dir  "),
        RowBody::File { .. } => text.extend_from_slice(b"file "),
    }
}

// Appends the size of a row, right-aligned in ten columns, and a space.
fn push_size(text: &mut Vec<u8>, body: RowBody) -> Result<(), AllocError>
    ensures { OnOk result
        (text.new.items ≡ text.old.items ++ (right_in_ten (row_size body) ++ codes " ")) }
{
    match body {
        RowBody::Dir => text.extend_from_slice(b"         - "),
        RowBody::File { size } => push_right(text, size),
    }
}

// Appends the line of the kind and the number of blocks.
fn push_blocks_line(text: &mut Vec<u8>, kind: Kind, blocks: u32) -> Result<(), AllocError>
    ensures { OnOk result (text.new.items ≡ text.old.items ++ blocks_line kind blocks) }
{
    text.extend_from_slice(b"volume ")?;
    text.extend_from_slice(kind.text().as_bytes())?;
    text.extend_from_slice(b" blocks ")?;
    push_number(text, blocks, b'\n')
}

// Appends a word and the escape form of bytes, unless there are none.
fn push_escaped_line(text: &mut Vec<u8>, word: &[u8], bytes: &[u8]) -> Result<(), AllocError>
    ensures { OnOk result (text.new.items ≡ text.old.items ++ escaped_line word.now bytes.now) }
{
    if bytes.is_empty() {
        return Ok(());
    }
    text.extend_from_slice(word)?;
    push_escaped(text, bytes)?;
    text.extend_from_slice(b"\n")
}

// Appends a word and a date.
fn push_date_line(text: &mut Vec<u8>, word: &[u8], s: Stamp) -> Result<(), AllocError>
    ensures { (date : Stamp → List ℕ) → AreDates date
        → OnOk result (text.new.items ≡ text.old.items ++ text_line word.now (date s)) }
{
    text.extend_from_slice(word)?;
    push_date(text, s)?;
    text.extend_from_slice(b"\n")
}

// Appends a date.
fn push_date(text: &mut Vec<u8>, s: Stamp) -> Result<(), AllocError>
    ensures { (date : Stamp → List ℕ) → AreDates date
        → OnOk result (text.new.items ≡ text.old.items ++ date s) }
{
    push_stamp(text, s)
}

// The output lines of the commands.

ghost use Rattle.std.specs.Prelude.{◌≡◌, ◌++◌, IfOk, OnOk, string_bytes};
ghost use Rattle.adf_texts.specs.Lines.{fault_line, ok_line, ok_line_by, ok_line_of, word_line};

use adf_base::Letters;
use adf_names::{kind_text_by, push_hex, push_number};
use adf_volume::{Counts, Fault};
use std::alloc::{AllocError, Global};
use std::fmt;

/// Appends the line of a sound volume whose kind has this text.
pub fn push_counts_of(text: &mut String, kind: &str, counts: &Counts) -> Result<(), AllocError>
    ensures { OnOk result (string_bytes text.new ≡ string_bytes text.old ++ ok_line_of kind.now counts.now) }
{
    let blocks = counts.blocks;
    let used = counts.used;
    let free = counts.free;
    let dirs = counts.dirs;
    let files = counts.files;
    write!(
        text,
        "ok {kind} blocks {blocks} used {used} free {free} dirs {dirs} files {files}\n"
    )
}

/// Appends the line of a sound volume with these letters.
pub fn push_counts_by(
    text: &mut String,
    letters: Letters,
    counts: &Counts,
) -> Result<(), AllocError>
    ensures { OnOk result (string_bytes text.new ≡ string_bytes text.old ++ ok_line_by letters counts.now) }
{
    push_counts_of(text, kind_text_by(letters, counts.kind), counts)
}

/// Appends the line of `check`.
pub fn push_counts(text: &mut String, counts: &Counts) -> Result<(), AllocError>
    ensures { OnOk result (string_bytes text.new ≡ string_bytes text.old ++ ok_line counts.now) }
{
    push_counts_by(text, Letters::Ascii, counts)
}

/// Appends the line of a refused image.
pub fn push_fault(text: &mut String, fault: Fault) -> Result<(), AllocError>
    ensures { OnOk result (string_bytes text.new ≡ string_bytes text.old ++ fault_line fault) }
{
    write!(text, "{fault}\n")
}

/// The line of a refused image.
pub fn refused_line(alloc: Global, fault: Fault) -> Result<String, AllocError>
    ensures { IfOk result (λ line. string_bytes line ≡ fault_line fault) }
{
    let mut line = String::new(alloc);
    push_fault(&mut line, fault)?;
    Ok(line)
}

/// Appends the line of a word: the block, the number of the word, its value.
pub fn push_word_line(
    text: &mut Vec<u8>,
    block: u32,
    index: u32,
    word: u32,
) -> Result<(), AllocError>
    ensures { OnOk result (text.new.items ≡ text.old.items ++ word_line block index word) }
{
    push_number(text, block, b' ')?;
    push_number(text, index, b' ')?;
    push_hex(text, word, b'\n')
}

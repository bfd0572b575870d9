// Numbers, ranges and texts, as a line tells them.

use crate::row_error::RowError;
use std::alloc::{AllocError, Global};

pub fn number(text: &str) -> Option<usize> {
    text.parse::<usize>().ok()
}

pub fn block(text: &str) -> Option<u32> {
    text.parse::<u32>().ok()
}

pub fn hex(text: &str) -> Option<u32> {
    u32::from_str_radix(text, 16).ok()
}

/// The part of a text before a space, and the part behind it, which may be missing.
pub fn first_word(text: &str) -> (&str, &str) {
    text.split_once(' ').unwrap_or((text, ""))
}

/// A number, or two joined by `-`.
pub fn range(text: &str) -> Option<(usize, usize)> {
    let (from, to) = text.split_once('-').unwrap_or((text, text));
    number(from).zip(number(to))
}

/// A range of which the second number is not below the first.
pub fn rising(text: &str) -> Option<(usize, usize)> {
    match range(text) {
        Some((from, to)) if from <= to => Some((from, to)),
        _ => None,
    }
}

/// A range of blocks, of which the second is not below the first.
pub fn block_range(text: &str) -> Option<(u32, u32)> {
    let (from, to) = rising(text)?;
    u32::try_from(from).ok().zip(u32::try_from(to).ok())
}

/// Appends a line.
pub fn push_line(text: &mut Vec<u8>, line: &str) -> Result<(), RowError> {
    text.extend_from_slice(line.as_bytes())?;
    Ok(text.extend_from_slice(b"\n")?)
}

/// The text of one line.
pub fn line_text(alloc: Global, line: &str) -> Result<Vec<u8>, AllocError> {
    Ok(format!(in alloc; "{line}\n")?.into_bytes())
}

/// Lines, told with ` | ` between them.
pub fn lines_text(alloc: Global, lines: &str) -> Result<Vec<u8>, AllocError> {
    let mut text = lines.replace(alloc, " | ", "\n")?;
    text.push('\n')?;
    Ok(text.into_bytes())
}

/// Appends lengths, equal ones that follow on one another as `LEN x COUNT`; `no pieces` where there is none.
pub fn push_runs(text: &mut String, lengths: &[usize]) -> Result<(), AllocError> {
    if lengths.is_empty() {
        return text.push_str("no pieces");
    }
    let mut count = 0usize;
    for (i, len) in lengths.iter().enumerate() {
        count = count.saturating_add(1);
        if lengths.get(i.saturating_add(1)) == Some(len) {
            continue;
        }
        let between = if text.is_empty() { "" } else { ", " };
        write!(text, "{between}{len} x {count}")?;
        count = 0;
    }
    Ok(())
}

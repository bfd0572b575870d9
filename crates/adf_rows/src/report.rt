// What is wrong with the rows of a file, as lines.

use crate::row_error::RowError;
use std::alloc::Global;
use std::{fmt, str};

/// A line for each row that failed, `NAME:LINE: WHAT`: the first thing that is wrong with it.
#[derive(Drop)]
pub struct Report<'a> {
    /// The file's name.
    name: &'a str,
    /// The lines. Where memory is refused one may be missing, or a part of it.
    pub text: String,
    /// How many rows failed.
    pub failed: usize,
    /// The line in the file, from 1.
    line: usize,
    /// Whether the report has a failure at this line.
    pub has_failed: bool,
    /// The place or the length, of a row that has many.
    pub case: Option<usize>,
}

impl<'a> Report<'a> {
    /// Nothing is wrong with the rows of the file of this name.
    pub fn new(alloc: Global, name: &'a str) -> Report<'a> {
        Report {
            name,
            text: String::new(alloc),
            failed: 0,
            line: 0,
            has_failed: false,
            case: None,
        }
    }

    /// Goes to a line.
    pub fn go_to(&mut self, line: usize) {
        self.line = line;
        self.has_failed = false;
        self.case = None;
    }

    // Counts a failure, and says whether it is the first at this line.
    fn is_first(&mut self) -> bool {
        if self.has_failed {
            return false;
        }
        self.has_failed = true;
        self.failed = self.failed.saturating_add(1);
        true
    }

    /// Says what is wrong with a row.
    pub fn fail(&mut self, error: RowError) {
        if self.is_first() {
            let _ = write!(self.text, "{}:{}: {}\n", self.name, self.line, error.text());
        }
    }

    /// Says what is wrong with a row, if anything is.
    pub fn take(&mut self, outcome: Result<(), RowError>) {
        if let Err(error) = outcome {
            self.fail(error);
        }
    }

    /// Says that a number is not as wanted.
    pub fn compare_numbers(&mut self, part: &str, wanted: usize, came: usize) {
        if wanted != came {
            self.differ(part, &wanted, &came);
        }
    }

    /// Says that a text is not as wanted, and what stands where they differ.
    pub fn compare(&mut self, part: &str, wanted: &[u8], came: &[u8]) {
        if wanted == came {
            return;
        }
        let at = equal_count(wanted, came);
        self.differ(
            part,
            &Excerpt { text: wanted, at },
            &Excerpt { text: came, at },
        );
    }

    /// Says which of the lines wanted is not among those that came, in this order.
    pub fn find_lines(&mut self, wanted: &[u8], came: &[u8]) {
        if wanted.is_empty() {
            return;
        }
        let (Ok(wanted), Ok(came)) = (str::from_utf8(wanted), str::from_utf8(came)) else {
            return self.fail(RowError::Unread);
        };
        if let Some(line) = missing_line(wanted, came) {
            self.differ("output", &line, &"");
        }
    }

    // Says what was wanted, and what came.
    fn differ<T: fmt::Display>(&mut self, part: &str, wanted: &T, came: &T) {
        if self.is_first() {
            let case = self.case.unwrap_or(0);
            let _ = write!(
                self.text,
                "{}:{}: {part} at {case}: wanted '{wanted}', came '{came}'\n",
                self.name, self.line,
            );
        }
    }
}

/// At most 60 bytes of a text from a little before a place on, with `|` for a line feed and `?` for what is no character.
#[derive(Clone, Copy)]
struct Excerpt<'a> {
    text: &'a [u8],
    at: usize,
}

impl fmt::Display for Excerpt<'_> {
    fn fmt<W: fmt::Write>(&self, f: &mut fmt::Formatter<W>) -> fmt::Result {
        let from = self.at.saturating_sub(30).min(self.text.len());
        let to = from.saturating_add(60).min(self.text.len());
        for byte in &self.text[from..to] {
            f.write_char(match byte {
                b'\n' => '|',
                32..=126 => char::from(*byte),
                _ => '?',
            })?;
        }
        Ok(())
    }
}

// How many bytes of two texts are equal, up to the first that differ.
fn equal_count(one: &[u8], other: &[u8]) -> usize {
    let both = one.len().min(other.len());
    for i in 0..both {
        if one[i] != other[i] {
            return i;
        }
    }
    both
}

// The first of the lines wanted that is not among those that came behind the ones before.
fn missing_line<'a>(wanted: &'a str, came: &str) -> Option<&'a str> {
    let mut lines = wanted.lines();
    let mut next = lines.next();
    for line in came.lines() {
        if next == Some(line) {
            next = lines.next();
        }
    }
    next
}

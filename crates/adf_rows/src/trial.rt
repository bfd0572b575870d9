// A row of several lines: what they want of its run.

use crate::changes::add_bytes;
use crate::report::Report;
use crate::row_error::RowError;
use crate::texts::{first_word, hex, number, push_line};
use crate::wants::{Answer, Wanted};
use crate::words::push_words;
use std::alloc::Global;

/// A row that is not at its end.
#[derive(Drop)]
pub struct Trial {
    /// Its first line.
    line: usize,
    pub came: Option<Answer>,
    status: Option<usize>,
    pub output: Vec<u8>,
    errors: Vec<u8>,
    is_part: bool,
    is_usage: bool,
}

impl Trial {
    /// Begins at a line.
    pub fn new(alloc: Global, line: usize) -> Trial {
        Trial {
            line,
            came: None,
            status: None,
            output: Vec::new(alloc),
            errors: Vec::new(alloc),
            is_part: false,
            is_usage: false,
        }
    }

    /// Takes what a line tells of what is wanted; `None` if it tells nothing of it.
    pub fn take(&mut self, alloc: Global, word: &str, rest: &str) -> Option<Result<(), RowError>> {
        Some(match word {
            "status" => self.take_status(rest),
            "output" => push_line(&mut self.output, rest),
            "words" => push_words(alloc, &mut self.output, rest),
            "bytes" => push_bytes(&mut self.output, rest),
            "errors" => push_line(&mut self.errors, rest),
            "has" => {
                self.is_part = true;
                push_line(&mut self.output, rest)
            }
            "any" => {
                self.is_part = true;
                Ok(())
            }
            "usage" => {
                self.is_usage = true;
                Ok(())
            }
            _ => return None,
        })
    }

    fn take_status(&mut self, status: &str) -> Result<(), RowError> {
        self.status = number(status);
        if self.status.is_none() {
            return Err(RowError::Unread);
        }
        Ok(())
    }

    /// Says what in the run is not as wanted, at the row's first line.
    pub fn finish(&self, report: &mut Report<'_>) {
        report.go_to(self.line);
        let wanted = Wanted {
            status: self.status,
            output: &self.output,
            errors: &self.errors,
            is_part: self.is_part,
            is_usage: self.is_usage,
        };
        match &self.came {
            Some(came) => wanted.compare(came, report),
            None => report.fail(RowError::NoRun),
        }
    }
}

// Appends so many of one byte, `COUNT HEX`.
fn push_bytes(text: &mut Vec<u8>, rest: &str) -> Result<(), RowError> {
    let (count, byte) = first_word(rest);
    match hex(byte) {
        Some(byte) if byte < 256 => add_bytes(text, count, byte as u8),
        _ => Err(RowError::Unread),
    }
}

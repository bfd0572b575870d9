// What is wanted of a run, and whether it came.

use crate::report::Report;
use crate::row_error::RowError;

/// The status of a run, and what it wrote.
#[derive(Drop)]
pub struct Answer {
    pub status: u8,
    pub output: Vec<u8>,
    pub errors: Vec<u8>,
    /// How many bytes it took of the input.
    pub taken: usize,
    /// Whether a device failed.
    pub has_failed: bool,
}

impl Answer {
    /// The same status and texts.
    pub fn wanted(&self) -> Wanted<'_> {
        Wanted::texts(self.status, &self.output, &self.errors)
    }
}

/// What is wanted of a run.
#[derive(Clone, Copy)]
pub struct Wanted<'a> {
    pub status: Option<usize>,
    pub output: &'a [u8],
    pub errors: &'a [u8],
    /// Whether other lines may stand between those of output.
    pub is_part: bool,
    /// Whether errors is to hold any text but none.
    pub is_usage: bool,
}

impl<'a> Wanted<'a> {
    /// These texts and no others.
    pub fn texts(status: u8, output: &'a [u8], errors: &'a [u8]) -> Wanted<'a> {
        Wanted {
            status: Some(status as usize),
            output,
            errors,
            is_part: false,
            is_usage: false,
        }
    }

    /// Says what in a run is not as wanted.
    pub fn compare(&self, came: &Answer, report: &mut Report<'_>) {
        if self.is_part {
            report.find_lines(self.output, &came.output);
        } else {
            report.compare("output", self.output, &came.output);
        }
        if !self.is_usage {
            report.compare("errors", self.errors, &came.errors);
        } else if came.errors.is_empty() {
            report.compare("errors", b"some text", b"");
        }
        match self.status {
            Some(status) => report.compare_numbers("status", status, came.status as usize),
            None => report.fail(RowError::NoRun),
        }
    }
}

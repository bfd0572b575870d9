// Runs of `adf`, and what it answers.

ghost use Rattle.std.specs.Prelude.{◌≡◌, false};

use crate::devices::Devices;
use crate::report::Report;
use crate::row_error::RowError;
use crate::texts::lines_text;
use crate::wants::{Answer, Wanted};
use std::alloc::{AllocError, Global};

/// What runs the rows, with the memory that it takes.
#[derive(Clone, Copy)]
pub struct Bench {
    pub alloc: Global,
}

// The words of a command, which are joined by spaces, after the name of the program.
fn words_of(alloc: Global, command: &str) -> Result<Vec<&str>, AllocError> {
    let mut words = Vec::new(alloc);
    words.push("adf")?;
    for word in command.split(' ') {
        if !word.is_empty() {
            words.push(word)?;
        }
    }
    Ok(words)
}

impl Bench {
    /// Runs a command over these devices.
    pub fn answer_by(
        &self,
        command: &str,
        mut devices: Devices<'_>,
        report: &mut Report<'_>,
    ) -> Option<Answer>
        requires input { devices.input.has_failed ≡ false }
        requires output { devices.output.has_failed ≡ false }
        requires errors { devices.errors.has_failed ≡ false }
    {
        let Ok(words) = words_of(self.alloc, command) else {
            report.fail(RowError::NoMemory);
            return None;
        };
        let Devices {
            input,
            output,
            errors,
        } = &mut devices;
        let status = adf_cmd::run(self.alloc, &words, input, output, errors);
        Some(devices.answer(status))
    }

    /// Runs a command over bytes.
    pub fn answer(&self, command: &str, bytes: &[u8], report: &mut Report<'_>) -> Option<Answer> {
        self.answer_by(
            command,
            Devices::new(self.alloc, bytes, usize::MAX, usize::MAX),
            report,
        )
    }

    /// A command answers over bytes what is wanted.
    pub fn meets(&self, command: &str, bytes: &[u8], wanted: &Wanted<'_>, report: &mut Report<'_>) {
        if let Some(came) = self.answer(command, bytes, report) {
            wanted.compare(&came, report);
        }
    }

    /// What `build` makes of the lines of a manifest; `None` if it refuses them.
    pub fn built(&self, lines: &str, report: &mut Report<'_>) -> Option<Vec<u8>> {
        let Ok(text) = lines_text(self.alloc, lines) else {
            report.fail(RowError::NoMemory);
            return None;
        };
        let came = self.answer("build", &text, report)?;
        report.compare_numbers("status", 0, came.status as usize);
        if came.status == 0 {
            Some(came.output)
        } else {
            None
        }
    }
}

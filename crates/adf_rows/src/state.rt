// The image and the row at a line of a file.

use crate::changes::change;
use crate::report::Report;
use crate::row_error::RowError;
use crate::texts::{lines_text, number};
use crate::trial::Trial;
use crate::wants::Answer;
use crate::words::put_words;
use std::alloc::Global;

/// What the lines up to one have made.
#[derive(Drop)]
pub struct State {
    alloc: Global,
    pub image: Vec<u8>,
    named: Vec<Image>,
    /// What the last run wrote to output.
    output: Vec<u8>,
    row: Option<Trial>,
    /// How many rows were begun.
    pub rows: usize,
}

/// An image with its name.
#[derive(Drop)]
struct Image {
    name: String,
    bytes: Vec<u8>,
}

impl State {
    pub fn new(alloc: Global) -> State {
        State {
            alloc,
            image: Vec::new(alloc),
            named: Vec::new(alloc),
            output: Vec::new(alloc),
            row: None,
            rows: 0,
        }
    }

    /// Counts a row.
    pub fn count(&mut self) {
        self.rows = self.rows.saturating_add(1);
    }

    /// Begins a row at a line.
    pub fn begin(&mut self, line: usize) {
        self.count();
        self.row = Some(Trial::new(self.alloc, line));
    }

    /// Ends the row, if one was begun.
    pub fn finish(&mut self, report: &mut Report<'_>) {
        let Some(row) = self.row.take() else {
            return;
        };
        row.finish(report);
        let came = row.came;
        if let Some(came) = came {
            self.output = came.output;
        }
    }

    /// Does what a line says for which no program or library call is needed; `None` if it says something else.
    pub fn take(&mut self, line: &str, word: &str, rest: &str) -> Option<Result<(), RowError>> {
        match line.as_bytes() {
            [b'#', ..] => return Some(Ok(())),
            [b'0'..=b'9', ..] => return Some(put_words(self.alloc, &mut self.image, line)),
            _ => {}
        }
        Some(match word {
            "blocks" => self.set_zeros(rest, 512),
            "zeros" => self.set_zeros(rest, 1),
            "manifest" => self.set_lines(rest),
            "on" => self.set_image(rest),
            "name" => self.keep(rest),
            _ => {
                return match change(&mut self.image, word, rest) {
                    None => self.want(word, rest),
                    outcome => outcome,
                };
            }
        })
    }

    /// Takes the answer of the row's run.
    pub fn set_answer(&mut self, answer: Answer) -> Result<(), RowError> {
        match &mut self.row {
            Some(row) => {
                row.came = Some(answer);
                Ok(())
            }
            None => Err(RowError::Unread),
        }
    }

    // Takes so many zeros of so many bytes for the image.
    fn set_zeros(&mut self, count: &str, each: usize) -> Result<(), RowError> {
        let Some(count) = number(count) else {
            return Err(RowError::Unread);
        };
        self.image = vec![in self.alloc; 0u8; count.saturating_mul(each)]?;
        Ok(())
    }

    // Takes the text of lines for the image.
    fn set_lines(&mut self, lines: &str) -> Result<(), RowError> {
        self.image = lines_text(self.alloc, lines)?;
        Ok(())
    }

    // A copy of the image of a name.
    fn image_on(&self, name: &str) -> Result<Vec<u8>, RowError> {
        let image = match name {
            "nothing" => b"",
            "output" => self.output.as_slice(),
            _ => image_of(&self.named, name)?,
        };
        Ok(Vec::from_slice(self.alloc, image)?)
    }

    // Takes the image of a name.
    fn set_image(&mut self, name: &str) -> Result<(), RowError> {
        self.image = self.image_on(name)?;
        Ok(())
    }

    // Gives the image as it is a name.
    fn keep(&mut self, name: &str) -> Result<(), RowError> {
        let name = String::from_str(self.alloc, name)?;
        let bytes = Vec::from_slice(self.alloc, &self.image)?;
        Ok(self.named.push(Image { name, bytes })?)
    }

    // Takes what a line tells of what is wanted; `None` if it tells nothing of it.
    fn want(&mut self, word: &str, rest: &str) -> Option<Result<(), RowError>> {
        let Some(row) = &mut self.row else {
            return None;
        };
        if word == "image" {
            return Some(push_image(&mut row.output, &self.named, rest));
        }
        row.take(self.alloc, word, rest)
    }
}

// The bytes of the image with this name.
fn image_of<'a>(images: &'a [Image], name: &str) -> Result<&'a [u8], RowError> {
    for image in images {
        if image.name.as_str() == name {
            return Ok(&image.bytes);
        }
    }
    Err(RowError::NoImage)
}

// Appends the image of a name.
fn push_image(output: &mut Vec<u8>, images: &[Image], name: &str) -> Result<(), RowError> {
    Ok(output.extend_from_slice(image_of(images, name)?)?)
}

// What each line of a file does, and rows of one line.

use crate::bench::Bench;
use crate::calls::text_of_call;
use crate::changes::patched;
use crate::devices::Devices;
use crate::questions::push_answer;
use crate::report::Report;
use crate::row_error::RowError;
use crate::state::State;
use crate::texts::{first_word, line_text, lines_text, number, rising};
use crate::trees::{TreeOf, other_entry};
use crate::wants::Wanted;

/// A row of one line: its first word, and what stands before and behind its arrow.
#[derive(Clone, Copy)]
struct Arrow<'a> {
    word: &'a str,
    what: &'a str,
    line: &'a str,
}

impl Bench {
    /// Does what a line with a number says.
    pub fn step(&self, state: &mut State, number: usize, line: &str, report: &mut Report<'_>) {
        report.go_to(number);
        let (word, rest) = first_word(line);
        if line.is_empty() {
            state.finish(report);
        } else if word == "row" {
            state.finish(report);
            state.begin(number);
        } else if let Some(outcome) = state.take(line, word, rest) {
            report.take(outcome);
        } else {
            self.run_line(state, word, rest, report);
        }
    }

    // Does what a line says that runs a program or makes a library call.
    fn run_line(&self, state: &mut State, word: &str, rest: &str, report: &mut Report<'_>) {
        match word {
            "built" => {
                if let Some(image) = self.built(rest, report) {
                    state.image = image;
                }
            }
            "run" => self.run(state, rest, report),
            _ => {
                state.count();
                self.try_row(&state.image, word, rest, report);
            }
        }
    }

    // Runs a command over the image.
    fn run(&self, state: &mut State, command: &str, report: &mut Report<'_>) {
        if let Some(came) = self.answer(command, &state.image, report) {
            report.take(state.set_answer(came));
        }
    }

    // Runs a row of one line over an image.
    fn try_row(&self, image: &[u8], word: &str, rest: &str, report: &mut Report<'_>) {
        match word {
            "tree" => self.has_tree(TreeOf::Lines(rest), image, report),
            "failing" => self.fail_each_call(image, rest, report),
            _ => match rest.split_once(" -> ") {
                Some((what, line)) => self.try_arrow(image, Arrow { word, what, line }, report),
                None => report.fail(RowError::Unread),
            },
        }
    }

    // Runs a row of one line that tells the line that is wanted.
    fn try_arrow(&self, image: &[u8], row: Arrow<'_>, report: &mut Report<'_>) {
        let Arrow { word, what, line } = row;
        match word {
            "patch" => self.try_patched(image, what, line, report),
            "flips" => self.are_flipped(image, what, line, report),
            "cuts" => self.are_fronts(image, what, line, report),
            "refused" => self.is_refused(what, line, report),
            "sound" => {
                if let Some(image) = self.built(what, report) {
                    self.is_told(&image, line, report);
                }
            }
            "endless" => self.is_refused_in_the_end(what, line, report),
            "call" => report.compare(
                "call",
                line.as_bytes(),
                text_of_call(self.alloc, what).as_bytes(),
            ),
            _ => self.is_answered(image, row, report),
        }
    }

    // A library call answers the line that is wanted.
    fn is_answered(&self, image: &[u8], row: Arrow<'_>, report: &mut Report<'_>) {
        let mut text = String::new(self.alloc);
        match push_answer(self.alloc, row.word, row.what, image, &mut text) {
            Ok(()) => report.compare("answer", row.line.as_bytes(), text.as_bytes()),
            Err(error) => report.fail(error),
        }
    }

    // `check` on an image answers a line.
    fn is_told(&self, image: &[u8], line: &str, report: &mut Report<'_>) {
        let status = if line.starts_with("ok ") { 0 } else { 1 };
        match line_text(self.alloc, line) {
            Ok(text) => self.meets("check", image, &Wanted::texts(status, &text, b""), report),
            Err(_) => report.fail(RowError::NoMemory),
        }
    }

    // `check` on an image with changes answers a line.
    fn try_patched(&self, image: &[u8], items: &str, line: &str, report: &mut Report<'_>) {
        match patched(self.alloc, image, items) {
            Ok(image) => self.is_told(&image, line, report),
            Err(error) => report.fail(error),
        }
    }

    // An image has the tree that is wanted.
    fn has_tree(&self, wanted: TreeOf<'_>, image: &[u8], report: &mut Report<'_>) {
        match other_entry(self.alloc, wanted, image) {
            Ok(None) => {}
            Ok(Some(node)) => {
                report.case = Some(report.case.unwrap_or(node));
                report.compare("tree", b"the same", b"another");
            }
            Err(error) => report.fail(error),
        }
    }

    // `build` says a line on errors.
    fn is_refused(&self, lines: &str, line: &str, report: &mut Report<'_>) {
        match (lines_text(self.alloc, lines), line_text(self.alloc, line)) {
            (Ok(text), Ok(errors)) => {
                self.meets("build", &text, &Wanted::texts(1, b"", &errors), report);
            }
            _ => report.fail(RowError::NoMemory),
        }
    }

    // `build` on line feeds without end takes so many of them, and says a line on errors.
    fn is_refused_in_the_end(&self, count: &str, line: &str, report: &mut Report<'_>) {
        if let Some(came) = self.answer_by("build", Devices::endless(self.alloc), report) {
            match (number(count), line_text(self.alloc, line)) {
                (Some(count), Ok(errors)) => {
                    Wanted::texts(1, b"", &errors).compare(&came, report);
                    report.compare_numbers("bytes taken", count, came.taken);
                }
                _ => report.fail(RowError::Unread),
            }
        }
    }

    // `check` answers a line on an image with each of these bytes alone changed, and one that is accepted has the same tree.
    fn are_flipped(&self, image: &[u8], places: &str, line: &str, report: &mut Report<'_>) {
        let Some((first, last)) = rising(places) else {
            return report.fail(RowError::Unread);
        };
        let Ok(mut flipped) = Vec::from_slice(self.alloc, image) else {
            return report.fail(RowError::NoMemory);
        };
        self.has_tree(TreeOf::Image(image), image, report);
        for at in first..=last {
            report.case = Some(at);
            if !flip(&mut flipped, at) {
                return report.fail(RowError::NoPlace);
            }
            self.is_flipped(image, &flipped, line, report);
            flip(&mut flipped, at);
        }
    }

    // The same with one byte, changed by exclusive or with 1.
    fn is_flipped(&self, image: &[u8], flipped: &[u8], line: &str, report: &mut Report<'_>) {
        self.is_told(flipped, line, report);
        if line.starts_with("ok ") {
            self.has_tree(TreeOf::Image(image), flipped, report);
        }
    }

    // `check` answers a line on the first bytes of an image, of each of these lengths.
    fn are_fronts(&self, image: &[u8], lens: &str, line: &str, report: &mut Report<'_>) {
        let Some((first, last)) = rising(lens) else {
            return report.fail(RowError::Unread);
        };
        for len in first..=last {
            let Some(front) = image.get(..len) else {
                return report.fail(RowError::NoPlace);
            };
            report.case = Some(len);
            self.is_told(front, line, report);
        }
    }
}

// Changes the lowest bit of a byte, if the image has it.
fn flip(image: &mut [u8], at: usize) -> bool {
    let Some(byte) = image.get_mut(at) else {
        return false;
    };
    *byte ^= 1;
    true
}

// Runs without files, and inputs that say what they wait for.

ghost use Rattle.std.specs.Prelude.{◌≡◌, None, false};

use crate::memory::{Given, Kept};
use adf_file_runs::{AnnouncedInput, WithoutFiles};
use adf_runs::{Failed, Sink, read_input, run_program};
use adf_survey_cmd::Work;
use std::alloc::Global;
use std::cell::Cell;

// Whether words are refused with the usage where there are no files.
fn is_refused(alloc: Global, words: &[&str]) -> bool {
    let mut input = Given::new(b"", 0);
    let mut output = Kept::new(alloc, usize::MAX, usize::MAX);
    let mut errors = Kept::new(alloc, usize::MAX, usize::MAX);
    let status = run_program::<WithoutFiles<Work>, _, _, _>(
        alloc,
        words,
        &mut input,
        &mut output,
        &mut errors,
    );
    status == 2 && output.bytes.is_empty() && errors.bytes.starts_with(b"usage: ".as_slice())
}

// Words that name a file are refused, since there are no files.
#[test]
fn words_that_name_a_file_are_refused_without_files(rt: HostRuntime) {
    assert!(rt; is_refused(rt.alloc(), &["adf-survey", "cat", "a", "sound"]));
}

// Counts the bytes that it takes.
#[derive(Drop)]
struct Counted<'a> {
    bytes: &'a Cell<usize>,
}

impl Sink for Counted<'_> {
    ghost held = { λ _. None };

    ghost has_failed = { λ _. false };

    fn write(&mut self, bytes: &[u8]) -> Result<usize, Failed> {
        self.bytes.set(self.bytes.get().wrapping_add(bytes.len()));
        Ok(bytes.len())
    }

    fn failed(&self) -> bool {
        false
    }
}

// How many bytes errors get where an input of two reads says this.
fn announced(alloc: Global, line: Option<&'static str>) -> usize {
    let said = Cell::new(0);
    let errors = Counted { bytes: &said };
    let mut input = AnnouncedInput::new(Given::new(b"abc", usize::MAX), errors, line);
    let _ = read_input(alloc, &mut input, 1000);
    said.get()
}

#[test]
fn an_input_says_once_what_it_waits_for(rt: HostRuntime) {
    assert!(rt; announced(rt.alloc(), None) == 0);
    assert!(rt; announced(rt.alloc(), Some("waits\n")) == 6);
}

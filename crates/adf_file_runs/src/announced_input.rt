// An input that says what it waits for.

ghost use Rattle.std.specs.Prelude.{◌≡◌};

use adf_runs::{Failed, Sink, Source, say};

/// An input that says on errors, before its first read, what it waits for.
#[derive(Drop)]
pub struct AnnouncedInput<R, E> {
    inner: R,
    errors: E,
    /// What is still to be said.
    line: Option<&'static str>,
}

impl<R: Source, E: Sink> AnnouncedInput<R, E> {
    /// This input, with the line that it says on these errors; `None`: it says nothing.
    pub fn new(inner: R, errors: E, line: Option<&'static str>) -> AnnouncedInput<R, E>
        ensures { result.inner ≡ inner }
    {
        AnnouncedInput {
            inner,
            errors,
            line,
        }
    }

    // Says what it waits for, once.
    fn announce(&mut self)
        ensures { self.new.inner ≡ self.old.inner }
    {
        if let Some(line) = self.line {
            self.line = None;
            if !self.errors.failed() {
                say(&mut self.errors, line.as_bytes());
            }
        }
    }
}

impl<R: Source, E: Sink> Source for AnnouncedInput<R, E> {
    ghost left = { λ d. R.left d.inner };

    ghost has_failed = { λ d. R.has_failed d.inner };

    ghost may_fail = { λ d. R.may_fail d.inner };

    fn read(&mut self, buf: &mut [u8]) -> Result<usize, Failed> {
        self.announce();
        self.inner.read(buf)
    }

    fn skip(&mut self, limit: usize) -> Result<usize, Failed> {
        self.announce();
        self.inner.skip(limit)
    }

    fn failed(&self) -> bool {
        self.inner.failed()
    }
}

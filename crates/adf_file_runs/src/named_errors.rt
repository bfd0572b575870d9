// Standard error of a program that names itself.

ghost use Rattle.std.specs.Prelude.{◌≡◌, ◌<◌, ◌≤◌, IfOk, None, false, is_err, length};
ghost use Rattle.std.specs.Io.{WritesAtMost};

use adf_runs::{Failed, Sink, write_all, write_both};

/// Where the next byte stands.
#[derive(Clone, Copy, Debug, PartialEq, Eq)]
pub enum Place {
    /// Before all.
    Front,
    LineStart,
    InLine,
    /// In a usage, which has the name already.
    InUsage,
}

/// The errors of a program, with its name before each line. A usage that is told first stays as it is.
#[derive(Drop)]
pub struct NamedErrors<E> {
    /// The name of the program.
    name: &'static str,
    /// What takes the lines.
    pub inner: E,
    place: Place,
}

// The bytes up to the end of the first line.
fn line_end(bytes: &[u8]) -> usize
    ensures within { result ≤ length bytes.now }
    ensures some { 0 < length bytes.now → 0 < result }
{
    match bytes.iter().position(|byte| *byte == b'\n') {
        Some(at) => at + 1,
        None => bytes.len(),
    }
}

impl<E: Sink> NamedErrors<E> {
    /// Puts this name before each line of the errors.
    pub fn new(name: &'static str, inner: E) -> NamedErrors<E>
        ensures { result.inner ≡ inner }
    {
        NamedErrors {
            name,
            inner,
            place: Place::Front,
        }
    }

    // Writes the name, where a line begins.
    fn begin_line(&mut self) -> Result<(), Failed>
        requires { E.has_failed self.old.inner ≡ false }
        ensures { E.has_failed self.new.inner ≡ is_err result }
    {
        if self.place == Place::InLine {
            return Ok(());
        }
        self.place = Place::InLine;
        write_both(&mut self.inner, self.name.as_bytes(), b": ")
    }

    // Writes a part of a line that is begun.
    fn write_line(&mut self, bytes: &[u8]) -> Result<usize, Failed>
        requires works { E.has_failed self.old.inner ≡ false }
        requires some { 0 < length bytes.now }
        ensures count { WritesAtMost result bytes.now }
        ensures more { IfOk result (λ n. 0 < n) }
        ensures failed { E.has_failed self.new.inner ≡ is_err result }
    {
        let count = self.inner.write(&bytes[..line_end(bytes)])?;
        if count == 0 {
            return Err(Failed);
        }
        if bytes[count - 1] == b'\n' {
            self.place = Place::LineStart;
        }
        Ok(count)
    }

    // Writes the front of a usage.
    fn begin_usage(&mut self) -> Result<usize, Failed>
        requires { E.has_failed self.old.inner ≡ false }
        ensures seven { IfOk result (λ n. n ≡ 7) }
        ensures failed { E.has_failed self.new.inner ≡ is_err result }
    {
        write_all(&mut self.inner, b"usage: ")?;
        self.place = Place::InUsage;
        Ok(7)
    }
}

impl<E: Sink> Sink for NamedErrors<E> {
    ghost held = { λ _. None };

    ghost has_failed = { λ d. E.has_failed d.inner };

    fn write(&mut self, bytes: &[u8]) -> Result<usize, Failed> {
        if bytes.is_empty() {
            return Ok(0);
        }
        if self.place == Place::InUsage {
            return self.inner.write(bytes);
        }
        if self.place == Place::Front && bytes.starts_with(b"usage: ") {
            return self.begin_usage();
        }
        self.begin_line()?;
        self.write_line(bytes)
    }

    fn failed(&self) -> bool {
        self.inner.failed()
    }
}

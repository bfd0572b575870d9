// Standard output and standard error, of which the second says nothing once nobody reads the first.

ghost use Rattle.std.specs.Prelude.{◌≡◌, None, false};

use adf_runs::{Device, Failed, Sink};
use std::cell::Cell;
use std::io::{ErrorKind, Write};

/// Standard output, which knows whether its reader has closed it.
#[derive(Drop)]
pub struct Output<'a, T> {
    inner: T,
    closed: &'a Cell<bool>,
    failed: bool,
}

impl<'a, T> Output<'a, T> {
    pub fn new(inner: T, closed: &'a Cell<bool>) -> Output<'a, T>
        ensures { result.failed ≡ false }
    {
        Output {
            inner,
            closed,
            failed: false,
        }
    }
}

impl<T: Write> Sink for Output<'_, T> {
    ghost held = { λ _. None };

    ghost has_failed = { λ d. d.failed };

    fn write(&mut self, bytes: &[u8]) -> Result<usize, Failed> {
        match self.inner.write(bytes) {
            Ok(count) => {
                self.failed = count == 0 && bytes.len() > 0;
                Ok(count)
            }
            Err(error) => {
                self.closed.set(error.kind() == ErrorKind::BrokenPipe);
                self.failed = true;
                Err(Failed)
            }
        }
    }

    fn failed(&self) -> bool {
        self.failed
    }
}

/// Standard error, which takes what is said and says nothing once output is closed.
#[derive(Drop)]
pub struct Errors<'a, T> {
    device: Device<T>,
    closed: &'a Cell<bool>,
}

impl<'a, T> Errors<'a, T> {
    pub fn new(inner: T, closed: &'a Cell<bool>) -> Errors<'a, T>
        ensures { result.device.failed ≡ false }
    {
        Errors {
            device: Device::new(inner),
            closed,
        }
    }
}

impl<T: Write> Sink for Errors<'_, T> {
    ghost held = { λ _. None };

    ghost has_failed = { λ d. d.device.failed };

    fn write(&mut self, bytes: &[u8]) -> Result<usize, Failed> {
        if self.closed.get() {
            return Ok(bytes.len());
        }
        self.device.write(bytes)
    }

    fn failed(&self) -> bool {
        self.device.failed()
    }
}

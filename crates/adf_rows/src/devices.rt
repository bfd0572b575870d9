// Devices in memory that move a few bytes at each call, and of which one call may fail.

ghost use Rattle.std.specs.Prelude.{◌≡◌, None, false};

use crate::wants::Answer;
use adf_runs::{Failed, Sink, Source};
use std::alloc::Global;

/// Gives bytes, or line feeds without end.
#[derive(Drop)]
pub struct Input<'a> {
    bytes: &'a [u8],
    is_endless: bool,
    /// The bytes of a call, at most.
    at_most: usize,
    /// The calls before the one that fails.
    pub calls: usize,
    /// How many bytes it has given.
    pub given: usize,
    pub has_failed: bool,
}

impl Source for Input<'_> {
    ghost left = { λ _. None };

    ghost has_failed = { λ s. s.has_failed };

    fn read(&mut self, buf: &mut [u8]) -> Result<usize, Failed> {
        if self.calls == 0 {
            self.has_failed = true;
            return Err(Failed);
        }
        self.calls -= 1;
        let mut count = buf.len().min(self.at_most);
        if self.is_endless {
            buf[..count].fill(b'\n');
        } else {
            count = count.min(self.bytes.len());
            buf[..count].copy_from_slice(&self.bytes[..count]);
            self.bytes = &self.bytes[count..];
        }
        self.given = self.given.saturating_add(count);
        Ok(count)
    }

    fn failed(&self) -> bool {
        self.has_failed
    }
}

/// Keeps all bytes; it fails too where memory is refused.
#[derive(Drop)]
pub struct Output {
    pub bytes: Vec<u8>,
    /// The bytes of a call, at most.
    pub at_most: usize,
    /// The calls before the one that fails.
    pub calls: usize,
    /// Whether it fails by taking no bytes, not by an error.
    pub takes_none: bool,
    pub has_failed: bool,
}

impl Output {
    /// Takes at most so many bytes at a call, of which none fails.
    pub fn new(alloc: Global, at_most: usize) -> Output
        ensures { result.has_failed ≡ false }
    {
        Output {
            bytes: Vec::new(alloc),
            at_most,
            calls: usize::MAX,
            takes_none: false,
            has_failed: false,
        }
    }
}

impl Sink for Output {
    ghost held = { λ _. None };

    ghost has_failed = { λ s. s.has_failed };

    fn write(&mut self, bytes: &[u8]) -> Result<usize, Failed> {
        let count = bytes.len().min(self.at_most);
        if self.calls > 0 && self.bytes.extend_from_slice(&bytes[..count]).is_ok() {
            self.calls -= 1;
            self.has_failed = count == 0 && !bytes.is_empty();
            return Ok(count);
        }
        if self.takes_none {
            self.has_failed = !bytes.is_empty();
            return Ok(0);
        }
        self.has_failed = true;
        Err(Failed)
    }

    fn failed(&self) -> bool {
        self.has_failed
    }
}

/// The devices of a run.
#[derive(Drop)]
pub struct Devices<'a> {
    pub input: Input<'a>,
    pub output: Output,
    pub errors: Output,
}

impl<'a> Devices<'a> {
    /// An input of these bytes, and devices that move at most so many at a call.
    pub fn new(alloc: Global, bytes: &'a [u8], read: usize, write: usize) -> Devices<'a>
        ensures input { result.input.has_failed ≡ false }
        ensures output { result.output.has_failed ≡ false }
        ensures errors { result.errors.has_failed ≡ false }
    {
        Devices {
            input: Input {
                bytes,
                is_endless: false,
                at_most: read,
                calls: usize::MAX,
                given: 0,
                has_failed: false,
            },
            output: Output::new(alloc, write),
            errors: Output::new(alloc, write),
        }
    }

    /// An input of line feeds without end.
    pub fn endless(alloc: Global) -> Devices<'a>
        ensures input { result.input.has_failed ≡ false }
        ensures output { result.output.has_failed ≡ false }
        ensures errors { result.errors.has_failed ≡ false }
    {
        let mut devices = Devices::new(alloc, b"", usize::MAX, usize::MAX);
        devices.input.is_endless = true;
        devices
    }

    /// What a run over them answers that ended with this status.
    pub fn answer(self, status: u8) -> Answer {
        let Devices {
            input,
            output,
            errors,
        } = self;
        Answer {
            status,
            taken: input.given,
            has_failed: input.has_failed || output.has_failed || errors.has_failed,
            output: output.bytes,
            errors: errors.bytes,
        }
    }
}

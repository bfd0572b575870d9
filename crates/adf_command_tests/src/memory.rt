// Devices in memory, which fail after so many calls.

ghost use Rattle.std.specs.Prelude.{◌≡◌, None, false};

use adf_runs::{Failed, Sink, Source};
use std::alloc::Global;

/// Gives bytes, and fails once so many calls were made.
#[derive(Drop)]
pub struct Given<'a> {
    bytes: &'a [u8],
    calls_left: usize,
    failed: bool,
}

impl<'a> Given<'a> {
    pub fn new(bytes: &'a [u8], calls: usize) -> Given<'a>
        ensures { result.failed ≡ false }
    {
        Given {
            bytes,
            calls_left: calls,
            failed: false,
        }
    }
}

impl Source for Given<'_> {
    ghost left = { λ _. None };

    ghost has_failed = { λ s. s.failed };

    fn read(&mut self, buf: &mut [u8]) -> Result<usize, Failed> {
        if self.calls_left == 0 {
            self.failed = true;
            return Err(Failed);
        }
        self.calls_left -= 1;
        let count = buf.len().min(self.bytes.len());
        buf[..count].copy_from_slice(&self.bytes[..count]);
        self.bytes = &self.bytes[count..];
        Ok(count)
    }

    fn failed(&self) -> bool {
        self.failed
    }
}

/// Keeps bytes, at most so many at each call, and fails once so many calls were made.
#[derive(Drop)]
pub struct Kept {
    pub bytes: Vec<u8>,
    most: usize,
    calls_left: usize,
    failed: bool,
}

impl Kept {
    pub fn new(alloc: Global, most: usize, calls: usize) -> Kept
        ensures { result.failed ≡ false }
    {
        Kept {
            bytes: Vec::new(alloc),
            most,
            calls_left: calls,
            failed: false,
        }
    }
}

impl Sink for Kept {
    ghost held = { λ _. None };

    ghost has_failed = { λ s. s.failed };

    fn write(&mut self, bytes: &[u8]) -> Result<usize, Failed> {
        let count = bytes.len().min(self.most);
        if self.calls_left == 0 || self.bytes.extend_from_slice(&bytes[..count]).is_err() {
            self.failed = true;
            return Err(Failed);
        }
        self.calls_left -= 1;
        self.failed = count == 0 && !bytes.is_empty();
        Ok(count)
    }

    fn failed(&self) -> bool {
        self.failed
    }
}

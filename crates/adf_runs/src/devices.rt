// Devices that give and take bytes, and know whether they have failed.

ghost use Rattle.std.specs.Prelude.{◌≡◌, ◌≤◌, ℕ, Bool, false, is_err, IfOk, List, None, Option, true};
ghost use Rattle.std.specs.Io.{ReadsAtMost, WritesAtMost, KnownBytes.ReadConsumes, KnownBytes.WriteAppends};
ghost use Rattle.adf_runs.specs.{Devices.write_fails, Streams.PassesOver, Streams.TakesAtMost};

use crate::streams::CHUNK;
use std::error::Error;
use std::fmt;
use std::io::{Read, Seek, SeekFrom, Write};

/// A device returned an error.
#[derive(Clone, Copy, Debug, PartialEq, Eq)]
pub struct Failed;

impl fmt::Display for Failed {
    ghost use Rattle.std.specs.Prelude.{Some, codes};

    ghost output = { λ _. Some (codes "device failed") };

    fn fmt<W: fmt::Write>(&self, f: &mut fmt::Formatter<W>) -> fmt::Result {
        f.write_str("device failed")
    }
}

impl Error for Failed {}

/// What gives bytes.
pub trait Source {
    /// The bytes that it will give, if they are known.
    ghost left: { Self → Option (List ℕ) };

    /// Whether it has failed.
    ghost has_failed: { Self → Bool };

    /// Whether a read of it may fail, now or later.
    ghost may_fail: { Self → Bool } = { λ _. true };

    /// Fills the front of `buf` and returns the number of bytes, at most the length of `buf`;
    /// 0 with room in `buf` means the end. `Failed` if the device returns an error.
    fn read(&mut self, buf: &mut [u8]) -> Result<usize, Failed>
        requires { has_failed self.old ≡ false }
        ensures count { ReadsAtMost result buf.new }
        ensures bytes { ReadConsumes (left self.old) (left self.new) result buf.new }
        ensures failed { has_failed self.new ≡ is_err result }
        ensures reliable { may_fail self.old ≡ false
            → (may_fail self.new ≡ false) × (is_err result ≡ false) };

    /// Passes over at most so many of the bytes that follow, and returns how many: fewer only where the input ends.
    /// `Failed` if the device returns an error.
    fn skip(&mut self, limit: usize) -> Result<usize, Failed>
        requires { has_failed self.old ≡ false }
        ensures passed { IfOk result (PassesOver limit (left self.old) (left self.new)) }
        ensures within { IfOk result (λ n. n ≤ limit) }
        ensures at_most { TakesAtMost limit (left self.old) (left self.new) }
        ensures failed { has_failed self.new ≡ is_err result }
        ensures reliable { may_fail self.old ≡ false
            → (may_fail self.new ≡ false) × (is_err result ≡ false) }
    {
        let mut buffer = [0u8; CHUNK];
        let mut passed = 0usize;
        while passed < limit {
            let end = CHUNK.min(limit - passed);
            let count = self.read(&mut buffer[..end])?;
            if count == 0 {
                return Ok(passed);
            }
            passed += count;
        }
        Ok(passed)
    }

    /// Whether it answered `Failed`.
    fn failed(&self) -> bool
        ensures { result ≡ has_failed self.now };
}

/// What takes bytes.
pub trait Sink {
    /// The bytes that it holds, if they are known.
    ghost held: { Self → Option (List ℕ) };

    /// Whether it has failed.
    ghost has_failed: { Self → Bool };

    /// Writes the front of `bytes` and returns the number of bytes, at most the length of `bytes`.
    /// `Failed` if the device returns an error; to write 0 of some bytes is a failure too.
    fn write(&mut self, bytes: &[u8]) -> Result<usize, Failed>
        requires { has_failed self.old ≡ false }
        ensures count { WritesAtMost result bytes.now }
        ensures bytes { WriteAppends (held self.old) (held self.new) result bytes.now }
        ensures failed { has_failed self.new ≡ write_fails result bytes.now };

    /// Whether a write answered `Failed` or took 0 of some bytes.
    fn failed(&self) -> bool
        ensures { result ≡ has_failed self.now };
}

/// A reader or writer of std, which knows whether it has failed.
#[derive(Drop)]
pub struct Device<T> {
    inner: T,
    failed: bool,
}

impl<T> Device<T> {
    /// The device over a reader or writer; it has not failed.
    pub fn new(inner: T) -> Device<T>
        ensures { result ≡ record { inner = inner; failed = false } }
    {
        Device {
            inner,
            failed: false,
        }
    }
}

impl<T: Read> Source for Device<T> {
    ghost left = { λ d. T.remaining d.inner };

    ghost has_failed = { λ d. d.failed };

    fn read(&mut self, buf: &mut [u8]) -> Result<usize, Failed> {
        match self.inner.read(buf) {
            Ok(count) => Ok(count),
            Err(_) => {
                self.failed = true;
                Err(Failed)
            }
        }
    }

    fn failed(&self) -> bool {
        self.failed
    }
}

impl<T: Seek> Device<T> {
    // Seeks over at most so many bytes, at most to the end that the reader tells, and returns how many: none if it cannot seek.
    fn seek_over(&mut self, limit: usize) -> Result<usize, Failed>
        requires { self.old.failed ≡ false }
        ensures within { IfOk result (λ n. n ≤ limit) }
        ensures failed { self.new.failed ≡ is_err result }
    {
        let Ok(here) = self.inner.stream_position() else {
            return Ok(0);
        };
        let Ok(end) = self.inner.seek(SeekFrom::End(0)) else {
            return Ok(0);
        };
        let count = end.saturating_sub(here).min(limit as u64);
        match self.inner.seek(SeekFrom::Start(here + count)) {
            Ok(_) => Ok(count as usize),
            Err(_) => {
                self.failed = true;
                Err(Failed)
            }
        }
    }
}

/// A reader of std that may seek, as a file does: it passes over bytes without reading them where it can.
#[derive(Drop)]
pub struct SeekingDevice<T> {
    inner: Device<T>,
}

impl<T> SeekingDevice<T> {
    /// The device over a reader that may seek; it has not failed.
    pub fn new(inner: T) -> SeekingDevice<T>
        ensures { result.inner.failed ≡ false }
    {
        SeekingDevice {
            inner: Device::new(inner),
        }
    }
}

impl<T: Read + Seek> Source for SeekingDevice<T> {
    ghost left = { λ _. None };

    ghost has_failed = { λ d. d.inner.failed };

    fn read(&mut self, buf: &mut [u8]) -> Result<usize, Failed> {
        self.inner.read(buf)
    }

    fn skip(&mut self, limit: usize) -> Result<usize, Failed> {
        let by_seek = self.inner.seek_over(limit)?;
        let by_read = self.inner.skip(limit - by_seek)?;
        Ok(by_seek + by_read)
    }

    fn failed(&self) -> bool {
        self.inner.failed()
    }
}

impl<T: Write> Sink for Device<T> {
    ghost held = { λ d. T.contents d.inner };

    ghost has_failed = { λ d. d.failed };

    fn write(&mut self, bytes: &[u8]) -> Result<usize, Failed> {
        match self.inner.write(bytes) {
            Ok(count) => {
                if count == 0 && bytes.len() > 0 {
                    self.failed = true;
                }
                Ok(count)
            }
            Err(_) => {
                self.failed = true;
                Err(Failed)
            }
        }
    }

    fn failed(&self) -> bool {
        self.failed
    }
}

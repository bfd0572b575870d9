// Devices over readers and writers of std.

ghost use Rattle.std.specs.Prelude.{◌≡◌, IfOk};

use crate::memory::Given;
use adf_runs::{Device, SeekingDevice, Sink, Source, read_excerpt};
use std::io;
use std::io::{Read, Seek, SeekFrom, Write};

/// A reader and writer of std that counts its calls; the first moves nothing, and the others fail.
#[derive(Drop)]
struct Counted<'a> {
    calls: &'a mut u32,
}

impl Counted<'_> {
    fn call(&mut self) -> io::Result<usize>
        ensures { IfOk result (λ count. count ≡ 0) }
    {
        *self.calls = self.calls.saturating_add(1);
        if *self.calls == 1 {
            Ok(0)
        } else {
            Err(io::ErrorKind::Other.into())
        }
    }
}

impl Read for Counted<'_> {
    fn read(&mut self, _buf: &mut [u8]) -> io::Result<usize> {
        self.call()
    }
}

impl Write for Counted<'_> {
    fn write(&mut self, _bytes: &[u8]) -> io::Result<usize> {
        self.call()
    }

    fn flush(&mut self) -> io::Result<()> {
        Ok(())
    }
}

// A device passes each call on once, failing ones too, and knows that one has failed. No clause says so: it can name only what
// std's readers and writers tell of themselves, and they tell nothing of failing. So a body that calls nothing and always fails
// keeps every clause, and fails here.
#[test]
fn devices_pass_calls_on_once(rt: HostRuntime) {
    let mut calls = 0;
    let mut reader = Device::new(Counted { calls: &mut calls });
    let mut room = [0u8; 4];
    if reader.read(&mut room).is_ok() {
        assert!(rt; !Source::failed(&reader));
        assert!(rt; reader.read(&mut room).is_err());
        assert!(rt; Source::failed(&reader));
    }
    assert_eq!(rt; calls, 2);
    let mut calls = 0;
    let mut writer = Device::new(Counted { calls: &mut calls });
    if writer.write(b"").is_ok() {
        assert!(rt; writer.write(b"a").is_err());
        assert!(rt; Sink::failed(&writer));
    }
    assert_eq!(rt; calls, 2);
}

// The bytes of a long file.
const LEN: usize = 1 << 41;

/// A file of zeros, of which only the last 16 can be read.
#[derive(Drop)]
struct LongFile {
    at: usize,
    /// Where it says that it ends; `None`: it cannot seek.
    end: Option<usize>,
}

impl Read for LongFile {
    fn read(&mut self, buf: &mut [u8]) -> io::Result<usize> {
        if self.at < LEN - 16 {
            return Err(io::ErrorKind::Other.into());
        }
        let count = buf.len().min(LEN.saturating_sub(self.at));
        buf[..count].fill(0);
        self.at = self.at.saturating_add(count);
        Ok(count)
    }
}

impl Seek for LongFile {
    fn seek(&mut self, to: SeekFrom) -> io::Result<u64> {
        let Some(end) = self.end else {
            return Err(io::ErrorKind::Other.into());
        };
        self.at = match to {
            SeekFrom::Start(at) => at as usize,
            SeekFrom::End(_) => end,
            SeekFrom::Current(_) => self.at,
        };
        Ok(self.at as u64)
    }
}

// Where the file says that it ends, how many bytes are to be passed over, and how many are; then how many a read gives.
const PASSED: &[(Option<usize>, usize, usize, usize)] = &[
    (Some(LEN), LEN - 10, LEN - 10, 10),
    (Some(LEN), LEN + 1, LEN, 0),
    // Behind the end that the file tells it is read.
    (Some(LEN - 16), LEN - 10, LEN - 10, 10),
    (Some(LEN - 16), LEN + 1, LEN, 0),
];

// What a device passes over by a seek is not read. Nothing is known of its bytes, so no clause says so.
#[test]
fn what_is_passed_over_is_not_read(rt: HostRuntime) {
    for (end, limit, count, rest) in PASSED {
        let mut device = SeekingDevice::new(LongFile { at: 0, end: *end });
        if let Ok(passed) = device.skip(*limit) {
            assert_eq!(rt; passed, *count);
            assert!(rt; device.read(&mut [0; 32]) == Ok(*rest));
        }
        assert!(rt; !device.failed());
    }
}

// A file that cannot seek, or tells no end, is read.
#[test]
fn what_cannot_seek_is_read(rt: HostRuntime) {
    for end in [None, Some(0)] {
        let mut device = SeekingDevice::new(LongFile { at: 0, end });
        assert!(rt; device.skip(1).is_err());
        assert!(rt; device.failed());
    }
}

// Where a part of ten bytes begins and ends, and the limit; then its bytes, and how many are told in all.
const PARTS: &[(usize, usize, usize, &[u8], usize)] = &[
    (0, 4, 9, b"0123", 10),
    (3, 5, 9, b"34", 10),
    (3, 5, 7, b"34", 8),
    (8, 12, 20, b"89", 10),
    (12, 14, 20, b"", 10),
];

// What is in front of a part and behind it is counted, up to one byte more than the limit.
#[test]
fn parts_are_held(rt: HostRuntime) {
    for (from, to, limit, bytes, len) in PARTS {
        let mut input = Given::new(b"0123456789", usize::MAX);
        assert!(rt; from <= to && to <= limit && *limit < 100);
        match read_excerpt(rt.alloc(), &mut input, *from, *to, *limit) {
            Ok(part) => {
                assert!(rt; part.bytes.as_slice() == *bytes);
                assert_eq!(rt; part.len, *len);
            }
            Err(_) => assert!(rt; false),
        }
    }
}

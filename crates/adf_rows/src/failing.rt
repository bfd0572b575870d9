// Runs in which one call of a device fails.

ghost use Rattle.std.specs.Prelude.{◌≡◌, false};

use crate::bench::Bench;
use crate::devices::Devices;
use crate::report::Report;
use crate::row_error::RowError;
use crate::texts::{first_word, number};
use crate::wants::{Answer, Wanted};
use std::alloc::Global;

/// Whose call fails.
#[derive(Clone, Copy)]
enum Side {
    Input,
    Output,
    Errors,
}

/// How one side fails: by an error, or by taking no bytes.
#[derive(Clone, Copy)]
struct Fault {
    side: Side,
    takes_none: bool,
}

/// The runs of a command over an image.
#[derive(Clone, Copy)]
struct Runs<'a> {
    alloc: Global,
    image: &'a [u8],
    command: &'a str,
    /// The bytes of a read and of a write, at most.
    read: usize,
    write: usize,
}

/// The faults in turn.
const FAULTS: [Fault; 5] = [
    Fault {
        side: Side::Input,
        takes_none: false,
    },
    Fault {
        side: Side::Output,
        takes_none: false,
    },
    Fault {
        side: Side::Errors,
        takes_none: false,
    },
    Fault {
        side: Side::Output,
        takes_none: true,
    },
    Fault {
        side: Side::Errors,
        takes_none: true,
    },
];

impl Bench {
    /// Runs a command, `READ WRITE WORDS`, over an image by devices that move at most so many bytes at a call, and lets each
    /// call of each device fail in turn.
    pub fn fail_each_call(&self, image: &[u8], text: &str, report: &mut Report<'_>) {
        let Some(runs) = runs_of(self.alloc, image, text) else {
            return report.fail(RowError::Unread);
        };
        if let Some(whole) = self.answer_by(runs.command, runs.devices(), report) {
            for fault in &FAULTS {
                self.fail_each(&runs, *fault, &whole, report);
            }
        }
    }

    // Lets each call of one side fail in turn, until no call fails: then the answer is the whole one.
    fn fail_each(&self, runs: &Runs<'_>, fault: Fault, whole: &Answer, report: &mut Report<'_>) {
        for calls in 0..=most_calls(runs.image, whole) {
            let devices = runs.failing_devices(fault, calls);
            let Some(came) = self.answer_by(runs.command, devices, report) else {
                return;
            };
            report.case = Some(calls);
            runs.wanted(whole, fault.side, calls, &came)
                .compare(&came, report);
            if report.has_failed || !came.has_failed {
                return;
            }
        }
        report.fail(RowError::NoEnd);
    }
}

// The runs that a line tells.
fn runs_of<'a>(alloc: Global, image: &'a [u8], text: &'a str) -> Option<Runs<'a>> {
    let (read, rest) = first_word(text);
    let (write, command) = first_word(rest);
    let (read, write) = number(read).zip(number(write))?;
    Some(Runs {
        alloc,
        image,
        command,
        read,
        write,
    })
}

// No run has so many calls of one side.
fn most_calls(image: &[u8], whole: &Answer) -> usize {
    image
        .len()
        .saturating_add(whole.output.len())
        .saturating_add(whole.errors.len())
        .saturating_add(1)
}

impl<'a> Runs<'a> {
    fn devices(&self) -> Devices<'a>
        ensures input { result.input.has_failed ≡ false }
        ensures output { result.output.has_failed ≡ false }
        ensures errors { result.errors.has_failed ≡ false }
    {
        Devices::new(self.alloc, self.image, self.read, self.write)
    }

    // Devices of which that of one side fails after so many calls.
    fn failing_devices(&self, fault: Fault, calls: usize) -> Devices<'a>
        ensures input { result.input.has_failed ≡ false }
        ensures output { result.output.has_failed ≡ false }
        ensures errors { result.errors.has_failed ≡ false }
    {
        let mut devices = self.devices();
        devices.output.takes_none = fault.takes_none;
        devices.errors.takes_none = fault.takes_none;
        match fault.side {
            Side::Input => devices.input.calls = calls,
            Side::Output => devices.output.calls = calls,
            Side::Errors => devices.errors.calls = calls,
        }
        devices
    }

    // What must come of a run of which one side fails after so many calls, or none. A failure of errors leaves the status and
    // output as they are.
    fn wanted<'b>(&self, whole: &'b Answer, side: Side, calls: usize, came: &Answer) -> Wanted<'b> {
        if !came.has_failed {
            return whole.wanted();
        }
        let written = calls.saturating_mul(self.write);
        match side {
            Side::Input => Wanted::texts(3, b"", b"read fault\n"),
            Side::Output => Wanted::texts(3, front(&whole.output, written), b"write fault\n"),
            Side::Errors => {
                Wanted::texts(whole.status, &whole.output, front(&whole.errors, written))
            }
        }
    }
}

fn front(bytes: &[u8], len: usize) -> &[u8] {
    &bytes[..len.min(bytes.len())]
}

//! Checks and builds volumes of Amiga floppies and hard disks.
#![tactic(auto)]

use adf_cmd::{Device, command_words, run};
use std::process::ExitCode;

// The status of the run; `None` if the arguments cannot be had.
fn status(rt: &HostRuntime) -> Option<u8> {
    let words = command_words(rt).ok()?;
    let texts: Vec<&str> = words
        .iter()
        .map(|word| word.as_str())
        .collect(rt.alloc())
        .ok()?;
    let mut input = Device::new(rt.stdin());
    let mut output = Device::new(rt.stdout());
    let mut errors = Device::new(rt.stderr());
    Some(run(rt.alloc(), &texts, &mut input, &mut output, &mut errors))
}

fn main(rt: HostRuntime) -> ExitCode {
    ExitCode::from(status(&rt).unwrap_or(3))
}

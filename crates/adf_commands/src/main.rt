//! The commands beside `adf` in one program, which acts by the name that it is called by, as `adf-survey`; called by another name, its
//! first argument is the command.
#![tactic(auto)]

mod closed;
mod command;
mod raw_words;
mod shelf;

use crate::command::Command;
use crate::raw_words::{raw_words, stand_ins};
use adf_file_runs::NamedErrors;
use adf_runs::{Device, Outcome, command_words, refuse_words, say};
use std::alloc::Global;
use std::process::ExitCode;

/// A command, and how many words stand before its own, the first of which is its name.
#[derive(Clone, Copy)]
struct Asked {
    command: Command,
    before: usize,
}

// What words ask for: the program's name says it, or else the word behind it.
fn asked_by(words: &[&str]) -> Option<Asked> {
    for (before, word) in words.iter().take(2).enumerate() {
        if let Some(command) = Command::named(word) {
            return Some(Asked { command, before });
        }
    }
    None
}

// The words behind so many; none if there are fewer.
fn words_behind<T>(words: &[T], count: usize) -> &[T] {
    &words[count.min(words.len())..]
}

// Says that no command is named, and returns the status.
fn refuse_name(rt: &HostRuntime) -> u8 {
    say(
        &mut Device::new(rt.stderr()),
        b"usage: adf-boot, adf-disk, adf-edit, adf-merge, adf-shelf or adf-survey, or one of these words behind this name\n",
    );
    2
}

// Says why the words of a command cannot be had, or its images not be told, and returns the status.
fn refuse(rt: &HostRuntime, command: Command, fault: &Outcome) -> u8 {
    let mut errors = NamedErrors::new(command.name(), Device::new(rt.stderr()));
    refuse_words(fault, &mut errors)
}

// The status of a run on words.
fn run_texts(rt: &HostRuntime, words: &[&str]) -> u8 {
    let Some(asked) = asked_by(words) else {
        return refuse_name(rt);
    };
    match asked.command.run(rt, words_behind(words, asked.before)) {
        Ok(status) => status,
        Err(fault) => refuse(rt, asked.command, &fault),
    }
}

// The status of a run on words as bytes, of which some are no UTF-8.
fn run_bytes(rt: &HostRuntime, words: &[Vec<u8>]) -> Result<u8, Outcome> {
    let texts = stand_ins(rt.alloc(), words)?;
    let Some(asked) = asked_by(&texts) else {
        return Ok(refuse_name(rt));
    };
    match asked.command.run_raw(rt, words_behind(words, asked.before)) {
        Ok(status) => Ok(status),
        Err(fault) => Ok(refuse(rt, asked.command, &fault)),
    }
}

// The status of a run on the words that the system gives.
fn status(rt: &HostRuntime) -> Result<u8, Outcome> {
    match command_words(rt) {
        Ok(words) => {
            let texts: Vec<&str> = words.iter().map(|word| word.as_str()).collect(rt.alloc())?;
            Ok(run_texts(rt, &texts))
        }
        Err(Outcome::NoMemory) => Err(Outcome::NoMemory),
        Err(_) => run_bytes(rt, &raw_words(rt)?),
    }
}

fn main(rt: HostRuntime) -> ExitCode {
    ExitCode::from(match status(&rt) {
        Ok(status) => status,
        Err(fault) => refuse_words(&fault, &mut Device::new(rt.stderr())),
    })
}

//! Runs the worked rows of the files that the command line names, or single library calls, and says which of them fail.
#![tactic(auto)]

mod bench;
mod calls;
mod changes;
mod devices;
mod entry_calls;
mod failing;
mod files;
mod image_calls;
mod outcome;
mod questions;
mod report;
mod row_error;
mod state;
mod tables;
mod text_calls;
mod texts;
mod tree_calls;
mod trees;
mod trial;
mod wants;
mod words;

use std::io;
use std::process::ExitCode;

fn main(rt: HostRuntime) -> io::Result<ExitCode> {
    Ok(ExitCode::from(if files::run(&rt)? { 0 } else { 1 }))
}

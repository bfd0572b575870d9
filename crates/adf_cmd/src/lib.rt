//! The command `adf`: its works and their answers.
#![tactic(auto)]

mod build_lines;
mod building;
mod checking;
mod converting;
mod copying;
mod images;
mod listing;
mod round_trip;
mod runner;
mod volume_listing;
mod work;

pub use crate::images::checked;
pub use crate::listing::write_listing;
pub use crate::round_trip::build_and_read;
pub use crate::runner::{one_answer, run};
pub use crate::work::Work;
pub use adf_manifest::{ManifestFault, ManifestKind, read_manifest};
pub use adf_runs::{
    Device, Failed, Outcome, Program, Ran, Sink, Source, StreamFault, WorkFault, command_words,
    flush_long, read_all, read_input, read_into, run_program, run_program_on, say, write_all,
};
pub use adf_words::{ArgsError, Request, parse, words_as_documented};

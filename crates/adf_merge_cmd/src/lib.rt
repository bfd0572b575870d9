//! The command `adf-merge`: one image of several readings of a disk.
#![tactic(auto)]

mod command_line;
mod doubt_lines;
mod maps;
mod merging;
mod names;
mod read_file;
mod refusal;
mod runner;
mod sizes;

pub use crate::command_line::parse_merge as parse;
pub use crate::runner::{Merging, run};

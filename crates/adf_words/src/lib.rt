//! The arguments of `adf`, read by clap, and what all command lines share.
#![tactic(auto)]

mod arguments;
mod command_line;
mod file_arguments;

pub use crate::arguments::{
    bare_command, cat_command, first_text, flag, has_flag, matches_of, number_named, required,
    with_argument, with_subcommand,
};
pub use crate::command_line::{ArgsError, Request, USAGE, parse, words_as_documented};
pub use crate::file_arguments::{file_argument, file_met, with_file};

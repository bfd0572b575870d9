//! The texts of plans of hard disks.
#![tactic(auto)]

mod host_files;
mod plan_line;
mod plan_text;
mod plan_words;

pub use crate::host_files::{host_of, names_hosts, one_plain_text, plain_text};
pub use crate::plan_text::{TextFault, TextKind, one_text, read_plan, words_tell_file_systems};
pub use crate::plan_words::{cut, cut_line};

//! The command `adf-shelf`: the verdicts of `check` on many images.
#![tactic(auto)]

mod batch;
mod command_line;
mod names;
mod report;
mod runner;

pub use crate::batch::{Stop, say_more, write_verdicts};
pub use crate::command_line::{ABOUT, Order, parse_shelf as parse};
pub use crate::names::{Names, TextNames, WordNames};
pub use crate::report::{ImageChecks, Report, check_file, push_why, put_line};
pub use crate::runner::run;

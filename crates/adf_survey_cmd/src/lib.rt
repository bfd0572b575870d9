//! The command `adf-survey`: all that is wrong in an image, what exists on it, and what can be had of that.
#![tactic(auto)]

mod answer;
mod command_line;
mod copying;
mod deleting;
mod formatted;
mod hints;
mod judged;
mod laws;
mod linking;
mod map_runs;
mod map_words;
mod reporting;
mod rescuing;
mod runner;
mod task;
mod unread;
mod work;

pub use crate::command_line::{Inquiry, Question, RescueWish, parse_survey as parse};
pub use crate::laws::{clean_reports, rescued_volumes};
pub use crate::map_runs::run_mapped;
pub use crate::runner::run_files;
pub use crate::task::Task;
pub use crate::work::Work;

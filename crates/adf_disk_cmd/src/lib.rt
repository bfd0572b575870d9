//! The command `adf-disk`: the partitions of a whole hard disk, their volumes, and new disks.
#![tactic(auto)]

mod answering;
mod building;
mod check_input;
mod checking;
mod command_line;
mod copy_input;
mod disk_files;
mod disk_objects;
mod faults;
mod gathering;
mod host_plans;
mod host_volumes;
mod job;
mod list_input;
mod listing;
mod names;
mod new_volumes;
mod proposing;
mod runner;
mod search_lines;
mod searching;
mod stretch;
mod surveying;
mod types;
mod unchecked;
mod volumes;
mod work;

pub use crate::command_line::{DiskRequest, Wanted, disk_words_as_documented, parse_disk as parse};
pub use crate::disk_files::new_disk_words_as_documented;
pub use crate::host_plans::{plans_take_any_bytes, run_plans};
pub use crate::job::Job;
pub use crate::runner::{damaged_tables_are_told, run_files};
pub use crate::work::{MOST_DISK_BYTES, Sought, Work};

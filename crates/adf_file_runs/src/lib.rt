//! Files, which may be replaced, runs of programs over them, and what a program tells of itself: its help, its version, its name.
#![tactic(auto)]

mod about;
mod announced_input;
mod changes;
mod file_programs;
mod files;
mod mains;
mod named_errors;
mod refusals;
mod system_changes;

pub use crate::about::{About, Telling, VERSION_NUMBER, tell, telling_asked};
pub use crate::announced_input::AnnouncedInput;
pub use crate::changes::{ChangeFiles, Changing, Unwritten};
pub use crate::file_programs::{FileProgram, Invocation, WithoutFiles, run_program_on_files};
pub use crate::files::{Files, SystemFiles, Unopened};
pub use crate::mains::{SystemProgram, answer, run_on};
pub use crate::named_errors::NamedErrors;
pub use crate::refusals::{refuse_change, refuse_file};
pub use crate::system_changes::SystemChanges;

//! The command `adf-boot`: what the boot blocks of an image are, and images with others.
#![tactic(auto)]

mod boot_file;
mod changing;
mod command_line;
mod laws;
mod line;
mod runner;
mod work;
mod writing;

pub use crate::command_line::{BootRequest, BootWords, parse_boot as parse};
pub use crate::laws::trees_stay;
pub use crate::line::boot_line;
pub use crate::runner::run;
pub use crate::work::Work;

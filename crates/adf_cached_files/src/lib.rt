//! Checks the image of a volume with directory caches whose files are read from the image as it is.
#![tactic(auto)]

mod checking;
mod laws;
mod sameness;

pub use crate::checking::{check_in_place, kept_in_place};
pub use crate::laws::{files_are_read_in_place, one_verdict_in_place};

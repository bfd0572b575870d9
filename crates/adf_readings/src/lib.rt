//! Several readings of one disk, and the image that they are merged into.
#![tactic(auto)]

mod choice;
mod doubt;
mod mapped;
mod merging;
mod reading;
mod versions;

pub use crate::choice::MOST_READINGS;
pub use crate::doubt::{Doubt, Why};
pub use crate::mapped::MappedReading;
pub use crate::merging::{Merged, merge};

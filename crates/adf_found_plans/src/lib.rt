//! Plans of the volumes that are found on a disk without its tables.
#![tactic(auto)]

mod choice;
mod cylinder;
mod names;
mod plans;

pub use crate::choice::{Choice, choose};
pub use crate::plans::{NoPlan, found_plan_text};

//! The maps of GNU ddrescue: which bytes of a disk a reading has.
#![tactic(auto)]

mod hole;
mod map;
mod numbers;
mod rows;
mod stretch;

pub use crate::hole::Hole;
pub use crate::map::{Map, MapFault, read_map};

//! Drafts of trees: entries are added in any order, and the tree comes at the end.
#![tactic(auto)]

mod child_map;
mod draft;
mod groups;

pub use crate::child_map::ChildMap;
pub use crate::draft::{Draft, Room};

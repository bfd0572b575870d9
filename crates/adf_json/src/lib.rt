//! The objects that programs write for machines, in JSON: one a line, in ASCII.
#![tactic(auto)]

mod objects;
mod paths;

pub use crate::objects::{Member, Value, push_object, without_feed};
pub use crate::paths::joined;

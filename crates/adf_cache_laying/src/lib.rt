//! Directory caches that are laid into a volume of type 2 or 3, and judged by what came of it.
#![tactic(auto)]

mod alike;
mod boots;
mod caching;
mod directories;
mod kept;
mod laying;
mod records;
mod room;
mod same_trees;
mod trees;

pub use crate::caching::lay_caches;

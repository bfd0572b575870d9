//! Directory caches: which of them are right, and their blocks.
#![tactic(auto)]

mod all_blocks;
mod blocks;
mod chains;
mod headers;
mod listing;
mod records;
mod wrong;

pub use crate::all_blocks::cache_blocks;
pub use crate::wrong::{directory_header, root_block, wrong_caches};

//! Blocks that a dumping program did not read, and the image without them.
#![tactic(auto)]

mod blank;
mod dropping;
mod image;
mod mapped;
mod runs;

pub use crate::blank::{blank_marks, is_blank_block};
pub use crate::dropping::{drop_unread, dropped_keeps};
pub use crate::mapped::map_marks;
pub use crate::runs::{UnreadRun, unread_runs};

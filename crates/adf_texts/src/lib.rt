//! The lines that the programs write.
#![tactic(auto)]

mod lines;
mod pieces;
mod volume_lines;

pub use crate::lines::{
    push_counts, push_counts_by, push_counts_of, push_fault, push_word_line, refused_line,
};
pub use crate::pieces::{ROOM, write_through};
pub use crate::volume_lines::{push_entry_lines, push_head_lines, push_opening_lines};

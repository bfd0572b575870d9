//! Edits of trees: a tree as the list of its additions, and what each edit makes of it.
#![tactic(auto)]

mod edits;
mod index;
mod indexed;
mod laws;
mod moves;
mod outline;
mod path_text;
mod paths;
mod tree_fault;

pub use crate::edits::{Change, Edit, EditFault};
pub use crate::indexed::IndexedOutline;
pub use crate::laws::{
    changes_keep_other_paths, directories_keep_other_paths, edits_keep_room,
    files_keep_other_paths, labels_keep_paths, moves_keep_other_paths, outlines_have_their_trees,
    removals_keep_other_paths, replacements_keep_other_paths,
};
pub use crate::outline::{Item, Outline, OutlineFault};
pub use crate::path_text::PathText;
pub use crate::paths::MOST_DEPTH;
pub use crate::tree_fault::TreeFault;

//! Trees of Amiga volumes.
#![tactic(auto)]

mod bounds;
mod entry;
mod last_chain;
mod laws;
mod lookup;
mod name_key;
mod name_set;
mod tree;
mod tree_entries;
mod walk_order;

pub use crate::entry::{Body, Bytes, Entry, Node};
pub use crate::laws::{
    adding_grows_the_tree, additions_are_built, additions_have_one_tree, case_keeps_paths,
    case_keeps_slots, children_are_found, entries_stand_in_one_chain, names_are_found,
    paths_are_found, trees_grow_in_order,
};
pub use crate::lookup::is_dir;
pub use crate::name_key::NameKey;
pub use crate::name_set::NameSet;
pub use crate::tree::{AddFault, RoomFault, Tree};
pub use crate::tree_entries::TreeEntries;
pub use adf_base::{Letters, slot, upper};
pub use adf_names::{
    Comment, Kind, Label, Meta, NO_STAMPS, Name, PathFault, ShortText, Stamps, digit_value,
    hex_digit, is_plain, path_texts_decide, read_path, spellings_decide, write_path,
};

//! The model of a volume, the laws of walks over it, and what a walk keeps.
#![tactic(auto)]

mod counts;
mod fault;
mod image;
mod kept_header;
mod kept_owner;
mod kept_places;
mod laws;
mod node_start;
mod owner;
mod owner_class;
mod owner_table;
mod part;
mod pieces;
mod row;
mod samples;
mod start;
mod types;

pub use crate::counts::Counts;
pub use crate::fault::{Fault, fault_at, no_memory};
pub use crate::image::Image;
pub use crate::kept_header::KeptHeader;
pub use crate::kept_owner::KeptOwner;
pub use crate::kept_places::owner_of;
pub use crate::laws::{
    agreement, chains_of_numbers, completeness, demanded_form, fits_are_bounded,
    fits_by_own_letters, layout_of_walk_fits, none_fits, one_fault, one_fit, pieces_are_content,
    whole_walk,
};
pub use crate::node_start::NodeStart;
pub use crate::owner::Owner;
pub use crate::owner_class::OwnerClass;
pub use crate::owner_table::OwnerTable;
pub use crate::part::Part;
pub use crate::pieces::{Pieces, count_of, held_in, joined};
pub use crate::row::{Row, RowBody, row_of};
pub use crate::samples::{
    file_volume_fits, international_volume_fits, lost_block_is_first_fault, tiny_volume_fits,
};
pub use crate::start::{Opened, boot_cause, is_image_len, kind_in, letters_in, open_by};
pub use crate::types::Types;

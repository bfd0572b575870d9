//! Checks the image of an Amiga volume: returns its content, or the first fault and its block.
#![tactic(auto)]

mod bitmap;
mod chains;
mod checked;
mod checker;
mod claims;
mod datas;
mod exts;
mod file;
mod lookup;
mod nodes;
mod owners;
mod pages;
mod pieces;
mod rebuild;
mod store;

pub use crate::checked::Checked;
pub use crate::checker::{check, check_by, check_types};
pub use crate::owners::Owners;
pub use adf_volume::{Counts, Fault, Owner, OwnerClass, Pieces, Row, RowBody};

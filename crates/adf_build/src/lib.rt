//! Builds the image of an Amiga volume from a tree; the laws of built images.
#![tactic(auto)]

mod builder;
mod chains;
mod counting;
mod datas;
mod entries;
mod exts;
mod heads;
mod laid;
mod map_exts;
mod nodes;
mod pages;
mod plan;
mod volume;

pub use crate::builder::{BuildFault, build, build_into, build_types};
pub use crate::counting::{data_blocks, ext_count, fewest_blocks, free_blocks, need, need_types};
pub use crate::laid::{
    extensions_are_few, laid_bytes, laid_fits, laid_in_order, laid_room, one_laid, planned_blocks,
    volumes_are_laid,
};

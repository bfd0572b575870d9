//! The calls over memory that take images of types 0 to 5: those of volumes with directory caches too.
#![tactic(auto)]

mod cached;
mod index;
mod owners;
mod reading;
mod verdict;

pub use crate::index::put_index_types;
pub use crate::owners::owners_of_types;
pub use crate::reading::read_bytes_types;
pub use crate::verdict::check_image_types;

//! Checks the image of a volume with directory caches: as a volume without, once its caches are right.
#![tactic(auto)]

mod bits;
mod faults;
mod images;
mod laws;
mod verdict;

pub use crate::images::{Uncached, is_cached, without_caches};
pub use crate::laws::one_cached_verdict;
pub use crate::verdict::{check_uncached, counts_with_caches};

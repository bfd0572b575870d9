//! What the blocks of an image say of themselves: the witnesses of a judge of damaged volumes.
#![tactic(auto)]

mod bitmap;
mod columns;
mod image;
mod kinds;
mod lengths;
mod letters;
mod middles;
mod moment;

pub use crate::bitmap::Bitmap;
pub use crate::columns::{Marks, Numbers};
pub use crate::image::{COMMENT, DATE, HASH_SIZE, Image, MOST_TEXT, PROTECTION, is_header_type};
pub use crate::kinds::Kinds;
pub use crate::lengths::{Length, length_of};
pub use crate::letters::LetterVotes;
pub use crate::moment::Moment;

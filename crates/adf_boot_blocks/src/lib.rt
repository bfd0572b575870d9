//! The boot blocks of an image: what they say, and code that is written into them.
#![tactic(auto)]

mod boot;
mod crc;
mod laws;
mod refusal;
mod standard;
mod writing;

pub use crate::boot::{
    BOOT_LEN, BOOT_WORDS, begins_with_dos, has_no_code, has_right_sum, is_bootable,
};
pub use crate::crc::crc_32;
pub use crate::laws::{boot_is_no_part, boots_stay, sums_are_right};
pub use crate::refusal::{BootRefusal, LEAST_BYTES, MOST_BYTES, copy_refusal, image_refusal};
pub use crate::standard::STANDARD_CODE;
pub use crate::writing::{clear, copy, install, restore};

//! The fields of blocks: words, checksums, hashes and dates of `adf_base`, and beside them the texts of dates.
#![tactic(auto)]

mod date_texts;

pub use crate::date_texts::{CIVIL_DAYS, dates_have_one_text, push_stamp, stamp_text};
pub use adf_base::{Block, NoMemory, Stamp, seal, set_bytes, set_word, slot, upper};

//! The base of all crates: words, checksums, name hashes, and dates as their three numbers.
#![tactic(auto)]

mod blocks;
mod dates;
mod hash;
mod images;
mod puts;

pub use crate::blocks::{BLOCK_LEN, BLOCK_WORDS, Block};
pub use crate::dates::{NO_STAMP, Stamp};
pub use crate::hash::{Letters, slot, slot_by, upper, upper_by};
pub use crate::images::{put_block, seal, set_bytes, set_word};
pub use crate::puts::{put_bytes, put_word, put_words, put_words_down, seal_block};
use std::alloc::{AllocError, AllocFailed};
use std::error::Error;
use std::fmt;

/// An allocation failed.
#[derive(Clone, Copy, Debug, PartialEq, Eq)]
pub struct NoMemory;

impl fmt::Display for NoMemory {
    ghost use Rattle.std.specs.Prelude.{Some, codes};

    ghost output = { λ _. Some (codes "no memory") };

    fn fmt<W: fmt::Write>(&self, f: &mut fmt::Formatter<W>) -> fmt::Result {
        f.write_str("no memory")
    }
}

impl Error for NoMemory {}

impl From<AllocError> for NoMemory {
    fn from(_error: AllocError) -> NoMemory {
        NoMemory
    }
}

impl<T: Drop> From<AllocFailed<T>> for NoMemory {
    fn from(_error: AllocFailed<T>) -> NoMemory {
        NoMemory
    }
}

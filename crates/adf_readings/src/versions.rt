// The versions of a block.

ghost use Rattle.std.specs.Prelude.{◌≤◌, ◌+◌, ◌*◌, All, length};

use crate::reading::Reading;
use adf_base::{BLOCK_LEN, Block};
use adf_blocks::{OWN_KEY, SECONDARY_TYPE, ST_ROOT, T_DIR_CACHE, T_LIST, T_SHORT, TYPE};

// Whether a block is 16 bytes over and over.
fn is_filler(v: &Block<'_>) -> bool {
    v.bytes(16, BLOCK_LEN - 16) == v.bytes(0, BLOCK_LEN - 16)
}

// Whether a block has its own number, as far as its type has one.
fn has_own_number(b: u32, v: &Block<'_>) -> bool {
    let kind = v.word(TYPE);
    let is_head = kind == T_SHORT && v.word(SECONDARY_TYPE) != ST_ROOT;
    if kind == T_LIST || kind == T_DIR_CACHE || is_head {
        v.word(OWN_KEY) == b
    } else {
        true
    }
}

// Whether the checksum is right, and nothing in the block tells against its being block `b`.
fn is_credible_block(b: u32, v: &Block<'_>) -> bool {
    v.long_sum() == 0 && !is_filler(v) && has_own_number(b, v)
}

/// Whether the version of a reading is credible.
pub fn is_credible(reading: &Reading<'_>, b: u32) -> bool
    requires { b * 512 + 512 ≤ length reading.now }
{
    match Block::at(reading.bytes(), b) {
        Some(v) => is_credible_block(b, &v),
        None => false,
    }
}

/// Whether the version of a reading is a filler.
pub fn is_filled(reading: &Reading<'_>, b: u32) -> bool
    requires { b * 512 + 512 ≤ length reading.now }
{
    match Block::at(reading.bytes(), b) {
        Some(v) => is_filler(&v),
        None => false,
    }
}

/// How many readings have this version of block `b`.
pub fn votes(readings: &[Reading<'_>], b: u32, v: &[u8]) -> usize
    requires { All (λ r. b * 512 + 512 ≤ length r) readings.now }
    ensures { result ≤ length readings.now }
{
    let mut votes = 0usize;
    for reading in readings {
        if v == reading.version(b) {
            votes += 1;
        }
    }
    votes
}

/// How many readings have a credible version of block `b`.
pub fn credible_votes(readings: &[Reading<'_>], b: u32) -> usize
    requires { All (λ r. b * 512 + 512 ≤ length r) readings.now }
{
    let mut votes = 0usize;
    for reading in readings {
        if is_credible(reading, b) {
            votes += 1;
        }
    }
    votes
}

// The sizes of volumes and files.

ghost use Rattle.std.specs.Prelude.{◌≡◌, ◌≤◌, true};
ghost use Rattle.adf_blocks.specs.Sizes.{chunk, count, is_allowed, is_plain_size, pages_needed};

use crate::layout::{DATA_ROOM, MOST_BLOCKS, MOST_PLAIN_BLOCKS, PAGE_BITS};
use adf_names::Kind;

/// Whether a volume may have this number of blocks: even, 4 to `MOST_BLOCKS`.
pub fn is_allowed_size(blocks: u32) -> bool
    ensures { result ≡ is_allowed blocks }
{
    4 <= blocks && blocks <= MOST_BLOCKS && blocks % 2 == 0
}

/// Whether a volume of plain types may have this number of blocks: even, 4 to `MOST_PLAIN_BLOCKS`.
pub fn is_plain_size(blocks: u32) -> bool
    ensures { result ≡ is_plain_size blocks }
{
    is_allowed_size(blocks) && blocks <= MOST_PLAIN_BLOCKS
}

/// The number of bitmap pages for this number of blocks, 1 to 2,065.
pub fn page_count(blocks: u32) -> u32
    requires { is_allowed blocks ≡ true }
    ensures exact { result ≡ pages_needed blocks }
    ensures few { result ≤ 2065 }
{
    (blocks - 2).div_ceil(PAGE_BITS)
}

/// The bytes of a file in a full data block: 488 in OFS, 512 in FFS.
#[tactic(auto, unfolding(crate::specs::Sizes::chunk))]
pub fn chunk_len(kind: Kind) -> usize
    ensures exact { result ≡ chunk kind }
    ensures low { DATA_ROOM ≤ result }
    ensures high { result ≤ 512 }
{
    match kind {
        Kind::Ofs => DATA_ROOM,
        Kind::Ffs => 512,
    }
}

/// The number of data blocks of a file of `size` bytes.
#[tactic(auto, unfolding(crate::specs::Sizes::count))]
pub fn data_count(kind: Kind, size: usize) -> usize
    ensures exact { result ≡ count kind size }
    ensures few { result ≤ size }
{
    size.div_ceil(chunk_len(kind))
}

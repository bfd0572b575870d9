// What is read of files by the table of what entries have at blocks.

ghost use Rattle.std.specs.Prelude.{◌≡◌, ◌<◌, ◌+◌, ◌*◌, ◌^◌, length};
ghost use Rattle.adf_blocks.specs.Sizes.{blocks as blocks_of};
ghost use Rattle.adf_memory.specs.Rooms.{BeginsWith};
ghost use Rattle.adf_memory.specs.SurveyCalls.{FillsFound, IsFoundBlock, ReadsFound};

use crate::found_parts::FoundPart;
use crate::judged::word_in;
use crate::reading::{kind_of, read_sized};
use crate::tables::put;
use adf_base::BLOCK_LEN;
use adf_blocks::{EXTENSION, FIRST_POINTER, POINTERS, SECONDARY_TYPE, SIZE, ST_FILE, chunk_len};
use adf_volume::count_of;

/// The number that stands for no block in the table of a file.
pub const NO_BLOCK: u32 = 0xFFFF_FFFF;

// The number of bytes of the file with its header at a block; 0 if it is none.
fn file_size(image: &[u8], header: u32) -> u32 {
    if image.len() % BLOCK_LEN != 0 {
        return 0;
    }
    if word_in(image, header, SECONDARY_TYPE) != ST_FILE {
        return 0;
    }
    let size = word_in(image, header, SIZE) as usize;
    size.min(image.len()) as u32
}

// How many data blocks the size of a file asks for.
fn file_block_count(image: &[u8], header: u32) -> u32 {
    let size = file_size(image, header);
    if size == 0 {
        return 0;
    }
    count_of(kind_of(image), size)
}

// Whether a row is that of data block `k` of a file.
fn is_data_row(node: usize, k: u32, part: Option<FoundPart>) -> bool
    requires { k + 1 < 2 ^ 32 }
{
    match part {
        Some(part) => part.node == node && part.number == k + 1,
        None => false,
    }
}

// A block, if the image has it and its row is that of data block `k` of a file; else `NO_BLOCK`.
fn own_block(image: &[u8], parts: &[FoundPart], node: usize, k: u32, b: u32) -> u32
    requires { k + 1 < 2 ^ 32 }
    ensures { IsFoundBlock image.now result }
{
    let part = parts.get(b as usize).copied();
    if (b as usize) < image.len() / BLOCK_LEN && is_data_row(node, k, part) {
        b
    } else {
        NO_BLOCK
    }
}

// Fills the table of a file of so many data blocks, as far as there is room.
fn put_named(
    image: &[u8],
    parts: &[FoundPart],
    node: usize,
    header: u32,
    count: u32,
    table: &mut [u32],
)
    ensures { BeginsWith (IsFoundBlock image.now) count table.old table.new }
{
    let mut member = header;
    for k in 0..count {
        let b = word_in(image, member, FIRST_POINTER - k as usize % POINTERS);
        put(table, k as usize, own_block(image, parts, node, k, b));
        if (k as usize + 1) % POINTERS == 0 {
            member = word_in(image, member, EXTENSION);
        }
    }
}

/// Fills the table of a file that exists, by the node of its entry and the block of its header, as far as it has room: its data
/// blocks in order, with `NO_BLOCK` for each that is not its own by these rows. Returns how many its size asks for; 0 for what is no
/// file. It does not allocate.
pub fn put_found_blocks(
    image: &[u8],
    parts: &[FoundPart],
    node: usize,
    header: u32,
    table: &mut [u32],
) -> usize
    ensures { FillsFound image.now table.old table.new result }
{
    let count = file_block_count(image, header);
    put_named(image, parts, node, header, count, table);
    count as usize
}

// How many data blocks at the front of a table are not left.
fn missing(image: &[u8], table: &[u32]) -> usize
    ensures { result < 2 ^ 63 }
{
    let blocks = image.len() / BLOCK_LEN;
    for i in 0..table.len() {
        if (table[i] as usize) < blocks {
            return i;
        }
    }
    table.len()
}

// How many bytes of a file of such a size from a place on are in data blocks that are not left.
fn lost_from(image: &[u8], size: usize, table: &[u32], at: usize) -> usize {
    if size <= at {
        return 0;
    }
    let chunk = chunk_len(kind_of(image));
    let first = at / chunk;
    let behind = table.get(first..).unwrap_or(&[]);
    let end = chunk.saturating_mul(first + missing(image, behind));
    size.min(end).saturating_sub(at)
}

/// Reads a file that exists through its table, from `offset` on, as many bytes as there are up to one that is lost, and
/// as fit into `room`. Returns how many, and writes to `lost` how many bytes behind these are lost. It neither checks the
/// image nor allocates.
pub fn read_found(
    image: &[u8],
    header: u32,
    table: &[u32],
    offset: usize,
    room: &mut [u8],
    lost: &mut usize,
) -> usize
    ensures { ReadsFound image.now table.now offset room.old room.new result }
{
    let size = file_size(image, header) as usize;
    let count = read_sized(image, table, size, offset, room);
    *lost = match offset.checked_add(count) {
        Some(at) => lost_from(image, size, table, at),
        None => 0,
    };
    count
}

// Reading files through the tables.

ghost use Rattle.std.specs.Prelude.{◌≡◌, ◌≤◌, ◌<◌, ◌+◌, ◌-◌, ◌^◌, ◌++◌, ℕ, List, [], IfSome, IfNone, length, min, take, drop};
ghost use Rattle.adf_base.specs.Words.{block};
ghost use Rattle.adf_volume.specs.Image.{area, kind_of};
ghost use Rattle.adf_memory.specs.{Rooms.filled, Areas.bytes_from, Areas.file_bytes_from, Areas.node_from, CheckCalls.ReadsFile};

use crate::tables::TableEntry;
use adf_base::{BLOCK_LEN, Block};
use adf_blocks::{DATA_BYTES, DATA_ROOM, chunk_len};
use adf_tree::Kind;
use adf_volume::kind_in;

/// The kind that the boot block tells, where the image has one.
pub fn kind_of(image: &[u8]) -> Kind
    ensures { 512 ≤ length image.now → result ≡ kind_of image.now }
{
    if image.len() < BLOCK_LEN {
        return Kind::Ffs;
    }
    kind_in(image)
}

// The data area of a block.
#[tactic(auto, unfolding(adf_volume::specs::Image::area))]
fn area<'a>(block: Block<'a>, kind: Kind) -> &'a [u8]
    ensures { result.now ≡ area kind block.entry }
{
    match kind {
        Kind::Ofs => block.bytes(DATA_BYTES, DATA_ROOM),
        Kind::Ffs => block.bytes(0, BLOCK_LEN),
    }
}

// What these data blocks hold from a place on, up to the end of the data area where it lies; none past the last of them, and
// where the image does not have the block.
fn part_at<'a>(image: &'a [u8], kind: Kind, datas: &[u32], at: usize) -> Option<&'a [u8]>
    ensures none { IfNone result (bytes_from image.entry.now kind datas.now at ≡ []) }
    ensures some { IfSome result (λ part. 0 < length part.now) }
    ensures part { IfSome result (λ part. (more : List ℕ)
        × (bytes_from image.entry.now kind datas.now at ≡ part.now ++ more)) }
{
    let size = chunk_len(kind);
    let place = at / size;
    if datas.len() <= place {
        return None;
    }
    let block = Block::at(image, datas[place])?;
    Some(&area(block, kind)[at % size..])
}

// Puts as much of a part as fits behind the bytes that stand in the room, and answers how many stand there then.
fn put_part(room: &mut [u8], put: usize, part: &[u8]) -> usize
    requires { put ≤ length room.old }
    ensures count { result ≡ put + min (length part.now) (length room.old - put) }
    ensures front { take result room.new ≡ take put room.old
        ++ take (min (length part.now) (length room.old - put)) part.now }
    ensures behind { drop result room.new ≡ drop result room.old }
{
    let count = part.len().min(room.len() - put);
    room[put..put + count].copy_from_slice(&part[..count]);
    put + count
}

/// Fills the room with what these data blocks hold from a place on, and answers how many bytes it put.
pub fn put_bytes(image: &[u8], kind: Kind, datas: &[u32], from: usize, room: &mut [u8]) -> usize
    requires { from + length room.old < 2 ^ 64 }
    ensures count { result
        ≡ min (length room.old) (length (bytes_from image.now kind datas.now from)) }
    ensures bytes { room.new ≡ filled (bytes_from image.now kind datas.now from) room.old }
{
    let mut put = 0;
    while put < room.len() {
        let Some(part) = part_at(image, kind, datas, from + put) else {
            return put;
        };
        put = put_part(room, put, part);
    }
    put
}

/// Puts what these data blocks hold from a place on, up to a size, into the room, as many bytes as there are and fit, and answers
/// how many.
pub fn read_sized(image: &[u8], datas: &[u32], size: usize, offset: usize, room: &mut [u8]) -> usize
    ensures count { result ≡ min (length room.old)
        (length (take (size - offset) (bytes_from image.now (kind_of image.now) datas.now offset))) }
    ensures bytes { room.new
        ≡ filled (take (size - offset) (bytes_from image.now (kind_of image.now) datas.now offset)) room.old }
{
    if size <= offset {
        return 0;
    }
    let count = room.len().min(size - offset);
    put_bytes(image, kind_of(image), datas, offset, &mut room[..count])
}

// Puts the bytes of a file from a place on into the room, as many as there are and fit, and answers how many.
fn read_file(
    image: &[u8],
    file: &TableEntry,
    blocks: &[u32],
    offset: usize,
    room: &mut [u8],
) -> usize
    ensures count { result
        ≡ min (length room.old) (length (file_bytes_from image.now file.now blocks.now offset)) }
    ensures bytes { room.new ≡ filled (file_bytes_from image.now file.now blocks.now offset) room.old }
{
    let first = file.first as usize;
    if blocks.len() < first {
        return 0;
    }
    read_sized(image, &blocks[first..], file.size as usize, offset, room)
}

// Puts the bytes of a node from a place on into the room, as many as there are and fit, and answers how many.
fn read_node(
    image: &[u8],
    entries: &[TableEntry],
    blocks: &[u32],
    node: usize,
    offset: usize,
    room: &mut [u8],
) -> usize
    ensures count { result ≡ min (length room.old)
        (length (node_from image.now entries.now blocks.now node offset)) }
    ensures bytes { room.new
        ≡ filled (node_from image.now entries.now blocks.now node offset) room.old }
{
    if node == 0 {
        return 0;
    }
    if entries.len() < node {
        return 0;
    }
    read_file(image, &entries[node - 1], blocks, offset, room)
}

/// Reads a file through the tables of its image, from `offset` on, as many bytes as there are and as fit into `room`. Returns
/// how many. It neither checks the image nor allocates.
pub fn read_bytes(
    image: &[u8],
    entries: &[TableEntry],
    blocks: &[u32],
    node: usize,
    offset: usize,
    room: &mut [u8],
) -> usize
    ensures { ReadsFile image.now entries.now blocks.now node offset room.old room.new result }
{
    read_node(image, entries, blocks, node, offset, room)
}

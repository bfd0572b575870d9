// Records of directory caches, as they are written. What is laid is judged, so nothing is promised here.

ghost use Rattle.std.specs.Prelude.{◌≤◌, ◌+◌, IfSome, length};

use adf_base::{BLOCK_LEN, Block, put_bytes};
use adf_blocks::{SECONDARY_TYPE, SIZE, ST_FILE};
use adf_findings::Survey;
use adf_tree::{Meta, Node};

// The byte of a cache block where its records begin.
const RECORD_START: usize = 24;

// The bytes of a record before the name.
const RECORD_HEAD: usize = 24;

// The most bytes of a name in a header.
const MOST_NAME: usize = 79;

// The size of a file; 0 of anything else.
fn size_in(head: &Block<'_>) -> u32 {
    if head.word(SECONDARY_TYPE) == ST_FILE {
        head.word(SIZE)
    } else {
        0
    }
}

// The low two bytes of a number.
fn low_half(number: u32) -> [u8; 2] {
    ((number % 65536) as u16).to_be_bytes()
}

// Writes the numbers of a record, from byte `at` on: the block of the header, the size, the protection, the date and the kind.
fn put_numbers(block: &mut [u8; BLOCK_LEN], at: usize, own: u32, head: &Block<'_>, meta: &Meta)
    requires { at + 24 ≤ 512 }
{
    put_bytes(block, at, &own.to_be_bytes());
    put_bytes(block, at + 4, &size_in(head).to_be_bytes());
    put_bytes(block, at + 8, &meta.protect.to_be_bytes());
    put_bytes(block, at + 16, &low_half(meta.stamp.days));
    put_bytes(block, at + 18, &low_half(meta.stamp.mins));
    put_bytes(block, at + 20, &low_half(meta.stamp.ticks));
    block[at + 22] = (head.word(SECONDARY_TYPE) % 256) as u8;
}

// Writes a text behind its length, from byte `at` on, if it has room. Returns the byte behind it.
fn put_text(block: &mut [u8; BLOCK_LEN], at: usize, text: &[u8]) -> Option<usize>
    requires { at ≤ 512 }
    ensures { IfSome result (λ next. next ≤ 512) }
{
    let Ok(count) = u8::try_from(text.len()) else {
        return None;
    };
    let end = at + 1 + text.len();
    if BLOCK_LEN < end {
        return None;
    }
    block[at] = count;
    put_bytes(block, at + 1, text);
    Some(end)
}

// How many bytes a record has: an even number.
fn record_len(name: &[u8], comment: &[u8]) -> usize
    requires name { length name.now ≤ 79 }
    requires comment { length comment.now ≤ 79 }
    ensures { RECORD_HEAD ≤ result }
{
    let len = RECORD_HEAD + name.len() + 1 + comment.len();
    len + len % 2
}

// Writes the record of an entry into a cache block, from byte `at` on, if it has room. Returns the byte behind it.
fn put_record(found: &Survey<'_>, block: &mut [u8; BLOCK_LEN], at: usize, n: Node) -> Option<usize>
    requires { at ≤ 512 }
    ensures { IfSome result (λ next. next ≤ 512) }
{
    let own = found.block_of(n)?;
    let head = found.header(n)?;
    let name = found.name(n)?;
    let meta = found.meta(n)?;
    let comment = meta.comment.bytes();
    if MOST_NAME < name.len() || BLOCK_LEN - at < record_len(name, comment) {
        return None;
    }
    put_numbers(block, at, own, &head, &meta);
    let behind_name = put_text(block, at + RECORD_HEAD - 1, name)?;
    let end = put_text(block, behind_name, comment)?;
    Some(end + end % 2)
}

/// Fills a cache block with the records of entries from one on and before another, as many as it has room for. Returns the first
/// that it has none for.
pub fn fill(found: &Survey<'_>, block: &mut [u8; BLOCK_LEN], from: usize, end: usize) -> usize {
    let mut at = RECORD_START;
    for n in from..end {
        match put_record(found, block, at, Node(n)) {
            Some(next) => at = next,
            None => return n,
        }
    }
    end
}

// Directory caches that are laid into a volume. What comes of it is judged, so nothing is promised here.

ghost use Rattle.std.specs.Prelude.{◌≡◌};
ghost use Rattle.adf_volume.specs.Image.{root_of};

use crate::directories::directory_block;
use crate::records::fill;
use crate::room::{CHECKSUM, block_count, change, free_from, page_blocks, take_block};
use adf_base::{BLOCK_LEN, Block, NoMemory, put_block, put_word, seal};
use adf_blocks::{EXTENSION, OWN_KEY, T_DIR_CACHE, TYPE};
use adf_findings::Survey;
use adf_tree::Node;
use std::alloc::Global;

// The word of a cache block that names the header of its directory.
const DIRECTORY: usize = 2;

// The word of a cache block that counts its records.
const RECORD_COUNT: usize = 3;

// The word of a cache block that names the next one.
const NEXT_CACHE: usize = 4;

// A directory: the block of its header, and its entries, from the first on and before `end`.
#[derive(Clone, Copy)]
struct Directory {
    header: u32,
    first: usize,
    end: usize,
}

// A word of a block that names a cache block.
#[derive(Clone, Copy)]
struct NamedIn {
    block: u32,
    word: usize,
}

// A cache block with as many records of a directory's entries, from one on, as it has room for, and the first entry that it has
// none for.
fn cache_block(
    found: &Survey<'_>,
    directory: Directory,
    own: u32,
    from: usize,
) -> ([u8; BLOCK_LEN], usize) {
    let mut block = [0u8; BLOCK_LEN];
    let next = fill(found, &mut block, from, directory.end);
    put_word(&mut block, TYPE, T_DIR_CACHE);
    put_word(&mut block, OWN_KEY, own);
    put_word(&mut block, DIRECTORY, directory.header);
    put_word(
        &mut block,
        RECORD_COUNT,
        u32::try_from(next.saturating_sub(from)).unwrap_or(0),
    );
    (block, next)
}

// Writes a cache block that is named in another block, and marks it as used.
fn put_cache(image: &mut [u8], pages: &[u32], own: u32, named: NamedIn, block: &[u8; BLOCK_LEN]) {
    if Block::at(image, own).is_none() {
        return;
    }
    put_block(image, own, block);
    seal(image, own, CHECKSUM);
    take_block(image, pages, own);
    change(image, named.block, named.word, own, CHECKSUM);
}

// Lays the cache of a directory in the free blocks behind one. Returns its last block; `None` if there are not enough.
fn lay_cache(
    image: &mut [u8],
    pages: &[u32],
    found: &Survey<'_>,
    directory: Directory,
    behind: u32,
) -> Option<u32> {
    let mut last = behind;
    let mut from = directory.first;
    let mut named = NamedIn {
        block: directory.header,
        word: EXTENSION,
    };
    for _ in 0..block_count(image) {
        let own = free_from(image, pages, last.saturating_add(1))?;
        let (block, next) = cache_block(found, directory, own, from);
        put_cache(image, pages, own, named, &block);
        if directory.end <= next {
            return Some(own);
        }
        last = own;
        from = next;
        named = NamedIn {
            block: own,
            word: NEXT_CACHE,
        };
    }
    None
}

// The first entry from one on that is not in a directory.
fn end_of(found: &Survey<'_>, d: usize, first: usize) -> usize {
    let count = found.len().saturating_add(1);
    for n in first..count {
        if found.directory_of(Node(n)).0 != d {
            return n;
        }
    }
    count
}

// Lays a cache for each directory of a volume in its free blocks. Returns whether there are enough.
fn lay_all(image: &mut [u8], pages: &[u32], found: &Survey<'_>, root: u32) -> bool
    requires { root ≡ root_of found.now.image }
{
    let mut last = 1;
    let mut first = 1;
    for d in 0..found.len().saturating_add(1) {
        let end = end_of(found, d, first);
        if let Some(header) = directory_block(found, root, Node(d)) {
            let directory = Directory { header, first, end };
            match lay_cache(image, pages, found, directory, last) {
                Some(block) => last = block,
                None => return false,
            }
        }
        first = end;
    }
    true
}

/// A copy of a volume, with a cache for each directory; `None` if there are not enough free blocks. `NoMemory` if an allocation
/// fails.
pub fn laid(alloc: Global, found: &Survey<'_>, root: u32) -> Result<Option<Vec<u8>>, NoMemory>
    requires { root ≡ root_of found.now.image }
{
    let mut image = found.image().to_vec(alloc)?;
    let pages = page_blocks(alloc, &image)?;
    if lay_all(&mut image, &pages, found, root) {
        Ok(Some(image))
    } else {
        Ok(None)
    }
}

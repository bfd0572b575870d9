// Links that are laid into a volume. What comes of it is judged afterwards, so nothing is promised here.

use crate::links::{LinkTarget, WantedLink};
use crate::links_planned::Planned;
use crate::links_words::{CHECKSUM, NEXT_LINK, ORIGINAL, PATH_ROOM, PATH_START};
use adf_base::{BLOCK_LEN, BLOCK_WORDS, Block, NoMemory, seal, set_bytes, set_word};
use adf_blocks::{
    FIRST_SLOT, HeadOut, HeadOutBody, NEXT_IN_CHAIN, PAGE_FIRST, SECONDARY_TYPE, SLOTS, is_set,
    place_of, write_head,
};
use std::alloc::Global;

// The word of the checksum of a bitmap page.
const PAGE_CHECKSUM: usize = 0;

// The number of blocks of an image; 0 if there are too many.
fn block_count(image: &[u8]) -> u32 {
    u32::try_from(image.len() / BLOCK_LEN).unwrap_or(0)
}

// A word of a block; 0 if there is none.
fn word_at(image: &[u8], b: u32, i: usize) -> u32 {
    match Block::at(image, b) {
        Some(block) if i < BLOCK_WORDS => block.word(i),
        _ => 0,
    }
}

// Sets a word of a block, and the word of its checksum, if there is such a block.
fn change(image: &mut [u8], b: u32, i: usize, v: u32, checksum: usize) {
    if Block::at(image, b).is_some() && i < BLOCK_WORDS && checksum < BLOCK_WORDS {
        set_word(image, b, i, v);
        seal(image, b, checksum);
    }
}

// Where the bit of a block is: the block of its page, the word there, and the bit of that word.
#[derive(Clone, Copy, Drop)]
struct BitPlace {
    page: u32,
    word: usize,
    bit: u32,
}

// The place of the bit of a block; block 2 has the first one.
fn bit_place(image: &[u8], b: u32) -> BitPlace {
    let (page, bit) = place_of(b.max(2));
    let first = (block_count(image) / 2).saturating_add(1);
    BitPlace {
        page: first.saturating_add(page),
        word: (PAGE_FIRST + bit as usize / 32).min(BLOCK_WORDS - 1),
        bit,
    }
}

// Whether a block is free.
fn is_free(image: &[u8], b: u32) -> bool {
    let place = bit_place(image, b);
    b >= 2 && is_set(word_at(image, place.page, place.word), place.bit % 32)
}

// Marks a block as used.
fn take_block(image: &mut [u8], b: u32) {
    let place = bit_place(image, b);
    let word = word_at(image, place.page, place.word) & !(1 << (place.bit % 32));
    change(image, place.page, place.word, word, PAGE_CHECKSUM);
}

// The first free block from one on.
fn free_from(image: &[u8], first: u32) -> Option<u32> {
    (first..block_count(image)).find(|b| is_free(image, *b))
}

// The word of a slot.
fn slot_word(slot: u32) -> usize {
    FIRST_SLOT + slot.min(SLOTS - 1) as usize
}

// The last header of the chain of a slot; 0 if there is none.
fn last_of(image: &[u8], directory: u32, slot: u32) -> u32 {
    let mut last = word_at(image, directory, slot_word(slot));
    for _ in 0..block_count(image) {
        let next = word_at(image, last, NEXT_IN_CHAIN);
        if last == 0 || next == 0 {
            return last;
        }
        last = next;
    }
    last
}

// Writes what a link leads to over its header.
fn put_target(image: &mut [u8], plan: Planned, to: &LinkTarget, own: u32) {
    match to {
        LinkTarget::Soft(path) => {
            if Block::at(image, own).is_some() && path.len() <= PATH_ROOM {
                set_bytes(image, own, PATH_START, path);
            }
        }
        LinkTarget::Hard(_) => {
            let next = word_at(image, plan.target, NEXT_LINK);
            change(image, own, ORIGINAL, plan.target, CHECKSUM);
            change(image, own, NEXT_LINK, next, CHECKSUM);
            change(image, plan.target, NEXT_LINK, own, CHECKSUM);
        }
    }
}

// Writes the header of a link.
fn put_header(image: &mut [u8], want: &WantedLink, plan: Planned, own: u32) {
    if Block::at(image, own).is_none() {
        return;
    }
    let head = HeadOut {
        own,
        parent: plan.directory,
        next: 0,
        name: &want.name,
        meta: &want.meta,
        body: HeadOutBody::Dir { slots: [0; 72] },
    };
    write_head(image, own, &head);
    put_target(image, plan, &want.to, own);
    change(image, own, SECONDARY_TYPE, plan.secondary, CHECKSUM);
}

// Lays a link in a free block, behind the last header of the chain of its slot.
fn lay_link(image: &mut [u8], want: &WantedLink, plan: Planned, own: u32, last: u32) {
    put_header(image, want, plan, own);
    take_block(image, own);
    if last == 0 {
        change(image, plan.directory, slot_word(plan.slot), own, CHECKSUM);
    } else {
        change(image, last, NEXT_IN_CHAIN, own, CHECKSUM);
    }
}

// Whether two links are in the chain of one slot.
fn is_in_chain_of(one: Planned, other: Planned) -> bool {
    one.directory == other.directory && one.slot == other.slot
}

/// Lays links, in the order of their directories and slots, into a volume, as many as there are free blocks for. Returns of each
/// wanted link the block of its header, 0 if it is not laid. `NoMemory` if an allocation fails.
pub fn lay_all(
    alloc: Global,
    image: &mut [u8],
    wanted: &[WantedLink],
    plans: &[Planned],
) -> Result<Vec<u32>, NoMemory> {
    let mut owns = vec![in alloc; 0; wanted.len()]?;
    let mut own = 1;
    for k in 0..plans.len() {
        let plan = plans[k];
        let follows = 0 < k && is_in_chain_of(plans[k - 1], plan);
        let last = if follows {
            own
        } else {
            last_of(image, plan.directory, plan.slot)
        };
        let Some(block) = free_from(image, own.saturating_add(1)) else {
            break;
        };
        if plan.number < wanted.len() && plan.number < owns.len() {
            lay_link(image, &wanted[plan.number], plan, block, last);
            owns[plan.number] = block;
        }
        own = block;
    }
    Ok(owns)
}

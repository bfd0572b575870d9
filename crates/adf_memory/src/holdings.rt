// What judged entries and the parts of the volume have at blocks.

ghost use Rattle.std.specs.Prelude.{◌≡◌, ◌≤◌, ◌<◌, ◌+◌, ◌^◌, IfOk, length};

use crate::judged::{Judged, word_in};
use adf_base::NoMemory;
use adf_blocks::{
    FIRST_MAP_EXT, FIRST_PAGE, MAP_EXT_NEXT, MAP_EXT_PAGES, PAGE_BITS, ROOT_PAGES, T_DIR_CACHE,
    TYPE,
};
use adf_check::OwnerClass;
use adf_judge::Claim;
use std::alloc::Global;

/// What has a block.
#[derive(Clone, Copy)]
pub struct Holding {
    /// The number of the entry that has it; 0 for none.
    pub node: usize,
    /// The number of the data block of a file that it is, from 1; 0 if it is none.
    pub number: u32,
    pub class: OwnerClass,
}

impl Holding {
    // A block that no entry has.
    fn of_class(class: OwnerClass) -> Holding {
        Holding {
            node: 0,
            number: 0,
            class,
        }
    }
}

// Sets the row of a block, if there is one.
fn set(table: &mut [Holding], b: u32, row: Holding) {
    let at = b as usize;
    if at < table.len() {
        table[at] = row;
    }
}

// Sets the row of a block of the volume, if the judge says that something has it.
fn set_part(judged: &Judged<'_>, b: u32, class: OwnerClass, table: &mut [Holding]) {
    if judged.judgement.has_block(b) {
        set(table, b, Holding::of_class(class));
    }
}

// Sets the rows of the pages of the bitmap that the words of a block name, from one on.
fn set_pages(judged: &Judged<'_>, b: u32, first: usize, count: usize, table: &mut [Holding])
    requires { first + count ≤ 128 }
{
    for i in 0..count {
        let page = word_in(judged.image, b, first + i);
        set_part(judged, page, OwnerClass::Page, table);
    }
}

// Sets the rows of the root and the bitmap.
fn set_map(judged: &Judged<'_>, table: &mut [Holding]) {
    let root = judged.blocks / 2;
    set_part(judged, root, OwnerClass::Root, table);
    set_pages(judged, root, FIRST_PAGE, ROOT_PAGES, table);
    let mut at = word_in(judged.image, root, FIRST_MAP_EXT);
    for _ in 0..judged.blocks / PAGE_BITS {
        if at == 0 {
            return;
        }
        set_part(judged, at, OwnerClass::MapExt, table);
        set_pages(judged, at, 0, MAP_EXT_PAGES, table);
        at = word_in(judged.image, at, MAP_EXT_NEXT);
    }
}

// Sets the rows of directory caches.
fn set_caches(judged: &Judged<'_>, table: &mut [Holding]) {
    for b in 2..judged.blocks {
        if word_in(judged.image, b, TYPE) == T_DIR_CACHE {
            set_part(judged, b, OwnerClass::Ext, table);
        }
    }
}

// The row of a block of entry `node`.
fn row_of(node: usize, number: u32, class: OwnerClass) -> Holding {
    Holding {
        node,
        number,
        class,
    }
}

// Sets the rows of the header and the extension blocks of the entry at a place.
fn set_tables(judged: &Judged<'_>, i: usize, claim: &Claim, table: &mut [Holding])
    requires { i < 2 ^ 32 }
{
    set(table, claim.header, row_of(i + 1, 0, OwnerClass::Head));
    for k in 0..judged.blocks {
        let extension = judged.judgement.extension_block(claim.header, k + 1);
        if extension == 0 {
            return;
        }
        set(table, extension, row_of(i + 1, 0, OwnerClass::Ext));
    }
}

// Sets the rows of the data blocks of a file that are its own.
fn set_datas(judged: &Judged<'_>, i: usize, claim: &Claim, table: &mut [Holding])
    requires { i < 2 ^ 32 }
{
    for k in 0..judged.judgement.named_blocks(claim.header) {
        let Some(data) = judged.judgement.data_block(claim.header, k + 1) else {
            continue;
        };
        set(table, data.block, row_of(i + 1, k + 1, OwnerClass::Data));
    }
}

// Sets the rows of the headers and the extension blocks of all entries, then those of the data blocks of all files.
fn set_entries(judged: &Judged<'_>, table: &mut [Holding]) {
    for i in 0..judged.len() {
        if let Some(claim) = judged.entry(i) {
            set_tables(judged, i, claim, table);
        }
    }
    for i in 0..judged.len() {
        if let Some(claim) = judged.file(i) {
            set_datas(judged, i, claim, table);
        }
    }
}

/// What has each block of a judged image.
pub fn holdings_of(alloc: Global, judged: &Judged<'_>) -> Result<Vec<Holding>, NoMemory>
    ensures { IfOk result (λ table. length table.items ≡ judged.now.blocks) }
{
    let free = Holding::of_class(OwnerClass::Free);
    let mut table = vec![in alloc; free; judged.blocks as usize]?;
    set(&mut table, 0, Holding::of_class(OwnerClass::Boot));
    set(&mut table, 1, Holding::of_class(OwnerClass::Boot));
    set_map(judged, &mut table);
    set_caches(judged, &mut table);
    set_entries(judged, &mut table);
    Ok(table)
}

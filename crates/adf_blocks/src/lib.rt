//! The blocks of an Amiga volume: readers and writers.
#![tactic(auto)]

mod cause;
mod data;
mod ext;
mod fields;
mod head;
mod head_out;
mod layout;
mod links;
mod map_ext;
mod page;
mod root;
mod root_out;
mod sizes;

pub use crate::cause::Cause;
pub use crate::data::{DataOut, has_data_words, read_data, write_data, written_data_are_read};
pub use crate::ext::{Ext, ExtOut, has_ext_type, read_ext, write_ext, written_exts_are_read};
pub use crate::head::{
    Head, HeadBody, HeadPlace, has_head_type, meta_stated, read_head, read_head_at,
};
pub use crate::head_out::{HeadOut, HeadOutBody, write_head, written_heads_are_read};
pub use crate::layout::{
    BITMAP_FLAG, DATA_BYTES, DATA_HEAD, DATA_HELD, DATA_NEXT, DATA_NUMBER, DATA_ROOM, EXTENSION,
    FIRST_MAP_EXT, FIRST_PAGE, FIRST_POINTER, FIRST_SLOT, MAP_EXT_NEXT, MAP_EXT_PAGES, MOST_BLOCKS,
    MOST_PLAIN_BLOCKS, NAME, NEXT_IN_CHAIN, OWN_KEY, PAGE_BITS, PAGE_FIRST, PAGE_WORDS, PARENT,
    POINTERS, ROOT_PAGES, SECONDARY_TYPE, SIZE, SLOTS, ST_DIR, ST_FILE, ST_LINK_DIR, ST_LINK_FILE,
    ST_ROOT, ST_SOFT_LINK, T_DATA, T_DIR_CACHE, T_LIST, T_SHORT, TYPE, VALID,
};
pub use crate::links::{Directory, Table};
pub use crate::map_ext::{MapExt, read_map_ext, write_map_ext, written_map_exts_are_read};
pub use crate::page::{Page, is_set, place_of, read_page, write_page, written_pages_are_read};
pub use crate::root::{Root, has_root_type, label_stated, read_root, stamps_stated};
pub use crate::root_out::{RootOut, write_root, written_roots_are_read};
pub use crate::sizes::{chunk_len, data_count, is_allowed_size, is_plain_size, page_count};

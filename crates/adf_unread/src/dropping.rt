// The image without what was not read.

ghost use Rattle.std.specs.Prelude.{◌≡◌, ◌<◌, ◌≤◌, ℕ, Bool, List, [], length};
ghost use Rattle.std.specs.List.{All};
ghost use Rattle.adf_base.specs.Words.{block};
ghost use Rattle.adf_blocks.specs.Sizes.{blocks};
ghost use Rattle.adf_unread.specs.Dropped.{zeroed, zeroed_at, table_header, is_data_of_file, is_plain_table, is_table_at, names_data_of};
ghost use Rattle.adf_unread.specs.Dropped.{pointer, pointer_dropped, pointers_dropped, table_dropped, tables_dropped, without_unread};

use crate::image::{most_count, unread_at, word_or_zero};
use adf_base::{BLOCK_LEN, put_block, set_word};
use adf_blocks::{
    DATA_HEAD, FIRST_SLOT, OWN_KEY, PARENT, SECONDARY_TYPE, ST_FILE, T_DATA, T_LIST, T_SHORT, TYPE,
};

// The pointers of a table.
const POINTERS: usize = 72;

// The word of the checksum of a table.
const CHECKSUM: usize = 5;

// Writes zeros into block `b`, if it was not read.
fn empty_at(marks: &[bool], image: &mut [u8], b: u32)
    requires { b < blocks image.old }
    ensures { image.new ≡ zeroed_at marks.now image.old b }
{
    if unread_at(marks, b) {
        put_block(image, b, &[0; BLOCK_LEN]);
    }
}

// Writes zeros into the blocks that were not read.
#[tactic(auto, using(crate::proofs::DroppedImages::zeroed_steps))]
fn empty_unread(marks: &[bool], image: &mut [u8], count: u32)
    requires { count ≤ blocks image.old }
    ensures { image.new ≡ zeroed marks.now image.old count }
{
    for b in 0..count {
        empty_at(marks, image, b);
    }
}

// Whether block `b` claims to be the header or an extension block of a file, with its own number.
fn is_table_at(image: &[u8], b: u32) -> bool
    requires { b < blocks image.now }
    ensures { result ≡ is_table_at image.now b }
{
    let primary = word_or_zero(image, b, TYPE);
    (primary == T_SHORT || primary == T_LIST)
        && word_or_zero(image, b, SECONDARY_TYPE) == ST_FILE
        && word_or_zero(image, b, OWN_KEY) == b
}

// The header of the file of a table.
fn table_header(image: &[u8], b: u32) -> u32
    requires { b < blocks image.now }
    ensures { result ≡ table_header (block image.now b) b }
{
    if word_or_zero(image, b, TYPE) == T_SHORT {
        b
    } else {
        word_or_zero(image, b, PARENT)
    }
}

// Whether block `p` says that it is an OFS data block of the file with this header.
fn is_data_of_file(image: &[u8], header: u32, p: u32) -> bool
    ensures { result ≡ is_data_of_file image.now header p }
{
    (p as usize) < image.len() / BLOCK_LEN
        && word_or_zero(image, p, TYPE) == T_DATA
        && word_or_zero(image, p, DATA_HEAD) == header
}

// Whether a pointer of the table in block `b` leads to such a block.
#[tactic(auto, using(crate::proofs::DroppedImages::data_steps))]
fn names_data_of(image: &[u8], header: u32, b: u32) -> bool
    requires { b < blocks image.now }
    ensures { result ≡ names_data_of image.now header b 72 }
{
    for s in 0..POINTERS {
        if is_data_of_file(image, header, word_or_zero(image, b, FIRST_SLOT + s)) {
            return true;
        }
    }
    false
}

// Whether the pointers of block `b` are dropped: it is a table, and none of its blocks says that it is an OFS data block of its
// file.
fn is_plain_table(image: &[u8], b: u32) -> bool
    requires { b < blocks image.now }
    ensures { result ≡ is_plain_table image.now b }
{
    is_table_at(image, b) && !names_data_of(image, table_header(image, b), b)
}

// Drops pointer `s` of block `b`, if that leads to a block that was not read; the sum stays.
fn drop_pointer(marks: &[bool], image: &mut [u8], b: u32, s: usize)
    requires inside { b < blocks image.old }
    requires pointer { s < 72 }
    ensures { image.new ≡ pointer_dropped marks.now image.old b s }
{
    let p = word_or_zero(image, b, FIRST_SLOT + s);
    if unread_at(marks, p) {
        let sum = word_or_zero(image, b, CHECKSUM).wrapping_add(p);
        set_word(image, b, CHECKSUM, sum);
        set_word(image, b, FIRST_SLOT + s, 0);
    }
}

// Drops the pointers of block `b` that lead to blocks that were not read.
#[tactic(auto, using(crate::proofs::DroppedImages::pointers_steps))]
fn drop_pointers(marks: &[bool], image: &mut [u8], b: u32)
    requires { b < blocks image.old }
    ensures { image.new ≡ pointers_dropped marks.now image.old b 72 }
{
    for s in 0..POINTERS {
        drop_pointer(marks, image, b, s);
    }
}

// The same, if block `b` is such a table.
fn drop_at(marks: &[bool], image: &mut [u8], b: u32)
    requires { b < blocks image.old }
    ensures { image.new ≡ table_dropped marks.now image.old b }
{
    if is_plain_table(image, b) {
        drop_pointers(marks, image, b);
    }
}

// Drops the pointers of all tables.
#[tactic(auto, using(crate::proofs::DroppedImages::tables_steps))]
fn drop_tables(marks: &[bool], image: &mut [u8], count: u32)
    requires { count ≤ blocks image.old }
    ensures { image.new ≡ tables_dropped marks.now image.old count }
{
    for b in 0..count {
        drop_at(marks, image, b);
    }
}

/// Takes the blocks that were not read out of an image: they become zeros, and each word of a file's header or extension block
/// that leads to one becomes 0, in a table none of whose blocks says that it is an OFS data block of that file. The sum of the
/// table is right or wrong as before: word 5 makes up for what is dropped. Nothing else changes.
#[tactic(auto, using(crate::proofs::DroppedImages::length_zeroed))]
pub fn drop_unread(marks: &[bool], image: &mut [u8])
    ensures { image.new ≡ without_unread marks.now image.old }
{
    let count = most_count(image);
    empty_unread(marks, image, count);
    drop_tables(marks, image, count);
}

/// The image without what was not read has as many bytes, and is the image itself where each block was read.
pub fn dropped_keeps()
    ensures bytes { (marks : List Bool) (image : List ℕ) → All (λ byte. byte < 256) image
        → All (λ byte. byte < 256) (without_unread marks image) }
    ensures length { (marks : List Bool) (image : List ℕ) → length (without_unread marks image) ≡ length image }
    ensures whole { (image : List ℕ) → without_unread [] image ≡ image }
{}

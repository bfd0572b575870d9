// The headers of directories and files: writer.

ghost use Rattle.std.specs.Prelude.{◌≡◌, ◌≤◌, ◌<◌, ◌+◌, ◌-◌, ◌*◌, ◌^◌, ℕ, List, length, slice_index, None};
ghost use Rattle.adf_base.specs.{Hash.slot_of, Words.block, Words.with_block, Words.with_bytes, Words.word, Dates.IsStamp};
ghost use Rattle.adf_names.specs.{Meta.IsBoundedMeta, declared.kind.Kind.Kind};
ghost use Rattle.adf_blocks.specs.Forms.{first_cause, stamp_at, text_at};
ghost use Rattle.adf_blocks.specs.HeadBlock.BodyFields.{DirFields, FileFields};
ghost use Rattle.adf_blocks.specs.HeadBlock.{FitsBody, FitsBodyWords, FitsHead, FitsTable, HeadFields, body_at, body_fields};
ghost use Rattle.adf_blocks.specs.HeadBlock.{body_stated, count_of, ext_of, first_of, head_block, head_fields, head_form};
ghost use Rattle.adf_blocks.specs.HeadBlock.{meta_at, secondary_of, size_of, table_of};

use crate::fields::{put_stamp, put_text};
use crate::layout::{
    CHECKSUM, COMMENT, DATE, EXTENSION, FIRST_DATA, FIRST_POINTER, FIRST_SLOT, NAME, NEXT_IN_CHAIN,
    OWN_KEY, PARENT, POINTER_COUNT, POINTERS, PROTECTION, SECONDARY_TYPE, SIZE, SLOTS, ST_DIR,
    ST_FILE, T_SHORT, TYPE,
};
use adf_base::{put_block, put_word, put_words, put_words_down, seal_block};
use adf_names::{Meta, Name};

/// The fields of a header to write.
#[derive(Drop)]
pub struct HeadOut<'n, 'm, 't> {
    /// The block to write it to.
    pub own: u32,
    /// The block of the directory.
    pub parent: u32,
    /// The next header of the chain, or 0.
    pub next: u32,
    pub name: &'n Name,
    pub meta: &'m Meta,
    pub body: HeadOutBody<'t>,
}

/// The fields that depend on the secondary type.
#[derive(Drop)]
pub enum HeadOutBody<'t> {
    /// A directory: the first header of each slot's chain, or 0.
    Dir {
        slots: [u32; SLOTS as usize],
    },
    /// A file: its size in bytes, its first data blocks, at most 72, and its first extension block or 0.
    File {
        size: u32,
        table: &'t [u32],
        ext: u32,
    },
}

// The number of pointers to data blocks.
fn count(body: &HeadOutBody<'_>) -> u32
    requires { FitsTable (body_fields body.now) }
    ensures { result ≡ count_of (body_fields body.now) }
{
    match body {
        HeadOutBody::Dir { .. } => 0,
        HeadOutBody::File { table, .. } => table.len() as u32,
    }
}

// The first data block, or 0.
fn first(body: &HeadOutBody<'_>) -> u32
    ensures { result ≡ first_of (body_fields body.now) }
{
    match body {
        HeadOutBody::Dir { .. } => 0,
        HeadOutBody::File { table, .. } => table.first().copied().unwrap_or(0),
    }
}

// Writes the slots, or the pointers from word 77 down.
fn put_table(block: &mut [u8], body: &HeadOutBody<'_>)
    requires whole { length block.old ≡ 512 }
    requires table { FitsTable (body_fields body.now) }
    ensures fits { FitsBody (body_fields body.now) }
    ensures exact { let table = table_of (body_fields body.now) in block.new
        ≡ with_bytes block.old table.0 table.1 }
{
    match body {
        HeadOutBody::Dir { slots } => put_words(block, FIRST_SLOT, slots),
        HeadOutBody::File { table, .. } => put_words_down(block, FIRST_POINTER, table),
    }
}

// The size of a file in bytes, or 0.
fn size(body: &HeadOutBody<'_>) -> u32
    ensures { result ≡ size_of (body_fields body.now) }
{
    match body {
        HeadOutBody::Dir { .. } => 0,
        HeadOutBody::File { size, .. } => *size,
    }
}

// The first extension block, or 0.
fn ext(body: &HeadOutBody<'_>) -> u32
    ensures { result ≡ ext_of (body_fields body.now) }
{
    match body {
        HeadOutBody::Dir { .. } => 0,
        HeadOutBody::File { ext, .. } => *ext,
    }
}

// The secondary type.
fn secondary(body: &HeadOutBody<'_>) -> u32
    ensures { result ≡ secondary_of (body_fields body.now) }
{
    match body {
        HeadOutBody::Dir { .. } => ST_DIR,
        HeadOutBody::File { .. } => ST_FILE,
    }
}

// The 512 bytes of a header.
fn head_bytes(h: &HeadOut<'_, '_, '_>) -> [u8; 512]
    requires { FitsTable (body_fields h.now.body) }
    ensures exact { result ≡ head_block (head_fields h.now) }
    ensures fits { FitsHead (head_fields h.now) }
    ensures meta { IsBoundedMeta h.now.meta.now }
    ensures words { FitsBodyWords (body_fields h.now.body) }
{
    let (own, parent, protection) = (h.own, h.parent, h.meta.protect);
    h.meta.bounds();
    let mut block = [0u8; 512];
    put_word(&mut block, TYPE, T_SHORT);
    put_word(&mut block, OWN_KEY, own);
    put_word(&mut block, POINTER_COUNT, count(&h.body));
    put_word(&mut block, FIRST_DATA, first(&h.body));
    put_table(&mut block, &h.body);
    put_word(&mut block, PROTECTION, protection);
    put_word(&mut block, SIZE, size(&h.body));
    put_text(&mut block, COMMENT, h.meta.comment.bytes());
    put_stamp(&mut block, DATE, h.meta.stamp);
    put_text(&mut block, NAME, h.name.bytes());
    put_word(&mut block, NEXT_IN_CHAIN, h.next);
    put_word(&mut block, PARENT, parent);
    put_word(&mut block, EXTENSION, ext(&h.body));
    put_word(&mut block, SECONDARY_TYPE, secondary(&h.body));
    seal_block(&mut block, CHECKSUM);
    block
}

/// Writes the header of a directory or a file over block `b` of an image. `read_head` accepts it with the same
/// `own` and `parent` and the slot of its name.
#[tactic(auto, using(crate::proofs::HeadLaws::written_head_form))]
pub fn write_head(image: &mut [u8], b: u32, h: &HeadOut<'_, '_, '_>)
    requires whole { b * 512 + 512 ≤ length image.old }
    requires table { FitsTable (body_fields h.now.body) }
    ensures exact { image.new ≡ with_block image.old b (head_block (head_fields h.now)) }
    ensures form { (kind : Kind) → let slot = slot_of h.now.name.now in
        first_cause (head_form kind h.now.own h.now.parent slot (block image.new b)) ≡ None }
    ensures fits { FitsHead (head_fields h.now) }
    ensures meta { IsBoundedMeta h.now.meta.now }
    ensures words { FitsBodyWords (body_fields h.now.body) }
{
    put_block(image, b, &head_bytes(h));
}

/// Reading a written header gives back its fields.
pub fn written_heads_are_read()
    ensures whole { (h : HeadFields) → FitsHead h → length (head_block h) ≡ 512 }
    ensures form { (h : HeadFields) (kind : Kind) → FitsHead h
        → first_cause (head_form kind h.own h.parent (slot_of h.name) (head_block h)) ≡ None }
    ensures name { (h : HeadFields) → FitsHead h → text_at (head_block h) NAME ≡ h.name }
    ensures comment { (h : HeadFields) → FitsHead h
        → text_at (head_block h) COMMENT ≡ h.meta.comment }
    ensures protection { (h : HeadFields) → FitsHead h → h.meta.protect < 2 ^ 32
        → word (head_block h) PROTECTION ≡ h.meta.protect }
    ensures date { (h : HeadFields) → FitsHead h → IsStamp h.meta.stamp
        → stamp_at (head_block h) DATE ≡ h.meta.stamp }
    ensures meta { (h : HeadFields) → FitsHead h → IsBoundedMeta h.meta
        → meta_at (head_block h) ≡ h.meta }
    ensures next { (h : HeadFields) → FitsHead h → h.next < 2 ^ 32
        → word (head_block h) NEXT_IN_CHAIN ≡ h.next }
    ensures body { (h : HeadFields) → FitsHead h → FitsBodyWords h.body
        → body_at (head_block h) ≡ body_stated h.body }
    ensures slots { (h : HeadFields) (slots : List ℕ) (s : ℕ) → FitsHead h
        → h.body ≡ DirFields slots → s < SLOTS
        → slice_index slots s < 2 ^ 32
        → word (head_block h) (FIRST_SLOT + s) ≡ slice_index slots s }
    // `slice_index` past the last pointer is 0
    ensures pointers { (h : HeadFields) (size : ℕ) (table : List ℕ) (ext j : ℕ) → FitsHead h
        → h.body ≡ FileFields size table ext → j < POINTERS → slice_index table j < 2 ^ 32
        → word (head_block h) (FIRST_POINTER - j) ≡ slice_index table j }
{}

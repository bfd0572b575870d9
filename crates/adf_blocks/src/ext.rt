// Extension blocks of files: reader and writer.

ghost use Rattle.std.specs.Prelude.{◌≡◌, ◌==◌, ◌&&◌, ◌≤◌, ◌<◌, ◌+◌, ◌*◌, ◌-◌, ◌^◌, ℕ, length, slice_index, None};
ghost use Rattle.adf_base.specs.Words.{block, with_block, word};
ghost use Rattle.adf_blocks.specs.Forms.{ReadsForm, first_cause};
ghost use Rattle.adf_blocks.specs.ExtBlock.{ExtFields, FitsExt, ext_block, ext_fields, ext_form};

use crate::cause::Cause;
use crate::layout::{
    CHECKSUM, EXTENSION, FIRST_POINTER, OWN_KEY, PARENT, POINTER_COUNT, POINTERS, SECONDARY_TYPE,
    ST_FILE, T_LIST, TYPE,
};
use adf_base::{Block, put_block, put_word, put_words_down, seal_block};
use std::marker::Model;

/// An extension block of a file.
#[derive(Drop)]
pub struct Ext<'a> {
    block: Block<'a>,
}

impl<'a> Model for Ext<'a> {
    ghost use Rattle.std.specs.Prelude.{List, ℕ};

    ghost Value = { List ℕ };

    ghost view = { λ e. e.block };
}

/// Whether the primary and secondary types are those of an extension block: word 0 is 16, and word 127 is -3.
pub fn has_ext_type(b: &Block<'_>) -> bool
    ensures { result ≡ ((word b.now TYPE == T_LIST) && (word b.now SECONDARY_TYPE == ST_FILE)) }
{
    b.word(TYPE) == T_LIST && b.word(SECONDARY_TYPE) == ST_FILE
}

/// Reads a block as the extension block `own` of the file whose header is block `head`.
///
/// The first cause that applies: `BadSum`; `BadType` if word 0 is not 16 or word 127 is not -3; `BadOwnKey` if word 1
/// is not `own`; `BadParent` if word 125 is not `head`.
pub fn read_ext<'a>(b: Block<'a>, own: u32, head: u32) -> Result<Ext<'a>, Cause>
    ensures { ReadsForm (ext_form own head b.entry) (λ e. e ≡ b.entry) result }
{
    if b.long_sum() != 0 {
        return Err(Cause::BadSum);
    }
    if !has_ext_type(&b) {
        return Err(Cause::BadType);
    }
    if b.word(OWN_KEY) != own {
        return Err(Cause::BadOwnKey);
    }
    if b.word(PARENT) != head {
        return Err(Cause::BadParent);
    }
    Ok(Ext { block: b })
}

impl Ext<'_> {
    /// The data block that pointer `j`, 0 to 71, of this block points to: word `77 - j`.
    pub fn pointer(&self, j: usize) -> u32
        requires { j < POINTERS }
        ensures { result ≡ word self.now (FIRST_POINTER - j) }
    {
        self.block.word(FIRST_POINTER - j)
    }

    /// The next extension block of the file, or 0: word 126.
    pub fn next(&self) -> u32
        ensures { result ≡ word self.now EXTENSION }
    {
        self.block.word(EXTENSION)
    }
}

/// The fields of an extension block to write.
#[derive(Drop)]
pub struct ExtOut<'a> {
    /// The block to write it to.
    pub own: u32,
    /// The block of the file's header.
    pub head: u32,
    /// The next data blocks of the file, at most 72.
    pub table: &'a [u32],
    /// The next extension block of the file, or 0.
    pub next: u32,
}

// The 512 bytes of an extension block.
#[tactic(auto, unfolding(crate::specs::ExtBlock::ext_block))]
fn ext_bytes(e: &ExtOut<'_>) -> [u8; 512]
    requires { length e.now.table.now ≤ POINTERS }
    ensures exact { result ≡ ext_block (ext_fields e.now) }
    ensures fits { FitsExt (ext_fields e.now) }
{
    let mut block = [0u8; 512];
    put_word(&mut block, TYPE, T_LIST);
    put_word(&mut block, OWN_KEY, e.own);
    put_word(&mut block, POINTER_COUNT, e.table.len() as u32);
    put_words_down(&mut block, FIRST_POINTER, e.table);
    put_word(&mut block, PARENT, e.head);
    put_word(&mut block, EXTENSION, e.next);
    put_word(&mut block, SECONDARY_TYPE, ST_FILE);
    seal_block(&mut block, CHECKSUM);
    block
}

/// Writes an extension block over block `b` of an image. `read_ext` accepts it with the same `own` and `head`.
#[tactic(auto, using(crate::proofs::ExtLaws::written_ext_form))]
pub fn write_ext(image: &mut [u8], b: u32, e: &ExtOut<'_>)
    requires whole { b * 512 + 512 ≤ length image.old }
    requires table { length e.now.table.now ≤ POINTERS }
    ensures exact { image.new ≡ with_block image.old b (ext_block (ext_fields e.now)) }
    ensures form { first_cause (ext_form e.now.own e.now.head (block image.new b)) ≡ None }
    ensures fits { FitsExt (ext_fields e.now) }
{
    put_block(image, b, &ext_bytes(e));
}

/// Reading a written extension block gives back its fields.
pub fn written_exts_are_read()
    ensures whole { (e : ExtFields) → FitsExt e → length (ext_block e) ≡ 512 }
    ensures form { (e : ExtFields) → FitsExt e
        → first_cause (ext_form e.own e.head (ext_block e)) ≡ None }
    // `slice_index` past the last pointer is 0
    ensures pointers { (e : ExtFields) (j : ℕ) → FitsExt e → j < POINTERS
        → slice_index e.table j < 2 ^ 32
        → word (ext_block e) (FIRST_POINTER - j) ≡ slice_index e.table j }
    ensures next { (e : ExtFields) → FitsExt e → e.next < 2 ^ 32
        → word (ext_block e) EXTENSION ≡ e.next }
{}

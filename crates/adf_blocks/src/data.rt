// Data blocks of OFS files: reader and writer.

ghost use Rattle.std.specs.Prelude.{◌≡◌, ◌==◌, ◌&&◌, ◌≤◌, ◌+◌, ◌*◌, length, slice_range, None};
ghost use Rattle.adf_base.specs.Words.{block, with_block, word};
ghost use Rattle.adf_blocks.specs.Forms.{ReadsForm, first_cause};
ghost use Rattle.adf_blocks.specs.DataBlock.{DataFields, FitsData, data_block, data_fields, data_form};

use crate::cause::Cause;
use crate::layout::{
    CHECKSUM, DATA_BYTES, DATA_HEAD, DATA_HELD, DATA_NEXT, DATA_NUMBER, DATA_ROOM, T_DATA, TYPE,
};
use adf_base::{Block, put_block, put_bytes, put_word, seal_block};

/// Whether words 1 to 4 of a block are these: the header of its file, its number in the file, the number of bytes held
/// and the next data block.
pub fn has_data_words(b: &Block<'_>, head: u32, number: u32, held: u32, next: u32) -> bool
    ensures { result ≡ ((word b.now DATA_HEAD == head) && (word b.now DATA_NUMBER == number)
        && (word b.now DATA_HELD == held) && (word b.now DATA_NEXT == next)) }
{
    b.word(DATA_HEAD) == head
        && b.word(DATA_NUMBER) == number
        && b.word(DATA_HELD) == held
        && b.word(DATA_NEXT) == next
}

/// Reads a block as data block `number`, counted from 1, of the OFS file whose header is block `head`; `next` is the
/// file's next data block, or 0. Returns the `held` bytes from byte 24 on.
///
/// The first cause that applies: `BadSum`; `BadType` if word 0 is not 8; `BadData` if word 1 is not `head`, word 2 is
/// not `number`, word 3 is not `held` or word 4 is not `next`.
pub fn read_data<'a>(
    b: Block<'a>,
    head: u32,
    number: u32,
    held: u32,
    next: u32,
) -> Result<&'a [u8], Cause>
    requires { held ≤ DATA_ROOM }
    ensures { ReadsForm (data_form head number held next b.entry)
        (λ bytes. bytes.now ≡ slice_range b.entry DATA_BYTES (DATA_BYTES + held)) result }
{
    if b.long_sum() != 0 {
        return Err(Cause::BadSum);
    }
    if b.word(TYPE) != T_DATA {
        return Err(Cause::BadType);
    }
    if !has_data_words(&b, head, number, held, next) {
        return Err(Cause::BadData);
    }
    Ok(b.bytes(DATA_BYTES, held as usize))
}

/// The fields of an OFS data block to write.
#[derive(Drop)]
pub struct DataOut<'a> {
    /// The block of the file's header.
    pub head: u32,
    /// The number of the data block in the file, from 1 on.
    pub number: u32,
    /// The next data block of the file, or 0.
    pub next: u32,
    /// The bytes held, at most 488.
    pub bytes: &'a [u8],
}

// The 512 bytes of a data block.
#[tactic(auto, unfolding(crate::specs::DataBlock::data_block))]
fn data_bytes(d: &DataOut<'_>) -> [u8; 512]
    requires { length d.now.bytes.now ≤ DATA_ROOM }
    ensures exact { result ≡ data_block (data_fields d.now) }
    ensures fits { FitsData (data_fields d.now) }
{
    let mut block = [0u8; 512];
    put_word(&mut block, TYPE, T_DATA);
    put_word(&mut block, DATA_HEAD, d.head);
    put_word(&mut block, DATA_NUMBER, d.number);
    put_word(&mut block, DATA_HELD, d.bytes.len() as u32);
    put_word(&mut block, DATA_NEXT, d.next);
    put_bytes(&mut block, DATA_BYTES, d.bytes);
    seal_block(&mut block, CHECKSUM);
    block
}

/// Writes an OFS data block over block `b` of an image. `read_data` accepts it.
#[tactic(auto, using(crate::proofs::DataLaws::written_data_form))]
pub fn write_data(image: &mut [u8], b: u32, d: &DataOut<'_>)
    requires whole { b * 512 + 512 ≤ length image.old }
    requires bytes { length d.now.bytes.now ≤ DATA_ROOM }
    ensures exact { image.new ≡ with_block image.old b (data_block (data_fields d.now)) }
    ensures form { let held = length d.now.bytes.now in
        first_cause (data_form d.now.head d.now.number held d.now.next (block image.new b)) ≡ None }
    ensures fits { FitsData (data_fields d.now) }
{
    put_block(image, b, &data_bytes(d));
}

/// Reading a written data block gives back its fields and bytes.
pub fn written_data_are_read()
    ensures whole { (d : DataFields) → FitsData d → length (data_block d) ≡ 512 }
    ensures form { (d : DataFields) → FitsData d
        → first_cause (data_form d.head d.number (length d.bytes) d.next (data_block d)) ≡ None }
    ensures bytes { (d : DataFields) → FitsData d
        → slice_range (data_block d) DATA_BYTES (DATA_BYTES + length d.bytes) ≡ d.bytes }
{}

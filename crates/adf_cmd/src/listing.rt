// The lines of an image's words.

ghost use Rattle.std.specs.Prelude.{◌≡◌, ◌+◌, ◌*◌, ◌<◌, ◌≤◌, ◌^◌, ◌++◌, false, IfOk, OnOk, OnErr, length};
ghost use Rattle.std.specs.Io.KnownBytes.{Appends};
ghost use Rattle.adf_base.specs.Words.{block};
ghost use Rattle.adf_cmd.specs.Listing.{line_of_word, lines_of, lines_of_block, listing};
ghost use Rattle.adf_runs.specs.Streams.{AppendsPart, KeepsPending, is_device};

use adf_base::{BLOCK_LEN, BLOCK_WORDS, Block};
use adf_runs::{Sink, StreamFault, flush_long, write_all};
use adf_texts::push_word_line;
use std::alloc::{AllocError, Global};

// Appends the line of a word, if that is not 0.
fn push_line(text: &mut Vec<u8>, number: u32, block: &Block<'_>, i: usize) -> Result<(), AllocError>
    requires { i < 128 }
    ensures { OnOk result (text.new.items ≡ text.old.items ++ line_of_word number block.now i) }
{
    let word = block.word(i);
    if word == 0 {
        return Ok(());
    }
    push_word_line(text, number, i as u32, word)
}

// Appends the lines of a block.
fn push_lines(text: &mut Vec<u8>, number: u32, block: &Block<'_>) -> Result<(), AllocError>
    ensures { IfOk result (λ _. text.new.items ≡ text.old.items ++ lines_of number block.now 128) }
{
    for i in 0..BLOCK_WORDS {
        push_line(text, number, block, i)?;
    }
    Ok(())
}

// Appends the lines of block `b`, and writes what is long.
fn list_block<W: Sink>(
    image: &[u8],
    b: u32,
    text: &mut Vec<u8>,
    output: &mut W,
) -> Result<(), StreamFault>
    requires works { W.has_failed output.old ≡ false }
    requires whole { b * 512 + 512 ≤ length image.now }
    ensures ok { OnOk result (KeepsPending
        (W.held output.old) (text.old.items ++ lines_of_block image.now b)
        (W.held output.new) text.new.items) }
    ensures err { OnErr result (AppendsPart (W.has_failed output.new)
        (W.held output.old) (W.held output.new) (text.old.items ++ lines_of_block image.now b)) }
    ensures failed { W.has_failed output.new ≡ is_device result }
{
    let block = Block::at(image, b).unwrap();
    push_lines(text, b, &block)?;
    flush_long(output, text)?;
    Ok(())
}

/// Writes the lines of an image's words that are not 0. `Device` if the writer failed, `NoMemory`
/// if an allocation failed; then a front part of the lines is written, and if the writer failed
/// not all of them.
pub fn write_listing<W: Sink>(
    alloc: Global,
    image: &[u8],
    output: &mut W,
) -> Result<(), StreamFault>
    requires works { W.has_failed output.old ≡ false }
    requires small { length image.now < 2 ^ 41 }
    ensures ok { OnOk result (Appends (W.held output.old) (W.held output.new) (listing image.now)) }
    ensures err { OnErr result (AppendsPart (W.has_failed output.new)
        (W.held output.old) (W.held output.new) (listing image.now)) }
    ensures failed { W.has_failed output.new ≡ is_device result }
{
    let mut text = Vec::new(alloc);
    for b in 0..image.len() / BLOCK_LEN {
        list_block(image, b as u32, &mut text, output)?;
    }
    write_all(output, &text)?;
    Ok(())
}

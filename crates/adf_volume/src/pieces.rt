// The bytes of files, piece by piece.

ghost use Rattle.std.specs.Prelude.{List, [], IsOk, ◌≡◌, ◌≤◌, length, IfOk};
ghost use Rattle.std.specs.{Iterator.YieldsFirstRef, Iterator.item_count, List.concat};
ghost use Rattle.adf_blocks.specs.Sizes.{chunk, count};
ghost use Rattle.adf_volume.specs.{Image.held, Image.piece, Image.pieces, Pieces.AreInside};

use adf_base::{Block, NoMemory};
use adf_blocks::{DATA_BYTES, chunk_len, data_count};
use adf_tree::Kind;
use std::alloc::Global;
use std::marker::Model;

/// The remaining pieces of a file, one for each data block: slices of the image.
#[derive(Drop)]
pub struct Pieces<'a> {
    bytes: &'a [u8],
    kind: Kind,
    size: u32,
    number: u32,
    datas: &'a [u32],
}

impl<'a> Model for Pieces<'a> {
    ghost use Rattle.std.specs.Prelude.{List, [], IsOk, ℕ};
    ghost use Rattle.adf_volume.specs.{Image.pieces, Pieces.AreInside};

    ghost Value = { List (List ℕ) };

    ghost view = { λ p. pieces p.bytes.now p.kind p.size p.number p.datas.now };

    ghost invariant = { λ p. AreInside p.bytes.now p.datas.now p.number };
}

/// The number of data blocks of a file of `size` bytes.
pub fn count_of(kind: Kind, size: u32) -> u32
    ensures { result ≡ count kind size }
{
    data_count(kind, size as usize) as u32
}

/// The number of bytes in data block `number`, counted from 1, of a file of `size` bytes.
#[tactic(auto, unfolding(crate::specs::Image::held, adf_blocks::specs::Sizes::chunk))]
pub fn held_in(kind: Kind, size: u32, number: u32) -> u32
    ensures exact { result ≡ held kind size number }
    ensures small { result ≤ chunk kind }
{
    let chunk = chunk_len(kind) as u64;
    let size = u64::from(size);
    let number = u64::from(number);
    if chunk * number < size {
        chunk as u32
    } else {
        size.saturating_sub(chunk * number.saturating_sub(1)) as u32
    }
}

// The bytes in data block `number`, counted from 1, of a file of `size` bytes.
#[tactic(auto, unfolding(adf_blocks::specs::Sizes::chunk))]
fn piece_of<'a>(b: Block<'a>, kind: Kind, size: u32, number: u32) -> &'a [u8]
    ensures { result.now ≡ piece kind size number b.entry }
{
    let held = held_in(kind, size, number) as usize;
    match kind {
        Kind::Ofs => b.bytes(DATA_BYTES, held),
        Kind::Ffs => b.bytes(0, held),
    }
}

impl<'a> Iterator for Pieces<'a> {
    type Item = &'a [u8];

    ghost next_gives = { YieldsFirstRef (λ s. s) };

    ghost remaining = { item_count (λ s. s) };

    fn next(&mut self) -> Option<&'a [u8]> {
        let (b, others) = self.datas.split_first()?;
        let block = Block::at(self.bytes, *b).unwrap();
        let piece = piece_of(block, self.kind, self.size, self.number);
        self.datas = others;
        self.number += 1;
        Some(piece)
    }
}

impl<'a> Pieces<'a> {
    /// The pieces of a file of `size` bytes with these data blocks.
    pub fn new(bytes: &'a [u8], kind: Kind, size: u32, datas: &'a [u32]) -> Pieces<'a>
        requires { AreInside bytes.now datas.now 1 }
        ensures { result ≡ pieces bytes.now kind size 1 datas.now }
    {
        Pieces {
            bytes,
            kind,
            size,
            number: 1,
            datas,
        }
    }
}

/// The pieces of a file, joined in one allocation; `NoMemory` if it fails.
pub fn joined(alloc: Global, pieces: Pieces<'_>) -> Result<Vec<u8>, NoMemory>
    ensures bytes { IfOk result (λ v. v.items ≡ concat pieces.entry) }
    ensures none { pieces.entry ≡ [] → IsOk result }
{
    if pieces.datas.is_empty() {
        return Ok(Vec::new(alloc));
    }
    let mut bytes = Vec::with_capacity(alloc, pieces.size as usize)?;
    for piece in pieces {
        bytes.extend_from_slice(piece)?;
    }
    Ok(bytes)
}

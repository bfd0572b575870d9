// An image under survey.

ghost use Rattle.std.specs.Prelude.{◌≡◌, ◌<◌, ◌≤◌, ◌*◌, ◌^◌, IsTrue, length, nat_le, slice_index, true};
ghost use Rattle.adf_base.specs.Words.{block};
ghost use Rattle.adf_blocks.specs.Sizes.{blocks, is_allowed};
ghost use Rattle.adf_volume.specs.{Demands.IsSize, Walk.data_count};
ghost use Rattle.adf_volume.specs.Image.{kind_of, letters_of, root_of, word_in};
ghost use Rattle.adf_findings.specs.{Sound.says_data_of, Start.IsSized};

use adf_base::{BLOCK_LEN, Block, Letters};
use adf_blocks::{DATA_HEAD, DATA_NUMBER, SIZE, T_DATA, TYPE};
use adf_tree::Kind;
use adf_volume::{count_of, letters_in};
use std::marker::Model;

/// An image of whole blocks, their number allowed.
#[derive(Drop)]
pub struct SizedImage<'a> {
    bytes: &'a [u8],
    kind: Kind,
    blocks: u32,
}

impl<'a> Model for SizedImage<'a> {
    ghost use Rattle.std.specs.Prelude.{◌≡◌, List, ℕ};
    ghost use Rattle.adf_findings.specs.Start.{IsSized};

    ghost Value = { List ℕ };

    ghost view = { λ i. i.bytes.now };

    ghost invariant = { λ i. IsSized i.bytes.now i.kind i.blocks };
}

impl<'a> SizedImage<'a> {
    // The image, with its kind and its number of blocks.
    pub(crate) fn new(bytes: &'a [u8], kind: Kind, blocks: u32) -> SizedImage<'a>
        requires { IsSized bytes.now kind blocks }
        ensures { result ≡ bytes.now }
    {
        SizedImage {
            bytes,
            kind,
            blocks,
        }
    }

    /// The bytes of the image.
    pub fn bytes(&self) -> &'a [u8]
        ensures { result.now ≡ self.now }
    {
        self.bytes
    }

    /// The kind of the volume.
    pub fn kind(&self) -> Kind
        ensures { result ≡ kind_of self.now }
    {
        self.kind
    }

    /// The letters of the volume.
    pub fn letters(&self) -> Letters
        ensures { result ≡ letters_of self.now }
    {
        letters_in(self.bytes)
    }

    /// Whether the volume has directory caches: its type is 4 or 5.
    #[tactic(auto, using(adf_volume::proofs::ImageStart::type_byte))]
    pub fn has_caches(&self) -> bool
        ensures { result ≡ nat_le 4 (slice_index (block self.now 0) 3) }
    {
        self.bytes.get(3).copied().unwrap_or(0) >= 4
    }

    /// The number of blocks.
    pub fn blocks(&self) -> u32
        ensures blocks { result ≡ blocks self.now }
        ensures allowed { is_allowed result ≡ true }
        ensures many { 4 ≤ result }
        ensures few { result ≤ 8388608 }
    {
        self.blocks
    }

    /// The number of bytes.
    pub fn len(&self) -> u64
        ensures length { result ≡ length self.now }
        ensures few { result ≤ 2 ^ 32 }
    {
        u64::from(self.blocks) * BLOCK_LEN as u64
    }

    /// The block of the root.
    pub fn root(&self) -> u32
        ensures root { result ≡ root_of self.now }
        ensures inside { result < blocks self.now }
    {
        self.blocks / 2
    }

    /// A block.
    pub fn block(&self, b: u32) -> Block<'a>
        requires { b < blocks self.now }
        ensures block { result ≡ block self.now b }
        ensures size { IsSize self.now }
    {
        Block::at(self.bytes, b).unwrap()
    }

    /// A word of a block; 0 if the image has no such block.
    #[tactic(auto, using(adf_volume::proofs::WordsPast::past_word))]
    pub fn word(&self, b: u32, i: usize) -> u32
        requires { i < 128 }
        ensures { result ≡ word_in self.now b i }
    {
        match Block::at(self.bytes, b) {
            Some(block) => block.word(i),
            None => 0,
        }
    }

    /// The number of data blocks of the file with its header at block `head`.
    pub fn data_count(&self, head: u32) -> u32
        ensures { result ≡ data_count self.now head }
    {
        count_of(self.kind, self.word(head, SIZE))
    }

    /// Whether a block says of itself that it is OFS data block `number` of the file with its header at block `head`.
    pub fn says_data_of(&self, head: u32, number: u32, b: u32) -> bool
        ensures said { result ≡ says_data_of self.now head number b }
        ensures inside { IsTrue result → b < blocks self.now }
    {
        says_data_of(self.bytes, head, number, b)
    }
}

/// Whether a block of an image of whole blocks says of itself that it is OFS data block `number` of the file with its header at
/// block `head`.
#[tactic(auto, using(adf_volume::proofs::WordsPast::past_word))]
pub fn says_data_of(image: &[u8], head: u32, number: u32, b: u32) -> bool
    requires { length image.now ≡ 512 * blocks image.now }
    ensures said { result ≡ says_data_of image.now head number b }
    ensures inside { IsTrue result → b < blocks image.now }
{
    match Block::at(image, b) {
        Some(block) => {
            block.word(TYPE) == T_DATA
                && block.word(DATA_HEAD) == head
                && block.word(DATA_NUMBER) == number
                && block.long_sum() == 0
        }
        None => false,
    }
}

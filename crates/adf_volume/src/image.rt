// Images with a valid size, boot block and root, by the letters of their own type.

ghost use Rattle.std.specs.Prelude.{◌≡◌, ◌<◌, ◌≤◌};
ghost use Rattle.adf_base.specs.Words.{block};
ghost use Rattle.adf_blocks.specs.{HeadBlock.body_at, Sizes.blocks};
ghost use Rattle.adf_volume.specs.Image.{kind_of, letters_of, root_of, word_in};
ghost use Rattle.adf_volume.specs.Start.{IsImage, IsOwnBegun};

use adf_base::{Block, Letters};
use adf_blocks::{Directory, HeadBody};
use adf_tree::Kind;
use std::marker::Model;

/// An image with a valid size, boot block and root.
#[derive(Drop)]
pub struct Image<'a> {
    bytes: &'a [u8],
    kind: Kind,
    letters: Letters,
    blocks: u32,
}

impl<'a> Model for Image<'a> {
    ghost use Rattle.std.specs.Prelude.{◌≡◌, List, ℕ};
    ghost use Rattle.adf_volume.specs.Start.{IsImage};

    ghost Value = { List ℕ };

    ghost view = { λ i. i.bytes.now };

    ghost invariant = { λ i. IsImage i.bytes.now i.kind i.letters i.blocks };
}

impl<'a> Image<'a> {
    // The image, with its kind, its letters and its number of blocks.
    pub(crate) fn new(bytes: &'a [u8], kind: Kind, letters: Letters, blocks: u32) -> Image<'a>
        requires { IsImage bytes.now kind letters blocks }
        ensures { result ≡ bytes.now }
    {
        Image {
            bytes,
            kind,
            letters,
            blocks,
        }
    }

    /// States that the image has a valid size, boot block and root; does nothing at run time.
    pub fn begun(&self)
        ensures { IsOwnBegun self.now }
    {
        self.blocks();
    }

    /// The bytes of the image.
    pub fn bytes(&self) -> &'a [u8]
        ensures bytes { result.now ≡ self.now }
        ensures begun { IsOwnBegun self.now }
    {
        self.bytes
    }

    /// The kind of the volume.
    pub fn kind(&self) -> Kind
        ensures kind { result ≡ kind_of self.now }
        ensures begun { IsOwnBegun self.now }
    {
        self.kind
    }

    /// The letters of the volume's names.
    pub fn letters(&self) -> Letters
        ensures { result ≡ letters_of self.now }
    {
        self.letters
    }

    /// The number of blocks.
    pub fn blocks(&self) -> u32
        ensures blocks { result ≡ blocks self.now }
        ensures begun { IsOwnBegun self.now }
        ensures many { 4 ≤ result }
        ensures few { result ≤ 8388608 }
    {
        self.blocks
    }

    /// The block of the root.
    pub fn root(&self) -> u32
        ensures root { result ≡ root_of self.now }
        ensures inside { result < blocks self.now }
        ensures begun { IsOwnBegun self.now }
    {
        self.blocks / 2
    }

    /// A block.
    pub fn block(&self, b: u32) -> Block<'a>
        requires { b < blocks self.now }
        ensures block { result ≡ block self.now b }
        ensures begun { IsOwnBegun self.now }
    {
        Block::at(self.bytes, b).unwrap()
    }

    /// A word of a block; 0 if the image has no such block.
    #[tactic(auto, using(crate::proofs::WordsPast::past_word))]
    pub fn word(&self, b: u32, i: usize) -> u32
        requires { i < 128 }
        ensures { result ≡ word_in self.now b i }
    {
        match Block::at(self.bytes, b) {
            Some(block) => block.word(i),
            None => 0,
        }
    }

    /// The body of the header at a block: a directory, or a file with its size in bytes and its first extension block.
    pub fn body(&self, b: u32) -> HeadBody
        requires { b < blocks self.now }
        ensures body { result ≡ body_at (block self.now b) }
        ensures begun { IsOwnBegun self.now }
    {
        HeadBody::of(&self.block(b))
    }

    /// The slots of the root or a directory.
    pub fn directory(&self, b: u32) -> Directory<'a>
        requires { b < blocks self.now }
        ensures { result ≡ block self.now b }
    {
        Directory::over(self.block(b))
    }
}

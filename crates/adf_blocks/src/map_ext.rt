// Bitmap extension blocks: reader and writer.

ghost use Rattle.std.specs.Prelude.{◌≡◌, ◌≤◌, ◌<◌, ◌+◌, ◌*◌, ◌^◌, ℕ, List, length, slice_index};
ghost use Rattle.adf_base.specs.Words.{with_block, word};
ghost use Rattle.adf_blocks.specs.MapExtBlock.{map_ext_block};

use crate::layout::{MAP_EXT_FIRST, MAP_EXT_NEXT, MAP_EXT_PAGES};
use adf_base::{Block, put_block, put_word, put_words};
use std::marker::Model;

/// A bitmap extension block.
#[derive(Drop)]
pub struct MapExt<'a> {
    block: Block<'a>,
}

impl<'a> Model for MapExt<'a> {
    ghost use Rattle.std.specs.Prelude.{List, ℕ};

    ghost Value = { List ℕ };

    ghost view = { λ m. m.block };
}

/// Reads a block as a bitmap extension block. It has no checksum and no type, so every block is accepted.
pub fn read_map_ext<'a>(b: Block<'a>) -> MapExt<'a>
    ensures { result ≡ b.entry }
{
    MapExt { block: b }
}

impl MapExt<'_> {
    /// The bitmap page that entry `j`, 0 to 126, points to: word `j`.
    pub fn page(&self, j: usize) -> u32
        requires { j < MAP_EXT_PAGES }
        ensures { result ≡ word self.now j }
    {
        self.block.word(MAP_EXT_FIRST + j)
    }

    /// The next bitmap extension block: word 127.
    pub fn next(&self) -> u32
        ensures { result ≡ word self.now MAP_EXT_NEXT }
    {
        self.block.word(MAP_EXT_NEXT)
    }
}

// The 512 bytes of a bitmap extension block.
#[tactic(auto, unfolding(crate::specs::MapExtBlock::map_ext_block))]
fn map_ext_bytes(pages: &[u32], next: u32) -> [u8; 512]
    requires { length pages.now ≤ MAP_EXT_PAGES }
    ensures { result ≡ map_ext_block pages.now next }
{
    let mut block = [0u8; 512];
    put_words(&mut block, MAP_EXT_FIRST, pages);
    put_word(&mut block, MAP_EXT_NEXT, next);
    block
}

/// Writes a bitmap extension block, with pointers to at most 127 pages and to the next such block, over block `b` of
/// an image. The words after the last page are 0.
pub fn write_map_ext(image: &mut [u8], b: u32, pages: &[u32], next: u32)
    requires whole { b * 512 + 512 ≤ length image.old }
    requires pages { length pages.now ≤ MAP_EXT_PAGES }
    ensures exact { image.new ≡ with_block image.old b (map_ext_block pages.now next) }
{
    put_block(image, b, &map_ext_bytes(pages, next));
}

/// Reading a written bitmap extension block gives back its pointers.
pub fn written_map_exts_are_read()
    ensures whole { (pages : List ℕ) (next : ℕ) → length pages ≤ MAP_EXT_PAGES
        → length (map_ext_block pages next) ≡ 512 }
    // `slice_index` past the last page is 0
    ensures pages { (pages : List ℕ) (next j : ℕ) → length pages ≤ MAP_EXT_PAGES → j < MAP_EXT_PAGES
        → slice_index pages j < 2 ^ 32
        → word (map_ext_block pages next) j ≡ slice_index pages j }
    ensures next { (pages : List ℕ) (next : ℕ) → length pages ≤ MAP_EXT_PAGES → next < 2 ^ 32
        → word (map_ext_block pages next) MAP_EXT_NEXT ≡ next }
{}

// The pointers in a block of known form.

ghost use Rattle.std.specs.Prelude.{◌≡◌, ◌<◌, ◌+◌, ◌-◌};
ghost use Rattle.adf_base.specs.Words.{word};

use crate::layout::{EXTENSION, FIRST_POINTER, FIRST_SLOT, POINTERS, SLOTS};
use adf_base::Block;
use std::marker::Model;

/// The slots of a root, or of the header of a directory.
#[derive(Drop)]
pub struct Directory<'a> {
    block: Block<'a>,
}

impl<'a> Model for Directory<'a> {
    ghost use Rattle.std.specs.Prelude.{List, ℕ};

    ghost Value = { List ℕ };

    ghost view = { λ d. d.block };
}

impl<'a> Directory<'a> {
    /// The slots in a block.
    pub fn over(block: Block<'a>) -> Directory<'a>
        ensures { result ≡ block.entry }
    {
        Directory { block }
    }

    /// The first header of a slot's chain, or 0: words 6 to 77.
    pub fn slot(&self, s: u8) -> u32
        requires { s < SLOTS }
        ensures { result ≡ word self.now (FIRST_SLOT + s) }
    {
        self.block.word(FIRST_SLOT + s as usize)
    }
}

/// The table in a file's header or extension block: up to 72 pointers to data blocks, and the next extension block.
#[derive(Drop)]
pub struct Table<'a> {
    block: Block<'a>,
}

impl<'a> Model for Table<'a> {
    ghost use Rattle.std.specs.Prelude.{List, ℕ};

    ghost Value = { List ℕ };

    ghost view = { λ t. t.block };
}

impl<'a> Table<'a> {
    /// The table in a block.
    pub fn over(block: Block<'a>) -> Table<'a>
        ensures { result ≡ block.entry }
    {
        Table { block }
    }

    /// The data block that pointer `j`, 0 to 71, points to: word `77 - j`.
    pub fn pointer(&self, j: usize) -> u32
        requires { j < POINTERS }
        ensures { result ≡ word self.now (FIRST_POINTER - j) }
    {
        self.block.word(FIRST_POINTER - j)
    }

    /// The next extension block of the file, or 0: word 126.
    pub fn next(&self) -> u32
        ensures { result ≡ word self.now EXTENSION }
    {
        self.block.word(EXTENSION)
    }
}

// The root block of a volume: reader.

ghost use Rattle.std.specs.Prelude.{◌≡◌, ◌==◌, ◌&&◌, ◌<◌, ◌+◌};
ghost use Rattle.adf_base.specs.Words.{word};
ghost use Rattle.adf_blocks.specs.Forms.{ReadsForm, text_at};
ghost use Rattle.adf_blocks.specs.RootBlock.{label_stated, root_form, stamps_at};

use crate::cause::Cause;
use crate::fields::stamp_in;
use crate::layout::{
    ALTERED, BITMAP_FLAG, CREATED, DATE, FIRST_MAP_EXT, FIRST_PAGE, FIRST_SLOT, HASH_SIZE, NAME,
    ROOT_PAGES, SECONDARY_TYPE, SLOTS, ST_ROOT, T_SHORT, TYPE, VALID,
};
use adf_base::Block;
use adf_names::{Label, Stamps};
use std::marker::Model;

/// The root block of a volume.
#[derive(Drop)]
pub struct Root<'a> {
    block: Block<'a>,
}

impl<'a> Model for Root<'a> {
    ghost use Rattle.std.specs.Prelude.{List, ℕ, None, ◌≡◌};
    ghost use Rattle.adf_blocks.specs.{Forms.first_cause, RootBlock.root_form};

    ghost Value = { List ℕ };

    ghost view = { λ r. r.block };

    ghost invariant = { λ r. first_cause (root_form r.block) ≡ None };
}

/// Whether the primary and secondary types are those of a root: word 0 is 2, and word 127 is 1.
pub fn has_root_type(b: &Block<'_>) -> bool
    ensures { result ≡ ((word b.now TYPE == T_SHORT) && (word b.now SECONDARY_TYPE == ST_ROOT)) }
{
    b.word(TYPE) == T_SHORT && b.word(SECONDARY_TYPE) == ST_ROOT
}

/// Reads a block as the root.
///
/// The first cause that applies: `BadSum`; `BadType` if word 0 is not 2 or word 127 is not 1; `BadName` if byte 432 is
/// above 30; `BadHashSize` if word 3 is not 72; `NotValidated` if word 78 is not 0xFFFFFFFF.
pub fn read_root<'a>(b: Block<'a>) -> Result<Root<'a>, Cause>
    ensures { ReadsForm (root_form b.entry) (λ r. r ≡ b.entry) result }
{
    if b.long_sum() != 0 {
        return Err(Cause::BadSum);
    }
    if !has_root_type(&b) {
        return Err(Cause::BadType);
    }
    if b.byte(NAME) > 30 {
        return Err(Cause::BadName);
    }
    if b.word(HASH_SIZE) != SLOTS {
        return Err(Cause::BadHashSize);
    }
    if b.word(BITMAP_FLAG) != VALID {
        return Err(Cause::NotValidated);
    }
    Ok(Root { block: b })
}

impl Root<'_> {
    /// The first header of a slot's chain, or 0: words 6 to 77.
    pub fn slot(&self, s: usize) -> u32
        requires { s < SLOTS }
        ensures { result ≡ word self.now (FIRST_SLOT + s) }
    {
        self.block.word(FIRST_SLOT + s)
    }

    /// The block of bitmap page `i`, 0 to 24: words 79 to 103.
    pub fn page(&self, i: usize) -> u32
        requires { i < ROOT_PAGES }
        ensures { result ≡ word self.now (FIRST_PAGE + i) }
    {
        self.block.word(FIRST_PAGE + i)
    }

    /// The first bitmap extension block: word 104.
    pub fn map_ext(&self) -> u32
        ensures { result ≡ word self.now FIRST_MAP_EXT }
    {
        self.block.word(FIRST_MAP_EXT)
    }

    /// The label: its length in byte 432, its bytes from byte 433 on.
    pub fn label(&self) -> Label
        ensures { result ≡ text_at self.now NAME }
    {
        let len = self.block.byte(NAME) as usize;
        Label::new(self.block.bytes(NAME + 1, len)).unwrap()
    }

    /// The dates: the root's in words 105 to 107, the last change in 118 to 120, the creation in 121 to 123.
    pub fn stamps(&self) -> Stamps
        ensures { result ≡ stamps_at self.now }
    {
        stamps_stated(&self.block)
    }
}

/// The label of a block known to be a root, cut to 30 bytes: its length in byte 432, its bytes from byte 433 on.
pub fn label_stated(b: &Block<'_>) -> Label
    ensures { result ≡ label_stated b.now }
{
    let len = (b.byte(NAME) as usize).min(30);
    Label::new(b.bytes(NAME + 1, len)).unwrap()
}

/// The dates of a block known to be a root: the root's in words 105 to 107, the last change in 118 to 120, the
/// creation in 121 to 123.
pub fn stamps_stated(b: &Block<'_>) -> Stamps
    ensures { result ≡ stamps_at b.now }
{
    Stamps {
        root: stamp_in(b, DATE),
        altered: stamp_in(b, ALTERED),
        created: stamp_in(b, CREATED),
    }
}

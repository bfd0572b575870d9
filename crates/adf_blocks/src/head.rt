// The headers of directories and files: reader.

ghost use Rattle.std.specs.Prelude.{◌≡◌, ◌≤◌, ◌<◌, ◌+◌, ◌-◌, ◌==◌, true, slice_index};
ghost use Rattle.adf_base.specs.{Hash.slot_by, Words.word};
ghost use Rattle.adf_blocks.specs.{Forms.ReadsForm, Forms.stamp_at, Forms.text_at, declared.layout.TheConstants.COMMENT};
ghost use Rattle.adf_blocks.specs.HeadBlock.{body_at, IsHead, has_first, has_type, head_form, head_form_by, is_entry, is_link};
ghost use Rattle.adf_blocks.specs.HeadBlock.{is_name_at, meta_at, meta_stated};

use crate::cause::Cause;
use crate::fields::stamp_in;
use crate::layout::{
    COMMENT, DATE, EXTENSION, FIRST_DATA, FIRST_POINTER, FIRST_SLOT, NAME, NEXT_IN_CHAIN, OWN_KEY,
    PARENT, POINTERS, PROTECTION, SECONDARY_TYPE, SIZE, SLOTS, ST_DIR, ST_FILE, ST_LINK_DIR,
    ST_LINK_FILE, ST_SOFT_LINK, T_SHORT, TYPE,
};
use adf_base::{Block, Letters, slot_by};
use adf_names::{Comment, Kind, Meta, Name};
use std::marker::Model;

/// The header of a directory or a file.
#[derive(Drop)]
pub struct Head<'a> {
    block: Block<'a>,
}

impl<'a> Model for Head<'a> {
    ghost use Rattle.std.specs.Prelude.{List, ℕ};
    ghost use Rattle.adf_blocks.specs.HeadBlock.{IsHead};

    ghost Value = { List ℕ };

    ghost view = { λ h. h.block };

    ghost invariant = { λ h. IsHead h.block };
}

/// Where a header stands: its own block, the block of its directory, and the slot there that its name hashes to by these
/// letters.
#[derive(Clone, Copy, Debug, PartialEq, Eq)]
pub struct HeadPlace {
    pub own: u32,
    pub parent: u32,
    pub letters: Letters,
    pub slot: u8,
}

/// The part of a header that depends on its secondary type.
#[derive(Clone, Copy, Debug, PartialEq, Eq)]
pub enum HeadBody {
    Dir,
    /// A file: its size in bytes, and its first extension block or 0.
    File { size: u32, ext: u32 },
}

impl HeadBody {
    /// The body of a block known to be a header: a directory if word 127 is 2; otherwise a file, with its size in word
    /// 81 and its first extension block in word 126.
    pub fn of(b: &Block<'_>) -> HeadBody
        ensures { result ≡ body_at b.now }
    {
        if b.word(SECONDARY_TYPE) == ST_DIR {
            HeadBody::Dir
        } else {
            HeadBody::File {
                size: b.word(SIZE),
                ext: b.word(EXTENSION),
            }
        }
    }
}

/// The metadata of a block known to be a header: the comment at byte 328, cut to 79 bytes; the protection bits in word
/// 80; the date in words 105 to 107.
pub fn meta_stated(b: &Block<'_>) -> Meta
    ensures stated { result ≡ meta_stated b.now }
    ensures whole { slice_index b.now COMMENT ≤ 79 → result ≡ meta_at b.now }
{
    let len = (b.byte(COMMENT) as usize).min(79);
    Meta {
        comment: Comment::new(b.bytes(COMMENT + 1, len)).unwrap(),
        protect: b.word(PROTECTION),
        stamp: stamp_in(b, DATE),
    }
}

// Whether a secondary type is that of a link.
fn tells_link(t: u32) -> bool
    ensures { result ≡ is_link t }
{
    t == ST_SOFT_LINK || t == ST_LINK_DIR || t == ST_LINK_FILE
}

// Whether a secondary type is that of a directory or a file.
fn tells_entry(t: u32) -> bool
    ensures { result ≡ is_entry t }
{
    t == ST_DIR || t == ST_FILE
}

/// Whether the primary and secondary types are those of the header of an entry or a link: word 0 is 2, and word 127 is
/// one of 2, -3, 3, 4 and -4.
pub fn has_head_type(b: &Block<'_>) -> bool
    ensures { result ≡ has_type b.now }
{
    let secondary = b.word(SECONDARY_TYPE);
    b.word(TYPE) == T_SHORT && (tells_entry(secondary) || tells_link(secondary))
}

// Whether the name is valid.
fn name_holds(b: &Block<'_>) -> bool
    ensures { result ≡ is_name_at b.now NAME }
{
    let len = b.byte(NAME) as usize;
    len <= 30 && Name::is_name(b.bytes(NAME + 1, len))
}

// Whether the name hashes to this slot by these letters.
fn slot_holds(b: &Block<'_>, letters: Letters, slot: u8) -> bool
    requires { is_name_at b.now NAME ≡ true }
    ensures { result ≡ (slot_by letters (text_at b.now NAME) == slot) }
{
    let len = b.byte(NAME) as usize;
    slot_by(letters, b.bytes(NAME + 1, len)) == slot
}

// Whether word 4 is the first data block; true if the file is not OFS or is empty.
fn first_holds(b: &Block<'_>, kind: Kind) -> bool
    ensures { result ≡ has_first kind b.now }
{
    match kind {
        Kind::Ofs => {
            b.word(SECONDARY_TYPE) != ST_FILE
                || b.word(SIZE) == 0
                || b.word(FIRST_DATA) == b.word(FIRST_POINTER)
        }
        Kind::Ffs => true,
    }
}

/// Reads a block as the header `own`, in the chain of slot `slot` of the directory whose block is `parent`, on a volume
/// of type 0 or 1.
///
/// The first cause that applies: `BadSum`; `BadType` if word 0 is not 2, or word 127 is not one of 2, -3, 3, 4 and -4;
/// `Link` if word 127 is 3, 4 or -4; `BadOwnKey` if word 1 is not `own`; `BadParent` if word 125 is not `parent`;
/// `BadName` if the length in byte 432 and the bytes from 433 on are not a valid name; `BadComment` if byte 328 is
/// above 79; `WrongSlot` if the name's hash is not `slot`; `BadFirst` if word 4 of an OFS file with a size above 0 is
/// not word 77.
pub fn read_head<'a>(
    b: Block<'a>,
    kind: Kind,
    own: u32,
    parent: u32,
    slot: u8,
) -> Result<Head<'a>, Cause>
    ensures { ReadsForm (head_form kind own parent slot b.entry) (λ h. h ≡ b.entry) result }
{
    let place = HeadPlace {
        own,
        parent,
        letters: Letters::Ascii,
        slot,
    };
    read_head_at(b, kind, place)
}

/// Reads a block as the header of this place. The causes are those of `read_head`; the name's hash is that of the
/// place's letters.
pub fn read_head_at<'a>(b: Block<'a>, kind: Kind, place: HeadPlace) -> Result<Head<'a>, Cause>
    ensures { ReadsForm (head_form_by place.letters kind place.own place.parent place.slot b.entry)
        (λ h. h ≡ b.entry) result }
{
    if b.long_sum() != 0 {
        return Err(Cause::BadSum);
    }
    if !has_head_type(&b) {
        return Err(Cause::BadType);
    }
    if tells_link(b.word(SECONDARY_TYPE)) {
        return Err(Cause::Link);
    }
    if b.word(OWN_KEY) != place.own {
        return Err(Cause::BadOwnKey);
    }
    if b.word(PARENT) != place.parent {
        return Err(Cause::BadParent);
    }
    if !name_holds(&b) {
        return Err(Cause::BadName);
    }
    if b.byte(COMMENT) > 79 {
        return Err(Cause::BadComment);
    }
    if !slot_holds(&b, place.letters, place.slot) {
        return Err(Cause::WrongSlot);
    }
    if !first_holds(&b, kind) {
        return Err(Cause::BadFirst);
    }
    Ok(Head { block: b })
}

impl<'a> Head<'a> {
    /// The header in a block known to hold one.
    pub fn over(b: Block<'a>) -> Head<'a>
        requires { IsHead b }
        ensures { result ≡ b.entry }
    {
        Head { block: b }
    }
}

impl Head<'_> {
    /// The name: its length in byte 432, its bytes from byte 433 on.
    pub fn name(&self) -> Name
        ensures { result ≡ text_at self.now NAME }
    {
        let len = self.block.byte(NAME) as usize;
        Name::known(self.block.bytes(NAME + 1, len))
    }

    // The comment: its length in byte 328, its bytes from byte 329 on.
    fn comment(&self) -> Comment
        ensures { result ≡ text_at self.now COMMENT }
    {
        let len = self.block.byte(COMMENT) as usize;
        Comment::new(self.block.bytes(COMMENT + 1, len)).unwrap()
    }

    /// The metadata: the comment at byte 328, the protection bits in word 80 and the date in words 105 to 107.
    pub fn meta(&self) -> Meta
        ensures { result ≡ meta_at self.now }
    {
        Meta {
            comment: self.comment(),
            protect: self.block.word(PROTECTION),
            stamp: stamp_in(&self.block, DATE),
        }
    }

    /// The next header of the chain, or 0: word 124.
    pub fn next(&self) -> u32
        ensures { result ≡ word self.now NEXT_IN_CHAIN }
    {
        self.block.word(NEXT_IN_CHAIN)
    }

    /// A directory if word 127 is 2; otherwise a file: its size in word 81, its first extension block in word 126.
    pub fn body(&self) -> HeadBody
        ensures { result ≡ body_at self.now }
    {
        HeadBody::of(&self.block)
    }

    /// The first header of a slot's chain in a directory, or 0: words 6 to 77.
    pub fn slot(&self, s: usize) -> u32
        requires { s < SLOTS }
        ensures { result ≡ word self.now (FIRST_SLOT + s) }
    {
        self.block.word(FIRST_SLOT + s)
    }

    /// The data block that pointer `j`, 0 to 71, of a file points to: word `77 - j`.
    pub fn pointer(&self, j: usize) -> u32
        requires { j < POINTERS }
        ensures { result ≡ word self.now (FIRST_POINTER - j) }
    {
        self.block.word(FIRST_POINTER - j)
    }
}

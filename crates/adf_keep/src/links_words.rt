// The words of headers and links in an image.

ghost use Rattle.std.specs.Prelude.{◌≡◌, IfSome, true};
ghost use Rattle.adf_blocks.specs.Forms.{text_at};
ghost use Rattle.adf_blocks.specs.declared.layout.TheConstants.{NAME};
ghost use Rattle.adf_volume.specs.Image.{root_of};
ghost use Rattle.adf_keep.specs.Links.{has_link_mark, has_slots};

use crate::held::Held;
use adf_base::Block;
use adf_blocks::{NAME, SECONDARY_TYPE, ST_DIR, meta_stated};
use adf_names::Meta;

/// The word of the checksum, except in a bitmap page.
pub const CHECKSUM: usize = 5;

/// The word of a hard link that names the header that it leads to.
pub const ORIGINAL: usize = 117;

/// The word of a header that names the first link to it, and of a hard link the word that names the next one.
pub const NEXT_LINK: usize = 118;

/// The byte of a soft link where its path begins.
pub const PATH_START: usize = 24;

/// The bytes of a soft link that hold its path and the zero behind it.
pub const PATH_ROOM: usize = 288;

/// Whether a block has a mark.
pub fn has_link_mark(marks: &[bool], b: u32) -> bool
    ensures { result ≡ has_link_mark marks.now b }
{
    marks.get(b as usize).copied().unwrap_or(false)
}

/// The block of the root.
pub fn root_of(image: &Held<'_>) -> u32
    ensures { result ≡ root_of image.now }
{
    image.blocks() / 2
}

/// Whether block `d` is that of the root, or says that it is a directory.
pub fn has_slots(image: &Held<'_>, d: u32) -> bool
    ensures { result ≡ has_slots image.now d }
{
    d == root_of(image) || image.word(d, SECONDARY_TYPE) == ST_DIR
}

/// The name of a header, if it has at most 79 bytes.
pub fn name_bytes<'b>(block: &Block<'b>) -> Option<&'b [u8]>
    ensures { IfSome result (λ name. name.now ≡ text_at block.now NAME) }
{
    let len = block.byte(NAME) as usize;
    if len <= 79 {
        Some(block.bytes(NAME + 1, len))
    } else {
        None
    }
}

/// Whether metadata are the same.
pub fn is_same_meta(a: &Meta, b: &Meta) -> bool
    ensures { result ≡ true → b.now ≡ a.now }
{
    b.comment.bytes() == a.comment.bytes() && b.protect == a.protect && b.stamp == a.stamp
}

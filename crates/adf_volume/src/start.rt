// The size, the boot block and the root of an image.

ghost use Rattle.std.specs.Prelude.{◌≡◌, ◌≤◌, ◌++◌, length, slice_index, IfErr, IfNone, IfOk, IfSome, OnOk};
ghost use Rattle.adf_base.specs.Words.{block};
ghost use Rattle.adf_volume.specs.Demands.{AllHold, FirstFails, boot_demands, boot_demands_by, has_letters, is_dos, root_demands};
ghost use Rattle.adf_volume.specs.Image.{kind_of, letters_of, root_of};
ghost use Rattle.adf_volume.specs.Start.{IsBegunBy, is_image_len, start_form_by};
ghost use Rattle.adf_blocks.specs.{Forms.ReadsForm, Sizes.blocks, Sizes.is_allowed};

use crate::fault::{Fault, fault_at};
use crate::image::Image;
use adf_base::{BLOCK_LEN, Block, Letters};
use adf_blocks::{Cause, Root, is_allowed_size, read_root};
use adf_tree::Kind;

// The facts in the size and the first four bytes of an image.
#[derive(Drop)]
struct Start {
    blocks: u32,
    kind: Kind,
}

/// An image with a valid size, boot block and root, and that root.
#[derive(Drop)]
pub struct Opened<'a> {
    pub image: Image<'a>,
    pub root: Root<'a>,
}

/// Whether a volume may have this number of bytes.
pub fn is_image_len(size: usize) -> bool
    ensures { result ≡ is_image_len size }
{
    match u32::try_from(size / BLOCK_LEN) {
        Ok(blocks) => size % BLOCK_LEN == 0 && is_allowed_size(blocks),
        Err(_) => false,
    }
}

// Block 0.
fn boot_block<'a>(image: &'a [u8]) -> Block<'a>
    requires { 512 ≤ length image.now }
    ensures { result ≡ block image.now 0 }
{
    Block::at(image, 0).unwrap()
}

// Whether the boot block begins with `DOS` and a type up to 5.
fn is_dos(boot: &Block<'_>) -> bool
    ensures { result ≡ is_dos boot.now }
{
    boot.byte(0) == b'D' && boot.byte(1) == b'O' && boot.byte(2) == b'S' && boot.byte(3) <= 5
}

/// The kind in the boot block of a volume.
#[tactic(auto, unfolding(crate::specs::Image::kind_of))]
pub fn kind_in(image: &[u8]) -> Kind
    requires { 512 ≤ length image.now }
    ensures { result ≡ kind_of image.now }
{
    if boot_block(image).byte(3) % 2 == 0 {
        Kind::Ofs
    } else {
        Kind::Ffs
    }
}

/// The letters of a volume, by the type in its boot block.
#[tactic(auto, using(crate::proofs::ImageStart::type_byte), unfolding(crate::specs::Image::letters_of))]
pub fn letters_in(image: &[u8]) -> Letters
    ensures { result ≡ letters_of image.now }
{
    if image.get(3).copied().unwrap_or(0) < 2 {
        Letters::Ascii
    } else {
        Letters::International
    }
}

// Whether a type up to 5 has these letters, or directory caches.
fn has_letters(letters: Letters, boot: &Block<'_>) -> bool
    ensures { result ≡ has_letters letters (slice_index boot.now 3) }
{
    let type_byte = boot.byte(3);
    match letters {
        Letters::Ascii => type_byte != 2 && type_byte != 3,
        Letters::International => type_byte != 0 && type_byte != 1,
    }
}

// The number of blocks and the kind of a volume with these letters, from its size and first four bytes; otherwise the
// first of `BadSize`, `NotDos`, `International` and `DirCache` that applies.
fn read_start(letters: Letters, image: &[u8]) -> Result<Start, Cause>
    ensures { ReadsForm (start_form_by letters image.now) (λ s. (s.blocks ≡ blocks image.now)
        × (s.kind ≡ kind_of image.now)) result }
{
    if !is_image_len(image.len()) {
        return Err(Cause::BadSize);
    }
    let boot = boot_block(image);
    if !is_dos(&boot) {
        return Err(Cause::NotDos);
    }
    if !has_letters(letters, &boot) {
        return Err(Cause::International);
    }
    if boot.byte(3) == 4 || boot.byte(3) == 5 {
        return Err(Cause::DirCache);
    }
    Ok(Start {
        blocks: (image.len() / BLOCK_LEN) as u32,
        kind: kind_in(image),
    })
}

/// The first cause in the size and the first four bytes of an image of type 0 or 1, at block 0.
pub fn boot_cause(image: &[u8]) -> Option<Cause>
    ensures none { IfNone result (AllHold (boot_demands image.now)) }
    ensures some { IfSome result (λ c. FirstFails (boot_demands image.now) 0 c) }
{
    match read_start(Letters::Ascii, image) {
        Ok(_) => None,
        Err(cause) => Some(cause),
    }
}

/// Reads the size, the first four bytes and the root of an image of a volume with these letters; if one is invalid, the
/// first cause and its block.
pub fn open_by<'a>(letters: Letters, bytes: &'a [u8]) -> Result<Opened<'a>, Fault>
    ensures image { IfOk result (λ o. o.image ≡ bytes.now) }
    ensures begun { OnOk result (IsBegunBy letters bytes.now) }
    ensures letters { OnOk result (letters_of bytes.now ≡ letters) }
    ensures root { IfOk result (λ o. o.root ≡ block bytes.now (root_of bytes.now)) }
    ensures fails { IfErr result (λ f.
        FirstFails (boot_demands_by letters bytes.now ++ root_demands bytes.now (root_of bytes.now))
        f.block f.cause) }
{
    let start = match read_start(letters, bytes) {
        Ok(start) => start,
        Err(cause) => return Err(fault_at(0, cause)),
    };
    let middle = start.blocks / 2;
    match read_root(Block::at(bytes, middle).unwrap()) {
        Ok(root) => Ok(Opened {
            image: Image::new(bytes, start.kind, letters, start.blocks),
            root,
        }),
        Err(cause) => Err(fault_at(middle, cause)),
    }
}

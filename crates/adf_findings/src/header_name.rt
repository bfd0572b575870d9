// The name in a header.

ghost use Rattle.std.specs.Prelude.{◌≡◌, ◌+◌, ◌*◌, ◌<◌, ◌↔◌, IfSome, IsSome, IsTrue, length, min, slice_index, slice_range, true};
ghost use Rattle.adf_base.specs.Hash.{slot_by};
ghost use Rattle.adf_blocks.specs.{Sizes.blocks, declared.layout.TheConstants.NAME};
ghost use Rattle.adf_names.specs.Texts.{is_name};
ghost use Rattle.adf_volume.specs.Image.{letters_of, name_of};

use crate::image::SizedImage;
use adf_base::{Block, slot_by};
use adf_blocks::NAME;
use adf_tree::Name;
use adf_volume::letters_in;

/// The name in a header, at most 79 bytes.
pub fn name_in<'b>(head: &Block<'b>) -> &'b [u8]
    ensures { result.now
        ≡ slice_range head.now (NAME + 1) (NAME + 1 + min (slice_index head.now NAME) 79) }
{
    let len = (head.byte(NAME) as usize).min(79);
    head.bytes(NAME + 1, len)
}

// The name of the header at block `b`.
#[tactic(auto, using(crate::proofs::Names::cut_name))]
fn name_at<'a>(image: &SizedImage<'a>, b: u32) -> &'a [u8]
    requires { b < blocks image.now }
    ensures { result.now ≡ name_of image.now b }
{
    let head = image.block(b);
    name_in(&head)
}

/// The name of the header at block `b`; `None` if it is not valid.
pub fn valid_name(image: &SizedImage<'_>, b: u32) -> Option<Name>
    requires { b < blocks image.now }
    ensures valid { IsSome result ↔ (is_name (name_of image.now b) ≡ true) }
    ensures name { IfSome result (λ n. n ≡ name_of image.now b) }
{
    let name = name_at(image, b);
    if Name::is_name(name) {
        Some(Name::known(name))
    } else {
        None
    }
}

/// The slot of the name of the header at block `b`, 0 to 71, by the letters of the volume; `None` if the name is not valid.
#[tactic(auto, using(crate::proofs::Names::cut_name))]
pub fn slot_named(image: &[u8], b: u32) -> Option<u8>
    requires sized { length image.now ≡ 512 * blocks image.now }
    requires inside { b < blocks image.now }
    ensures some { IsSome result ↔ IsTrue (is_name (name_of image.now b)) }
    ensures slot { IfSome result (λ s. s ≡ slot_by (letters_of image.now) (name_of image.now b)) }
    ensures small { IfSome result (λ s. s < 72) }
{
    let head = Block::at(image, b).unwrap();
    let name = name_in(&head);
    if Name::is_name(name) {
        Some(slot_by(letters_in(image), name))
    } else {
        None
    }
}

// The facts of an image whose root is taken: its size, boot bytes and root.

ghost use Rattle.std.specs.Prelude.{◌≡◌, true};
ghost use Rattle.adf_blocks.specs.Sizes.{is_allowed};
ghost use Rattle.adf_findings.specs.Opening.{opening_in};

use crate::image::SizedImage;
use adf_blocks::{label_stated, stamps_stated};
use adf_tree::{Kind, Label, Stamps};

/// The facts in the size, the boot bytes and the root of an image.
#[derive(Drop)]
pub struct Opening {
    pub kind: Kind,
    /// All blocks, including the two boot blocks.
    pub blocks: u32,
    /// The label, cut to 30 bytes.
    pub label: Label,
    pub stamps: Stamps,
}

impl Opening {
    // The facts of an image whose root is taken.
    pub(crate) fn of(image: &SizedImage<'_>) -> Opening
        ensures opening { result ≡ opening_in image.now }
        ensures size { is_allowed result.blocks ≡ true }
    {
        let root = image.block(image.root());
        Opening {
            kind: image.kind(),
            blocks: image.blocks(),
            label: label_stated(&root),
            stamps: stamps_stated(&root),
        }
    }
}

// Why an image does not get other boot blocks.

ghost use Rattle.std.specs.Prelude.{◌≡◌};
ghost use Rattle.adf_boot_blocks.specs.Refusals.{copy_refusal, has_image_size, image_refusal};

use crate::boot::{BOOT_LEN, begins_with_dos};
use adf_base::BLOCK_LEN;
use adf_blocks::MOST_BLOCKS;

/// The bytes of the largest image.
pub const MOST_BYTES: usize = MOST_BLOCKS as usize * BLOCK_LEN;

/// The fewest bytes of an image.
pub const LEAST_BYTES: usize = 4 * BLOCK_LEN;

/// Why an image does not get other boot blocks.
#[derive(Clone, Copy, Debug, PartialEq, Eq)]
pub enum BootRefusal {
    /// The image is not whole blocks, or has fewer than four, or more than the largest volume.
    BadSize,
    /// The image does not begin with `DOS`.
    NotDos,
    /// The source has fewer bytes than boot blocks.
    BadSourceSize,
    /// The source does not begin with `DOS`.
    SourceNotDos,
}

// Whether an image is whole blocks, four or more, and no more than the largest volume has.
fn has_image_size(image: &[u8]) -> bool
    ensures { result ≡ has_image_size image.now }
{
    image.len() % BLOCK_LEN == 0 && LEAST_BYTES <= image.len() && image.len() <= MOST_BYTES
}

/// Why an image gets no other boot blocks, if it gets none.
pub fn image_refusal(image: &[u8]) -> Option<BootRefusal>
    ensures { result ≡ image_refusal image.now }
{
    if !has_image_size(image) {
        Some(BootRefusal::BadSize)
    } else if begins_with_dos(image) {
        None
    } else {
        Some(BootRefusal::NotDos)
    }
}

/// Why an image does not get the boot blocks at the front of a source, if it does not.
pub fn copy_refusal(image: &[u8], source: &[u8]) -> Option<BootRefusal>
    ensures { result ≡ copy_refusal image.now source.now }
{
    if source.len() < BOOT_LEN {
        Some(BootRefusal::BadSourceSize)
    } else if begins_with_dos(source) {
        image_refusal(image)
    } else {
        Some(BootRefusal::SourceNotDos)
    }
}

// What is the same in an image and in the image as one without directory caches.

ghost use Rattle.std.specs.Prelude.{◌≡◌, ◌+◌, ◌*◌, ◌<◌, ◌≤◌, ◌↔◌, IsTrue, length};
ghost use Rattle.adf_base.specs.Words.{block};
ghost use Rattle.adf_blocks.specs.Sizes.{blocks};
ghost use Rattle.adf_check.specs.Volumes.{OnVolume};
ghost use Rattle.adf_volume.specs.Lists.{In};
ghost use Rattle.adf_cached_files.specs.Sameness.{AreSameButPages, IsSameButBitmap};

use adf_base::BLOCK_LEN;
use adf_check::{Checked, OwnerClass};
use adf_volume::kind_in;

// Whether block `b` is the same in both.
#[tactic(auto, unfolding(adf_base::specs::Words::block))]
fn is_same_block(image: &[u8], copy: &[u8], b: u32) -> bool
    requires image { b * 512 + 512 ≤ length image.now }
    requires copy { b * 512 + 512 ≤ length copy.now }
    ensures { IsTrue result ↔ (block image.now b ≡ block copy.now b) }
{
    let start = b as usize * BLOCK_LEN;
    image[start..start + BLOCK_LEN] == copy[start..start + BLOCK_LEN]
}

// Whether a class is that of the pages of the bitmap.
fn is_page_class(class: OwnerClass) -> bool
    ensures { IsTrue result ↔ (class ≡ OwnerClass.Page) }
{
    matches!(class, OwnerClass::Page)
}

// Whether a block is a page of the bitmap.
fn is_page(volume: &Checked<'_>, b: u32) -> bool
    requires { b < blocks volume.now }
    ensures page { OnVolume volume.now (λ _ l. In l.pages b → IsTrue result) }
    ensures other { OnVolume volume.now (λ _ l. ¬ In l.pages b → ¬ IsTrue result) }
{
    match volume.owner_class(b) {
        Some(class) => is_page_class(class),
        None => false,
    }
}

// Whether every block of the copy that was checked is the same in the image, but for block 0 and the bitmap pages.
fn are_same_but_pages(image: &[u8], copy: &[u8], volume: &Checked<'_>) -> bool
    requires copy { volume.now ≡ copy.now }
    requires size { length image.now ≡ length copy.now }
    ensures same { IsTrue result → OnVolume volume.now (λ _ l. AreSameButPages image.now copy.now l) }
    ensures other { ¬ IsTrue result → OnVolume volume.now (λ _ l. ¬ AreSameButPages image.now copy.now l) }
{
    for b in 1..volume.counts().blocks {
        if !is_same_block(image, copy, b) && !is_page(volume, b) {
            return false;
        }
    }
    true
}

/// Whether an image is the same as the copy that was checked, but for the bitmap and what block 0 has beside the kind.
pub fn is_same_but_bitmap(image: &[u8], copy: &[u8], volume: &Checked<'_>) -> bool
    requires copy { volume.now ≡ copy.now }
    requires size { length image.now ≡ length copy.now }
    requires boot { 512 ≤ length image.now }
    ensures same { IsTrue result → OnVolume volume.now (λ _ l. IsSameButBitmap image.now copy.now l) }
    ensures other { ¬ IsTrue result → OnVolume volume.now (λ _ l. ¬ IsSameButBitmap image.now copy.now l) }
{
    kind_in(image) == kind_in(copy) && are_same_but_pages(image, copy, volume)
}

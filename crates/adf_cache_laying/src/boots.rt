// The boot blocks of a volume with directory caches.

ghost use Rattle.std.specs.Prelude.{◌≡◌, ◌≤◌, ◌<◌, ◌+◌, IfSome, length, set, slice_index, take, true};
ghost use Rattle.adf_boot_blocks.specs.{Writing.restored, declared.boot.TheConstants.BOOT_LEN};
ghost use Rattle.adf_cache_laying.specs.LaidCaches.{boot_with_caches};

use adf_boot_blocks::{BOOT_LEN, restore};

/// Whether an image has boot blocks, and its type is 2 or 3: it may have directory caches as type 4 or 5.
pub fn may_have_caches(image: &[u8]) -> bool
    ensures long { result ≡ true → BOOT_LEN ≤ length image.now }
    ensures low { result ≡ true → slice_index image.now 3 < 4 }
{
    BOOT_LEN <= image.len() && (image[3] == 2 || image[3] == 3)
}

/// Gives an image the type of a volume with caches, and the boot blocks that are kept behind it.
pub fn put_boot(image: &mut [u8], volume: &[u8], boot: &[u8])
    requires whole { BOOT_LEN ≤ length image.old }
    requires volume { BOOT_LEN ≤ length volume.now }
    requires boot { BOOT_LEN ≤ length boot.now }
    requires low { slice_index volume.now 3 < 4 }
    ensures { image.new ≡ restored (set image.old 3 (slice_index volume.now 3 + 2)) boot.now }
{
    image[3] = volume[3] + 2;
    restore(image, boot);
}

// The boot blocks that are kept, behind the type of a volume with caches.
fn boot_with_caches(volume: &[u8], boot: &[u8]) -> [u8; BOOT_LEN]
    requires volume { BOOT_LEN ≤ length volume.now }
    requires boot { BOOT_LEN ≤ length boot.now }
    requires low { slice_index volume.now 3 < 4 }
    ensures { result ≡ boot_with_caches volume.now boot.now }
{
    let mut blocks = [0u8; BOOT_LEN];
    blocks.copy_from_slice(&volume[..BOOT_LEN]);
    put_boot(&mut blocks, volume, boot);
    blocks
}

// The boot blocks of an image, if it has them.
fn boot_of(image: &[u8]) -> Option<&[u8]>
    ensures { IfSome result (λ boot. boot.now ≡ take BOOT_LEN image.now) }
{
    if BOOT_LEN <= image.len() {
        Some(&image[..BOOT_LEN])
    } else {
        None
    }
}

/// Whether an image has the boot blocks that are kept, behind the type of a volume with caches.
pub fn has_boot(volume: &[u8], boot: &[u8], image: &[u8]) -> bool
    requires volume { BOOT_LEN ≤ length volume.now }
    requires boot { BOOT_LEN ≤ length boot.now }
    requires low { slice_index volume.now 3 < 4 }
    ensures { result ≡ true → take BOOT_LEN image.now ≡ boot_with_caches volume.now boot.now }
{
    let wanted = boot_with_caches(volume, boot);
    match boot_of(image) {
        Some(boot) => boot == wanted.as_slice(),
        None => false,
    }
}

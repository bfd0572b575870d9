// The laws of boot blocks. Each is the contract of a function that does nothing at run time.

ghost use Rattle.std.specs.Prelude.{◌≡◌, ◌<◌, ◌≤◌, ◌^◌, ℕ, List, length, true};
ghost use Rattle.std.specs.List.{All};
ghost use Rattle.adf_tree.specs.Tree.{Tree};
ghost use Rattle.adf_volume.specs.{Fits.Fits, Layout.Layout};
ghost use Rattle.adf_boot_blocks.specs.BootBlocks.{IsOtherBoot, begins_with_dos, has_right_sum, with_sum};
ghost use Rattle.adf_boot_blocks.specs.{Writing.HasBootOf, Writing.restored, declared.boot.TheConstants.BOOT_LEN};

/// The boot blocks are no part of a tree or a layout: what fits an image fits each image that has other boot blocks of its type.
pub fn boot_is_no_part()
    ensures { (image other : List ℕ) (t : Tree) (l : Layout) → IsOtherBoot image other
        → Fits image t l → Fits other t l }
{}

/// The sum of boot blocks with their checksum is right.
pub fn sums_are_right()
    ensures { (image : List ℕ) → All (λ byte. byte < 256) image → BOOT_LEN ≤ length image
        → has_right_sum (with_sum image) ≡ true }
{}

/// What is put back into an image is no part of a tree. Boot blocks that begin with `DOS` are as they were behind the type, but
/// for a checksum that was right for another type, and what was bootable stays so.
pub fn boots_stay()
    ensures other { (image boot : List ℕ) → BOOT_LEN ≤ length image → BOOT_LEN ≤ length boot
        → IsOtherBoot image (restored image boot) }
    ensures boot { (image boot : List ℕ) → All (λ byte. byte < 256) image → All (λ byte. byte < 256) boot
        → BOOT_LEN ≤ length image → BOOT_LEN ≤ length boot → begins_with_dos image ≡ true
        → begins_with_dos boot ≡ true → HasBootOf boot (restored image boot) }
{}

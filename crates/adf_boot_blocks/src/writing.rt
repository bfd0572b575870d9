// Code that is written into the boot blocks of an image.

ghost use Rattle.std.specs.Prelude.{◌≡◌, ◌+◌, ◌≤◌, length, true};
ghost use Rattle.adf_boot_blocks.specs.BootBlocks.{IsOtherBoot, begins_with_dos, has_right_sum, is_bootable, with_sum};
ghost use Rattle.adf_boot_blocks.specs.Writing.{cleared, copied, installed, is_of_other_type, restored, with_boot};

use crate::boot::{
    BOOT_LEN, CHECKSUM, CODE, RIGHT_SUM, ROOT, begins_with_dos, carry_sum, has_right_sum,
};
use adf_base::{put_bytes, put_word};

// Sets the checksum.
#[tactic(auto, using(crate::proofs::CarrySums::set_twice, crate::proofs::CarrySums::sum_is_right))]
fn set_sum(image: &mut [u8])
    requires { BOOT_LEN ≤ length image.old }
    ensures exact { image.new ≡ with_sum image.old }
    ensures right { has_right_sum image.new ≡ true }
    ensures other { IsOtherBoot image.old image.new }
{
    put_word(image, CHECKSUM, 0);
    let sum = carry_sum(image);
    put_word(image, CHECKSUM, RIGHT_SUM - sum);
}

/// Writes zeros in place of the boot blocks behind the type.
#[tactic(auto, using(crate::proofs::Writes::other_bytes, crate::proofs::Writes::same_boot), unfolding(crate::specs::Writing::cleared))]
pub fn clear(image: &mut [u8])
    requires { BOOT_LEN ≤ length image.old }
    ensures exact { image.new ≡ cleared image.old }
    ensures other { IsOtherBoot image.old image.new }
{
    put_bytes(image, 4, &[0; BOOT_LEN - 4]);
}

// Writes the boot blocks of another image behind the type, as they stand.
#[tactic(auto, using(crate::proofs::Writes::other_bytes, crate::proofs::Writes::same_boot))]
fn put_boot(image: &mut [u8], boot: &[u8])
    requires whole { BOOT_LEN ≤ length image.old }
    requires boot { BOOT_LEN ≤ length boot.now }
    ensures exact { image.new ≡ with_boot image.old boot.now }
    ensures other { IsOtherBoot image.old image.new }
{
    put_bytes(image, 4, &boot[4..BOOT_LEN]);
}

/// Writes the boot blocks of another image behind the type, with a checksum that is right.
#[tactic(auto, using(crate::proofs::Writes::other_next, crate::proofs::Writes::bootable))]
pub fn copy(image: &mut [u8], boot: &[u8])
    requires whole { BOOT_LEN ≤ length image.old }
    requires boot { BOOT_LEN ≤ length boot.now }
    ensures exact { image.new ≡ copied image.old boot.now }
    ensures bootable { begins_with_dos image.old ≡ true → is_bootable image.new ≡ true }
    ensures other { IsOtherBoot image.old image.new }
{
    put_boot(image, boot);
    set_sum(image);
}

// Whether the checksum of boot blocks is right, but for another type than that of an image.
fn is_of_other_type(image: &[u8], boot: &[u8]) -> bool
    requires whole { BOOT_LEN ≤ length image.now }
    requires boot { BOOT_LEN ≤ length boot.now }
    ensures { result ≡ is_of_other_type image.now boot.now }
{
    has_right_sum(boot) && boot[3] != image[3]
}

/// Writes the boot blocks of another image behind the type, if they begin with `DOS`: as they stand, but with a checksum that is
/// right if theirs was right and their type was another.
#[tactic(auto, using(crate::proofs::Writes::same_boot), unfolding(crate::specs::Writing::restored))]
pub fn restore(image: &mut [u8], boot: &[u8])
    requires whole { BOOT_LEN ≤ length image.old }
    requires boot { BOOT_LEN ≤ length boot.now }
    ensures exact { image.new ≡ restored image.old boot.now }
    ensures bootable { begins_with_dos image.old ≡ true → is_bootable boot.now ≡ true
        → is_bootable image.new ≡ true }
    ensures other { IsOtherBoot image.old image.new }
{
    if !begins_with_dos(boot) {
        return;
    }
    if is_of_other_type(image, boot) {
        copy(image, boot);
    } else {
        put_boot(image, boot);
    }
}

/// Writes code and the number of the root into the boot blocks, with zeros behind it and a checksum that is right.
#[tactic(auto, using(crate::proofs::Writes::other_bytes, crate::proofs::Writes::other_word, crate::proofs::Writes::bootable))]
pub fn install(image: &mut [u8], root: u32, code: &[u8])
    requires whole { BOOT_LEN ≤ length image.old }
    requires room { CODE + length code.now ≤ BOOT_LEN }
    ensures exact { image.new ≡ installed image.old root code.now }
    ensures bootable { begins_with_dos image.old ≡ true → is_bootable image.new ≡ true }
    ensures other { IsOtherBoot image.old image.new }
{
    clear(image);
    put_word(image, ROOT, root);
    put_bytes(image, CODE, code);
    set_sum(image);
}

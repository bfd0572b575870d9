// The boot blocks of an image in memory.

ghost use Rattle.std.specs.Prelude.{◌≡◌, ◌<◌, ◌≤◌, length};
ghost use Rattle.adf_boot_blocks.specs.declared.boot.TheConstants.{BOOT_LEN};
ghost use Rattle.adf_memory.specs.Boot.{boot_blocks, boot_refusal_number};
ghost use Rattle.adf_memory.specs.VolumeCalls.{ClearsBoot, CopiesBoot, InstallsBoot, TellsBoot};

use adf_base::BLOCK_LEN;
use adf_boot_blocks::{
    BOOT_LEN, BootRefusal, STANDARD_CODE, begins_with_dos, clear, copy, copy_refusal, crc_32,
    has_no_code, has_right_sum, image_refusal, install, is_bootable,
};

/// What the boot blocks of an image say. A mark is 1 if it is so, otherwise 0.
#[repr(C)]
#[derive(Clone, Copy)]
pub struct BootBlocks {
    /// The CRC-32 of their 1,024 bytes.
    pub crc: u32,
    /// They begin with `DOS`.
    pub begins_with_dos: u8,
    /// Byte 3: the type of the volume, if they begin with `DOS`.
    pub volume_type: u8,
    /// The sum of their words is right.
    pub has_right_sum: u8,
    /// An Amiga starts their code: they begin with `DOS`, and their sum is right.
    pub is_bootable: u8,
    /// There is something but zeros behind the type.
    pub has_code: u8,
}

// The number of a refusal, above 0.
fn boot_refusal_number(refusal: BootRefusal) -> u8
    ensures exact { result ≡ boot_refusal_number refusal }
    ensures some { 0 < result }
{
    match refusal {
        BootRefusal::BadSize => 1,
        BootRefusal::NotDos => 2,
        BootRefusal::BadSourceSize => 3,
        BootRefusal::SourceNotDos => 4,
    }
}

// What the boot blocks of an image say.
fn boot_blocks(image: &[u8]) -> BootBlocks
    requires { BOOT_LEN ≤ length image.now }
    ensures { result ≡ boot_blocks image.now }
{
    BootBlocks {
        crc: crc_32(&image[..BOOT_LEN]),
        begins_with_dos: u8::from(begins_with_dos(image)),
        volume_type: image[3],
        has_right_sum: u8::from(has_right_sum(image)),
        is_bootable: u8::from(is_bootable(image)),
        has_code: u8::from(!has_no_code(image)),
    }
}

/// Tells of the boot blocks at the front of an image. Returns 0, or the number of `BadSize` if it has fewer than 1,024 bytes.
pub fn tell_boot(image: &[u8], boot: &mut BootBlocks) -> u8
    ensures { TellsBoot image.now boot.old boot.new result }
{
    if image.len() < BOOT_LEN {
        return boot_refusal_number(BootRefusal::BadSize);
    }
    *boot = boot_blocks(image);
    0
}

/// Writes a standard boot block into an image: code that starts AmigaDOS, the number of the root, and a checksum that is right.
/// Returns 0, or the number of a refusal.
#[tactic(auto, using(adf_boot_blocks::proofs::Taken::image_taken, adf_boot_blocks::proofs::OtherBoots::other_fits))]
pub fn install_boot(image: &mut [u8]) -> u8
    ensures { InstallsBoot image.old image.new result }
{
    match image_refusal(image) {
        Some(refusal) => boot_refusal_number(refusal),
        None => {
            let root = (image.len() / BLOCK_LEN / 2) as u32;
            install(image, root, &STANDARD_CODE);
            0
        }
    }
}

/// Writes the boot blocks at the front of a source into an image, which keeps its type, with a checksum that is right. Returns 0,
/// or the number of a refusal: of the source first.
#[tactic(auto, using(adf_boot_blocks::proofs::Taken::copy_taken, adf_boot_blocks::proofs::OtherBoots::other_fits))]
pub fn copy_boot(image: &mut [u8], source: &[u8]) -> u8
    ensures { CopiesBoot source.now image.old image.new result }
{
    match copy_refusal(image, source) {
        Some(refusal) => boot_refusal_number(refusal),
        None => {
            copy(image, source);
            0
        }
    }
}

/// Writes zeros in place of the boot blocks behind the type. Returns 0, or the number of a refusal.
#[tactic(auto, using(adf_boot_blocks::proofs::Taken::image_taken, adf_boot_blocks::proofs::OtherBoots::other_fits))]
pub fn clear_boot(image: &mut [u8]) -> u8
    ensures { ClearsBoot image.old image.new result }
{
    match image_refusal(image) {
        Some(refusal) => boot_refusal_number(refusal),
        None => {
            clear(image);
            0
        }
    }
}

// The CRC-32 of bytes.

ghost use Rattle.std.specs.Prelude.{◌≡◌};
ghost use Rattle.adf_boot_blocks.specs.Crc.{bit_step, byte_step, crc_32};

// The register one bit further.
fn bit_step(register: u32) -> u32
    ensures { result ≡ bit_step register }
{
    if register % 2 == 1 {
        (register / 2) ^ 0xEDB8_8320
    } else {
        register / 2
    }
}

// The register behind one more byte.
#[tactic(auto, unfolding(crate::specs::Crc::bit_steps, crate::specs::Crc::byte_step))]
fn byte_step(register: u32, byte: u8) -> u32
    ensures { result ≡ byte_step register byte }
{
    let mut next = register ^ byte as u32;
    for _bit in 0..8_usize {
        next = bit_step(next);
    }
    next
}

/// The CRC-32 of bytes, as zip has it: that of the nine bytes `123456789` is CBF43926.
pub fn crc_32(bytes: &[u8]) -> u32
    ensures { result ≡ crc_32 bytes.now }
{
    let mut register = 0xFFFF_FFFF;
    for byte in bytes {
        register = byte_step(register, *byte);
    }
    register ^ 0xFFFF_FFFF
}

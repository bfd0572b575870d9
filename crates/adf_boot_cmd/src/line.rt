// The line of boot blocks.

ghost use Rattle.std.specs.Prelude.{◌≤◌, length};
ghost use Rattle.adf_boot_blocks.specs.declared.boot.TheConstants.{BOOT_LEN};

use adf_boot_blocks::{BOOT_LEN, begins_with_dos, crc_32, has_no_code, has_right_sum};
use adf_json::{Member, Value, push_object};
use adf_names::push_hex;
use std::alloc::{AllocError, Global};

// Whether an Amiga starts from the boot blocks, or why it does not.
fn state_text(image: &[u8]) -> &'static str
    requires { BOOT_LEN ≤ length image.now }
{
    if !begins_with_dos(image) {
        "not-dos"
    } else if has_right_sum(image) {
        "bootable"
    } else if has_no_code(image) {
        "no-code"
    } else {
        "bad-sum"
    }
}

// The type of a volume.
fn type_name(number: u8) -> &'static str {
    match number {
        0 => "ofs",
        1 => "ffs",
        2 => "ofs-international",
        3 => "ffs-international",
        4 => "ofs-cached",
        5 => "ffs-cached",
        _ => "other",
    }
}

// The type of an image.
fn type_of(image: &[u8]) -> &'static str
    requires { BOOT_LEN ≤ length image.now }
{
    if begins_with_dos(image) {
        type_name(image[3])
    } else {
        "-"
    }
}

/// The line of the boot blocks of an image: whether an Amiga starts from them or why it does not, their type, and their CRC-32.
pub fn boot_line(alloc: Global, image: &[u8]) -> Result<Vec<u8>, AllocError>
    requires { BOOT_LEN ≤ length image.now }
{
    let mut line = Vec::new(alloc);
    line.extend_from_slice(state_text(image).as_bytes())?;
    line.extend_from_slice(b" ")?;
    line.extend_from_slice(type_of(image).as_bytes())?;
    line.extend_from_slice(b" ")?;
    push_hex(&mut line, crc_32(&image[..BOOT_LEN]), b'\n')?;
    Ok(line)
}

// The type of an image as a value.
fn type_value(image: &[u8]) -> Value<'static>
    requires { BOOT_LEN ≤ length image.now }
{
    if begins_with_dos(image) {
        Value::Bytes(type_name(image[3]).as_bytes())
    } else {
        Value::Nothing
    }
}

// The object of the boot blocks of an image.
fn boot_object(alloc: Global, image: &[u8]) -> Result<Vec<u8>, AllocError>
    requires { BOOT_LEN ≤ length image.now }
{
    let mut object = Vec::new(alloc);
    push_object(
        &mut object,
        &[
            Member::text("line", "boot"),
            Member::text("state", state_text(image)),
            Member::of("type", type_value(image)),
            Member::number("crc", crc_32(&image[..BOOT_LEN])),
        ],
    )?;
    Ok(object)
}

/// The line of the boot blocks of an image, or with `json` their object.
pub fn boot_text(alloc: Global, image: &[u8], json: bool) -> Result<Vec<u8>, AllocError>
    requires { BOOT_LEN ≤ length image.now }
{
    if json {
        boot_object(alloc, image)
    } else {
        boot_line(alloc, image)
    }
}

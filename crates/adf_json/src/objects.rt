// The line of an object.

ghost use Rattle.std.specs.Prelude.{◌≡◌, ◌++◌, ◌∷◌, [], OnOk, if◌then◌else◌, map};
ghost use Rattle.std.specs.Fmt.{decimal, signed_decimal};
ghost use Rattle.adf_json.specs.Objects.{byte_in_string, is_plain_in_string, member, member_text, member_value, object_line};
ghost use Rattle.adf_json.specs.Objects.{characters, integer, numeral, string_text, value_text, value_value, without_feed};

use adf_names::{hex_digit, is_plain};
use itoa::Buffer;
use std::alloc::AllocError;

/// The value of a member.
#[derive(Clone, Copy, Debug)]
pub enum Value<'a> {
    Nothing,
    Truth(bool),
    Number(u64),
    Signed(i32),
    /// A string with a character U+0000 to U+00FF for each byte.
    Bytes(&'a [u8]),
}

/// A member of an object.
#[derive(Clone, Copy, Debug)]
pub struct Member<'a> {
    pub name: &'a str,
    pub value: Value<'a>,
}

impl<'a> Member<'a> {
    /// A member with a string in ASCII.
    pub fn text(name: &'a str, text: &'a str) -> Member<'a>
        ensures { member_value result ≡ member name.now (characters text.now) }
    {
        Member {
            name,
            value: Value::Bytes(text.as_bytes()),
        }
    }

    /// A member with a string of bytes.
    pub fn bytes(name: &'a str, bytes: &'a [u8]) -> Member<'a>
        ensures { member_value result ≡ member name.now (characters bytes.now) }
    {
        Member {
            name,
            value: Value::Bytes(bytes),
        }
    }

    /// A member with a number.
    pub fn number(name: &'a str, number: u32) -> Member<'a>
        ensures { member_value result ≡ member name.now (numeral number) }
    {
        Member {
            name,
            value: Value::Number(u64::from(number)),
        }
    }

    /// A member with a number that may have a sign.
    pub fn signed(name: &'a str, number: i32) -> Member<'a>
        ensures { member_value result ≡ member name.now (integer number) }
    {
        Member {
            name,
            value: Value::Signed(number),
        }
    }

    /// A member with any value.
    pub fn of(name: &'a str, value: Value<'a>) -> Member<'a>
        ensures { member_value result ≡ member name.now (value_value value.entry) }
    {
        Member { name, value }
    }
}

// Whether a byte stands for itself in a string.
fn is_plain_in_string(c: u8) -> bool
    ensures { result ≡ is_plain_in_string c }
{
    is_plain(c) && c != b'"'
}

// Appends a byte of a string, as `\u00` and two digits unless it stands for itself.
fn push_byte(text: &mut Vec<u8>, c: u8) -> Result<(), AllocError>
    ensures { OnOk result (text.new.items ≡ text.old.items ++ byte_in_string c) }
{
    if is_plain_in_string(c) {
        text.push(c)?;
        return Ok(());
    }
    text.extend_from_slice(b"\\u00")?;
    text.extend_from_slice(&[hex_digit(c / 16), hex_digit(c % 16)])
}

// Appends a string with a character for each byte.
fn push_string(text: &mut Vec<u8>, bytes: &[u8]) -> Result<(), AllocError>
    ensures { OnOk result (text.new.items ≡ text.old.items ++ string_text bytes.now) }
{
    text.push(b'"')?;
    for c in bytes {
        push_byte(text, *c)?;
    }
    text.extend_from_slice(b"\"")
}

// Appends a number in decimal.
fn push_decimal(text: &mut Vec<u8>, number: u64) -> Result<(), AllocError>
    ensures { OnOk result (text.new.items ≡ text.old.items ++ decimal number) }
{
    let mut buffer = Buffer::new();
    text.extend_from_slice(buffer.format(number).as_bytes())
}

// Appends a number in decimal, after a `-` if it is negative.
fn push_signed(text: &mut Vec<u8>, number: i32) -> Result<(), AllocError>
    ensures { OnOk result (text.new.items ≡ text.old.items ++ signed_decimal number) }
{
    let mut buffer = Buffer::new();
    text.extend_from_slice(buffer.format(number).as_bytes())
}

// Appends a value.
fn push_value(text: &mut Vec<u8>, value: Value<'_>) -> Result<(), AllocError>
    ensures { OnOk result (text.new.items ≡ text.old.items ++ value_text (value_value value.entry)) }
{
    match value {
        Value::Nothing => text.extend_from_slice(b"null"),
        Value::Truth(true) => text.extend_from_slice(b"true"),
        Value::Truth(false) => text.extend_from_slice(b"false"),
        Value::Number(number) => push_decimal(text, number),
        Value::Signed(number) => push_signed(text, number),
        Value::Bytes(bytes) => push_string(text, bytes),
    }
}

// Appends a member, after a comma unless it is the first.
fn push_member(text: &mut Vec<u8>, member: &Member<'_>, is_first: bool) -> Result<(), AllocError>
    ensures { OnOk result (text.new.items
        ≡ text.old.items ++ ((if is_first then [] else 44 ∷ []) ++ member_text (member_value member.now))) }
{
    if !is_first {
        text.push(b',')?;
    }
    push_string(text, member.name.as_bytes())?;
    text.extend_from_slice(b":")?;
    push_value(text, member.value)
}

/// Appends the line of an object.
pub fn push_object(text: &mut Vec<u8>, members: &[Member<'_>]) -> Result<(), AllocError>
    ensures { OnOk result
        (text.new.items ≡ text.old.items ++ object_line (map member_value members.now)) }
{
    text.push(b'{')?;
    for i in 0..members.len() {
        push_member(text, &members[i], i == 0)?;
    }
    text.extend_from_slice(b"}\n")
}

/// A text without its last byte, which is its line feed.
pub fn without_feed(text: &[u8]) -> &[u8]
    ensures { result.now ≡ without_feed text.now }
{
    &text[..text.len().saturating_sub(1)]
}

// The texts of bytes and paths, appended to what is written.

ghost use Rattle.std.specs.Prelude.{◌≡◌, ◌++◌, [], ◌∷◌, OnOk, if◌then◌else◌, map};
ghost use Rattle.std.specs.List.{list_all};
ghost use Rattle.adf_names.specs.{Escapes.escape_of, Escapes.escaped, Escapes.is_plain, PathTexts.path_text};
ghost use Rattle.adf_names.specs.Written.{ValidNamesAreAlike, digits_of, name_byte, name_bytes, names_text, spelled};

use crate::escapes::{hex_digit, is_plain};
use crate::name::Name;
use std::alloc::AllocError;

// Appends `\x` and the two digits of a byte.
fn push_digits(text: &mut Vec<u8>, c: u8) -> Result<(), AllocError>
    ensures { OnOk result (text.new.items ≡ text.old.items ++ digits_of c) }
{
    text.extend_from_slice(&[b'\\', b'x', hex_digit(c / 16), hex_digit(c % 16)])
}

// Appends the escape of a byte.
fn push_escape(text: &mut Vec<u8>, c: u8) -> Result<(), AllocError>
    ensures { OnOk result (text.new.items ≡ text.old.items ++ escape_of c) }
{
    if is_plain(c) {
        text.push(c)?;
        return Ok(());
    }
    push_digits(text, c)
}

// Appends the spelling of a byte of a name that need not be valid.
fn push_name_byte(text: &mut Vec<u8>, c: u8) -> Result<(), AllocError>
    ensures { OnOk result (text.new.items ≡ text.old.items ++ name_byte c) }
{
    if c == b'/' || c == b':' {
        return push_digits(text, c);
    }
    push_escape(text, c)
}

// Whether the escape form of the bytes is the bytes themselves.
fn are_plain(bytes: &[u8]) -> bool
    ensures { result ≡ list_all is_plain bytes.now }
{
    bytes.iter().all(|c| is_plain(*c))
}

/// Appends the escape form of bytes.
pub fn push_escaped(text: &mut Vec<u8>, bytes: &[u8]) -> Result<(), AllocError>
    ensures { OnOk result (text.new.items ≡ text.old.items ++ escaped bytes.now) }
{
    if are_plain(bytes) {
        return text.extend_from_slice(bytes);
    }
    for c in bytes {
        push_escape(text, *c)?;
    }
    Ok(())
}

// Appends a name of a path, after a `/` unless it is the first.
fn push_name(text: &mut Vec<u8>, name: &[u8], is_first: bool) -> Result<(), AllocError>
    ensures { OnOk result (text.new.items
        ≡ text.old.items ++ ((if is_first then [] else 47 ∷ []) ++ escaped name.now)) }
{
    if !is_first {
        text.push(b'/')?;
    }
    push_escaped(text, name)
}

/// Appends the text of a path.
pub fn push_path(text: &mut Vec<u8>, path: &[Name]) -> Result<(), AllocError>
    ensures { OnOk result (text.new.items ≡ text.old.items ++ path_text path.now) }
{
    for (i, name) in path.iter().enumerate() {
        push_name(text, name.bytes(), i == 0)?;
    }
    Ok(())
}

// Appends the spelling of bytes of such a name.
fn push_name_bytes(text: &mut Vec<u8>, bytes: &[u8]) -> Result<(), AllocError>
    ensures { OnOk result (text.new.items ≡ text.old.items ++ name_bytes bytes.now) }
{
    for c in bytes {
        push_name_byte(text, *c)?;
    }
    Ok(())
}

// Appends the spelling of a name that need not be valid.
fn push_spelled(text: &mut Vec<u8>, name: &[u8]) -> Result<(), AllocError>
    ensures { OnOk result (text.new.items ≡ text.old.items ++ spelled name.now) }
{
    if name.is_empty() {
        return text.extend_from_slice(b"\\x");
    }
    push_name_bytes(text, name)
}

// Appends such a name, after a `/` unless it is the first.
fn push_next(text: &mut Vec<u8>, name: &[u8], is_first: bool) -> Result<(), AllocError>
    ensures { OnOk result (text.new.items
        ≡ text.old.items ++ ((if is_first then [] else 47 ∷ []) ++ spelled name.now)) }
{
    if !is_first {
        text.push(b'/')?;
    }
    push_spelled(text, name)
}

/// Appends the text of a path of names that need not be valid.
pub fn push_names(text: &mut Vec<u8>, path: &[&[u8]]) -> Result<(), AllocError>
    ensures { OnOk result
        (text.new.items ≡ text.old.items ++ names_text (map (λ name. name.now) path.now)) }
{
    for (i, name) in path.iter().enumerate() {
        push_next(text, name, i == 0)?;
    }
    Ok(())
}

/// A path of valid names has the same text by `push_names` as in `adf list`.
#[tactic(auto, using(crate::proofs::PathSteps::one_text))]
pub fn valid_names_are_alike()
    ensures { ValidNamesAreAlike }
{}

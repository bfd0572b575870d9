// The escape form of bytes.

ghost use Rattle.std.specs.Prelude.{◌≡◌, ◌≢◌, ◌++◌, ◌<◌, ◌∷◌, [], ℕ, List, IfOk, OnOk, OnErr, IfSome, IfNone};
ghost use Rattle.std.specs.String.{string_bytes};
ghost use Rattle.adf_names.specs.Escapes.{escape_of, escaped, hex_digit, is_plain, IsSpelling, SpellingsDecide};

use adf_base::NoMemory;
use arrayvec::ArrayVec;
use std::alloc::AllocError;

/// Whether the escape form of the byte is the byte itself.
pub fn is_plain(c: u8) -> bool
    ensures { result ≡ is_plain c }
{
    32 <= c && c <= 126 && c != b'\\'
}

/// The lower-case hexadecimal digit of a number below 16.
pub fn hex_digit(d: u8) -> u8
    requires { d < 16 }
    ensures { result ≡ hex_digit d }
{
    if d < 10 { b'0' + d } else { b'a' - 10 + d }
}

/// The value of a lower-case hexadecimal digit.
pub fn digit_value(digit: u8) -> Option<u8>
    ensures small { IfSome result (λ d. d < 16) }
    ensures digit { IfSome result (λ d. hex_digit d ≡ digit) }
    ensures none { IfNone result ((d : ℕ) → d < 16 → hex_digit d ≢ digit) }
{
    match digit {
        b'0'..=b'9' => Some(digit - b'0'),
        b'a'..=b'f' => Some(digit - b'a' + 10),
        _ => None,
    }
}

// The byte whose escape has these two digits.
fn unescape(high: u8, low: u8) -> Option<u8>
    ensures some { IfSome result (λ c. escape_of c ≡ 92 ∷ 120 ∷ high ∷ low ∷ []) }
    ensures none { IfNone result ((c : ℕ) → c < 256 → escape_of c ≢ 92 ∷ 120 ∷ high ∷ low ∷ []) }
{
    let c = 16 * digit_value(high)? + digit_value(low)?;
    if is_plain(c) { None } else { Some(c) }
}

// Reads the escape of one byte; returns the byte and the rest of the text.
fn read_byte(text: &[u8]) -> Option<(u8, &[u8])>
    ensures some { IfSome result (λ r. text.now ≡ escape_of r.0 ++ r.1.now) }
    ensures byte { IfSome result (λ r. r.0 < 256) }
    ensures none { IfNone result ((c : ℕ) (rest : List ℕ) → c < 256
        → text.now ≢ escape_of c ++ rest) }
{
    match text {
        [b'\\', b'x', high, low, rest @ ..] => Some((unescape(*high, *low)?, rest)),
        [c, rest @ ..] if is_plain(*c) => Some((*c, rest)),
        _ => None,
    }
}

/// The bytes, at most `MOST`, whose escape form is `text`.
pub fn read_escaped<const MOST: usize>(text: &[u8]) -> Option<ArrayVec<u8, MOST>>
    ensures some { IfSome result (λ v. IsSpelling MOST text.now v.items) }
    ensures none { IfNone result ((bytes : List ℕ) → ¬ IsSpelling MOST text.now bytes) }
{
    let mut bytes = ArrayVec::new();
    let mut rest = text;
    while !rest.is_empty() {
        let (c, after) = read_byte(rest)?;
        bytes.try_push(c).ok()?;
        rest = after;
    }
    Some(bytes)
}

// Appends the escape of a byte; if memory is refused, part of it may have been appended.
fn push_escape(out: &mut String, c: u8) -> Result<(), AllocError>
    ensures { IfOk result (λ _. string_bytes out.new ≡ string_bytes out.old ++ escape_of c) }
{
    if is_plain(c) {
        out.push(char::from(c))?;
    } else {
        out.push_str("\\x")?;
        out.push(char::from(hex_digit(c / 16)))?;
        out.push(char::from(hex_digit(c % 16)))?;
    }
    Ok(())
}

/// Appends the escape form of bytes; if memory is refused, part of it may have been appended.
pub fn push_escaped(out: &mut String, bytes: &[u8]) -> Result<(), AllocError>
    ensures { IfOk result (λ _. string_bytes out.new ≡ string_bytes out.old ++ escaped bytes.now) }
{
    for c in bytes {
        push_escape(out, *c)?;
    }
    Ok(())
}

/// Appends the escape form of bytes; if memory is refused, `out` is unchanged.
pub fn append_escaped(out: &mut String, bytes: &[u8]) -> Result<(), NoMemory>
    ensures ok { OnOk result (string_bytes out.new ≡ string_bytes out.old ++ escaped bytes.now) }
    ensures err { OnErr result (string_bytes out.new ≡ string_bytes out.old) }
{
    let mut text = String::new(*out.allocator());
    push_escaped(&mut text, bytes)?;
    out.push_str(text.as_str()).map_err(|_| NoMemory)
}

/// A text is the escape form of at most one list of bytes, so `read` inverts `write`.
#[tactic(auto, using(crate::proofs::Spellings::only_spelled))]
pub fn spellings_decide()
    ensures { SpellingsDecide }
{}

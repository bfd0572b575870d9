// Hexadecimal digits.

ghost use Rattle.std.specs.Prelude.{◌≡◌, ◌≢◌, ◌<◌, ◌^◌, ◌/◌, ◌++◌, ◌∷◌, [], ℕ, List, IfSome, IfNone, IfOk, All, length, true};
ghost use Rattle.std.specs.List.{list_all};
ghost use Rattle.adf_manifest.specs.Texts.{digit, is_digit, pairs, unpaired};
ghost use Rattle.adf_names.specs.Digits.{hex_word, pair};

use adf_tree::digit_value;
use std::alloc::AllocError;
use std::marker::Model;

/// The hexadecimal digits of bytes, as in the text.
#[derive(Drop)]
pub struct Digits<'a> {
    text: &'a [u8],
}

impl<'a> Model for Digits<'a> {
    ghost use Rattle.std.specs.Prelude.{ℕ, List};
    ghost use Rattle.adf_manifest.specs.Texts.{unpaired, AreDigits};

    ghost Value = { List ℕ };

    ghost view = { λ d. unpaired d.text.now };

    ghost invariant = { λ d. AreDigits d.text.now };
}

impl<'a> Digits<'a> {
    /// The text as digits; `None` if it is not an even number of digits.
    #[tactic(auto, using(crate::proofs::DigitLaws::digits_of_pairs, crate::proofs::DigitLaws::pairs_of_digits))]
    pub fn read(text: &'a [u8]) -> Option<Digits<'a>>
        ensures some { IfSome result (λ bytes. text.now ≡ pairs bytes) }
        ensures bytes { IfSome result (All (λ b. b < 256)) }
        ensures none { IfNone result ((bytes : List ℕ) → All (λ b. b < 256) bytes
            → text.now ≢ pairs bytes) }
    {
        if text.len() % 2 == 0 && are_digits(text) {
            Some(Digits { text })
        } else {
            None
        }
    }

    /// Appends the bytes with these digits; if memory is refused, some of them may have been appended.
    #[tactic(auto, using(crate::proofs::DigitLaws::all_digits))]
    pub fn push_onto(self, bytes: &mut Vec<u8>) -> Result<(), AllocError>
        ensures { IfOk result (λ _. bytes.new.items ≡ bytes.old.items ++ self.entry) }
    {
        push_pairs(bytes, self.text)
    }
}

// The byte with these two digits.
fn read_pair(high: u8, low: u8) -> Option<u8>
    ensures some { IfSome result (λ b. pair b ≡ high ∷ low ∷ []) }
    ensures none { IfNone result ((b : ℕ) → b < 256 → pair b ≢ high ∷ low ∷ []) }
{
    Some(16 * digit_value(high)? + digit_value(low)?)
}

/// Reads two digits as a byte.
pub fn read_byte(text: &[u8]) -> Option<u8>
    ensures some { IfSome result (λ b. text.now ≡ pair b) }
    ensures none { IfNone result ((b : ℕ) → b < 256 → text.now ≢ pair b) }
{
    match text {
        [high, low] => read_pair(*high, *low),
        _ => None,
    }
}

// Reads two digits as a byte; returns the byte and the rest of the text.
fn next_pair(text: &[u8]) -> Option<(u8, &[u8])>
    ensures some { IfSome result (λ r. text.now ≡ pair r.0 ++ r.1.now) }
    ensures byte { IfSome result (λ r. r.0 < 256) }
    ensures shorter { IfSome result (λ r. length r.1.now < length text.now) }
    ensures none { IfNone result ((b : ℕ) (rest : List ℕ) → b < 256 → text.now ≢ pair b ++ rest) }
{
    match text {
        [high, low, rest @ ..] => Some((read_pair(*high, *low)?, rest)),
        _ => None,
    }
}

/// Reads eight digits as a word.
pub fn read_word(text: &[u8]) -> Option<u32>
    ensures some { IfSome result (λ w. text.now ≡ hex_word w) }
    ensures none { IfNone result ((w : ℕ) → w < 2 ^ 32 → text.now ≢ hex_word w) }
{
    let (a, second) = next_pair(text)?;
    let (b, third) = next_pair(second)?;
    let (c, fourth) = next_pair(third)?;
    let d = read_byte(fourth)?;
    Some(u32::from(a) * 16_777_216 + u32::from(b) * 65_536 + u32::from(c) * 256 + u32::from(d))
}

// Whether a byte is a lower-case hexadecimal digit.
fn is_digit(c: u8) -> bool
    ensures { result ≡ is_digit c }
{
    b'0' <= c && c <= b'9' || b'a' <= c && c <= b'f'
}

// Whether all bytes are digits; it tests all of them, so that many are tested in one step.
fn are_digits(text: &[u8]) -> bool
    ensures { result ≡ list_all is_digit text.now }
{
    let mut all = true;
    for c in text {
        all &= is_digit(*c);
    }
    all
}

// The value, below 16, of a digit.
fn digit(c: u8) -> u8
    requires { is_digit c ≡ true }
    ensures value { result ≡ digit c }
    ensures below { result < 16 }
{
    if c <= b'9' { c - b'0' } else { c - b'a' + 10 }
}

// Writes the bytes with the digits in a text.
fn write_pairs(bytes: &mut [u8], text: &[u8])
    requires digits { list_all is_digit text.now ≡ true }
    requires length { length bytes.old ≡ length text.now / 2 }
    ensures { bytes.new ≡ unpaired text.now }
{
    for i in 0..bytes.len() {
        bytes[i] = 16 * digit(text[2 * i]) + digit(text[2 * i + 1]);
    }
}

// Appends the bytes with the digits in a text; if memory is refused, nothing changes.
fn push_pairs(bytes: &mut Vec<u8>, text: &[u8]) -> Result<(), AllocError>
    requires { list_all is_digit text.now ≡ true }
    ensures { IfOk result (λ _. bytes.new.items ≡ bytes.old.items ++ unpaired text.now) }
{
    let start = bytes.len();
    let end = start + text.len() / 2;
    bytes.resize(end, 0)?;
    write_pairs(&mut bytes[start..end], text);
    Ok(())
}

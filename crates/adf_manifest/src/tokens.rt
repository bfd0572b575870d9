// Tokens of a line: the rest after a prefix, the parts around a byte, numbers and dates.

ghost use Rattle.std.specs.Prelude.{◌≡◌, ◌≢◌, ◌<◌, ◌^◌, ◌++◌, ◌∷◌, ℕ, List, IfSome, IfNone, length};
ghost use Rattle.std.specs.Fmt.{decimal};
ghost use Rattle.adf_base.specs.Dates.{plain_text, IsStamp};
ghost use Rattle.adf_base.specs.declared.dates.Stamp.{Stamp as StampValue};
ghost use Rattle.adf_names.specs.declared.meta.Stamps.{Stamps as StampsValue};
ghost use Rattle.adf_manifest.specs.Tokens.{LacksByte, has_number_front, stamps_text};
ghost use Rattle.adf_names.specs.Meta.{AreStamps};

use adf_base::Stamp;
use adf_tree::Stamps;

/// The rest of a text after a prefix.
pub fn after<'a>(text: &'a [u8], prefix: &[u8]) -> Option<&'a [u8]>
    ensures some { IfSome result (λ rest. text.now ≡ prefix.now ++ rest.now) }
    ensures none { IfNone result ((rest : List ℕ) → text.now ≢ prefix.now ++ rest) }
{
    text.strip_prefix(prefix)
}

/// The parts before and after the first occurrence of a byte.
pub fn cut_at<'a>(text: &'a [u8], byte: u8) -> Option<(&'a [u8], &'a [u8])>
    ensures some { IfSome result (λ r. (text.now ≡ r.0.now ++ byte ∷ r.1.now)
        × LacksByte byte r.0.now) }
    ensures none { IfNone result (LacksByte byte text.now) }
{
    let at = text.iter().position(|c| *c == byte)?;
    Some((&text[..at], &text[at + 1..]))
}

/// The three parts around the first two occurrences of a byte.
pub fn cut_twice<'a>(text: &'a [u8], byte: u8) -> Option<(&'a [u8], &'a [u8], &'a [u8])>
    ensures some { IfSome result (λ r. (text.now ≡ r.0.now ++ byte ∷ (r.1.now ++ byte ∷ r.2.now))
        × LacksByte byte r.0.now × LacksByte byte r.1.now) }
    ensures none { IfNone result ((a b c : List ℕ) → LacksByte byte a → LacksByte byte b
        → text.now ≢ a ++ byte ∷ (b ++ byte ∷ c)) }
{
    let (first, rest) = cut_at(text, byte)?;
    let (second, third) = cut_at(rest, byte)?;
    Some((first, second, third))
}

// Whether the length and the first byte of a text are those of a number.
fn has_number_front(text: &[u8]) -> bool
    ensures { result ≡ has_number_front text.now }
{
    !text.is_empty() && text[0] != b'+' && (text[0] != b'0' || text.len() == 1)
}

// Reads one digit as a number.
#[tactic(auto, using(crate::proofs::TokenLaws::one_digit))]
fn read_digit(text: &[u8]) -> Option<u32>
    ensures { IfSome result (λ n. text.now ≡ decimal n) }
{
    match text {
        [digit] if b'0' <= *digit && *digit <= b'9' => Some(u32::from(*digit - b'0')),
        _ => None,
    }
}

// Reads any number of digits as a number.
#[tactic(auto, using(crate::proofs::TokenLaws::no_number_front, crate::proofs::TokenLaws::number_read))]
fn read_digits(text: &[u8]) -> Option<u32>
    ensures some { IfSome result (λ n. text.now ≡ decimal n) }
    ensures none { IfNone result ((n : ℕ) → n < 2 ^ 32 → text.now ≢ decimal n) }
{
    if !has_number_front(text) {
        return None;
    }
    match std::str::from_utf8(text) {
        Ok(digits) => match digits.parse::<u32>() {
            Ok(number) => Some(number),
            Err(_) => None,
        },
        Err(_) => None,
    }
}

/// Reads a decimal number below 2^32, without leading zeros.
pub fn read_number(text: &[u8]) -> Option<u32>
    ensures some { IfSome result (λ n. text.now ≡ decimal n) }
    ensures none { IfNone result ((n : ℕ) → n < 2 ^ 32 → text.now ≢ decimal n) }
{
    match read_digit(text) {
        Some(number) => Some(number),
        None => read_digits(text),
    }
}

/// Reads a date: days, minutes and ticks in decimal, joined by `:`.
pub fn read_stamp(text: &[u8]) -> Option<Stamp>
    ensures some { IfSome result (λ s. text.now ≡ plain_text s) }
    ensures none { IfNone result ((s : StampValue) → IsStamp s → text.now ≢ plain_text s) }
{
    let (days, mins, ticks) = cut_twice(text, b':')?;
    let days = read_number(days)?;
    let mins = read_number(mins)?;
    let ticks = read_number(ticks)?;
    Some(Stamp { days, mins, ticks })
}

/// Reads three dates, joined by spaces.
pub fn read_stamps(text: &[u8]) -> Option<Stamps>
    ensures some { IfSome result (λ s. text.now ≡ stamps_text s) }
    ensures none { IfNone result ((s : StampsValue) → AreStamps s → text.now ≢ stamps_text s) }
{
    let (root, altered, created) = cut_twice(text, b' ')?;
    let root = read_stamp(root)?;
    let altered = read_stamp(altered)?;
    let created = read_stamp(created)?;
    Some(Stamps {
        root,
        altered,
        created,
    })
}

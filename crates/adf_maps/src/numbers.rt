// Numbers of a map: decimal, or hexadecimal behind `0x`.

ghost use Rattle.std.specs.Prelude.{◌≡◌, ◌≤◌, IfSome, Some};
ghost use Rattle.adf_maps.specs.Maps.{digit_value, number_behind, number_spelled};
ghost use Rattle.adf_maps.specs.declared.numbers.TheConstants.{MOST_NUMBER};

/// The largest number of a map, 2^59.
pub const MOST_NUMBER: u64 = 576_460_752_303_423_488;

// The value of a digit; 16 if it is none.
fn digit(c: u8) -> u64
    ensures value { result ≡ digit_value c }
    ensures most { result ≤ 16 }
{
    match c {
        b'0'..=b'9' => u64::from(c - b'0'),
        b'a'..=b'f' => u64::from(c - b'a') + 10,
        b'A'..=b'F' => u64::from(c - b'A') + 10,
        _ => 16,
    }
}

// The number of digits.
#[tactic(auto, using(crate::proofs::DigitLaws::digits))]
fn number_from(radix: u64, digits: &[u8]) -> Option<u64>
    requires { radix ≤ 16 }
    ensures value { result ≡ number_behind radix 0 digits.now }
    ensures most { IfSome result (λ n. n ≤ MOST_NUMBER) }
{
    let mut number = 0u64;
    for i in 0..digits.len() {
        let digit = digit(digits[i]);
        if radix <= digit {
            return None;
        }
        number = radix * number + digit;
        if MOST_NUMBER < number {
            return None;
        }
    }
    Some(number)
}

/// The number of a word.
pub fn read_number(word: &[u8]) -> Option<u64>
    ensures value { result ≡ number_spelled word.now }
    ensures most { IfSome result (λ n. n ≤ MOST_NUMBER) }
{
    match word {
        [] => None,
        [_] => number_from(10, word),
        [b'0', b'x' | b'X', _, ..] => number_from(16, &word[2..]),
        [b'0', ..] => None,
        _ => number_from(10, word),
    }
}

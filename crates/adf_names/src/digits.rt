// The digits of numbers.

ghost use Rattle.std.specs.Prelude.{◌≡◌, ◌<◌, ◌≤◌, ◌++◌, [], ◌∷◌, drop, take, replicate};
ghost use Rattle.std.specs.Fmt.{decimal};
ghost use Rattle.adf_names.specs.Digits.{hex_word, right_in_ten};
ghost use Rattle.adf_names.specs.Growth.{grown};

use crate::escapes::hex_digit;
use itoa::write_digits;
use std::alloc::AllocError;

/// Appends eight hexadecimal digits and the byte `end`.
pub fn push_hex(text: &mut Vec<u8>, word: u32, end: u8) -> Result<(), AllocError>
    ensures { text.new.items ≡ grown result text.old.items (hex_word word ++ end ∷ []) }
{
    let first = ((word >> 24) % 256) as u8;
    let second = ((word >> 16) % 256) as u8;
    let third = ((word >> 8) % 256) as u8;
    let fourth = (word % 256) as u8;
    let digits = [
        hex_digit(first / 16),
        hex_digit(first % 16),
        hex_digit(second / 16),
        hex_digit(second % 16),
        hex_digit(third / 16),
        hex_digit(third % 16),
        hex_digit(fourth / 16),
        hex_digit(fourth % 16),
        end,
    ];
    text.extend_from_slice(&digits)
}

// The digits of a number and the byte `end`, right-aligned in 11 bytes, and the index of the first.
fn decimal_digits(value: u32, end: u8) -> ([u8; 11], usize)
    ensures text { drop result.1 result.0 ≡ decimal value ++ end ∷ [] }
    ensures spaces { take result.1 result.0 ≡ replicate result.1 32 }
    ensures within { result.1 ≤ 10 }
{
    let mut digits = [b' '; 11];
    digits[10] = end;
    let at = write_digits(u64::from(value), &mut digits, 10);
    (digits, at)
}

/// Appends a number in decimal and the byte `end`.
pub fn push_number(text: &mut Vec<u8>, value: u32, end: u8) -> Result<(), AllocError>
    ensures { text.new.items ≡ grown result text.old.items (decimal value ++ end ∷ []) }
{
    let (digits, at) = decimal_digits(value, end);
    text.extend_from_slice(&digits[at..])
}

/// Appends a number in decimal, right-aligned in ten columns, and a space.
pub fn push_right(text: &mut Vec<u8>, value: u32) -> Result<(), AllocError>
    ensures { text.new.items
        ≡ grown result text.old.items (right_in_ten (decimal value) ++ 32 ∷ []) }
{
    let (digits, _) = decimal_digits(value, b' ');
    text.extend_from_slice(&digits)
}

// The escape form of names.

ghost use Rattle.std.specs.Prelude.{◌≡◌, ◌<◌, ◌+◌, ◌^◌, ◌++◌, ℕ, List, length};
ghost use Rattle.adf_names.specs.Escapes.{escape_of};
ghost use Rattle.adf_memory.specs.{Rooms.filled, TextCalls.WritesEscape};

use crate::tables::put;
use adf_names::{hex_digit, is_plain};

// The length from which on a name has no escape form.
const TOO_LONG: usize = 1 << 61;

// Puts the escape of a byte behind what stands in the room, as far as it fits. Returns how long that is then.
fn put_escape(room: &mut [u8], at: usize, c: u8) -> usize
    requires { at + 4 < 2 ^ 64 }
    ensures count { result ≡ at + length (escape_of c) }
    ensures text { (xs before : List ℕ) → at ≡ length xs → room.old ≡ filled xs before
        → room.new ≡ filled (xs ++ escape_of c) before }
{
    if is_plain(c) {
        put(room, at, c);
        return at + 1;
    }
    put(room, at, b'\\');
    put(room, at + 1, b'x');
    put(room, at + 2, hex_digit(c / 16));
    put(room, at + 3, hex_digit(c % 16));
    at + 4
}

/// Writes the escape form of a name to the front of `room`, as far as it fits. Returns the length of the whole text. A name of
/// 2^61 bytes or more has none.
pub fn escape_text(name: &[u8], room: &mut [u8]) -> usize
    ensures { WritesEscape name.now room.old room.new result }
{
    if name.len() >= TOO_LONG {
        return 0;
    }
    let mut count = 0;
    for i in 0..name.len() {
        count = put_escape(room, count, name[i]);
    }
    count
}

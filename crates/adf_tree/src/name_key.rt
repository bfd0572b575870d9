// Names as four numbers, so that comparing two names compares a few words.

ghost use Rattle.std.specs.Prelude.{◌≡◌, ◌≤◌, ◌+◌, length, true};
ghost use Rattle.adf_names.specs.Texts.{uppers, uppers_by};
ghost use Rattle.adf_tree.specs.NameKeys.{is_short, key_of_name, padded, spread_of, hashed, name_word};

use adf_base::{Letters, upper};
use adf_names::Name;

/// A name in upper case, its length before its bytes, as four numbers.
#[derive(Clone, Copy, PartialEq, Eq, PartialOrd, Ord, Drop)]
pub struct NameKey {
    pub first: u64,
    pub second: u64,
    pub third: u64,
    pub fourth: u64,
}

// 2^64 over the golden ratio.
const FACTOR: u64 = 11400714819323198485;

// Mixes one more word into a number.
fn hashed(number: u64, word: u64) -> u64
    ensures { result ≡ hashed number word }
{
    number.wrapping_mul(FACTOR).wrapping_add(word)
}

// The length of a name, its bytes in upper case, and zeros.
#[tactic(auto, using(crate::proofs::NameKeys::short_name, crate::proofs::NameKeys::next_byte, crate::proofs::NameKeys::whole))]
fn padded(name: &[u8]) -> [u8; 32]
    requires { length name.now ≤ 30 }
    ensures bytes { result ≡ padded (uppers name.now) }
    ensures short { is_short (uppers name.now) ≡ true }
{
    let count = name.len();
    let mut text = [0u8; 32];
    for i in 0..count {
        text[i + 1] = upper(name[i]);
    }
    text[0] = count as u8;
    text
}

// The big-endian number in the 8 bytes at an offset.
fn name_word(text: &[u8; 32], from: usize) -> u64
    requires { from + 8 ≤ 32 }
    ensures { result ≡ name_word text.now from }
{
    let bytes: [u8; 8] = text[from..from + 8].try_into().unwrap();
    u64::from_be_bytes(bytes)
}

impl NameKey {
    /// The key of a name.
    pub fn of(name: &Name) -> NameKey
        ensures key { result ≡ key_of_name (uppers name.now) }
        ensures short { is_short (uppers name.now) ≡ true }
    {
        let text = padded(name.bytes());
        NameKey {
            first: name_word(&text, 0),
            second: name_word(&text, 8),
            third: name_word(&text, 16),
            fourth: name_word(&text, 24),
        }
    }

    /// The key of a name, in upper case by these letters.
    #[tactic(auto, using(adf_names::proofs::RaisedNames::raised_stays))]
    #[inline(always)]
    pub fn of_by(letters: Letters, name: &Name) -> NameKey
        ensures key { result ≡ key_of_name (uppers_by letters name.now) }
        ensures short { is_short (uppers_by letters name.now) ≡ true }
    {
        match letters {
            Letters::Ascii => NameKey::of(name),
            Letters::International => NameKey::of(&name.raised(letters)),
        }
    }

    /// A hash of the key: similar keys have hashes far apart.
    #[tactic(auto, unfolding(crate::specs::NameKeys::spread_of))]
    pub fn spread(self) -> u64
        ensures { result ≡ spread_of self }
    {
        let half = hashed(self.first, self.second);
        let whole = hashed(hashed(half, self.third), self.fourth);
        hashed(whole ^ (whole >> 32), 0)
    }
}

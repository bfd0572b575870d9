// The name of an entry.

ghost use Rattle.std.specs.Prelude.{◌≡◌, ◌↔◌, IsSome, IfSome, true};
ghost use Rattle.std.specs.{List.list_all, Str.bytes_eq};
ghost use Rattle.adf_names.specs.Texts.{is_name, is_name_byte, uppers, uppers_by};

use adf_base::{Letters, upper, upper_by};
use arrayvec::ArrayVec;
use std::marker::Model;

/// The name of an entry: 1 to 30 bytes, none of them `/` or `:`.
#[derive(Drop)]
pub struct Name {
    text: ArrayVec<u8, 30>,
}

impl Model for Name {
    ghost use Rattle.std.specs.Prelude.{List, ℕ, true, ◌≡◌};
    ghost use Rattle.adf_names.specs.Texts.{is_name};

    ghost Value = { List ℕ };

    ghost view = { λ n. n.text.items };

    ghost invariant = { λ n. is_name n.text.items ≡ true };
}

// Whether no byte is `:` or `/`.
fn are_name_bytes(bytes: &[u8]) -> bool
    ensures { result ≡ list_all is_name_byte bytes.now }
{
    bytes.iter().all(|c| *c != b':' && *c != b'/')
}

impl Name {
    /// Whether these bytes are a valid name.
    pub fn is_name(bytes: &[u8]) -> bool
        ensures { result ≡ is_name bytes.now }
    {
        1 <= bytes.len() && bytes.len() <= 30 && are_name_bytes(bytes)
    }

    /// The name with these bytes; `None` if they are not a valid name.
    pub fn new(bytes: &[u8]) -> Option<Name>
        ensures allowed { IsSome result ↔ (is_name bytes.now ≡ true) }
        ensures bytes { IfSome result (λ n. n ≡ bytes.now) }
    {
        if !Name::is_name(bytes) {
            return None;
        }
        let text = ArrayVec::try_from(bytes).ok()?;
        Some(Name { text })
    }

    /// The name with these bytes, which must be a valid name.
    pub fn known(bytes: &[u8]) -> Name
        requires { is_name bytes.now ≡ true }
        ensures { result ≡ bytes.now }
    {
        Name {
            text: ArrayVec::try_from(bytes).unwrap(),
        }
    }

    /// A copy of the name.
    pub fn copy(&self) -> Name
        ensures { result ≡ self.now }
    {
        Name::known(self.bytes())
    }

    /// Whether the names are equal, ignoring the case of `a` to `z`.
    pub fn same(&self, other: &Name) -> bool
        ensures { result ≡ bytes_eq (uppers self.now) (uppers other.now) }
    {
        other.matches(self.bytes())
    }

    /// Whether the names are equal, ignoring the case of these letters.
    pub fn same_by(&self, letters: Letters, other: &Name) -> bool
        ensures { result ≡ bytes_eq (uppers_by letters self.now) (uppers_by letters other.now) }
    {
        match letters {
            Letters::Ascii => self.same(other),
            Letters::International => other.matches_by(letters, self.bytes()),
        }
    }

    /// The name in upper case by these letters.
    pub fn raised(&self, letters: Letters) -> Name
        ensures { result ≡ uppers_by letters self.now }
    {
        let name = self.bytes();
        let mut text = ArrayVec::new();
        for c in name {
            text.push(upper_by(letters, *c));
        }
        Name { text }
    }

    /// Whether the bytes are equal to the name, ignoring the case of `a` to `z`.
    pub fn matches(&self, bytes: &[u8]) -> bool
        ensures { result ≡ bytes_eq (uppers bytes.now) (uppers self.now) }
    {
        are_same(bytes, self.bytes())
    }

    /// Whether the bytes are equal to the name, ignoring the case of these letters.
    pub fn matches_by(&self, letters: Letters, bytes: &[u8]) -> bool
        ensures { result ≡ bytes_eq (uppers_by letters bytes.now) (uppers_by letters self.now) }
    {
        are_same_by(letters, bytes, self.bytes())
    }

    /// The bytes of the name.
    pub fn bytes(&self) -> &[u8]
        ensures bytes { result.now ≡ self.now }
        ensures allowed { is_name result.now ≡ true }
    {
        self.text.as_slice()
    }
}

// Whether two texts are equal, ignoring the case of `a` to `z`.
fn are_same(a: &[u8], b: &[u8]) -> bool
    ensures { result ≡ bytes_eq (uppers a.now) (uppers b.now) }
{
    if a.len() != b.len() {
        return false;
    }
    for i in 0..a.len() {
        if upper(a[i]) != upper(b[i]) {
            return false;
        }
    }
    true
}

// Whether two texts are equal, ignoring the case of these letters.
#[tactic(auto, using(crate::proofs::EqualNames::same_short, crate::proofs::EqualNames::same_no, crate::proofs::EqualNames::same_yes))]
fn are_same_by(letters: Letters, a: &[u8], b: &[u8]) -> bool
    ensures { result ≡ bytes_eq (uppers_by letters a.now) (uppers_by letters b.now) }
{
    if a.len() != b.len() {
        return false;
    }
    for i in 0..a.len() {
        if upper_by(letters, a[i]) != upper_by(letters, b[i]) {
            return false;
        }
    }
    true
}

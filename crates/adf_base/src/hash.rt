// The hash of a name.

ghost use Rattle.std.specs.Prelude.{◌≡◌, ◌<◌, ◌≤◌, length};
ghost use Rattle.adf_base.specs.Hash.{has_upper, slot_by, slot_international, slot_of, upper_by, upper_international, upper_of};

/// The letters of which case is ignored in the names of a volume.
#[derive(Clone, Copy, Debug, PartialEq, Eq)]
pub enum Letters {
    /// `a` to `z`.
    Ascii,
    /// `a` to `z`, and the bytes 0xE0 to 0xFE except 0xF7.
    International,
}

/// The byte in upper case if it is `a` to `z`; otherwise the byte itself.
pub fn upper(c: u8) -> u8
    ensures { result ≡ upper_of c }
{
    c.to_ascii_uppercase()
}

/// The slot of a name, 0 to 71: its hash.
pub fn slot(name: &[u8]) -> u8
    requires { length name.now ≤ 30 }
    ensures exact { result ≡ slot_of name.now }
    ensures below { result < 72 }
{
    let mut hash = name.len() as u32;
    for c in name {
        hash = (hash * 13 + u32::from(upper(*c))) % 2048;
    }
    (hash % 72) as u8
}

// Whether the byte has an upper case in Latin-1.
fn has_upper(c: u8) -> bool
    ensures { result ≡ has_upper c }
{
    (97 <= c && c <= 122) || (0xE0 <= c && c <= 0xFE && c != 0xF7)
}

// The byte in upper case by international letters.
fn upper_international(c: u8) -> u8
    ensures { result ≡ upper_international c }
{
    if has_upper(c) { c - 32 } else { c }
}

// The slot of a name by international letters.
fn slot_international(name: &[u8]) -> u8
    requires { length name.now ≤ 30 }
    ensures exact { result ≡ slot_international name.now }
    ensures below { result < 72 }
{
    let mut hash = name.len() as u32;
    for c in name {
        hash = (hash * 13 + u32::from(upper_international(*c))) % 2048;
    }
    (hash % 72) as u8
}

/// The byte in upper case by these letters; the byte itself if it is none of them.
pub fn upper_by(letters: Letters, c: u8) -> u8
    ensures { result ≡ upper_by letters c }
{
    match letters {
        Letters::Ascii => upper(c),
        Letters::International => upper_international(c),
    }
}

/// The slot of a name by these letters, 0 to 71: its hash.
pub fn slot_by(letters: Letters, name: &[u8]) -> u8
    requires { length name.now ≤ 30 }
    ensures exact { result ≡ slot_by letters name.now }
    ensures below { result < 72 }
{
    match letters {
        Letters::Ascii => slot(name),
        Letters::International => slot_international(name),
    }
}

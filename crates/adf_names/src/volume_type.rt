// The types of volumes: kinds, and the letters of which case is ignored in names.

ghost use Rattle.std.specs.Prelude.{◌≡◌, ℕ, List, Some};
ghost use Rattle.adf_base.specs.declared.hash.Letters.{Letters};
ghost use Rattle.adf_names.specs.VolumeTypes.{kind_named_by, kind_text_by, letters_of_type, type_number};
ghost use Rattle.adf_names.specs.declared.kind.Kind.{Kind};

use crate::kind::Kind;
use adf_base::Letters;

/// The type of a volume, 0 to 3: the byte behind `DOS` at its start.
pub fn type_number(letters: Letters, kind: Kind) -> u8
    ensures { result ≡ type_number letters kind }
{
    match (letters, kind) {
        (Letters::Ascii, Kind::Ofs) => 0,
        (Letters::Ascii, Kind::Ffs) => 1,
        (Letters::International, Kind::Ofs) => 2,
        (Letters::International, Kind::Ffs) => 3,
    }
}

/// The letters of the names in a volume of this type, 0 to 3.
pub fn letters_of_type(number: u32) -> Letters
    ensures { result ≡ letters_of_type number }
{
    if number < 2 {
        Letters::Ascii
    } else {
        Letters::International
    }
}

/// `ofs` or `ffs`, and `-international` behind it where names have such letters.
pub fn kind_text_by(letters: Letters, kind: Kind) -> &'static str
    ensures { result.now ≡ kind_text_by letters kind }
{
    match (letters, kind) {
        (Letters::Ascii, _) => kind.text(),
        (Letters::International, Kind::Ofs) => "ofs-international",
        (Letters::International, Kind::Ffs) => "ffs-international",
    }
}

/// The kind and the letters that a word of `kind_text_by` names; `None` for any other text.
pub fn kind_named_by(text: &[u8]) -> Option<(Kind, Letters)>
    ensures { result ≡ kind_named_by text.now }
{
    if text == b"ofs".as_slice() {
        Some((Kind::Ofs, Letters::Ascii))
    } else if text == b"ffs".as_slice() {
        Some((Kind::Ffs, Letters::Ascii))
    } else if text == b"ofs-international".as_slice() {
        Some((Kind::Ofs, Letters::International))
    } else if text == b"ffs-international".as_slice() {
        Some((Kind::Ffs, Letters::International))
    } else {
        None
    }
}

/// A word names the kind and the letters that it is the word for, and no others.
pub fn kind_texts_decide()
    ensures word { (text : List ℕ) (kind : Kind) (letters : Letters) → kind_named_by text ≡ Some (kind, letters)
        → text ≡ kind_text_by letters kind }
    ensures named { (kind : Kind) (letters : Letters) → kind_named_by (kind_text_by letters kind) ≡ Some (kind, letters) }
{}

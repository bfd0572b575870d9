// Short texts: the label of a volume and the comment of an entry.

ghost use Rattle.std.specs.Prelude.{◌≡◌, ◌≤◌, ◌↔◌, ◌++◌, length, IsSome, IfSome, IfNone, OnOk, OnErr, List, ℕ};
ghost use Rattle.std.specs.String.{string_bytes};
ghost use Rattle.adf_names.specs.Escapes.{escaped, IsSpelling};

use crate::escapes::{append_escaped, read_escaped};
use adf_base::NoMemory;
use arrayvec::ArrayVec;
use std::marker::Model;

/// A text of at most `MOST` arbitrary bytes.
#[derive(Drop)]
pub struct ShortText<const MOST: usize> {
    text: ArrayVec<u8, MOST>,
}

/// The label of a volume, at most 30 bytes.
pub type Label = ShortText<30>;

/// The comment of an entry, at most 79 bytes.
pub type Comment = ShortText<79>;

impl<const MOST: usize> Model for ShortText<MOST> {
    ghost use Rattle.std.specs.Prelude.{List, ℕ, length, ◌≤◌};

    ghost Value = { List ℕ };

    ghost view = { λ t. t.text.items };

    ghost invariant = { λ t. length t.text.items ≤ MOST };
}

impl<const MOST: usize> ShortText<MOST> {
    /// The text with these bytes; `None` if there are more than `MOST`.
    pub fn new(bytes: &[u8]) -> Option<ShortText<MOST>>
        ensures short { IsSome result ↔ (length bytes.now ≤ MOST) }
        ensures bytes { IfSome result (λ t. t ≡ bytes.now) }
    {
        let text = ArrayVec::<u8, MOST>::try_from(bytes).ok()?;
        Some(ShortText { text })
    }

    /// The text with this escape form; `None` if there is none.
    pub fn read(escaped: &[u8]) -> Option<ShortText<MOST>>
        ensures some { IfSome result (λ t. IsSpelling MOST escaped.now t) }
        ensures none { IfNone result ((bytes : List ℕ) → ¬ IsSpelling MOST escaped.now bytes) }
    {
        let text = read_escaped::<MOST>(escaped)?;
        Some(ShortText { text })
    }

    /// A copy of the text.
    pub(crate) fn copy(&self) -> ShortText<MOST>
        ensures { result ≡ self.now }
    {
        ShortText {
            text: ArrayVec::try_from(self.bytes()).unwrap(),
        }
    }

    /// The bytes of the text.
    pub fn bytes(&self) -> &[u8]
        ensures bytes { result.now ≡ self.now }
        ensures short { length result.now ≤ MOST }
    {
        self.text.as_slice()
    }

    /// Appends the escape form of the text; if memory is refused, `out` is unchanged.
    pub fn write(&self, out: &mut String) -> Result<(), NoMemory>
        ensures ok { OnOk result (string_bytes out.new ≡ string_bytes out.old ++ escaped self.now) }
        ensures err { OnErr result (string_bytes out.new ≡ string_bytes out.old) }
    {
        append_escaped(out, self.bytes())
    }
}

// The kind of a volume.

ghost use Rattle.std.specs.Prelude.{◌≡◌};
ghost use Rattle.adf_names.specs.Kinds.{kind_named, kind_text};

use std::fmt;

/// The kind of a volume.
#[derive(Clone, Copy, Debug, PartialEq, Eq)]
pub enum Kind {
    /// The old file system: a data block holds 488 bytes of a file.
    Ofs,
    /// The fast file system: a data block holds 512 bytes of a file.
    Ffs,
}

impl Kind {
    /// `ofs` or `ffs`.
    pub fn text(self) -> &'static str
        ensures { result.now ≡ kind_text self }
    {
        match self {
            Kind::Ofs => "ofs",
            Kind::Ffs => "ffs",
        }
    }

    /// The kind that `ofs` or `ffs` names; `None` for any other text.
    pub fn named(text: &str) -> Option<Kind>
        ensures { result ≡ kind_named text.now }
    {
        if text == "ofs" {
            Some(Kind::Ofs)
        } else if text == "ffs" {
            Some(Kind::Ffs)
        } else {
            None
        }
    }
}

impl fmt::Display for Kind {
    ghost use Rattle.std.specs.Prelude.{Some};
    ghost use Rattle.adf_names.specs.Kinds.{kind_text};

    ghost output = { λ x. Some (kind_text x) };

    fn fmt<W: fmt::Write>(&self, f: &mut fmt::Formatter<W>) -> fmt::Result {
        f.write_str(self.text())
    }
}

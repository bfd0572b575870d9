// Why an image is refused.

ghost use Rattle.std.specs.Prelude.{◌≡◌, IfNone, IfSome};
ghost use Rattle.adf_blocks.specs.Causes.{cause_number, cause_text};

use std::error::Error;
use std::fmt;

/// What is wrong with an image, or `NoMemory`.
///
/// Within one block, the tests run in ascending order of these numbers.
#[derive(Clone, Copy, Debug, PartialEq, Eq)]
pub enum Cause {
    /// The length is not a multiple of 512, or the number of blocks is not even, or not 4 to 1,048,576; where types 2 and 3 are
    /// accepted too, not 4 to 8,388,608.
    BadSize = 1,
    /// The first three bytes are not `DOS`, or byte 3, the type, is above 5.
    NotDos = 2,
    /// Type 2 or 3: names are compared by another rule.
    International = 3,
    /// Type 4 or 5: directories have cache blocks.
    DirCache = 4,
    /// A pointer is below 2 or not below the number of blocks; reported at the block that holds it.
    OutOfRange = 5,
    /// A block is claimed twice.
    Taken = 6,
    /// The checksum is wrong: the 128 words do not sum to 0 modulo 2^32.
    BadSum = 7,
    /// The primary or secondary type is not one that is allowed here.
    BadType = 8,
    /// The secondary type is that of a soft or hard link: 3, 4 or -4.
    Link = 9,
    /// Word 1 is not the block's own number.
    BadOwnKey = 10,
    /// Word 125 is not the directory's block or, in an extension block, not the file's header.
    BadParent = 11,
    /// The name or label is too long, or the name is empty or has `/` or `:`.
    BadName = 12,
    /// The comment is longer than 79 bytes.
    BadComment = 13,
    /// The name's hash is not the slot whose chain the header is in.
    WrongSlot = 14,
    /// Word 4 of an OFS file header is not its first data block, word 77; not tested for an empty file.
    BadFirst = 15,
    /// An earlier header of the chain has the same name, ignoring case.
    SameName = 16,
    /// Word 3 of the root is not 72, the size of its hash table.
    BadHashSize = 17,
    /// Word 78 of the root, its bitmap flag, is not 0xFFFFFFFF.
    NotValidated = 18,
    /// A file has too few extension blocks for its size.
    ShortFile = 19,
    /// An OFS data block has the wrong header, number, length or successor: words 1 to 4.
    BadData = 20,
    /// A block is marked in use, but no part of the volume owns it.
    LostBlock = 21,
    /// A block is owned, but marked free.
    OwnedFree = 22,
    /// An allocation failed; nothing is known of the image.
    NoMemory = 23,
}

impl Cause {
    /// The number of the cause, 1 to 23.
    pub fn number(self) -> u8
        ensures { result ≡ cause_number self }
    {
        self as u8
    }

    /// The cause with this number; `None` if there is none.
    pub fn numbered(number: u8) -> Option<Cause>
        ensures some { IfSome result (λ c. cause_number c ≡ number) }
        ensures none { IfNone result ((c : Cause) → ¬ (cause_number c ≡ number)) }
    {
        match number {
            1 => Some(Cause::BadSize),
            2 => Some(Cause::NotDos),
            3 => Some(Cause::International),
            4 => Some(Cause::DirCache),
            5 => Some(Cause::OutOfRange),
            6 => Some(Cause::Taken),
            7 => Some(Cause::BadSum),
            8 => Some(Cause::BadType),
            9 => Some(Cause::Link),
            10 => Some(Cause::BadOwnKey),
            11 => Some(Cause::BadParent),
            12 => Some(Cause::BadName),
            13 => Some(Cause::BadComment),
            14 => Some(Cause::WrongSlot),
            15 => Some(Cause::BadFirst),
            16 => Some(Cause::SameName),
            17 => Some(Cause::BadHashSize),
            18 => Some(Cause::NotValidated),
            19 => Some(Cause::ShortFile),
            20 => Some(Cause::BadData),
            21 => Some(Cause::LostBlock),
            22 => Some(Cause::OwnedFree),
            23 => Some(Cause::NoMemory),
            _ => None,
        }
    }

    /// The text of the cause as printed, in lower case.
    pub fn text(self) -> &'static str
        ensures { result.now ≡ cause_text self }
    {
        match self {
            Cause::BadSize => "bad size",
            Cause::NotDos => "not dos",
            Cause::International => "international",
            Cause::DirCache => "directory cache",
            Cause::OutOfRange => "out of range",
            Cause::Taken => "taken",
            Cause::BadSum => "bad sum",
            Cause::BadType => "bad type",
            Cause::Link => "link",
            Cause::BadOwnKey => "bad own key",
            Cause::BadParent => "bad parent",
            Cause::BadName => "bad name",
            Cause::BadComment => "bad comment",
            Cause::WrongSlot => "wrong slot",
            Cause::BadFirst => "bad first",
            Cause::SameName => "same name",
            Cause::BadHashSize => "bad hash size",
            Cause::NotValidated => "not validated",
            Cause::ShortFile => "short file",
            Cause::BadData => "bad data",
            Cause::LostBlock => "lost block",
            Cause::OwnedFree => "owned free",
            Cause::NoMemory => "no memory",
        }
    }
}

impl fmt::Display for Cause {
    ghost use Rattle.std.specs.Prelude.{Some};
    ghost use Rattle.adf_blocks.specs.Causes.{cause_text};

    ghost output = { λ x. Some (cause_text x) };

    fn fmt<W: fmt::Write>(&self, f: &mut fmt::Formatter<W>) -> fmt::Result {
        f.write_str(self.text())
    }
}

impl Error for Cause {}

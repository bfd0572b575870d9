// The types of volumes that a check accepts.

ghost use Rattle.std.specs.Prelude.{◌≡◌};
ghost use Rattle.adf_volume.specs.Types.{is_size_of, letters_for, most_blocks};

use crate::start::letters_in;
use adf_base::Letters;
use adf_blocks::{MOST_BLOCKS, MOST_PLAIN_BLOCKS, is_allowed_size, is_plain_size};

/// The types of volumes that are accepted, and with them the most blocks. Those of directory caches, 4 and 5, are accepted by none.
#[derive(Clone, Copy, Debug, PartialEq, Eq)]
pub enum Types {
    /// Types 0 and 1, whose names are compared by ASCII letters, up to 512 MiB.
    Plain,
    /// Types 0 to 3, up to 4 GiB. The names of types 2 and 3 are compared by international letters, those of Latin-1.
    WithInternational,
}

impl Types {
    /// The letters by which the names of an image are read where these types are accepted.
    pub fn letters_for(self, image: &[u8]) -> Letters
        ensures { result ≡ letters_for self image.now }
    {
        match self {
            Types::Plain => Letters::Ascii,
            Types::WithInternational => letters_in(image),
        }
    }

    /// The most blocks of a volume where these types are accepted.
    pub fn most_blocks(self) -> u32
        ensures { result ≡ most_blocks self }
    {
        match self {
            Types::Plain => MOST_PLAIN_BLOCKS,
            Types::WithInternational => MOST_BLOCKS,
        }
    }

    /// Whether a volume may have this number of blocks where these types are accepted: even, 4 to the most.
    pub fn is_size(self, blocks: u32) -> bool
        ensures { result ≡ is_size_of self blocks }
    {
        match self {
            Types::Plain => is_plain_size(blocks),
            Types::WithInternational => is_allowed_size(blocks),
        }
    }
}

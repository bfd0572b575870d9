// Names in upper case: two entries of a directory may not have one.

use adf_base::{Letters, upper_by};

const MOST_NAME: usize = 30;

/// A directory and the first 30 bytes of a name in upper case.
#[derive(Clone, Copy, Debug, PartialEq, Eq, PartialOrd, Ord)]
pub(crate) struct NameKey {
    directory: u32,
    bytes: [u8; MOST_NAME],
    length: usize,
}

impl NameKey {
    /// The key of a name in a directory, by these letters.
    pub(crate) fn new(directory: u32, name: &[u8], letters: Letters) -> NameKey {
        let mut bytes = [0u8; MOST_NAME];
        for (upper, c) in bytes.iter_mut().zip(name) {
            *upper = upper_by(letters, *c);
        }
        NameKey {
            directory,
            bytes,
            length: name.len(),
        }
    }
}

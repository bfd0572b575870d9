// A file that was read.

ghost use Rattle.std.specs.Prelude.{◌≡◌};

use std::marker::Model;

/// The bytes of a file.
#[derive(Drop)]
pub struct ReadFile {
    bytes: Vec<u8>,
}

impl Model for ReadFile {
    ghost use Rattle.std.specs.Prelude.{List, ℕ};

    ghost Value = { List ℕ };

    ghost view = { λ f. f.bytes.items };
}

impl ReadFile {
    /// The file with these bytes.
    pub fn new(bytes: Vec<u8>) -> ReadFile
        ensures { result ≡ bytes.items }
    {
        ReadFile { bytes }
    }

    /// Its bytes.
    pub fn bytes(&self) -> &[u8]
        ensures { result.now ≡ self.now }
    {
        self.bytes.as_slice()
    }
}

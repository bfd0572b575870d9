// One reading of a disk.

ghost use Rattle.std.specs.Prelude.{◌≡◌, ◌+◌, ◌*◌, ◌≤◌, length};
ghost use Rattle.adf_base.specs.Words.{block};

use adf_base::BLOCK_LEN;
use std::marker::Model;

/// One reading of a disk: an image.
#[derive(Drop)]
pub struct Reading<'a> {
    bytes: &'a [u8],
}

impl<'a> Model for Reading<'a> {
    ghost use Rattle.std.specs.Prelude.{List, ℕ};

    ghost Value = { List ℕ };

    ghost view = { λ r. r.bytes.now };
}

impl<'a> Reading<'a> {
    /// The reading with these bytes.
    pub fn new(bytes: &'a [u8]) -> Reading<'a>
        ensures { result ≡ bytes.entry.now }
    {
        Reading { bytes }
    }

    /// Its bytes.
    pub fn bytes(&self) -> &[u8]
        ensures { result.now ≡ self.now }
    {
        self.bytes
    }

    /// The bytes of block `b`.
    #[tactic(auto, unfolding(adf_base::specs::Words::block))]
    pub fn version(&self, b: u32) -> &[u8]
        requires { b * 512 + 512 ≤ length self.now }
        ensures { result.now ≡ block self.now b }
    {
        let start = b as usize * BLOCK_LEN;
        &self.bytes[start..start + BLOCK_LEN]
    }
}

// Entries of a tree.

ghost use Rattle.std.specs.Prelude.{◌≡◌};

use adf_names::{Meta, Name};
use std::marker::Model;

/// The number of an entry, counted from 1; 0 is the root.
#[derive(Clone, Copy, Debug, PartialEq, Eq, PartialOrd, Ord)]
pub struct Node(pub usize);

impl Model for Node {
    ghost use Rattle.std.specs.Prelude.{ℕ};

    ghost Value = { ℕ };

    ghost view = { λ n. n.0 };

    ghost inverse = { λ n. record { 0 = n } };
}

/// The bytes of a file.
#[derive(Drop)]
pub struct Bytes {
    bytes: Vec<u8>,
}

impl Model for Bytes {
    ghost use Rattle.std.specs.Prelude.{List, ℕ};

    ghost Value = { List ℕ };

    ghost view = { λ b. b.bytes.items };
}

/// What an entry is: a directory, or a file with its bytes.
#[derive(Drop)]
pub enum Body {
    Dir,
    File(Bytes),
}

/// An entry of a tree.
#[derive(Drop)]
pub struct Entry {
    pub parent: Node,
    pub name: Name,
    pub meta: Meta,
    pub body: Body,
}

impl Bytes {
    /// Wraps these bytes.
    pub fn new(bytes: Vec<u8>) -> Bytes
        ensures { result ≡ bytes.items }
    {
        Bytes { bytes }
    }

    /// The bytes.
    pub fn bytes(&self) -> &[u8]
        ensures { result.now ≡ self.now }
    {
        self.bytes.as_slice()
    }
}

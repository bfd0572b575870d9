// The rows of entries.

ghost use Rattle.std.specs.Prelude.{◌≡◌};
ghost use Rattle.adf_volume.specs.Rows.{row_body, row_in};

use adf_blocks::{Head, HeadBody};
use adf_tree::{Meta, Name, Node};

/// An entry of a volume, without its bytes.
#[derive(Drop)]
pub struct Row {
    pub parent: Node,
    pub name: Name,
    pub meta: Meta,
    pub body: RowBody,
}

/// A directory, or a file with its size in bytes.
#[derive(Clone, Copy, Debug, PartialEq, Eq)]
pub enum RowBody {
    Dir,
    File { size: u32 },
}

impl RowBody {
    /// The body of a row, from the body of a header.
    pub fn of(body: HeadBody) -> RowBody
        ensures { result ≡ row_body body }
    {
        match body {
            HeadBody::Dir => RowBody::Dir,
            HeadBody::File { size, .. } => RowBody::File { size },
        }
    }
}

/// The row of an entry, from its header.
pub fn row_of(parent: Node, head: &Head<'_>) -> Row
    ensures { result ≡ row_in parent head.now }
{
    Row {
        parent,
        name: head.name(),
        meta: head.meta(),
        body: RowBody::of(head.body()),
    }
}

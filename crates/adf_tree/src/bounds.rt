// The bounds of the fields of a tree.

ghost use Rattle.adf_tree.specs.Bounds.{IsBoundedEntry, IsData};

use crate::entry::{Body, Entry};

// A file has fewer than 2^63 bytes.
fn body_bounds(body: &Body)
    ensures { IsData body.now }
{
    if let Body::File(bytes) = body {
        let _count = bytes.bytes().len();
    }
}

/// The fields of an entry are within their bounds.
pub fn entry_bounds(entry: &Entry)
    ensures { IsBoundedEntry entry.now }
{
    let _name = entry.name.bytes();
    entry.meta.bounds();
    body_bounds(&entry.body);
}

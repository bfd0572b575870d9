// The owners of blocks.

use adf_tree::Node;

/// The part of a volume that a block belongs to.
///
/// Pages and bitmap extension blocks are numbered from 0; a file's extension blocks and data blocks from 1.
#[derive(Clone, Copy, Debug, PartialEq, Eq)]
pub enum Owner {
    /// A block, from 2 on, that no part owns.
    Free,
    /// Block 0 or 1.
    Boot,
    /// The root.
    Root,
    /// A page of the bitmap.
    Page(u32),
    /// A bitmap extension block.
    MapExt(u32),
    /// The header of an entry.
    Head(Node),
    /// An extension block of a file.
    Ext(Node, u32),
    /// A data block of a file.
    Data(Node, u32),
}

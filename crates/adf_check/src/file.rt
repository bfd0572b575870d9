// Files as their headers say.

use adf_tree::Node;

/// A file: its node, its header's block, its size in bytes, and its first extension block or 0.
#[derive(Clone, Copy)]
pub struct File {
    pub node: Node,
    pub head: u32,
    pub size: u32,
    pub ext: u32,
}

// What a volume has in all.

use adf_tree::Kind;

/// The counts of a volume.
#[derive(Clone, Copy, Debug, PartialEq, Eq)]
pub struct Counts {
    pub kind: Kind,
    /// All blocks, including the two boot blocks.
    pub blocks: u32,
    /// Blocks that parts of the volume own, without the two boot blocks.
    pub used: u32,
    /// Blocks from 2 on that no part owns.
    pub free: u32,
    pub dirs: usize,
    pub files: usize,
}

// Where the blocks of nodes begin.

/// The positions of a node's first blocks in the lists of all extension blocks and of all data blocks.
#[derive(Clone, Copy)]
pub struct NodeStart {
    pub exts: u32,
    pub datas: u32,
}

// The headers of a walk as they are kept.

/// The record kept of a header: the number of its entry's parent, and its block.
#[derive(Clone, Copy)]
pub struct KeptHeader {
    pub parent: u32,
    pub head: u32,
}

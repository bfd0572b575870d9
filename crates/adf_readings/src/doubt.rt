// What is told of a block.

/// Why a block is told.
#[derive(Clone, Copy, Debug, PartialEq, Eq)]
pub enum Why {
    /// So many readings have another version than the one that is taken.
    Differing(u32),
    /// No reading has it.
    Unread,
}

/// A block that is left to chance, or that no reading has.
#[derive(Clone, Copy, Debug, PartialEq, Eq)]
pub struct Doubt {
    pub block: u32,
    pub why: Why,
}

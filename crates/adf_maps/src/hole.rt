// What was not read.

/// Bytes that were not read: from `start` on, up to `end`.
#[derive(Clone, Copy, Debug, PartialEq, Eq)]
pub struct Hole {
    pub start: u64,
    pub end: u64,
}

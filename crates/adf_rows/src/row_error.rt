// What can be wrong with a row.

use std::alloc::{AllocError, AllocFailed};

/// What is wrong with a row, but for another answer than the one that is wanted.
#[derive(Clone, Copy)]
pub enum RowError {
    /// The line has no form that may stand there.
    Unread,
    /// No image has the name.
    NoImage,
    /// The image has no such place.
    NoPlace,
    /// The row has no run, or no status.
    NoRun,
    /// The file has no row.
    NoRow,
    /// A device failed, however many of its calls did not.
    NoEnd,
    /// The image, or the manifest, is refused.
    Refused,
    NoMemory,
}

impl RowError {
    pub fn text(self) -> &'static str {
        match self {
            RowError::Unread => "no line of a row",
            RowError::NoImage => "no image of this name",
            RowError::NoPlace => "no such place in the image",
            RowError::NoRun => "no run or no status",
            RowError::NoRow => "no row",
            RowError::NoEnd => "a device that always fails",
            RowError::Refused => "an image or a manifest that is refused",
            RowError::NoMemory => "no memory",
        }
    }
}

impl From<AllocError> for RowError {
    fn from(_e: AllocError) -> RowError {
        RowError::NoMemory
    }
}

impl<T: Drop> From<AllocFailed<T>> for RowError {
    fn from(_e: AllocFailed<T>) -> RowError {
        RowError::NoMemory
    }
}

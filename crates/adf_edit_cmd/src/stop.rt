// Why no image is written.

use adf_edits::{EditFault, TreeFault};
use adf_manifest::ManifestFault;
use adf_volume::Fault;
use std::fmt;

/// Why no image is written.
#[derive(Debug, Drop)]
pub enum Stop {
    /// The script's line of this number says no edit, or is one too many.
    BadLine(usize),
    /// Behind the script there are fewer bytes than its files have.
    Short { need: u64, have: u64 },
    /// The image is refused.
    Image(Fault),
    /// The manifest in its place is refused.
    Manifest(ManifestFault),
    /// An entry of the image is deeper than `adf_edits::MOST_DEPTH` names.
    TooDeep,
    /// The edit of the line of this number cannot be applied.
    Line(usize, EditFault),
    /// By the letters that the line of this number asks for, an addition has no room in the tree of those before it.
    NoRoom(usize, TreeFault),
    /// The tree needs more blocks than there are.
    Full { need: u64, have: u64 },
    /// The volume has not enough free blocks for the caches of its directories.
    NoCacheRoom,
    /// An allocation failed.
    NoMemory,
}

impl fmt::Display for Stop {
    fn fmt<W: fmt::Write>(&self, f: &mut fmt::Formatter<W>) -> fmt::Result {
        match self {
            Stop::BadLine(line) => write!(f, "{line}: bad line"),
            Stop::Short { need, have } => {
                write!(f, "files: need {need} bytes behind the script, have {have}")
            }
            Stop::Image(fault) => write!(f, "image behind the files: {fault}"),
            Stop::Manifest(fault) => write!(f, "manifest: {fault}"),
            Stop::TooDeep => f.write_str("image behind the files: too deep: 255 names at most"),
            Stop::Line(line, fault) => write!(f, "{line}: {fault}"),
            Stop::NoRoom(line, fault) => write!(f, "{line}: by these letters: {fault}"),
            Stop::Full { need, have } => write!(f, "full: need {need}, have {have}"),
            Stop::NoCacheRoom => f.write_str("no room for directory caches"),
            Stop::NoMemory => f.write_str("no memory"),
        }
    }
}

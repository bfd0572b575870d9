// Findings.

use adf_blocks::Cause;
use adf_volume::Part;

/// A finding: the part that it concerns, if any; the block reported; and the cause.
#[derive(Clone, Copy, Debug, PartialEq, Eq)]
pub struct Finding {
    pub part: Option<Part>,
    pub block: u32,
    pub cause: Cause,
}

// Why readings are not merged.

ghost use Rattle.std.specs.Prelude.{◌≡◌, ◌≤◌, All, IfOk, false, is_some, length, not, true};
ghost use Rattle.adf_merge_cmd.specs.Sizes.{has_reading_size};
ghost use Rattle.adf_merge_cmd.specs.Answers.{differ_in_type, is_alike};

use crate::read_file::ReadFile;
use crate::sizes::{has_dos, has_reading_size};
use adf_names::push_escaped;
use std::alloc::{AllocError, Global};

/// Why a reading is not merged with the first one.
#[derive(Clone, Copy, Debug, PartialEq, Eq)]
pub enum ReadingRefusal {
    /// It is not whole blocks, or has fewer than four, or more than the largest volume.
    BadSize,
    OtherSize,
    OtherType,
}

impl ReadingRefusal {
    // What is said behind the name.
    fn text(self) -> &'static str {
        match self {
            ReadingRefusal::BadSize => ": bad size\n",
            ReadingRefusal::OtherSize => ": another size than the first reading\n",
            ReadingRefusal::OtherType => ": another type than the first reading\n",
        }
    }
}

// Whether a reading has no size of an image.
fn has_bad_size(image: &[u8]) -> bool
    ensures exact { result ≡ not (has_reading_size image.now) }
    ensures long { result ≡ false → 4 ≤ length image.now }
{
    !has_reading_size(image)
}

// Whether both begin with `DOS`, and their types differ.
fn differ_in_type(first: &[u8], other: &[u8]) -> bool
    requires first { 4 ≤ length first.now }
    requires other { 4 ≤ length other.now }
    ensures { result ≡ differ_in_type first.now other.now }
{
    has_dos(first) && has_dos(other) && other[3] != first[3]
}

// Why a reading is not merged with the first one.
fn reading_refusal(first: &[u8], other: &[u8]) -> Option<ReadingRefusal>
    ensures { is_some result ≡ not (is_alike first.now other.now) }
{
    if has_bad_size(other) {
        Some(ReadingRefusal::BadSize)
    } else if other.len() != first.len() {
        Some(ReadingRefusal::OtherSize)
    } else if differ_in_type(first, other) {
        Some(ReadingRefusal::OtherType)
    } else {
        None
    }
}

// The line of a reading that is refused.
fn refusal_line(alloc: Global, name: &str, why: ReadingRefusal) -> Result<Vec<u8>, AllocError> {
    let mut line = Vec::new(alloc);
    push_escaped(&mut line, name.as_bytes())?;
    line.extend_from_slice(why.text().as_bytes())?;
    Ok(line)
}

/// The line of the first reading that is refused, if one is.
pub fn first_refused(
    alloc: Global,
    first: &[u8],
    names: &[&str],
    readings: &[ReadFile],
) -> Result<Option<Vec<u8>>, AllocError>
    requires { length names.now ≡ length readings.now }
    ensures taken { IfOk result (λ line. is_some line ≡ false → All (λ r. is_alike first.now r ≡ true) readings.now) }
    ensures refused { IfOk result (λ line. is_some line ≡ true → ¬ All (λ r. is_alike first.now r ≡ true) readings.now) }
{
    for i in 0..readings.len() {
        if let Some(why) = reading_refusal(first, readings[i].bytes()) {
            return Ok(Some(refusal_line(alloc, names[i], why)?));
        }
    }
    Ok(None)
}

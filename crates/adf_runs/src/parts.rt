// Reads that hold a part of an input, and pass over the rest.

ghost use Rattle.std.specs.Prelude.{◌≡◌, ◌+◌, ◌<◌, ◌≤◌, ◌^◌, false, vec_len, IfOk, IfSome};
ghost use Rattle.adf_runs.specs.Streams.{IsExcerpt, TakesAtMost, TakesFirst, is_device};

use crate::devices::Source;
use crate::streams::{StreamFault, read_all};
use std::alloc::Global;

/// Reads so many bytes of an input, or all if it has fewer. `Device` if the reader failed, `NoMemory` if an allocation failed.
pub fn read_first<R: Source>(
    alloc: Global,
    input: &mut R,
    count: usize,
) -> Result<Vec<u8>, StreamFault>
    requires limited { count ≤ 2 ^ 63 }
    requires works { R.has_failed input.old ≡ false }
    ensures first { IfOk result (λ bytes.
        TakesFirst count (R.left input.old) (R.left input.new) bytes.items) }
    ensures within { IfOk result (λ bytes. vec_len bytes ≤ count) }
    ensures at_most { TakesAtMost count (R.left input.old) (R.left input.new) }
    ensures failed { R.has_failed input.new ≡ is_device result }
{
    if count == 0 {
        return Ok(Vec::new(alloc));
    }
    read_all(alloc, input, count - 1)
}

/// A part of an input.
#[derive(Drop)]
pub struct Excerpt {
    pub bytes: Vec<u8>,
    /// How many bytes the whole input has.
    pub len: usize,
}

/// Reads the bytes between two places of an input, as far as it has them, and passes over the others; at most one byte more than
/// the limit, so that a longer input is seen to be longer. `Device` if the reader failed, `NoMemory` if an allocation failed.
pub fn read_excerpt<R: Source>(
    alloc: Global,
    input: &mut R,
    from: usize,
    to: usize,
    limit: usize,
) -> Result<Excerpt, StreamFault>
    requires order { from ≤ to }
    requires inside { to ≤ limit }
    requires limited { limit < 2 ^ 63 }
    requires works { R.has_failed input.old ≡ false }
    ensures part { IfOk result (λ part. IfSome (R.left input.old)
        (λ all. IsExcerpt from to (limit + 1) all part.bytes.items part.len)) }
    ensures within { IfOk result (λ part. part.len ≤ limit + 1) }
    ensures at_most { TakesAtMost (limit + 1) (R.left input.old) (R.left input.new) }
    ensures failed { R.has_failed input.new ≡ is_device result }
{
    let before = input.skip(from)?;
    let bytes = read_first(alloc, input, to - from)?;
    let after = input.skip(limit + 1 - to)?;
    let len = before + bytes.len() + after;
    Ok(Excerpt { bytes, len })
}

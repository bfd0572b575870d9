// Verdicts on images.

ghost use Rattle.std.specs.Prelude.{◌≡◌, ◌≢◌, ◌+◌, false, IfOk, string_bytes, true};
ghost use Rattle.adf_blocks.specs.declared.cause.Cause.TheVariants.{NoMemory};
ghost use Rattle.adf_runs.specs.Streams.{TakesAtMost, is_device};
ghost use Rattle.adf_verdicts.specs.Verdicts.{IsOkLine, IsVerdict, IsVerdictOn, most_image_bytes};
ghost use Rattle.adf_texts.specs.Lines.{fault_line};

use crate::cached::{takes_caches, verdict_on_cached};
use adf_base::BLOCK_LEN;
use adf_blocks::Cause;
use adf_check::{Checked, Fault, check_types};
use adf_runs::{Source, StreamFault, read_into};
use adf_texts::{push_counts_by, refused_line};
use adf_volume::Types;
use std::alloc::{AllocError, Global};

/// The verdict on an image.
#[derive(Drop)]
pub struct Verdict {
    /// Whether the image is that of a valid volume.
    pub sound: bool,
    /// The line of it, with its line feed: the numbers of the volume, or the first fault.
    pub line: String,
}

// The verdict on an accepted image.
fn accepted(alloc: Global, volume: &Checked<'_>) -> Result<Verdict, AllocError>
    ensures sound { IfOk result (λ v. v.sound ≡ true) }
    ensures line { IfOk result (λ v. IsOkLine (string_bytes v.line)) }
{
    let mut line = String::new(alloc);
    push_counts_by(&mut line, volume.letters(), &volume.counts())?;
    Ok(Verdict { sound: true, line })
}

/// The verdict on an image with this first fault. `AllocError` if an allocation failed, or if that is the fault.
pub fn refused(alloc: Global, fault: Fault) -> Result<Verdict, AllocError>
    ensures refused { IfOk result (λ v. v.sound ≡ false) }
    ensures told { IfOk result (λ _. fault.cause ≢ NoMemory) }
    ensures line { IfOk result (λ v. string_bytes v.line ≡ fault_line fault) }
{
    if let Cause::NoMemory = fault.cause {
        return Err(AllocError);
    }
    let line = refused_line(alloc, fault)?;
    Ok(Verdict { sound: false, line })
}

/// The verdict on an image of one of these types, and with types 2 and 3 on one with directory caches. `AllocError` if an
/// allocation failed; it says nothing about the image.
pub fn verdict_of(alloc: Global, types: Types, image: &[u8]) -> Result<Verdict, AllocError>
    ensures { IfOk result (λ v. IsVerdict types image.now v.sound (string_bytes v.line)) }
{
    if takes_caches(types, image) {
        return verdict_on_cached(alloc, image);
    }
    match check_types(alloc, types, image) {
        Ok(volume) => accepted(alloc, &volume),
        Err(fault) => refused(alloc, fault),
    }
}

// The most bytes of an image where these types are accepted.
fn most_image_bytes(types: Types) -> usize
    ensures { result ≡ most_image_bytes types }
{
    types.most_blocks() as usize * BLOCK_LEN
}

/// Reads an image into a buffer, which may be that of an earlier image, and gives the verdict on it by these types. `Device` if
/// the reader failed, `NoMemory` if an allocation failed.
pub fn verdict_of_input<R: Source>(
    alloc: Global,
    types: Types,
    input: &mut R,
    buffer: &mut Vec<u8>,
) -> Result<Verdict, StreamFault>
    requires { R.has_failed input.old ≡ false }
    ensures verdict { IfOk result (λ v. IsVerdictOn types (R.left input.old) v.sound (string_bytes v.line)) }
    ensures failed { R.has_failed input.new ≡ is_device result }
    ensures reliable { R.may_fail input.old ≡ false → R.has_failed input.new ≡ false }
    ensures at_most { TakesAtMost (most_image_bytes types + 1)
        (R.left input.old) (R.left input.new) }
{
    let count = read_into(input, most_image_bytes(types), buffer)?;
    let verdict = verdict_of(alloc, types, &buffer[..count])?;
    Ok(verdict)
}

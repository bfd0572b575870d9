// Whole reads and writes over devices.

ghost use Rattle.std.specs.Prelude.{◌≡◌, [], ◌+◌, ◌++◌, ◌<◌, ◌≤◌, ◌^◌, false, is_err, IfErr, IfOk, IsOk, List, OnOk, OnErr};
ghost use Rattle.std.specs.Prelude.{Option, length, take, vec_len, ℕ};
ghost use Rattle.std.specs.Io.KnownBytes.{Appends, Consumes, IsAtEnd, Keeps};
ghost use Rattle.adf_runs.specs.Streams.{AppendsPart, AreFirst, KeepsPending, Says, TakesAtMost, is_device};

use crate::devices::{Failed, Sink, Source};
use std::alloc::{AllocError, Global};
use std::error::Error;
use std::fmt;

/// Why a whole read or write stopped.
#[derive(Clone, Copy, Debug, PartialEq, Eq)]
pub enum StreamFault {
    /// The device failed.
    Device,
    /// Memory was refused.
    NoMemory,
}

impl fmt::Display for StreamFault {
    ghost use Rattle.std.specs.Prelude.{Some};
    ghost use Rattle.adf_runs.specs.Streams.{stream_fault_text};

    ghost output = { λ x. Some (stream_fault_text x) };

    fn fmt<W: fmt::Write>(&self, f: &mut fmt::Formatter<W>) -> fmt::Result {
        f.write_str(match self {
            StreamFault::Device => "device failed",
            StreamFault::NoMemory => "no memory",
        })
    }
}

impl Error for StreamFault {}

impl From<Failed> for StreamFault {
    ghost use Rattle.adf_runs.specs.declared.streams.StreamFault.TheVariants.{Device};

    ghost from_gives = { λ _ e. e ≡ Device };

    fn from(_e: Failed) -> StreamFault {
        StreamFault::Device
    }
}

impl From<AllocError> for StreamFault {
    ghost use Rattle.adf_runs.specs.declared.streams.StreamFault.TheVariants.{NoMemory};

    ghost from_gives = { λ _ e. e ≡ NoMemory };

    fn from(_e: AllocError) -> StreamFault {
        StreamFault::NoMemory
    }
}

/// Bytes that a buffer grows by, and of the text that waits to be written.
pub const CHUNK: usize = 65536;

/// Bytes that an input has room for from the start, a floppy's and more; what is not filled costs nothing.
const FIRST_ROOM: usize = 1 << 20;

// Room for an input; where that is refused, the input makes its own as it comes.
fn room_for_input(alloc: Global) -> Vec<u8>
    ensures { result.items ≡ [] }
{
    match Vec::with_capacity(alloc, FIRST_ROOM) {
        Ok(room) => room,
        Err(_) => Vec::new(alloc),
    }
}

// Grows a buffer that has no room behind its first bytes.
fn make_room(buffer: &mut Vec<u8>, filled: usize) -> Result<(), AllocError>
    requires { filled ≤ vec_len buffer.old }
    ensures kept { take filled buffer.new.items ≡ take filled buffer.old.items }
    ensures within { filled ≤ vec_len buffer.new }
    ensures room { OnOk result (filled < vec_len buffer.new) }
    ensures larger { vec_len buffer.old ≤ vec_len buffer.new }
    ensures enough { filled < vec_len buffer.old → IsOk result }
{
    if filled < buffer.len() {
        return Ok(());
    }
    buffer.resize(filled + CHUNK, 0)
}

// Reads once into a part of a buffer, behind what was read before.
fn read_behind<R: Source>(
    input: &mut R,
    filled: usize,
    end: usize,
    buffer: &mut [u8],
) -> Result<usize, Failed>
    requires room { filled < end }
    requires inside { end ≤ length buffer.old }
    requires works { R.has_failed input.old ≡ false }
    ensures bytes { IfOk result (λ n. (start : Option (List ℕ))
        → Consumes start (R.left input.old) (take filled buffer.old)
        → Consumes start (R.left input.new) (take (filled + n) buffer.new)) }
    ensures within { IfOk result (λ n. filled + n ≤ end) }
    ensures end { IfOk result (λ n. n ≡ 0 → IsAtEnd (R.left input.new)) }
    ensures kept { OnErr result (Keeps (R.left input.old) (R.left input.new)) }
    ensures len { length buffer.new ≡ length buffer.old }
    ensures failed { R.has_failed input.new ≡ is_err result }
    ensures reliable { R.may_fail input.old ≡ false
        → (R.may_fail input.new ≡ false) × (is_err result ≡ false) }
{
    match input.read(&mut buffer[filled..end]) {
        Ok(count) => Ok(count),
        Err(e) => Err(e),
    }
}

/// Reads to the end into the front of a buffer, and at most one byte more than the limit, so that a
/// longer input is seen to be longer; returns how many bytes. The buffer grows if it is full, and
/// never shrinks. `Device` if the reader failed, `NoMemory` if an allocation failed.
pub fn read_into<R: Source>(
    input: &mut R,
    limit: usize,
    buffer: &mut Vec<u8>,
) -> Result<usize, StreamFault>
    requires limited { limit < 2 ^ 63 }
    requires works { R.has_failed input.old ≡ false }
    ensures all { IfOk result (λ n.
        AreFirst (limit + 1) (R.left input.old) (take n buffer.new.items)) }
    ensures taken { IfOk result (λ n.
        Consumes (R.left input.old) (R.left input.new) (take n buffer.new.items)) }
    ensures within { IfOk result (λ n. n ≤ vec_len buffer.new) }
    ensures few { IfOk result (λ n. n ≤ limit + 1) }
    ensures at_most { TakesAtMost (limit + 1) (R.left input.old) (R.left input.new) }
    ensures failed { R.has_failed input.new ≡ is_device result }
    ensures reliable { R.may_fail input.old ≡ false → R.has_failed input.new ≡ false }

    // The buffer never shrinks, and one with room for a byte more than the limit wants no memory.
    ensures larger { vec_len buffer.old ≤ vec_len buffer.new }
    ensures enough { limit < vec_len buffer.old
        → IfErr result (λ fault. fault ≡ StreamFault.Device) }
{
    let mut filled = 0usize;
    while filled <= limit {
        make_room(buffer, filled)?;
        let end = buffer.len().min(limit + 1);
        let count = read_behind(input, filled, end, buffer)?;
        if count == 0 {
            return Ok(filled);
        }
        filled += count;
    }
    Ok(filled)
}

/// Reads to the end, and at most one byte more than the limit, so that a longer input is seen to be
/// longer. `Device` if the reader failed, `NoMemory` if an allocation failed.
pub fn read_all<R: Source>(
    alloc: Global,
    input: &mut R,
    limit: usize,
) -> Result<Vec<u8>, StreamFault>
    requires limited { limit < 2 ^ 63 }
    requires works { R.has_failed input.old ≡ false }
    ensures all { IfOk result (λ all. AreFirst (limit + 1) (R.left input.old) all.items) }
    ensures taken { IfOk result (λ all.
        Consumes (R.left input.old) (R.left input.new) all.items) }
    ensures few { IfOk result (λ all. vec_len all ≤ limit + 1) }
    ensures at_most { TakesAtMost (limit + 1) (R.left input.old) (R.left input.new) }
    ensures failed { R.has_failed input.new ≡ is_device result }
{
    let mut all = room_for_input(alloc);
    let count = read_into(input, limit, &mut all)?;
    all.truncate(count);
    Ok(all)
}

/// Writes all the bytes. `Failed` if the writer failed or wrote 0 of some bytes; then a front part
/// of them is written, but not all.
pub fn write_all<W: Sink>(output: &mut W, bytes: &[u8]) -> Result<(), Failed>
    requires { W.has_failed output.old ≡ false }
    ensures ok { OnOk result (Appends (W.held output.old) (W.held output.new) bytes.now) }
    ensures err { OnErr result (AppendsPart (W.has_failed output.new)
        (W.held output.old) (W.held output.new) bytes.now) }
    ensures failed { W.has_failed output.new ≡ is_err result }
{
    let mut at = 0usize;
    while at < bytes.len() {
        match output.write(&bytes[at..]) {
            Ok(count) => {
                if count == 0 {
                    return Err(Failed);
                }
                at += count;
            }
            Err(_) => return Err(Failed),
        }
    }
    Ok(())
}

/// Writes all bytes of two texts, one after the other. `Failed` if the writer failed or wrote 0 of some bytes;
/// then a front part of them is written, but not all.
pub fn write_both<W: Sink>(output: &mut W, first: &[u8], second: &[u8]) -> Result<(), Failed>
    requires { W.has_failed output.old ≡ false }
    ensures ok { OnOk result (Appends (W.held output.old) (W.held output.new) (first.now ++ second.now)) }
    ensures err { OnErr result (AppendsPart (W.has_failed output.new)
        (W.held output.old) (W.held output.new) (first.now ++ second.now)) }
    ensures failed { W.has_failed output.new ≡ is_err result }
{
    match write_all(output, first) {
        Ok(()) => write_all(output, second),
        Err(e) => Err(e),
    }
}

/// Writes a text, and ignores a failure.
pub fn say<E: Sink>(errors: &mut E, text: &[u8])
    requires { E.has_failed errors.old ≡ false }
    ensures { Says (E.has_failed errors.new) (E.held errors.old) (E.held errors.new) text.now }
{
    let _ = write_all(errors, text);
}

/// Writes the text that waits once it is long, from 64 KiB on; then none waits. `Failed` where the writer
/// failed or took 0 of some bytes; then a front part of the text is written, but not all.
pub fn flush_long<W: Sink>(output: &mut W, text: &mut Vec<u8>) -> Result<(), Failed>
    requires { W.has_failed output.old ≡ false }
    ensures ok { OnOk result (KeepsPending
        (W.held output.old) text.old.items (W.held output.new) text.new.items) }
    ensures err { OnErr result (AppendsPart (W.has_failed output.new)
        (W.held output.old) (W.held output.new) text.old.items) }
    ensures failed { W.has_failed output.new ≡ is_err result }

    // Fewer bytes wait than make a long text.
    ensures short { OnOk result (vec_len text.new < CHUNK) }
{
    if text.len() < CHUNK {
        return Ok(());
    }
    match write_all(output, text) {
        Ok(()) => {
            text.clear();
            Ok(())
        }
        Err(e) => Err(e),
    }
}

// What is held of a disk while it is read.

ghost use Rattle.std.specs.Prelude.{◌≡◌, ◌<◌, ◌≤◌, ◌+◌, ◌*◌, ◌-◌, ◌++◌, [], ℕ, false, All, IfOk, List, OnOk, Option, Some, drop};
ghost use Rattle.std.specs.Prelude.{is_err, length, take, vec_len};
ghost use Rattle.std.specs.{List.Sorted.IsNonDecreasingBy, Io.KnownBytes.Consumes, Io.KnownBytes.IsAtEnd};
ghost use Rattle.adf_disk_cmd.specs.HeldChecks.{BeginsFrom, IsStretch, IsWithin, first_of_place};
ghost use Rattle.adf_partitions.specs.Places.{end_of};
ghost use Rattle.adf_runs.specs.Streams.{TakesAtMost, is_device};

use crate::work::MOST_DISK_BYTES;
use adf_partitions::Place;
use adf_runs::{Failed, Source, StreamFault};
use std::alloc::{AllocError, Global};

/// The most bytes that are held before the volume that is read: so what is held is moved once for as many.
const MOST_BEFORE: usize = 1 << 25;

/// The bytes that are read at once.
pub const PIECE: usize = 65536;

/// What is held of a disk: its bytes from one on, up to the place that the input has reached.
#[derive(Drop)]
pub struct Stretch {
    pub begin: usize,
    pub bytes: Vec<u8>,
}

/// The tables from the first of these places on.
pub fn first_stretch(alloc: Global, tables: &[u8], places: &[Place]) -> Result<Stretch, AllocError>
    requires order { IsNonDecreasingBy first_of_place places.now }
    requires within { All IsWithin places.now }
    ensures bytes { IfOk result (λ s. s.bytes.items ≡ drop s.begin tables.now) }
    ensures inside { IfOk result (λ s. s.begin ≤ length tables.now) }
    ensures begun { IfOk result (λ s. All (BeginsFrom s.begin) places.now) }
{
    let begin = match places.first() {
        Some(place) => (place.first as usize * 512).min(tables.len()),
        None => tables.len(),
    };
    let bytes = Vec::from_slice(alloc, &tables[begin..])?;
    Ok(Stretch { begin, bytes })
}

// Reads so many bytes behind those that are held, or all where the input has fewer.
fn read_behind<R: Source>(
    input: &mut R,
    count: usize,
    piece: &mut [u8],
    bytes: &mut Vec<u8>,
) -> Result<(), StreamFault>
    requires room { 0 < length piece.old }
    requires works { R.has_failed input.old ≡ false }
    ensures taken { OnOk result ((more : List ℕ) × (bytes.new.items ≡ bytes.old.items ++ more)
        × (length more ≤ count) × Consumes (R.left input.old) (R.left input.new) more) }
    ensures end { OnOk result (vec_len bytes.new < vec_len bytes.old + count
        → IsAtEnd (R.left input.new)) }
    ensures at_most { TakesAtMost count (R.left input.old) (R.left input.new) }
    ensures failed { R.has_failed input.new ≡ is_device result }
{
    let mut done = 0usize;
    while done < count {
        let end = piece.len().min(count - done);
        let got = input.read(&mut piece[..end])?;
        if got == 0 {
            return Ok(());
        }
        bytes.extend_from_slice(&piece[..got])?;
        done += got;
    }
    Ok(())
}

// Removes so many bytes from the front.
fn remove_front(bytes: &mut Vec<u8>, count: usize)
    requires { count ≤ vec_len bytes.old }
    ensures { bytes.new.items ≡ drop count bytes.old.items }
{
    let len = bytes.len();
    bytes.as_mut_slice().copy_within(count..len, 0);
    bytes.truncate(len - count);
}

impl Stretch {
    /// The byte of the disk after those that are held.
    pub fn end(&self) -> usize
        requires { self.now.begin + vec_len self.now.bytes ≤ MOST_DISK_BYTES }
        ensures { result ≡ self.now.begin + vec_len self.now.bytes }
    {
        self.begin + self.bytes.len()
    }

    // Lets go what is held, and passes over the input up to a byte of the disk.
    fn pass_to<R: Source>(&mut self, input: &mut R, first: usize) -> Result<(), Failed>
        requires works { R.has_failed input.old ≡ false }
        requires behind { self.old.begin + vec_len self.old.bytes ≤ first }
        requires few { first ≤ MOST_DISK_BYTES }
        ensures stretch { OnOk result ((start : Option (List ℕ))
            → IsStretch start (R.left input.old) self.old.begin self.old.bytes.items
            → IsStretch start (R.left input.new) self.new.begin self.new.bytes.items) }
        ensures begun { OnOk result (self.new.begin ≤ first) }
        ensures empty { OnOk result (self.new.bytes.items ≡ []) }
        ensures at_most { (start : Option (List ℕ))
            → IsStretch start (R.left input.old) self.old.begin self.old.bytes.items
            → TakesAtMost MOST_DISK_BYTES start (R.left input.new) }
        ensures failed { R.has_failed input.new ≡ is_err result }
    {
        let end = self.end();
        let passed = input.skip(first - end)?;
        self.begin = end + passed;
        self.bytes.clear();
        Ok(())
    }

    // Lets go what is held before a byte of the disk.
    fn let_go(&mut self, first: usize)
        requires begun { self.old.begin ≤ first }
        requires held { first ≤ self.old.begin + vec_len self.old.bytes }
        ensures begun { self.new.begin ≡ first }
        ensures rest { self.new.bytes.items ≡ drop (first - self.old.begin) self.old.bytes.items }
    {
        remove_front(&mut self.bytes, first - self.begin);
        self.begin = first;
    }

    // Lets go what is before a byte of the disk, or most of it, and passes over the input up to that byte.
    fn go_to<R: Source>(&mut self, input: &mut R, first: usize) -> Result<(), Failed>
        requires works { R.has_failed input.old ≡ false }
        requires begun { self.old.begin ≤ first }
        requires few { self.old.begin + vec_len self.old.bytes ≤ MOST_DISK_BYTES }
        requires within { first ≤ MOST_DISK_BYTES }
        ensures stretch { OnOk result ((start : Option (List ℕ))
            → IsStretch start (R.left input.old) self.old.begin self.old.bytes.items
            → IsStretch start (R.left input.new) self.new.begin self.new.bytes.items) }
        ensures begun { OnOk result (self.new.begin ≤ first) }
        ensures few { OnOk result (self.new.begin + vec_len self.new.bytes ≤ MOST_DISK_BYTES) }
        ensures at_most { (start : Option (List ℕ))
            → IsStretch start (R.left input.old) self.old.begin self.old.bytes.items
            → TakesAtMost MOST_DISK_BYTES start (R.left input.new) }
        ensures failed { R.has_failed input.new ≡ is_err result }
    {
        if self.end() <= first {
            return self.pass_to(input, first);
        }
        if first - self.begin >= MOST_BEFORE {
            self.let_go(first);
        }
        Ok(())
    }

    /// Holds the bytes of a place, as far as the input has them, and at most 32 MiB before them.
    pub fn hold<R: Source>(
        &mut self,
        input: &mut R,
        place: Place,
        piece: &mut [u8],
    ) -> Result<(), StreamFault>
        requires room { 0 < length piece.old }
        requires works { R.has_failed input.old ≡ false }
        requires begun { BeginsFrom self.old.begin place }
        requires few { self.old.begin + vec_len self.old.bytes ≤ MOST_DISK_BYTES }
        requires within { IsWithin place }
        ensures stretch { OnOk result ((start : Option (List ℕ))
            → IsStretch start (R.left input.old) self.old.begin self.old.bytes.items
            → IsStretch start (R.left input.new) self.new.begin self.new.bytes.items) }
        ensures begun { OnOk result (BeginsFrom self.new.begin place) }
        ensures few { OnOk result (self.new.begin + vec_len self.new.bytes ≤ MOST_DISK_BYTES) }
        ensures end { OnOk result (self.new.begin + vec_len self.new.bytes < end_of place * 512
            → IsAtEnd (R.left input.new)) }
        ensures at_most { (start : Option (List ℕ))
            → IsStretch start (R.left input.old) self.old.begin self.old.bytes.items
            → TakesAtMost MOST_DISK_BYTES start (R.left input.new) }
        ensures failed { R.has_failed input.new ≡ is_device result }
    {
        let first = place.first as usize * 512;
        self.go_to(input, first)?;
        let end = first + place.blocks as usize * 512;
        let count = end.saturating_sub(self.end());
        read_behind(input, count, piece, &mut self.bytes)
    }

    /// The bytes of a place.
    pub fn volume(&self, place: Place) -> &[u8]
        requires begun { BeginsFrom self.now.begin place }
        requires within { IsWithin place }
        ensures { result.now
            ≡ take (place.blocks * 512) (drop (place.first * 512 - self.now.begin) self.now.bytes.items) }
    {
        let from = (place.first as usize * 512 - self.begin).min(self.bytes.len());
        let rest = &self.bytes[from..];
        &rest[..(place.blocks as usize * 512).min(rest.len())]
    }
}

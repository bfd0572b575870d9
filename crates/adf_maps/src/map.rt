// A map of GNU ddrescue.

ghost use Rattle.std.specs.Prelude.{◌≡◌, ◌≤◌, ◌<◌, ◌^◌, ◌++◌, ◌*◌, All, IfErr, IfOk, IfSome, None, Some, false, true};
ghost use Rattle.std.specs.Prelude.{map, nat_le, option_map};
ghost use Rattle.std.specs.{List.Sorted.IsPartitionPoint, List.list_any};
ghost use Rattle.adf_maps.specs.Maps.{AreRising, hole_between, is_unread, map_of, map_with, meets, own_holes, stretch_end};
ghost use Rattle.adf_maps.specs.Maps.{stretches_told};
ghost use Rattle.adf_maps.specs.declared.numbers.TheConstants.{MOST_NUMBER};

use crate::hole::Hole;
use crate::rows::rows_of;
use crate::stretch::{Stretch, is_status, stretches_of};
use std::alloc::{AllocError, Global};
use std::marker::Model;

/// Which bytes of a disk a reading has.
#[derive(Drop)]
pub struct Map {
    // What it lacks, in order.
    holes: Vec<Hole>,
    // Where the last stretch ends.
    end: u64,
    ghost rising: { AreRising holes.items },
}

impl Model for Map {
    ghost use Rattle.adf_maps.specs.Maps.{MapValue};

    ghost Value = { MapValue };

    ghost view = { λ m. record { holes = m.holes.items; end = m.end } };
}

/// Why there is no map.
#[derive(Clone, Copy, Debug, PartialEq, Eq)]
pub enum MapFault {
    /// The text is none of a map of GNU ddrescue, or its stretches are not in order.
    NoMap,
    /// An allocation failed.
    NoMemory,
}

// Appends a hole, if there is one.
fn push_hole(holes: &mut Vec<Hole>, start: u64, end: u64) -> Result<(), AllocError>
    requires rising { AreRising holes.old.items }
    requires within { All (λ h. (h.start ≤ start) × (h.end ≤ start)) holes.old.items }
    ensures items { IfOk result (λ _. holes.new.items ≡ holes.old.items ++ hole_between start end) }
    ensures rising { IfOk result (λ _. AreRising holes.new.items) }
    ensures within { IfOk result (λ _. start ≤ end → All (λ h. (h.start ≤ end) × (h.end ≤ end)) holes.new.items) }
{
    if start < end {
        holes.push(Hole { start, end })?;
    }
    Ok(())
}

// Appends what a stretch adds behind others that end at `end`.
fn push_holes(holes: &mut Vec<Hole>, end: u64, stretch: Stretch) -> Result<(), AllocError>
    requires rising { AreRising holes.old.items }
    requires within { All (λ h. (h.start ≤ end) × (h.end ≤ end)) holes.old.items }
    requires order { end ≤ stretch.start }
    requires small { stretch_end stretch < 2 ^ 64 }
    ensures items { IfOk result (λ _.
        holes.new.items ≡ (holes.old.items ++ hole_between end stretch.start) ++ own_holes stretch) }
    ensures rising { IfOk result (λ _. AreRising holes.new.items) }
    ensures within { IfOk result (λ _. All (λ h. (h.start ≤ stretch_end stretch) × (h.end ≤ stretch_end stretch)) holes.new.items) }
{
    push_hole(holes, end, stretch.start)?;
    if stretch.is_read {
        Ok(())
    } else {
        push_hole(holes, stretch.start, stretch.start + stretch.size)
    }
}

// The map of stretches, if they are in order.
fn map_with(alloc: Global, stretches: &[Stretch]) -> Result<Option<Map>, AllocError>
    requires { All (λ s. (s.start ≤ MOST_NUMBER) × (s.size ≤ MOST_NUMBER)) stretches.now }
    ensures { IfOk result (λ map. map ≡ map_with (Some stretches.now)) }
{
    let mut holes = Vec::new(alloc);
    let mut end = 0u64;
    for stretch in stretches {
        if stretch.start < end {
            return Ok(None);
        }
        push_holes(&mut holes, end, *stretch)?;
        end = stretch.start + stretch.size;
    }
    Ok(Some(Map { holes, end }))
}

// The stretches that rows tell.
fn stretches_told(alloc: Global, rows: &[Vec<&[u8]>]) -> Result<Option<Vec<Stretch>>, AllocError>
    ensures value { IfOk result (λ all.
        option_map (λ v. v.items) all ≡ stretches_told (map (λ r. map (λ w. w.now) r.items) rows.now)) }
    ensures most { IfOk result (λ all. IfSome all (λ v. All (λ s. (s.start ≤ MOST_NUMBER) × (s.size ≤ MOST_NUMBER)) v.items)) }
{
    match rows {
        [first, rest @ ..] if is_status(first) => stretches_of(alloc, rest),
        _ => Ok(None),
    }
}

// The map of a text, if it has one.
fn map_of(alloc: Global, text: &[u8]) -> Result<Option<Map>, AllocError>
    ensures { IfOk result (λ map. map ≡ map_of text.now) }
{
    let rows = rows_of(alloc, text)?;
    match stretches_told(alloc, &rows)? {
        Some(stretches) => map_with(alloc, &stretches),
        None => Ok(None),
    }
}

/// Reads the map of a text: the map that it is, or `NoMap` if it is none.
pub fn read_map(alloc: Global, text: &[u8]) -> Result<Map, MapFault>
    ensures map { IfOk result (λ map. map_of text.now ≡ Some map) }
    ensures fault { IfErr result (λ fault. fault ≡ MapFault.NoMap → map_of text.now ≡ None) }
{
    match map_of(alloc, text) {
        Ok(Some(map)) => Ok(map),
        Ok(None) => Err(MapFault::NoMap),
        Err(_) => Err(MapFault::NoMemory),
    }
}

// How many holes end before a block.
fn holes_before(holes: &[Hole], block: u32) -> usize
    requires { AreRising holes.now }
    ensures { IsPartitionPoint (λ h. nat_le h.end (block * 512) ≡ true)
        (λ h. nat_le h.end (block * 512) ≡ false) holes.now result }
{
    let start = block as u64 * 512;
    holes.partition_point(|hole| hole.end <= start)
}

// Whether a hole has a byte of a block.
fn is_met(holes: &[Hole], block: u32) -> bool
    requires { AreRising holes.now }
    ensures { result ≡ list_any (meets block) holes.now }
{
    match holes.get(holes_before(holes, block)) {
        Some(hole) => hole.start < block as u64 * 512 + 512,
        None => false,
    }
}

impl Map {
    /// Where the last stretch ends: the size of the disk.
    pub fn end(&self) -> u64
        ensures { result ≡ self.now.end }
    {
        self.end
    }

    /// Whether a byte of a block was not read.
    pub fn is_unread(&self, block: u32) -> bool
        ensures { result ≡ is_unread self.now block }
    {
        self.end < block as u64 * 512 + 512 || is_met(&self.holes, block)
    }
}

// A reading and its map.

ghost use Rattle.std.specs.Prelude.{◌≡◌, IfOk, option_map};
ghost use Rattle.adf_readings.specs.Mapped.{having, images, is_lacked, lacks, sources};

use crate::reading::Reading;
use adf_maps::Map;
use std::alloc::{AllocError, Global};
use std::marker::Model;

/// A reading of a disk, and its map, if there is one.
#[derive(Drop)]
pub struct MappedReading<'a> {
    bytes: &'a [u8],
    map: Option<&'a Map>,
}

impl<'a> Model for MappedReading<'a> {
    ghost use Rattle.std.specs.Prelude.{option_map};
    ghost use Rattle.adf_readings.specs.Mapped.{MappedValue};

    ghost Value = { MappedValue };

    ghost view = { λ r. record { image = r.bytes.now; map = option_map (λ m. m.now) r.map } };
}

impl<'a> MappedReading<'a> {
    /// The reading with these bytes and this map.
    pub fn new(bytes: &'a [u8], map: Option<&'a Map>) -> MappedReading<'a>
        ensures { result ≡ record { image = bytes.entry.now; map = option_map (λ m. m.now) map.entry } }
    {
        MappedReading { bytes, map }
    }

    /// Its bytes.
    pub fn bytes(&self) -> &[u8]
        ensures { result.now ≡ self.now.image }
    {
        self.bytes
    }

    // Whether it lacks a block: its map says so.
    fn lacks(&self, block: u32) -> bool
        ensures { result ≡ lacks self.now block }
    {
        match self.map {
            Some(map) => map.is_unread(block),
            None => false,
        }
    }

    // Its image.
    fn reading(&self) -> Reading<'a>
        ensures { result ≡ self.now.image }
    {
        Reading::new(self.bytes)
    }
}

// The images of the readings that have a block.
fn having<'a>(
    alloc: Global,
    readings: &[MappedReading<'a>],
    block: u32,
) -> Result<Vec<Reading<'a>>, AllocError>
    ensures { IfOk result (λ some. some.items ≡ images (having readings.now block)) }
{
    let mut some = Vec::new(alloc);
    for reading in readings {
        if !reading.lacks(block) {
            some.push(reading.reading())?;
        }
    }
    Ok(some)
}

// The images of all readings.
fn images<'a>(alloc: Global, readings: &[MappedReading<'a>]) -> Result<Vec<Reading<'a>>, AllocError>
    ensures { IfOk result (λ all. all.items ≡ images readings.now) }
{
    let mut all = Vec::new(alloc);
    for reading in readings {
        all.push(reading.reading())?;
    }
    Ok(all)
}

/// The images whose versions of a block count: those that have it, or all, if none has it; and whether none has it.
pub fn sources<'a>(
    alloc: Global,
    readings: &[MappedReading<'a>],
    block: u32,
) -> Result<(Vec<Reading<'a>>, bool), AllocError>
    ensures sources { IfOk result (λ r. r.0.items ≡ sources readings.now block) }
    ensures lacked { IfOk result (λ r. r.1 ≡ is_lacked readings.now block) }
{
    let some = having(alloc, readings, block)?;
    if some.is_empty() {
        Ok((images(alloc, readings)?, true))
    } else {
        Ok((some, false))
    }
}

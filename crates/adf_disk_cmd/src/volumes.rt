// The bytes of volumes, and where they lie.

ghost use Rattle.std.specs.Prelude.{◌≡◌, ◌*◌, length, min, option_copied, take};
ghost use Rattle.adf_disk_cmd.specs.Answers.{found_bytes, found_place, has_place, is_placed, place_bytes, written_place};
ghost use Rattle.adf_disk_cmd.specs.Surveys.{stated_at, volume_at};
ghost use Rattle.adf_disk_cmd.specs.declared.list_input.TheConstants.{TABLES_LEN};

use crate::list_input::TABLES_LEN;
use adf_partitions::{Partition, Place, PlaceFault, stated_place};

/// The most blocks of a disk.
pub const MOST_DISK_BLOCKS: u64 = 1 << 32;

/// A place without blocks.
pub const NOWHERE: Place = Place {
    first: 0,
    blocks: 0,
};

// Where a block begins, or the end of the bytes if that comes before.
fn begin_of(bytes: &[u8], b: u64) -> usize
    ensures { result ≡ min (b * 512) (length bytes.now) }
{
    b.saturating_mul(512).min(bytes.len() as u64) as usize
}

/// The bytes of the volume that lies there, as far as the bytes hold them.
pub fn volume_at(bytes: &[u8], place: Place) -> &[u8]
    ensures { result.now ≡ volume_at bytes.now place }
{
    let rest = &bytes[begin_of(bytes, place.first)..];
    &rest[..begin_of(rest, place.blocks)]
}

/// Where a block of the tables says that a volume lies, within the largest disk; nowhere if it does not.
pub fn stated_at(tables: &[u8], b: u32) -> Place
    ensures { result ≡ stated_at tables.now b }
{
    stated_place(tables, b, MOST_DISK_BLOCKS).unwrap_or(NOWHERE)
}

// The blocks of a disk that may have tables.
fn tables_of(bytes: &[u8]) -> &[u8]
    ensures { result.now ≡ take TABLES_LEN bytes.now }
{
    &bytes[..bytes.len().min(TABLES_LEN)]
}

// Where the bytes of the volume of a partition lie that are written: at its place, or where its block says, if that is past the
// end of the image; of another one without a place none are.
fn written_place(tables: &[u8], b: u32, place: Result<Place, PlaceFault>) -> Option<Place>
    ensures { result ≡ written_place tables.now b place }
{
    match place {
        Ok(place) => Some(place),
        Err(PlaceFault::BeyondImage) => Some(stated_at(tables, b)),
        Err(_) => None,
    }
}

/// Where the bytes of the volume of the partition that is found lie that are written, if one is found and some are.
pub fn found_place(tables: &[u8], found: Option<&Partition>) -> Option<Place>
    ensures { result ≡ found_place tables.now (option_copied found.entry) }
{
    match found {
        Some(partition) => written_place(tables, partition.block, partition.place),
        None => None,
    }
}

// Whether there is a place.
fn is_placed(place: Result<Place, PlaceFault>) -> bool
    ensures { result ≡ is_placed place }
{
    place.is_ok()
}

/// Whether a partition is found that has a place.
pub fn has_place(found: Option<&Partition>) -> bool
    ensures { result ≡ has_place (option_copied found.entry) }
{
    match found {
        Some(partition) => is_placed(partition.place),
        None => false,
    }
}

// The bytes that lie at a place, as far as the bytes hold them.
fn place_bytes(bytes: &[u8], place: Option<Place>) -> &[u8]
    ensures { result.now ≡ place_bytes bytes.now place }
{
    match place {
        Some(place) => volume_at(bytes, place),
        None => &bytes[..0],
    }
}

/// The bytes of the volume of the partition that is found, if one is.
pub fn found_bytes<'a>(bytes: &'a [u8], found: Option<&Partition>) -> &'a [u8]
    ensures { result.now ≡ found_bytes bytes.now (option_copied found.entry) }
{
    place_bytes(bytes, found_place(tables_of(bytes), found))
}

// Where the volume of a partition lies.

ghost use Rattle.std.specs.Prelude.{◌≡◌, ◌≤◌, ◌+◌, SomeIff};
ghost use Rattle.adf_base.specs.Words.{block, word};
ghost use Rattle.adf_partitions.specs.FaultTexts.{place_fault_number, place_fault_text};
ghost use Rattle.adf_partitions.specs.Places.{StatesPlace, cylinder_of, do_overlap, end_of, has_cylinders, has_one_of};
ghost use Rattle.adf_partitions.specs.Places.{is_before_end, is_over_kept, is_over_tables, partition_place};

use crate::layout::{HIGH_CYLINDER, LOW_CYLINDER, SURFACES, TRACK_BLOCKS};
use crate::tables::Tables;
use adf_base::Block;
use std::error::Error;
use std::fmt;

/// Where a volume lies on a disk.
#[derive(Clone, Copy, Debug, PartialEq, Eq)]
pub struct Place {
    /// The block of the disk that is block 0 of the volume.
    pub first: u64,
    /// The number of blocks of 512 bytes, at least 1.
    pub blocks: u64,
}

/// What is wrong with the place of a partition. The tests run in the order given.
#[derive(Clone, Copy, Debug, PartialEq, Eq)]
pub enum PlaceFault {
    /// The highest cylinder is below the lowest, or a cylinder has no blocks: words 41 and 42, 35 and 37.
    NoCylinders = 3,
    /// The volume ends beyond the image.
    BeyondImage = 4,
    /// The volume has the rigid disk block, or one that is kept for the tables, but for a first block that is the highest of
    /// these.
    OverTables = 5,
    /// The volume has a block of an earlier partition that has a place.
    OverPartition = 6,
}

impl PlaceFault {
    /// The number of the fault, 3 to 6.
    pub fn number(self) -> u8
        ensures { result ≡ place_fault_number self }
    {
        self as u8
    }

    /// The text of the fault as printed, in lower case.
    pub fn text(self) -> &'static str
        ensures { result.now ≡ place_fault_text self }
    {
        match self {
            PlaceFault::NoCylinders => "bad cylinders",
            PlaceFault::BeyondImage => "beyond image",
            PlaceFault::OverTables => "over tables",
            PlaceFault::OverPartition => "over partition",
        }
    }
}

impl fmt::Display for PlaceFault {
    ghost use Rattle.std.specs.Prelude.{Some};
    ghost use Rattle.adf_partitions.specs.FaultTexts.{place_fault_text};

    ghost output = { λ x. Some (place_fault_text x) };

    fn fmt<W: fmt::Write>(&self, f: &mut fmt::Formatter<W>) -> fmt::Result {
        f.write_str(self.text())
    }
}

impl Error for PlaceFault {}

// The blocks of a cylinder: surfaces times blocks of a track.
#[tactic(auto, using(crate::proofs::Products::product_fits))]
fn cylinder_of(p: &Block<'_>) -> u64
    ensures { result ≡ cylinder_of p.now }
{
    u64::from(p.word(SURFACES)) * u64::from(p.word(TRACK_BLOCKS))
}

/// Whether the highest cylinder is at least the lowest, and a cylinder has blocks.
pub fn has_cylinders(p: &Block<'_>) -> bool
    ensures { result ≡ has_cylinders p.now }
{
    p.word(LOW_CYLINDER) <= p.word(HIGH_CYLINDER) && cylinder_of(p) != 0
}

/// The place of the volume of a partition block; `None` if it ends beyond so many blocks.
#[tactic(auto, using(crate::proofs::Products::below_product, crate::proofs::Products::parted_product))]
pub fn place_within(p: &Block<'_>, blocks: u64) -> Option<Place>
    requires { word p.now LOW_CYLINDER ≤ word p.now HIGH_CYLINDER }
    ensures { SomeIff result (end_of (partition_place p.now) ≤ blocks) (partition_place p.now) }
{
    let cylinder = cylinder_of(p);
    let lowest = u64::from(p.word(LOW_CYLINDER));
    let past = u64::from(p.word(HIGH_CYLINDER)) + 1;
    let Some(end) = past.checked_mul(cylinder) else {
        return None;
    };
    if blocks < end {
        return None;
    }
    Some(Place {
        first: lowest * cylinder,
        blocks: (past - lowest) * cylinder,
    })
}

/// Where a block says that a volume lies, whatever else is wrong with its partition. `None` if the bytes do not hold the block,
/// if the volume has no cylinders, or if it ends beyond so many blocks.
pub fn stated_place(bytes: &[u8], b: u32, blocks: u64) -> Option<Place>
    ensures { SomeIff result (StatesPlace bytes.now blocks b) (partition_place (block bytes.now b)) }
{
    let part = Block::at(bytes, b)?;
    if has_cylinders(&part) {
        place_within(&part, blocks)
    } else {
        None
    }
}

// Whether a block is before the end of a place.
fn is_before_end(b: u64, place: Place) -> bool
    ensures { result ≡ is_before_end b place }
{
    b < place.first || b - place.first < place.blocks
}

/// Whether two places have a block in common.
pub fn do_overlap(one: Place, other: Place) -> bool
    ensures { result ≡ do_overlap one other }
{
    is_before_end(one.first, other) && is_before_end(other.first, one)
}

// Whether a place has one of the blocks from `lowest` to `highest`, of which there may be none.
fn has_one_of(lowest: u32, highest: u32, place: Place) -> bool
    ensures { result ≡ has_one_of lowest highest place }
{
    lowest <= highest
        && place.first <= u64::from(highest)
        && is_before_end(u64::from(lowest), place)
}

// Whether a place has a block that is kept for the tables. Of a place that begins at the highest one this is the first block
// behind the tables.
fn is_over_kept(place: Place, tables: Tables) -> bool
    ensures { result ≡ is_over_kept place tables }
{
    place.first != u64::from(tables.highest) && has_one_of(tables.lowest, tables.highest, place)
}

/// Whether a place has a block that is kept for the tables, or the rigid disk block.
pub fn is_over_tables(place: Place, tables: Tables) -> bool
    ensures { result ≡ is_over_tables place tables }
{
    is_over_kept(place, tables) || has_one_of(tables.rdsk, tables.rdsk, place)
}

// Partitions.

ghost use Rattle.std.specs.Prelude.{◌≡◌};
ghost use Rattle.std.specs.List.{list_all, list_any};
ghost use Rattle.adf_names.specs.Texts.{is_name_byte};
ghost use Rattle.adf_partitions.specs.{Faults.first_failed, Places.partition_place};
ghost use Rattle.adf_partitions.specs.Partitions.{field_form, has_drive_name, is_over, is_over_earlier, name_at, partition_of};
ghost use Rattle.adf_partitions.specs.Partitions.{place_form, place_or_fault};

use crate::field_fault::FieldFault;
use crate::layout::{
    BLOCK_SECTORS, BOOT_PRIORITY, DOS_TYPE, DRIVE_NAME, ENV_BLOCK_WORDS, ENV_LENGTH, FLAGS,
    PREALLOCATED, RESERVED,
};
use crate::place::{Place, PlaceFault, do_overlap, has_cylinders, is_over_tables, place_within};
use crate::tables::Tables;
use adf_base::Block;
use adf_names::ShortText;

/// The name of a drive, at most 31 bytes.
pub type DriveName = ShortText<31>;

/// A partition, as its partition block says.
#[derive(Drop)]
pub struct Partition {
    /// The partition block.
    pub block: u32,
    /// The drive's name, of a longer one the first 31 bytes: its length in byte 36, its bytes from byte 37 on.
    pub name: DriveName,
    /// The flags, of which `BOOTABLE` and `NO_MOUNT` are two: word 5.
    pub flags: u32,
    /// The boot priority: word 47.
    pub priority: i32,
    /// The type of the file system, four bytes, the first one the highest: word 48.
    pub dos_type: u32,
    /// The blocks of the volume before the first that its file system uses, of `DOS` volumes 2 as a rule: word 38.
    pub reserved: u32,
    /// The blocks at the end of the volume that its file system does not use, 0 as a rule: word 39.
    pub preallocated: u32,
    /// The words of a sector, by which the file system counts: word 33. 128 are 512 bytes.
    pub sector_words: u32,
    /// The sectors of a block of the file system: word 36.
    pub block_sectors: u32,
    /// Where the volume lies, or why it has no place.
    pub place: Result<Place, PlaceFault>,
    /// What is wrong with the other fields, if something is. The place stands all the same.
    pub fault: Option<FieldFault>,
}

// The drive's name in a partition block.
fn name_in(p: &Block<'_>) -> DriveName
    ensures { result ≡ name_at p.now }
{
    let len = (p.byte(DRIVE_NAME) as usize).min(31);
    DriveName::new(p.bytes(DRIVE_NAME + 1, len)).unwrap()
}

/// Whether no byte is `:` or `/`.
pub fn are_name_bytes(bytes: &[u8]) -> bool
    ensures { result ≡ list_all is_name_byte bytes.now }
{
    bytes.iter().all(|c| *c != b':' && *c != b'/')
}

// Whether the drive's name in a partition block is a name: 1 to 31 bytes, none of them `/` or `:`.
fn has_drive_name(p: &Block<'_>) -> bool
    ensures { result ≡ has_drive_name p.now }
{
    let len = p.byte(DRIVE_NAME);
    1 <= len && len <= 31 && are_name_bytes(name_in(p).bytes())
}

// Whether a place has a block of a partition that has a place.
fn is_over(place: Place, partition: &Partition) -> bool
    ensures { result ≡ is_over place partition.now }
{
    match partition.place {
        Ok(other) => do_overlap(place, other),
        Err(_) => false,
    }
}

// Whether a place has a block of one of these partitions that has a place.
fn is_over_earlier(place: Place, earlier: &[Partition]) -> bool
    ensures { result ≡ is_over_earlier place earlier.now }
{
    earlier.iter().any(|partition| is_over(place, partition))
}

// The place of a partition block after earlier partitions, on a disk of so many blocks.
fn place_in(
    p: &Block<'_>,
    tables: Tables,
    blocks: u64,
    earlier: &[Partition],
) -> Result<Place, PlaceFault>
    ensures { result ≡ place_or_fault (partition_place p.now)
        (first_failed (place_form blocks tables earlier.now p.now)) }
{
    if !has_cylinders(p) {
        return Err(PlaceFault::NoCylinders);
    }
    let Some(place) = place_within(p, blocks) else {
        return Err(PlaceFault::BeyondImage);
    };
    if is_over_tables(place, tables) {
        return Err(PlaceFault::OverTables);
    }
    if is_over_earlier(place, earlier) {
        return Err(PlaceFault::OverPartition);
    }
    Ok(place)
}

// What is wrong with the other fields of a partition block.
fn field_fault(p: &Block<'_>) -> Option<FieldFault>
    ensures { result ≡ first_failed (field_form p.now) }
{
    if p.word(ENV_LENGTH) < 16 {
        return Some(FieldFault::ShortEnvironment);
    }
    if p.word(ENV_BLOCK_WORDS) != 128 || p.word(BLOCK_SECTORS) != 1 {
        return Some(FieldFault::OtherBlocks);
    }
    if !has_drive_name(p) {
        return Some(FieldFault::BadName);
    }
    None
}

/// The partition of a partition block, after earlier partitions, on a disk of so many blocks.
pub fn partition_of(
    b: u32,
    p: &Block<'_>,
    tables: Tables,
    blocks: u64,
    earlier: &[Partition],
) -> Partition
    ensures { result ≡ partition_of blocks tables earlier.now b p.now }
{
    Partition {
        block: b,
        name: name_in(p),
        flags: p.word(FLAGS),
        priority: p.word(BOOT_PRIORITY).cast_signed(),
        dos_type: p.word(DOS_TYPE),
        reserved: p.word(RESERVED),
        preallocated: p.word(PREALLOCATED),
        sector_words: p.word(ENV_BLOCK_WORDS),
        block_sectors: p.word(BLOCK_SECTORS),
        place: place_in(p, tables, blocks, earlier),
        fault: field_fault(p),
    }
}

// The tables of a hard disk: writer. What is written is read back before it is given out, so nothing is promised of the blocks alone.

ghost use Rattle.std.specs.Prelude.{◌≡◌, ◌≤◌, ◌*◌, ◌++◌, ℕ, List, IfOk, None, Ok, length, true};
ghost use Rattle.std.specs.List.{flat_map};
ghost use Rattle.adf_partitions.specs.{Disks.IsDisk, FileSystems.planned_type, declared.tables.Tables.Tables};
ghost use Rattle.adf_partitions.specs.Plans.{AreTablesOfPlan, AreVolumes, IsPlan, PlanValue, StandInPlaces, cylinder_blocks};
ghost use Rattle.adf_partitions.specs.Plans.{plan_value, planned_blocks, planned_flags, planned_partition, planned_partitions};

use crate::disk::Disk;
use crate::fault::DiskCause;
use crate::layout::{
    ADDRESS_MASK, BAD_BLOCKS, BLOCK_BYTES, BLOCK_SECTORS, BOOT_PRIORITY, BUFFERS, CHECKSUM,
    CYLINDER_BLOCKS, CYLINDERS, DOS_TYPE, DRIVE_NAME, ENV_BLOCK_WORDS, ENV_LENGTH, FIRST_PART,
    FLAGS, HEADS, HIGH_CYLINDER, HIGHEST_CYLINDER, HIGHEST_TABLE, HIGHEST_USED, HOST, INTERLEAVE,
    LOW_CYLINDER, LOWEST_CYLINDER, LOWEST_TABLE, MARK, MOST_TRANSFER, NEXT_PART, NO_BLOCK,
    OTHER_LISTS, PARKED, PART, RDSK, RESERVED, SECTORS, SUMMED_LONGS, SURFACES, TRACK_BLOCKS,
    WRITTEN_LONGS,
};
use crate::partition::Partition;
use crate::place::{Place, PlaceFault};
use crate::plan::{
    DiskPlan, PartitionPlan, cylinder_blocks, planned_cylinders, planned_flags, table_cylinders,
};
use adf_base::{BLOCK_LEN, put_bytes, put_word, put_words, seal_block};
use std::alloc::{AllocError, Global};

// The number of the first partition blocks behind block `b`, if there is one.
fn block_after(count: u32, b: u32) -> u32 {
    if b < count { b + 1 } else { NO_BLOCK }
}

// The rigid disk block: 64 words have its sum, blocks have 512 bytes, and of all lists of blocks that of the partitions alone has
// any; words that have no meaning yet name no block either.
fn rdsk_bytes(plan: &DiskPlan) -> [u8; 512]
    requires { IsPlan (plan_value plan.now) }
{
    let count = plan.partitions.len() as u32;
    let cylinder = cylinder_blocks(plan);
    let kept = table_cylinders(plan);
    let cylinders = planned_cylinders(plan);
    let mut block = [0u8; 512];
    put_word(&mut block, MARK, RDSK);
    put_word(&mut block, SUMMED_LONGS, WRITTEN_LONGS);
    put_word(&mut block, HOST, 7);
    put_word(&mut block, BLOCK_BYTES, 512);
    put_word(&mut block, BAD_BLOCKS, NO_BLOCK);
    put_word(&mut block, FIRST_PART, block_after(count, 0));
    put_words(&mut block, OTHER_LISTS, &[NO_BLOCK; 8]);
    put_word(&mut block, CYLINDERS, cylinders);
    put_word(&mut block, SECTORS, plan.sectors);
    put_word(&mut block, HEADS, plan.heads);
    put_word(&mut block, INTERLEAVE, 1);
    put_word(&mut block, PARKED, cylinders);
    put_word(&mut block, LOWEST_TABLE, 0);
    put_word(
        &mut block,
        HIGHEST_TABLE,
        kept.saturating_mul(cylinder).saturating_sub(1),
    );
    put_word(&mut block, LOWEST_CYLINDER, kept);
    put_word(&mut block, HIGHEST_CYLINDER, cylinders.saturating_sub(1));
    put_word(&mut block, CYLINDER_BLOCKS, cylinder);
    put_word(&mut block, HIGHEST_USED, count);
    seal_block(&mut block, CHECKSUM);
    block
}

// Writes the name of a drive into a partition block.
fn put_name(block: &mut [u8; 512], name: &[u8])
    requires { length name.now ≤ 31 }
{
    put_bytes(block, DRIVE_NAME, &[name.len() as u8]);
    put_bytes(block, DRIVE_NAME + 1, name);
}

// The partition block `b`, of a partition from cylinder `low` on: blocks of 128 words and one sector, 2 blocks reserved, 30
// buffers, transfers of at most 255 blocks to any memory.
fn part_bytes(plan: &DiskPlan, b: u32, low: u32, partition: &PartitionPlan) -> [u8; 512] {
    let count = u32::try_from(plan.partitions.len()).unwrap_or(0);
    let next = block_after(count, b);
    let high = low.saturating_add(partition.cylinders.saturating_sub(1));
    let priority = i32::from(partition.priority).cast_unsigned();
    let dos_type = partition.system.planned_type();
    let mut block = [0u8; 512];
    put_word(&mut block, MARK, PART);
    put_word(&mut block, SUMMED_LONGS, WRITTEN_LONGS);
    put_word(&mut block, HOST, 7);
    put_word(&mut block, NEXT_PART, next);
    put_word(&mut block, FLAGS, planned_flags(partition));
    put_name(&mut block, partition.name.bytes());
    put_word(&mut block, ENV_LENGTH, 16);
    put_word(&mut block, ENV_BLOCK_WORDS, 128);
    put_word(&mut block, SURFACES, plan.heads);
    put_word(&mut block, BLOCK_SECTORS, 1);
    put_word(&mut block, TRACK_BLOCKS, plan.sectors);
    put_word(&mut block, RESERVED, 2);
    put_word(&mut block, LOW_CYLINDER, low);
    put_word(&mut block, HIGH_CYLINDER, high);
    put_word(&mut block, BUFFERS, 30);
    put_word(&mut block, MOST_TRANSFER, 0x0001_FE00);
    put_word(&mut block, ADDRESS_MASK, 0xFFFF_FFFE);
    put_word(&mut block, BOOT_PRIORITY, priority);
    put_word(&mut block, DOS_TYPE, dos_type);
    seal_block(&mut block, CHECKSUM);
    block
}

// The rigid disk block and the partition blocks.
fn written_bytes(alloc: Global, plan: &DiskPlan) -> Result<Vec<u8>, AllocError>
    requires { IsPlan (plan_value plan.now) }
{
    let mut bytes = Vec::from_slice(alloc, &rdsk_bytes(plan))?;
    let mut low = table_cylinders(plan);
    for (i, partition) in plan.partitions.iter().enumerate() {
        let b = u32::try_from(i).unwrap_or(0).saturating_add(1);
        bytes.extend_from_slice(&part_bytes(plan, b, low, partition))?;
        low = low.saturating_add(partition.cylinders);
    }
    Ok(bytes)
}

// Whether a place is that of so many blocks from one on.
fn is_place(place: Result<Place, PlaceFault>, first: u64, blocks: u64) -> bool
    ensures { result ≡ true → place ≡ Ok (record { first = first; blocks = blocks }) }
{
    match place {
        Ok(place) => place.first == first && place.blocks == blocks,
        Err(_) => false,
    }
}

// Whether the other fields of a partition are those of a planned one.
fn has_fields(planned: &PartitionPlan, read: &Partition) -> bool
    ensures names { result ≡ true → (read.now.name ≡ planned.now.name) × (read.now.flags ≡ planned_flags planned.now) }
    ensures system { result ≡ true → (read.now.priority ≡ planned.now.priority) × (read.now.dos_type ≡ planned_type planned.now.system) }
    ensures kept { result ≡ true → (read.now.reserved ≡ 2) × (read.now.preallocated ≡ 0) }
    ensures blocks { result ≡ true → (read.now.sector_words ≡ 128) × (read.now.block_sectors ≡ 1) × (read.now.fault ≡ None) }
{
    read.name.bytes() == planned.name.bytes()
        && read.flags == planned_flags(planned)
        && read.priority == i32::from(planned.priority)
        && read.dos_type == planned.system.planned_type()
        && read.reserved == 2
        && read.preallocated == 0
        && read.sector_words == 128
        && read.block_sectors == 1
        && read.fault.is_none()
}

// Whether the partition of block `b` from cylinder `low` on is the planned one, where a cylinder has so many blocks.
fn is_planned(cylinder: u32, b: u32, low: u32, planned: &PartitionPlan, read: &Partition) -> bool
    ensures { result ≡ true → read.now ≡ planned_partition cylinder b low planned.now }
{
    let first = u64::from(low) * u64::from(cylinder);
    let Some(blocks) = u64::from(planned.cylinders).checked_mul(u64::from(cylinder)) else {
        return false;
    };
    read.block == b && is_place(read.place, first, blocks) && has_fields(planned, read)
}

// Whether partitions are those of a plan.
fn are_planned(plan: &DiskPlan, read: &[Partition]) -> bool
    requires { IsPlan (plan_value plan.now) }
    ensures { result ≡ true → read.now ≡ planned_partitions (plan_value plan.now) }
{
    let cylinder = cylinder_blocks(plan);
    let mut low = table_cylinders(plan);
    if read.len() != plan.partitions.len() {
        return false;
    }
    for i in 0..read.len() {
        let planned = &plan.partitions[i];
        if !is_planned(cylinder, i as u32 + 1, low, planned, &read[i]) {
            return false;
        }
        low += planned.cylinders;
    }
    true
}

// Whether bytes are read as the tables of a plan.
fn is_read(alloc: Global, plan: &DiskPlan, bytes: &[u8]) -> Result<bool, AllocError>
    requires { IsPlan (plan_value plan.now) }
    ensures { IfOk result (λ is. is ≡ true → (t : Tables) × IsDisk bytes.now (planned_blocks (plan_value plan.now)) t
        (planned_partitions (plan_value plan.now))) }
{
    let blocks = u64::from(planned_cylinders(plan)) * u64::from(cylinder_blocks(plan));
    match Disk::open(alloc, bytes, blocks) {
        Ok(disk) => Ok(are_planned(plan, &disk.partitions)),
        Err(fault) if fault.cause == DiskCause::NoMemory => Err(AllocError),
        Err(_) => Ok(false),
    }
}

/// Writes the tables of a disk, up to the end of their last cylinder: they are read as the planned partitions, whatever stands
/// behind them. The volumes belong there. `AllocError` if an allocation fails, or if they are not read so.
pub fn write_tables(alloc: Global, plan: &DiskPlan) -> Result<Vec<u8>, AllocError>
    requires { IsPlan (plan_value plan.now) }
    ensures { IfOk result (λ b. AreTablesOfPlan (plan_value plan.now) b.items) }
{
    let mut bytes = written_bytes(alloc, plan)?;
    let len = table_cylinders(plan) as usize * cylinder_blocks(plan) as usize * BLOCK_LEN;
    bytes.resize(len, 0)?;
    if is_read(alloc, plan, &bytes)? {
        Ok(bytes)
    } else {
        Err(AllocError)
    }
}

/// A disk of the tables of a plan and its volumes has each volume at its place.
#[tactic(auto, using(crate::proofs::PlannedVolumes::disk_size, crate::proofs::PlannedVolumes::volumes_stand))]
pub fn planned_disks()
    ensures size { (plan : PlanValue) (tables : List ℕ) (vs : List (List ℕ)) → AreTablesOfPlan plan tables
        → AreVolumes (cylinder_blocks plan) plan.partitions vs
        → length (tables ++ flat_map (λ v. v) vs) ≡ planned_blocks plan * 512 }
    ensures volumes { (plan : PlanValue) (tables : List ℕ) (vs : List (List ℕ)) → AreTablesOfPlan plan tables
        → AreVolumes (cylinder_blocks plan) plan.partitions vs
        → StandInPlaces (tables ++ flat_map (λ v. v) vs) (planned_partitions plan) vs }
{}

// The table of a hard disk's partitions, and how it is filled.

ghost use Rattle.std.specs.Prelude.{◌≡◌};
ghost use Rattle.adf_memory.specs.DiskTables.{field_fault_of, partition_row};
ghost use Rattle.adf_memory.specs.{DiskTables.partition_table, DiskTables.table_disk, Rooms.filled};

use crate::tables::{field, put};
use adf_partitions::{DiskFault, FieldFault, Partition};

/// A partition of a hard disk.
#[repr(C)]
#[derive(Clone, Copy)]
pub struct TablePartition {
    /// The first block of its volume on the disk, or 0 if it has no place.
    pub first: u64,
    /// The blocks of its volume, or 0 if it has no place.
    pub blocks: u64,
    /// Its partition block.
    pub block: u32,
    /// Its flags: bit 0, a computer may start from it; bit 1, it is not mounted by itself.
    pub flags: u32,
    /// Its boot priority.
    pub priority: i32,
    /// The type of its file system, four bytes, the first one the highest.
    pub dos_type: u32,
    /// The number of what is wrong with it, or 0: with its place, 3 to 6, or else with its other fields, 1, 2 or 7.
    pub fault: u8,
    pub name_length: u8,
    /// The drive's name as it is in the block, not necessarily valid, padded with zeros.
    pub name: [u8; 31],
}

/// What a disk has besides its partitions.
#[repr(C)]
#[derive(Clone, Copy)]
pub struct TableDisk {
    /// The partitions that can be read.
    pub partitions: usize,
    /// The block of the first fault of its tables, or 0.
    pub block: u32,
    /// The number of that fault's cause, or 0.
    pub cause: u8,
}

// The number of what is wrong with the other fields of a partition; 0 if nothing is.
fn field_fault_of(fault: Option<FieldFault>) -> u8
    ensures { result ≡ field_fault_of fault }
{
    match fault {
        None => 0,
        Some(fault) => fault.number(),
    }
}

// The row of a partition.
fn partition_row(partition: &Partition) -> TablePartition
    ensures { result ≡ partition_row partition.now }
{
    let name = partition.name.bytes();
    let (first, blocks, fault) = match partition.place {
        Ok(place) => (place.first, place.blocks, field_fault_of(partition.fault)),
        Err(fault) => (0, 0, fault.number()),
    };
    TablePartition {
        first,
        blocks,
        block: partition.block,
        flags: partition.flags,
        priority: partition.priority,
        dos_type: partition.dos_type,
        fault,
        name_length: name.len() as u8,
        name: field(name),
    }
}

/// Fills the table of partitions as far as there is room.
pub fn put_partitions(partitions: &[Partition], room: &mut [TablePartition])
    ensures { room.new ≡ filled (partition_table partitions.now) room.old }
{
    for i in 0..partitions.len() {
        put(room, i, partition_row(&partitions[i]));
    }
}

/// What a disk has besides so many partitions.
pub fn table_disk(partitions: usize, fault: Option<DiskFault>) -> TableDisk
    ensures { result ≡ table_disk partitions fault }
{
    match fault {
        None => TableDisk {
            partitions,
            block: 0,
            cause: 0,
        },
        Some(fault) => TableDisk {
            partitions,
            block: fault.block,
            cause: fault.cause.number(),
        },
    }
}

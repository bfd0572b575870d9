// The partitions of a hard disk in a table.

ghost use Rattle.std.specs.Prelude.{IfOk, OnErr};
ghost use Rattle.adf_memory.specs.{DiskTables.IsDiskRead, VolumeCalls.FillsPartitions};
ghost use Rattle.adf_partitions.specs.Searches.{HasReadable};

use crate::disk_tables::{TableDisk, TablePartition, put_partitions, table_disk};
use adf_blocks::Cause;
use adf_partitions::{Disk, DiskCause, DiskFault, Partition, readable_partitions};
use std::alloc::{AllocError, Global};

// The partitions of a disk that can be read, and the first fault of its tables.
#[derive(Drop)]
struct ReadDisk {
    partitions: Vec<Partition>,
    fault: Option<DiskFault>,
}

// Reads the partitions of a disk of so many blocks, whether its tables have a fault or not.
fn read_disk(alloc: Global, bytes: &[u8], blocks: u64) -> Result<ReadDisk, AllocError>
    ensures read { IfOk result (λ d. IsDiskRead bytes.now blocks d.partitions.items d.fault) }
    ensures begun { OnErr result (HasReadable bytes.now blocks) }
{
    match Disk::open(alloc, bytes, blocks) {
        Ok(disk) => Ok(ReadDisk {
            partitions: disk.partitions,
            fault: None,
        }),
        Err(fault) => match fault.cause {
            DiskCause::NoMemory => Err(AllocError),
            _ => Ok(ReadDisk {
                partitions: readable_partitions(alloc, bytes, blocks)?,
                fault: Some(fault),
            }),
        },
    }
}

/// Reads the partitions of a hard disk of so many blocks of 512 bytes, from its first bytes: the blocks below 65,536, or all of
/// them. Fills a table with those that can be read, as far as it has room, and reports the first fault of the tables.
/// Returns 0, or the number of `NoMemory` if memory ran out, which can happen only if a partition can be read.
pub fn put_disk(
    alloc: Global,
    bytes: &[u8],
    blocks: u64,
    partitions: &mut [TablePartition],
    disk: &mut TableDisk,
) -> u8
    ensures { FillsPartitions bytes.now blocks partitions.old partitions.new disk.new result }
{
    match read_disk(alloc, bytes, blocks) {
        Ok(read) => {
            put_partitions(&read.partitions, partitions);
            *disk = table_disk(read.partitions.len(), read.fault);
            0
        }
        Err(_) => {
            *disk = table_disk(0, None);
            Cause::NoMemory.number()
        }
    }
}

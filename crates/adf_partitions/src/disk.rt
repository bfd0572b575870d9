// A whole hard disk.

ghost use Rattle.std.specs.Prelude.{◌≡◌, ◌≢◌, List, IfErr, IfOk, find, option_copied};
ghost use Rattle.adf_partitions.specs.{Disks.FirstDiskFault, Disks.IsDisk, Disks.NamesPartition, Partitions.is_partition_named};
ghost use Rattle.adf_partitions.specs.{Partitions.partition_numbered, Tables.IsTables, declared.fault.DiskCause.DiskCause};
ghost use Rattle.adf_partitions.specs.{declared.partition.Partition.Partition, declared.tables.Tables.Tables};

use crate::fault::{DiskCause, DiskFault, disk_fault};
use crate::list::{Followed, follow_list};
use crate::names::is_named;
use crate::partition::Partition;
use crate::tables::{Tables, read_tables};
use std::alloc::Global;

/// The partitions of a hard disk.
#[derive(Drop)]
pub struct Disk {
    pub tables: Tables,
    /// All partitions, in the order of the list.
    pub partitions: Vec<Partition>,
}

impl Disk {
    /// Reads the partitions of a disk of so many blocks of 512 bytes, from its first bytes: the blocks below 65,536, or all of
    /// them. The whole disk may be given, to the same effect (`first_blocks_are_enough`). Of fewer bytes a list that has no fault
    /// is the same too (`tables_are_enough`); a list that leads past them is `OutOfRange`.
    ///
    /// The first fault: `NoRigidDisk`; `BlockSize`; then of each block that the list names, `OutOfRange`, `Repeated`,
    /// `NotPartition`, `BadSum` or `TooMany`. What is wrong with one partition alone is its `place`. `NoMemory` if an
    /// allocation fails, which can happen only if the tables name a partition.
    pub fn open(alloc: Global, bytes: &[u8], blocks: u64) -> Result<Disk, DiskFault>
        ensures disk { IfOk result (λ d. IsDisk bytes.now blocks d.tables d.partitions.items) }

        // A fault is the first one, and then the disk has no partitions to tell. There are no others, by `one_disk` and
        // `one_disk_fault`.
        ensures first { IfErr result (λ f. f.cause ≢ DiskCause.NoMemory
            → FirstDiskFault bytes.now blocks f) }
        ensures none { IfErr result (λ f. f.cause ≢ DiskCause.NoMemory → (t : Tables) (ps : List Partition)
            → IsDisk bytes.now blocks t ps → ⊥) }
        ensures memory { IfErr result (λ f. f.cause ≡ DiskCause.NoMemory → f.block ≡ 0) }

        // Memory is wanted only for a disk whose tables name a partition.
        ensures begun { IfErr result (λ f. f.cause ≡ DiskCause.NoMemory
            → (t : Tables) × IsTables bytes.now t × NamesPartition bytes.now t) }
    {
        let tables = read_tables(bytes)?;
        let Ok(Followed { partitions, fault }) = follow_list(alloc, bytes, tables, blocks) else {
            return Err(disk_fault(0, DiskCause::NoMemory));
        };
        match fault {
            None => Ok(Disk { tables, partitions }),
            Some(fault) => Err(fault),
        }
    }

    /// The partition with this number, counted from 1 in the order of the list; `None` if there is none.
    pub fn numbered(&self, number: usize) -> Option<&Partition>
        ensures { option_copied result ≡ partition_numbered self.now.partitions.items number }
    {
        if number == 0 {
            return None;
        }
        self.partitions.get(number - 1)
    }

    /// The first partition with this name, ignoring the case of `a` to `z`; `None` if there is none.
    pub fn named(&self, name: &[u8]) -> Option<&Partition>
        ensures { option_copied result ≡ find (is_partition_named name.now) self.now.partitions.items }
    {
        for partition in &self.partitions {
            if is_named(name, partition) {
                return Some(partition);
            }
        }
        None
    }
}

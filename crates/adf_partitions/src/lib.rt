//! The partitions of a whole Amiga hard disk.
#![tactic(auto)]

mod disk;
mod fault;
mod field_fault;
mod file_system;
mod found_volumes;
mod laws;
mod layout;
mod list;
mod names;
mod partition;
mod place;
mod plan;
mod search;
mod summed;
mod tables;
mod tables_out;

pub use crate::disk::Disk;
pub use crate::fault::{DiskCause, DiskFault, disk_fault};
pub use crate::field_fault::FieldFault;
pub use crate::file_system::{FileSystem, system_words_decide};
pub use crate::found_volumes::{FoundVolume, find_volumes};
pub use crate::laws::{
    first_blocks_are_enough, no_fault_on_a_disk, one_disk, one_disk_fault, one_reading,
    readable_are_separate, some_disk, tables_are_enough, volumes_lie_apart,
};
pub use crate::layout::{
    BLOCK_BYTES, BLOCK_SECTORS, BOOT_PRIORITY, BOOTABLE, DOS_TYPE, DRIVE_NAME, ENV_BLOCK_WORDS,
    ENV_LENGTH, FIRST_PART, FLAGS, HIGH_CYLINDER, HIGHEST_TABLE, LOW_CYLINDER, LOWEST_TABLE, MARK,
    MOST_PARTITIONS, MOST_TABLES, NEXT_PART, NO_BLOCK, NO_MOUNT, PART, PREALLOCATED, RDSK,
    RDSK_BLOCKS, RESERVED, SUMMED_LONGS, SURFACES, TRACK_BLOCKS,
};
pub use crate::names::are_same;
pub use crate::partition::{DriveName, Partition, are_name_bytes};
pub use crate::place::{Place, PlaceFault, stated_place};
pub use crate::plan::{DiskPlan, PartitionPlan, cylinder_blocks};
pub use crate::search::readable_partitions;
pub use crate::tables::{Tables, read_tables};
pub use crate::tables_out::{planned_disks, write_tables};

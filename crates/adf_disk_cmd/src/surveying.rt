// What is found on a disk, whether its tables have a fault or not.

ghost use Rattle.std.specs.Prelude.{IfOk};
ghost use Rattle.adf_disk_cmd.specs.Surveys.{IsSurveyed};

use adf_partitions::{Disk, DiskCause, DiskFault, Partition, readable_partitions};
use std::alloc::{AllocError, Global};

/// The partitions that are found on a disk, and the first fault of its tables, if there is one.
#[derive(Drop)]
pub struct SurveyedDisk {
    pub partitions: Vec<Partition>,
    pub fault: Option<DiskFault>,
}

/// Reads the partitions of a disk of so many blocks, from its first bytes (as of `Disk::open`): all of its list, or where the
/// tables have a fault those that can still be read.
pub fn survey_disk(alloc: Global, bytes: &[u8], blocks: u64) -> Result<SurveyedDisk, AllocError>
    ensures { IfOk result (λ d. IsSurveyed bytes.now blocks d.partitions.items d.fault) }
{
    match Disk::open(alloc, bytes, blocks) {
        Ok(disk) => Ok(SurveyedDisk {
            partitions: disk.partitions,
            fault: None,
        }),
        Err(fault) => match fault.cause {
            DiskCause::NoMemory => Err(AllocError),
            _ => Ok(SurveyedDisk {
                partitions: readable_partitions(alloc, bytes, blocks)?,
                fault: Some(fault),
            }),
        },
    }
}

// The faults of the tables.

use crate::answering::Telling;
use crate::disk_objects::fault_object;
use adf_partitions::DiskFault;
use std::alloc::AllocError;

// The line of a fault, or with `json` its object.
fn fault_line(telling: Telling, fault: DiskFault) -> Result<Vec<u8>, AllocError> {
    if telling.json {
        return fault_object(telling.alloc, fault);
    }
    let line = format!(in telling.alloc; "{fault}\n")?;
    Vec::from_slice(telling.alloc, line.as_bytes())
}

/// The line of a fault, if there is one.
pub fn fault_lines(telling: Telling, fault: Option<DiskFault>) -> Result<Vec<u8>, AllocError> {
    match fault {
        None => Ok(Vec::new(telling.alloc)),
        Some(fault) => fault_line(telling, fault),
    }
}

// The given volumes of a plan whose lines name host files.

ghost use Rattle.std.specs.Prelude.{◌≡◌, ◌++◌, ◌≤◌, ◌<◌, ◌^◌, List, ℕ, IfOk, OnOk};
ghost use Rattle.adf_disk_cmd.specs.HostPlans.{AreGathered, TakesVolume, behind_left, left_volume};
ghost use Rattle.adf_partitions.specs.Plans.{IsPlan, cylinder_blocks, plan_value};
ghost use Rattle.adf_plans.specs.{HostFiles.host_of, PlanTexts.behind_line};

use crate::host_volumes::{HostFault, NoVolume, read_volume};
use adf_base::BLOCK_LEN;
use adf_file_runs::Files;
use adf_partitions::{DiskPlan, PartitionPlan, cylinder_blocks};
use adf_plans::{cut_line, host_of};
use std::alloc::{AllocError, Global};

/// Why the given volumes are not had.
#[derive(Clone, Copy, Debug)]
pub enum NoGiven<'a> {
    /// An allocation failed.
    NoMemory,
    /// There is no volume of the host file of a line.
    Fault(HostFault<'a>),
}

impl<'a> From<AllocError> for NoGiven<'a> {
    fn from(_e: AllocError) -> NoGiven<'a> {
        NoGiven::NoMemory
    }
}

/// A partition whose volume is gathered.
#[derive(Clone, Copy)]
struct Asked<'a> {
    partition: &'a PartitionPlan,
    /// The bytes of its volume.
    need: usize,
    /// The number of its line, counted from 1.
    number: usize,
    line: &'a [u8],
}

// Appends the volume of a partition that is given behind the plan. Returns the bytes behind it.
fn push_left<'b>(
    partition: &PartitionPlan,
    need: usize,
    left: &'b [u8],
    given: &mut Vec<u8>,
) -> Result<&'b [u8], AllocError>
    ensures taken { OnOk result (given.new.items ≡ given.old.items ++ left_volume need partition.now left.now) }
    ensures rest { IfOk result (λ rest. rest.now ≡ behind_left need partition.now left.now) }
{
    if !partition.given {
        return Ok(left);
    }
    let len = need.min(left.len());
    given.extend_from_slice(&left[..len])?;
    Ok(&left[len..])
}

// Appends the volume of a partition: that of the host file that its line names, or one that is left. Returns what is left then.
fn push_asked<'a, 'b, F: Files>(
    alloc: Global,
    files: &F,
    asked: &Asked<'a>,
    left: &'b [u8],
    given: &mut Vec<u8>,
) -> Result<&'b [u8], NoGiven<'a>>
    requires some { 512 ≤ asked.now.need }
    requires few { asked.now.need < 2 ^ 63 }
    ensures { IfOk result (λ rest. (bytes : List ℕ) × TakesVolume (F.bytes_of files.now) asked.now.need
        asked.now.partition.now (host_of asked.now.line.now) left.now bytes rest.now
        × (given.new.items ≡ given.old.items ++ bytes)) }
{
    let Some(host) = host_of(asked.line) else {
        return Ok(push_left(asked.partition, asked.need, left, given)?);
    };
    match read_volume(alloc, files, asked.partition, asked.need, host) {
        Ok(volume) => {
            given.extend_from_slice(&volume)?;
            Ok(left)
        }
        Err(NoVolume::NoMemory) => Err(NoGiven::NoMemory),
        Err(why) => Err(NoGiven::Fault(HostFault {
            line: asked.number,
            name: asked.partition.name.bytes(),
            host,
            why,
        })),
    }
}

/// The given volumes of a plan in their order, those that the lines of its text name from their host files and the others from
/// the bytes behind the plan, and at the end what is left of these.
pub fn gather<'a, F: Files>(
    alloc: Global,
    files: &F,
    plan: &'a DiskPlan,
    text: &'a [u8],
    behind: &[u8],
) -> Result<Vec<u8>, NoGiven<'a>>
    requires { IsPlan (plan_value plan.now) }
    ensures { IfOk result (λ given. AreGathered (F.bytes_of files.now) (cylinder_blocks (plan_value plan.now))
        plan.now.partitions.items (behind_line text.now) behind.now given.items) }
{
    let cylinder = cylinder_blocks(plan);
    let (_, mut lines) = cut_line(text);
    let mut left = behind;
    let mut given = Vec::new(alloc);
    for (i, partition) in plan.partitions.iter().enumerate() {
        let (line, rest) = cut_line(lines);
        let asked = Asked {
            partition,
            need: (partition.cylinders * cylinder) as usize * BLOCK_LEN,
            number: i + 2,
            line,
        };
        left = push_asked(alloc, files, &asked, left, &mut given)?;
        lines = rest;
    }
    given.extend_from_slice(left)?;
    Ok(given)
}

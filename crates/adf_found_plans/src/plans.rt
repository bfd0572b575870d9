// The text of a plan of volumes that were found.

ghost use Rattle.std.specs.Prelude.{◌≡◌, ◌≤◌, IfOk, length, string_bytes, true};
ghost use Rattle.adf_found_plans.specs.FoundPlans.{AreFirstOf, IsPartitionOf, PlansVolumes};
ghost use Rattle.adf_partitions.specs.Plans.{IsPlan, cylinder_blocks, plan_value};

use crate::choice::FIRST_PLANNED;
use crate::cylinder::found_cylinder;
use crate::names::found_name;
use adf_names::{Kind, letters_of_type};
use adf_partitions::{
    DiskPlan, DriveName, FileSystem, FoundVolume, PartitionPlan, cylinder_blocks,
};
use adf_plans::{TextKind, read_plan};
use std::alloc::{AllocError, Global};

/// The lowest type of a volume with directory caches, `DOS\4`.
const FIRST_WITH_CACHES: u32 = 0x444F_5304;

/// Why there is no plan.
#[derive(Clone, Copy, Debug, PartialEq, Eq)]
pub enum NoPlan {
    /// The volumes are too many or too large for one, or have no cylinder in common.
    TooLarge,
    /// An allocation failed.
    NoMemory,
}

impl From<AllocError> for NoPlan {
    fn from(_e: AllocError) -> NoPlan {
        NoPlan::NoMemory
    }
}

// The file system of a volume of a type.
fn found_system(dos_type: u32) -> FileSystem {
    let kind = if dos_type % 2 == 0 {
        Kind::Ofs
    } else {
        Kind::Ffs
    };
    if dos_type < FIRST_WITH_CACHES {
        FileSystem::WithoutCaches(
            kind,
            letters_of_type(dos_type.saturating_sub(FIRST_PLANNED)),
        )
    } else {
        FileSystem::WithCaches(kind)
    }
}

// Appends the line of the partition of a volume.
fn push_partition(
    alloc: Global,
    text: &mut String,
    name: &DriveName,
    volume: &FoundVolume,
    cylinder: u64,
) -> Result<(), NoPlan>
    requires { 1 ≤ cylinder }
{
    text.push_str("partition ")?;
    if name.write(text).is_err() {
        return Err(NoPlan::NoMemory);
    }
    let system = found_system(volume.dos_type).text();
    let cylinders = volume.place.blocks / cylinder;
    let words = format!(in alloc; " {system} {cylinders} given\n")?;
    text.push_str(&words)?;
    Ok(())
}

// The text of the plan of volumes, each of which is given.
fn written(alloc: Global, volumes: &[FoundVolume]) -> Result<String, NoPlan> {
    let cylinder = found_cylinder(volumes);
    let mut text = format!(in alloc; "disk {cylinder} 1\n")?;
    for (i, volume) in volumes.iter().enumerate() {
        match found_name(alloc, &volumes[..i], volume)? {
            Some(name) => push_partition(alloc, &mut text, &name, volume, cylinder)?,
            None => return Err(NoPlan::TooLarge),
        }
    }
    text.push_str("end\n")?;
    Ok(text)
}

// Whether a partition of a plan is that of a volume.
fn is_partition_of(cylinder: u32, partition: &PartitionPlan, volume: &FoundVolume) -> bool
    ensures { result ≡ true → IsPartitionOf cylinder partition.now volume.now }
{
    partition.given
        && partition.system.planned_type() == volume.dos_type
        && u64::from(partition.cylinders) * u64::from(cylinder) == volume.place.blocks
}

// Whether the partitions of a plan are those of volumes.
#[tactic(auto, using(crate::proofs::Firsts::one_more))]
fn are_partitions_of(plan: &DiskPlan, volumes: &[FoundVolume]) -> bool
    requires { IsPlan (plan_value plan.now) }
    ensures count { result ≡ true → length plan.now.partitions.items ≡ length volumes.now }
    ensures each { result ≡ true → AreFirstOf (length volumes.now) (cylinder_blocks (plan_value plan.now)) plan.now.partitions.items volumes.now }
{
    let cylinder = cylinder_blocks(plan);
    if plan.partitions.len() != volumes.len() {
        return false;
    }
    for i in 0..volumes.len() {
        let (Some(partition), Some(volume)) = (plan.partitions.get(i), volumes.get(i)) else {
            return false;
        };
        if !is_partition_of(cylinder, partition, volume) {
            return false;
        }
    }
    true
}

// Whether a text is read as the plan of volumes.
fn is_read(alloc: Global, text: &[u8], volumes: &[FoundVolume]) -> Result<bool, AllocError>
    ensures { IfOk result (λ is. is ≡ true → PlansVolumes text.now volumes.now) }
{
    match read_plan(alloc, text) {
        Ok((plan, rest)) => {
            if !rest.is_empty() {
                return Ok(false);
            }
            Ok(are_partitions_of(&plan, volumes))
        }
        Err(fault) if fault.kind == TextKind::NoMemory => Err(AllocError),
        Err(_) => Ok(false),
    }
}

/// The text of the plan of volumes that were found, each of which is given: it is read as this plan. A cylinder has as many blocks, at
/// most 2,048, as divide each volume; a partition has the label of its volume as its name, if a word can be that and no volume before
/// has it, else `DH` and its number, from 0. `TooLarge` if no plan can have all of them, `NoMemory` if an allocation fails.
pub fn found_plan_text(alloc: Global, volumes: &[FoundVolume]) -> Result<String, NoPlan>
    ensures { IfOk result (λ text. PlansVolumes (string_bytes text) volumes.now) }
{
    let text = written(alloc, volumes)?;
    if is_read(alloc, text.as_bytes(), volumes)? {
        Ok(text)
    } else {
        Err(NoPlan::TooLarge)
    }
}

// Plans of hard disks.

ghost use Rattle.std.specs.Prelude.{◌≡◌};
ghost use Rattle.adf_partitions.specs.Plans.{IsPlan, cylinder_blocks, planned_cylinders, planned_flags};
ghost use Rattle.adf_partitions.specs.Plans.{table_cylinders, plan_value};

use crate::file_system::FileSystem;
use crate::layout::BOOTABLE;
use crate::partition::DriveName;

/// A partition to be made.
#[derive(Drop)]
pub struct PartitionPlan {
    pub name: DriveName,
    pub system: FileSystem,
    pub cylinders: u32,
    pub bootable: bool,
    pub priority: i8,
    /// Whether its volume is given; else it is a new one.
    pub given: bool,
}

/// A hard disk to be made. A cylinder has `heads` tracks of `sectors` blocks. The tables come first, then the volumes of the
/// partitions, one behind the other in whole cylinders.
#[derive(Drop)]
pub struct DiskPlan {
    pub sectors: u32,
    pub heads: u32,
    pub partitions: Vec<PartitionPlan>,
}

/// The flags of a partition.
pub fn planned_flags(partition: &PartitionPlan) -> u32
    ensures { result ≡ planned_flags partition.now }
{
    if partition.bootable { BOOTABLE } else { 0 }
}

/// The blocks of a cylinder.
#[tactic(auto, using(crate::proofs::PlanSizes::cylinder_fits))]
pub fn cylinder_blocks(plan: &DiskPlan) -> u32
    requires { IsPlan (plan_value plan.now) }
    ensures { result ≡ cylinder_blocks (plan_value plan.now) }
{
    plan.heads * plan.sectors
}

/// The cylinders of the tables.
#[tactic(auto, using(crate::proofs::PlanSizes::some_blocks, crate::proofs::PlanSizes::kept_fit))]
pub fn table_cylinders(plan: &DiskPlan) -> u32
    requires { IsPlan (plan_value plan.now) }
    ensures { result ≡ table_cylinders (plan_value plan.now) }
{
    let cylinder = u64::from(cylinder_blocks(plan));
    ((plan.partitions.len() as u64 + cylinder) / cylinder) as u32
}

/// The cylinders of the disk.
#[tactic(auto, using(crate::proofs::PlanSizes::cylinder_sums))]
pub fn planned_cylinders(plan: &DiskPlan) -> u32
    requires { IsPlan (plan_value plan.now) }
    ensures { result ≡ planned_cylinders (plan_value plan.now) }
{
    let mut cylinders = table_cylinders(plan);
    for partition in &plan.partitions {
        cylinders += partition.cylinders;
    }
    cylinders
}

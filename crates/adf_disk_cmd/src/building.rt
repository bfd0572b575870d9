// The command `build`.

ghost use Rattle.std.specs.Prelude.{◌≡◌, ◌≢◌, ◌≤◌, ◌*◌, ℕ, [], false, length, true, List, Option, IfOk, OnErr, OnOk};
ghost use Rattle.std.specs.{Io.KnownBytes.Appends, List.list_all};
ghost use Rattle.adf_blocks.specs.Sizes.{is_allowed};
ghost use Rattle.adf_disk_cmd.specs.Builds.{AnswersPlan, BuildsDisk, HasPlanned, IsFrontOfDisk, IsPlannedVolume, IsPartOfVolume, RefusesPlan, behind_volume, given_bytes};
ghost use Rattle.adf_disk_cmd.specs.Replies.{WritesOutput};
ghost use Rattle.adf_partitions.specs.Plans.{AreTablesOfPlan, IsPlan, cylinder_blocks, plan_value};
ghost use Rattle.adf_plans.specs.PlanTexts.{HasNoPlan, has_volume, is_plan};
ghost use Rattle.adf_plans.specs.declared.plan_text.TextKind.{TextKind};
ghost use Rattle.adf_runs.specs.Streams.{AppendsPart, is_device, seen};
ghost use Rattle.adf_runs.specs.Outcomes.{Blames, Does, DoesSilently, EndsBy};

use crate::new_volumes::new_volume;
use adf_base::BLOCK_LEN;
use adf_partitions::{DiskPlan, PartitionPlan, cylinder_blocks, write_tables};
use adf_plans::{TextFault, TextKind, read_plan};
use adf_runs::{Outcome, Sink, StreamFault, write_all};
use std::alloc::Global;

// How many bytes the given volumes have.
fn given_bytes(plan: &DiskPlan) -> usize
    requires { IsPlan (plan_value plan.now) }
    ensures { result ≡ given_bytes (plan_value plan.now) }
{
    let mut cylinders = 0;
    for partition in &plan.partitions {
        if partition.given {
            cylinders += partition.cylinders;
        }
    }
    cylinders as usize * cylinder_blocks(plan) as usize * BLOCK_LEN
}

// Writes the volume of a partition of so many blocks: the first of the given bytes, or a new one. Returns the given bytes
// behind it.
fn write_volume<'a, W: Sink>(
    alloc: Global,
    partition: &PartitionPlan,
    blocks: u32,
    given: &'a [u8],
    output: &mut W,
) -> Result<&'a [u8], StreamFault>
    requires works { W.has_failed output.old ≡ false }
    requires enough { partition.now.given ≡ true → blocks * 512 ≤ length given.now }
    requires size { partition.now.given ≡ false → is_allowed blocks ≡ true }
    requires label { partition.now.given ≡ false → length partition.now.name ≤ 30 }
    ensures volume { OnOk result ((v : List ℕ) × IsPlannedVolume blocks partition.now given.now v
        × Appends (W.held output.old) (W.held output.new) v) }
    ensures rest { IfOk result (λ rest. rest.now ≡ behind_volume blocks partition.now given.now) }
    ensures part { OnErr result (IsPartOfVolume blocks partition.now given.now (W.has_failed output.new)
        (W.held output.old) (W.held output.new)) }
    ensures failed { W.has_failed output.new ≡ is_device result }
{
    if partition.given {
        let len = blocks as usize * BLOCK_LEN;
        write_all(output, &given[..len])?;
        return Ok(&given[len..]);
    }
    let volume = new_volume(alloc, partition, blocks)?;
    write_all(output, &volume)?;
    Ok(given)
}

// Writes the disk of a plan behind its tables, and holds one of its new volumes at a time.
fn write_disk<W: Sink>(
    alloc: Global,
    plan: &DiskPlan,
    tables: &[u8],
    given: &[u8],
    output: &mut W,
) -> Result<(), StreamFault>
    requires works { W.has_failed output.old ≡ false }
    requires plan { IsPlan (plan_value plan.now) }
    requires tables { AreTablesOfPlan (plan_value plan.now) tables.now }
    requires volumes { list_all (has_volume (cylinder_blocks (plan_value plan.now)))
        plan.now.partitions.items ≡ true }
    requires enough { length given.now ≡ given_bytes (plan_value plan.now) }
    ensures ok { OnOk result ((disk : List ℕ) × HasPlanned (plan_value plan.now) given.now disk
        × Appends (W.held output.old) (W.held output.new) disk) }
    ensures part { OnErr result ((front : List ℕ) × IsFrontOfDisk (plan_value plan.now) given.now front
        × AppendsPart (W.has_failed output.new) (W.held output.old) (W.held output.new) front) }
    ensures failed { W.has_failed output.new ≡ is_device result }
{
    let cylinder = cylinder_blocks(plan);
    write_all(output, tables)?;
    let mut left = given;
    for partition in &plan.partitions {
        let blocks = partition.cylinders * cylinder;
        left = write_volume(alloc, partition, blocks, left, output)?;
    }
    Ok(())
}

// Tells on errors that there are other bytes than those of the given volumes.
fn refuse_given(alloc: Global, need: usize, have: usize) -> Outcome
    ensures { DoesSilently (WritesOutput 1 []) result }
{
    match format!(in alloc; "given: need {need}, have {have}\n") {
        Ok(line) => Outcome::Refused(line),
        Err(_) => Outcome::NoMemory,
    }
}

/// Writes the disk of a plan, unless other bytes are there than those of its given volumes.
pub fn write_plan<W: Sink>(alloc: Global, plan: &DiskPlan, given: &[u8], output: &mut W) -> Outcome
    requires works { W.has_failed output.old ≡ false }
    requires plan { IsPlan (plan_value plan.now) }
    requires good { is_plan (plan_value plan.now) ≡ true }
    ensures { Does (AnswersPlan (plan_value plan.now) given.now) result (seen W.held W.has_failed output.old output.new) }
{
    let need = given_bytes(plan);
    let have = given.len();
    if have != need {
        return refuse_given(alloc, need, have);
    }
    let Ok(tables) = write_tables(alloc, plan) else {
        return Outcome::NoMemory;
    };
    match write_disk(alloc, plan, &tables, given, output) {
        Ok(()) => Outcome::Done,
        Err(fault) => Outcome::after_writing(fault),
    }
}

/// Tells the fault of a text on errors.
pub fn refuse_text(alloc: Global, fault: TextFault) -> Outcome
    ensures ends { (text : List ℕ) → (fault.kind ≢ TextKind.NoMemory → HasNoPlan text)
        → (held : Option (List ℕ)) → EndsBy (RefusesPlan text) result held held }
    ensures blames { Blames result false false }
{
    if let TextKind::NoMemory = fault.kind {
        return Outcome::NoMemory;
    }
    match format!(in alloc; "{fault}\n") {
        Ok(line) => Outcome::Refused(line),
        Err(_) => Outcome::NoMemory,
    }
}

/// Builds the disk of a plan: its text comes first, then the bytes of the given volumes.
pub fn build_disk<W: Sink>(alloc: Global, text: &[u8], output: &mut W) -> Outcome
    requires { W.has_failed output.old ≡ false }
    ensures { Does (BuildsDisk text.now) result (seen W.held W.has_failed output.old output.new) }
{
    match read_plan(alloc, text) {
        Ok((plan, given)) => write_plan(alloc, &plan, given, output),
        Err(fault) => refuse_text(alloc, fault),
    }
}

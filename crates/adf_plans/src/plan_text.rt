// The text of a plan.

ghost use Rattle.std.specs.Prelude.{◌≡◌, ◌≢◌, ◌≤◌, ◌*◌, ◌^◌, ℕ, List, IfErr, IfNone, IfOk, IfSome, false, length, nat_lt, true};
ghost use Rattle.std.specs.List.{list_all};
ghost use Rattle.adf_blocks.specs.Sizes.{is_allowed};
ghost use Rattle.adf_partitions.specs.{FileSystems.planned_type, FileSystems.system_text};
ghost use Rattle.adf_partitions.specs.Plans.{IsPlan, cylinder_blocks, plan_value, planned_blocks};
ghost use Rattle.adf_plans.specs.PlanTexts.{AreLines, HasNoPartition, HasNoPlan, IsPartitionText, IsText, TextsHaveOnePlan};
ghost use Rattle.adf_plans.specs.PlanTexts.{ends_plan, has_cache_room, has_size, has_volume, kind_word};
ghost use Rattle.adf_partitions.specs.{declared.layout.TheConstants.MOST_PARTITIONS, declared.plan.PartitionPlan.PartitionPlan};
ghost use Rattle.adf_plans.specs.declared.plan_text.TextKind.{TextKind};

use crate::plan_line::{read_disk, read_partition};
use crate::plan_words::cut_line;
use adf_blocks::MOST_BLOCKS;
use adf_partitions::{DiskPlan, FileSystem, MOST_PARTITIONS, PartitionPlan};
use std::alloc::{AllocError, Global};
use std::fmt;

/// What is wrong with a text.
#[derive(Clone, Copy, Debug, PartialEq, Eq)]
pub enum TextKind {
    /// The line has no form that is allowed at its place.
    BadLine = 1,
    /// The text ends before a line `end`.
    NoEnd = 2,
    /// No disk has so many sectors, heads, partitions or blocks.
    TooLarge = 3,
    /// An allocation failed.
    NoMemory = 4,
    /// No new volume has so many blocks.
    BadVolume = 5,
    /// No new volume has so long a name.
    LongName = 6,
    /// No new volume with directory caches has so few blocks.
    FewBlocks = 7,
}

/// The fewest blocks of a new volume with directory caches: the boot blocks, the root, a bitmap page, and the cache of the root; their
/// number is even.
pub const FEWEST_WITH_CACHES: u64 = 6;

impl TextKind {
    /// The text of the kind as printed.
    pub fn text(self) -> &'static str {
        match self {
            TextKind::BadLine => "bad line",
            TextKind::NoEnd => "no end",
            TextKind::TooLarge => "too large, or without sectors or heads",
            TextKind::NoMemory => "no memory",
            TextKind::BadVolume => "a new volume has an even number of blocks, 4 to 8388608",
            TextKind::LongName => "the name of a new volume has 30 bytes at most",
            TextKind::FewBlocks => "a new volume with directory caches has 6 blocks at least",
        }
    }
}

impl fmt::Display for TextKind {
    fn fmt<W: fmt::Write>(&self, f: &mut fmt::Formatter<W>) -> fmt::Result {
        f.write_str(self.text())
    }
}

/// The first line with a fault, counted from 1, and its kind.
#[derive(Clone, Copy, Debug, PartialEq, Eq)]
pub struct TextFault {
    pub line: usize,
    pub kind: TextKind,
}

impl fmt::Display for TextFault {
    fn fmt<W: fmt::Write>(&self, f: &mut fmt::Formatter<W>) -> fmt::Result {
        let line = self.line;
        let kind = self.kind;
        write!(f, "line {line}: {kind}")
    }
}

// A fault of a line.
fn fault_at(line: usize, kind: TextKind) -> TextFault
    ensures { result.kind ≡ kind }
{
    TextFault { line, kind }
}

// The partitions whose lines stand first, and the text behind them.
#[tactic(auto, using(crate::proofs::TextLines::line_taken, crate::proofs::TextLines::line_added))]
fn read_lines(alloc: Global, text: &[u8]) -> Result<(Vec<PartitionPlan>, &[u8]), AllocError>
    ensures lines { IfOk result (λ r. AreLines text.now r.0.items r.1.now) }
    ensures stops { IfOk result (λ r. HasNoPartition r.1.now) }
{
    let mut partitions = Vec::new(alloc);
    let mut left = text;
    loop {
        let (line, rest) = cut_line(left);
        match read_partition(line) {
            Some(partition) => partitions.push(partition)?,
            None => return Ok((partitions, left)),
        }
        left = rest;
    }
}

// Whether a new volume may have the size of a partition.
fn is_allowed(partition: &PartitionPlan, cylinder: u64) -> bool
    ensures { result ≡ is_allowed (partition.now.cylinders * cylinder) }
{
    match u64::from(partition.cylinders).checked_mul(cylinder) {
        Some(blocks) => 4 <= blocks && blocks <= u64::from(MOST_BLOCKS) && blocks % 2 == 0,
        None => false,
    }
}

// Whether a new volume has a block for the directory cache of its root, if it has caches.
fn has_cache_room(partition: &PartitionPlan, cylinder: u64) -> bool
    ensures { result ≡ has_cache_room partition.now.system (partition.now.cylinders * cylinder) }
{
    match partition.system {
        FileSystem::WithoutCaches(_, _) => true,
        FileSystem::WithCaches(_) => {
            match u64::from(partition.cylinders).checked_mul(cylinder) {
                Some(blocks) => FEWEST_WITH_CACHES <= blocks,
                None => true,
            }
        }
    }
}

// Why a partition has no volume, if it has none.
fn volume_fault(partition: &PartitionPlan, cylinder: u64) -> Option<TextKind>
    ensures none { IfNone result (has_volume cylinder partition.now ≡ true) }
    ensures some { IfSome result (λ _. has_volume cylinder partition.now ≡ false) }
    ensures memory { IfSome result (λ kind. kind ≢ TextKind.NoMemory) }
{
    if partition.given {
        None
    } else if !is_allowed(partition, cylinder) {
        Some(TextKind::BadVolume)
    } else if !has_cache_room(partition, cylinder) {
        Some(TextKind::FewBlocks)
    } else if partition.name.bytes().len() <= 30 {
        None
    } else {
        Some(TextKind::LongName)
    }
}

// The first of these partitions without a volume, if there is one: its line, and why. The first partition has line 2.
#[tactic(auto, using(std::proofs::lemmas::List::Folds::list_all_more, std::proofs::lemmas::List::Folds::list_all_at))]
fn first_volume_fault(partitions: &[PartitionPlan], cylinder: u64) -> Option<TextFault>
    requires { length partitions.now ≤ MOST_PARTITIONS }
    ensures none { IfNone result (list_all (has_volume cylinder) partitions.now ≡ true) }
    ensures some { IfSome result (λ _. list_all (has_volume cylinder) partitions.now ≡ false) }
    ensures memory { IfSome result (λ fault. fault.kind ≢ TextKind.NoMemory) }
{
    for i in 0..partitions.len() {
        if let Some(kind) = volume_fault(&partitions[i], cylinder) {
            return Some(fault_at(i + 2, kind));
        }
    }
    None
}

// Whether a disk of this plan has fewer blocks than 2^32.
#[tactic(auto, using(adf_partitions::proofs::PlanSizes::cylinder_sums))]
fn is_small(plan: &DiskPlan, cylinder: u64) -> bool
    requires positive { 1 ≤ cylinder }
    requires few { length plan.now.partitions.items ≤ MOST_PARTITIONS }
    requires cylinder { cylinder ≡ cylinder_blocks (plan_value plan.now) }
    ensures { result ≡ nat_lt (planned_blocks (plan_value plan.now)) (2 ^ 32) }
{
    if 1 << 32 <= cylinder {
        return false;
    }
    let mut cylinders = (plan.partitions.len() as u64 + cylinder) / cylinder;
    for partition in &plan.partitions {
        cylinders += u64::from(partition.cylinders);
    }
    match cylinders.checked_mul(cylinder) {
        Some(blocks) => blocks < 1 << 32,
        None => false,
    }
}

// Whether a disk has so many sectors, heads, partitions and blocks.
fn has_size(plan: &DiskPlan) -> bool
    ensures { result ≡ has_size (plan_value plan.now) }
{
    if plan.sectors < 1 || plan.heads < 1 || MOST_PARTITIONS < plan.partitions.len() {
        return false;
    }
    is_small(plan, u64::from(plan.heads) * u64::from(plan.sectors))
}

// What is wrong at the line behind those of a plan, or else with the volume of a partition, if something is.
#[tactic(auto, using(crate::proofs::OnePlan::no_end_in_nothing))]
fn plan_fault(plan: &DiskPlan, end: &[u8]) -> Option<TextFault>
    ensures none { IfNone result (ends_plan (plan_value plan.now) end.now ≡ true) }
    ensures some { IfSome result (λ _. ends_plan (plan_value plan.now) end.now ≡ false) }
    ensures memory { IfSome result (λ fault. fault.kind ≢ TextKind.NoMemory) }
{
    let (line, _rest) = cut_line(end);
    let kind = if end.is_empty() {
        TextKind::NoEnd
    } else if line != b"end".as_slice() {
        TextKind::BadLine
    } else if !has_size(plan) {
        TextKind::TooLarge
    } else {
        let cylinder = u64::from(plan.heads) * u64::from(plan.sectors);
        return first_volume_fault(&plan.partitions, cylinder);
    };
    Some(fault_at(plan.partitions.len() + 2, kind))
}

/// Reads the text of a plan, whose lines end in a line feed, with one space between their words: a line `disk SECTORS HEADS`,
/// a line `partition NAME KIND CYLINDERS` for each partition, perhaps with `bootable`, `priority P` and `given` behind it in
/// this order, and a line `end`. Returns the plan, and the bytes behind the text. KIND is `ofs` or `ffs`, or one of these with
/// `-international` or `-cached` behind it. A number is at most 1,048,576, P is -128 to 127.
///
/// The first line with a fault, and then the text has no plan; `NoMemory`, at line 0, if an allocation fails.
pub fn read_plan(alloc: Global, text: &[u8]) -> Result<(DiskPlan, &[u8]), TextFault>
    ensures text { IfOk result (λ r. IsText text.now (plan_value r.0) r.1.now) }
    ensures plan { IfOk result (λ r. IsPlan (plan_value r.0)) }
    ensures none { IfErr result (λ f. f.kind ≢ TextKind.NoMemory → HasNoPlan text.now) }
{
    let (line, rest) = cut_line(text);
    let Some((sectors, heads)) = read_disk(line) else {
        return Err(fault_at(1, TextKind::BadLine));
    };
    let Ok((partitions, end)) = read_lines(alloc, rest) else {
        return Err(fault_at(0, TextKind::NoMemory));
    };
    let plan = DiskPlan {
        sectors,
        heads,
        partitions,
    };
    match plan_fault(&plan, end) {
        Some(fault) => Err(fault),
        None => Ok((plan, cut_line(end).1)),
    }
}

/// The line of a partition has the word for its file system, and partitions of one type have the same.
pub fn words_tell_file_systems()
    ensures word { (text : List ℕ) (p : PartitionPlan) → IsPartitionText text p
        → kind_word text ≡ system_text p.system }
    ensures types { (p q : PartitionPlan) → planned_type p.system ≡ planned_type q.system
        → p.system ≡ q.system }
{}

/// A text has one plan at most.
pub fn one_text()
    ensures { TextsHaveOnePlan }
{}

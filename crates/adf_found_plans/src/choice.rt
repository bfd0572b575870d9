// The choice of those of the volumes found on a disk that a plan can have.

ghost use Rattle.std.specs.Prelude.{◌≡◌, All, IfOk, OnOk};
ghost use Rattle.adf_found_plans.specs.FoundPlans.{IsOneOf};

use adf_names::Label;
use adf_partitions::{FoundVolume, MOST_PARTITIONS, Place};
use std::alloc::{AllocError, Global};

/// The lowest type of a volume, `DOS\0`.
pub const FIRST_PLANNED: u32 = 0x444F_5300;

/// The highest type that a word of a plan names, `DOS\5`.
pub const LAST_PLANNED: u32 = 0x444F_5305;

/// A choice of volumes that were found.
#[derive(Drop)]
pub struct Choice {
    /// Of each volume that was found, whether it was chosen.
    marks: Vec<bool>,
    /// The volumes that were chosen, in the order of their first blocks. No two of them have a block in common.
    pub volumes: Vec<FoundVolume>,
}

/// A volume that can be chosen: its first block, its number among those that were found, from 0, and how many blocks it has.
#[derive(Clone, Copy, Debug, PartialEq, Eq, PartialOrd, Ord)]
struct Candidate {
    first: u64,
    number: usize,
    blocks: u64,
}

// Whether a place ends at a block, or before it.
fn ends_by(place: Place, block: u64) -> bool {
    place.first <= block && place.blocks <= block - place.first
}

// Whether a volume can be in a plan of a disk of so many blocks.
fn can_be_planned(volume: &FoundVolume, blocks: u64) -> bool {
    1 <= volume.place.blocks
        && ends_by(volume.place, blocks)
        && FIRST_PLANNED <= volume.dos_type
        && volume.dos_type <= LAST_PLANNED
}

// The volumes that can be chosen, in the order of their first blocks.
fn candidates(
    alloc: Global,
    volumes: &[FoundVolume],
    blocks: u64,
) -> Result<Vec<Candidate>, AllocError> {
    let mut found = Vec::new(alloc);
    for (number, volume) in volumes.iter().enumerate() {
        if can_be_planned(volume, blocks) {
            let Place { first, blocks } = volume.place;
            found.push(Candidate {
                first,
                number,
                blocks,
            })?;
        }
    }
    found.sort()?;
    Ok(found)
}

// A copy of a volume that was found.
fn copy_of(volume: &FoundVolume) -> FoundVolume
    ensures { result ≡ volume.now }
{
    FoundVolume {
        place: volume.place,
        dos_type: volume.dos_type,
        label: Label::new(volume.label.bytes()).unwrap(),
        fault: volume.fault,
    }
}

impl Choice {
    /// Whether the volume with this number, from 0, was chosen.
    pub fn has(&self, number: usize) -> bool {
        self.marks.get(number).copied().unwrap_or(false)
    }
}

// Whether candidate `i` is the last of those with its first block.
fn is_last(order: &[Candidate], i: usize) -> bool {
    match (order.get(i), order.get(i.saturating_add(1))) {
        (Some(one), Some(next)) => one.first != next.first,
        _ => true,
    }
}

// Adds the volume with a number to those that were chosen.
#[tactic(auto, using(crate::proofs::Firsts::found_more))]
fn push_found(
    chosen: &mut Vec<FoundVolume>,
    found: &[FoundVolume],
    number: usize,
) -> Result<(), AllocError>
    requires { All (IsOneOf found.now) chosen.old.items }
    ensures { OnOk result (All (IsOneOf found.now) chosen.new.items) }
{
    let Some(volume) = found.get(number) else {
        return Ok(());
    };
    chosen.push(copy_of(volume))?;
    Ok(())
}

// Marks the volume with a number.
fn set_mark(marks: &mut Vec<bool>, number: usize) {
    if let Some(mark) = marks.get_mut(number) {
        *mark = true;
    }
}

/// The choice of those of the volumes found on a disk of so many blocks that a plan can have, at most 1,024: from its first block
/// on the last that begins there, ends on the disk, has a type of 0 to 5 and no block of one that was chosen before. The last of
/// those with one first block is the largest, since its root is the last. `AllocError` if an allocation fails.
pub fn choose(alloc: Global, found: &[FoundVolume], blocks: u64) -> Result<Choice, AllocError>
    ensures { IfOk result (λ c. All (IsOneOf found.now) c.volumes.items) }
{
    let order = candidates(alloc, found, blocks)?;
    let mut marks = vec![in alloc; false; found.len()]?;
    let mut volumes = Vec::new(alloc);
    let mut last = Place {
        first: 0,
        blocks: 0,
    };
    for (i, candidate) in order.iter().enumerate() {
        let Candidate {
            first,
            number,
            blocks,
        } = *candidate;
        if !is_last(&order, i) || !ends_by(last, first) || MOST_PARTITIONS <= volumes.len() {
            continue;
        }
        push_found(&mut volumes, found, number)?;
        set_mark(&mut marks, number);
        last = Place { first, blocks };
    }
    Ok(Choice { marks, volumes })
}

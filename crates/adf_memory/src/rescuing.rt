// Rescues into the memory of the caller.

ghost use Rattle.std.specs.Prelude.{◌≡◌, ◌≤◌, ◌*◌, ◌<◌, List, ℕ, Err, IfErr, IfOk, IfSome, Ok, OnErr, OnOk, length};
ghost use Rattle.adf_boot_blocks.specs.declared.boot.TheConstants.{BOOT_LEN};
ghost use Rattle.adf_build.specs.Building.{IsBuildable};
ghost use Rattle.adf_keep.specs.Rescued.{IsOwnTree};
ghost use Rattle.adf_memory.specs.Rescuing.{ExplainsRescue, GivesVolume, HasRescue, IsReadyOf, IsRescueOf, IsRoomRefusal, IsVolumeOf};
ghost use Rattle.adf_memory.specs.Rescuing.{rescue_number, rescue_told, sized};
ghost use Rattle.adf_memory.specs.{Rooms.filled, SurveyCalls.RescuesVolume};
ghost use Rattle.adf_memory.specs.declared.rescuing.RescueRefusal.{RescueRefusal as ARescueRefusal};

use crate::losses::{TableLoss, table_of};
use crate::tables::put_all;
use adf_base::{BLOCK_LEN, NoMemory};
use adf_blocks::Cause;
use adf_boot_blocks::{BOOT_LEN, restore};
use adf_build::build_into;
use adf_judge::{Judgement, Question, Refusal, judge};
use adf_keep::{Prepared, RescueTerms, Unrescued, accepted, prepare};
use adf_report::{Loss, Report, RescueResult};
use adf_tree::Tree;
use adf_volume::{Fault, Types, fault_at};
use std::alloc::Global;

/// What is told of a rescue beside its number. Fields that do not apply are 0.
#[repr(C)]
#[derive(Clone, Copy)]
pub struct RescueTold {
    /// All rows of losses.
    pub losses: usize,
    /// The bytes of all paths.
    pub paths: usize,
    /// All blocks of the new volume, including the two boot blocks.
    pub blocks: u32,
    /// The block of the first fault of the image.
    pub block: u32,
}

/// Why no volume is written.
#[derive(Clone, Copy)]
pub enum RescueRefusal {
    /// Nothing exists on the image, which has this first fault.
    Fault(Fault),
    /// The room is smaller than the volume, which has so many blocks.
    SmallRoom(u32),
    /// An allocation failed.
    NoMemory,
}

/// A rescue of which only the new volume is to be laid, the boot blocks that are put into that, and what is told of it.
#[derive(Drop)]
pub struct Ready {
    pub prepared: Prepared,
    pub boot: Vec<u8>,
    pub losses: Vec<Loss>,
}

/// An image that is rescued as it is, or if `blocks` is not 0, as if it had so many blocks; and the types that the new volume may
/// have.
#[derive(Clone, Copy)]
pub struct RescueInput<'a> {
    pub image: &'a [u8],
    pub blocks: u32,
    pub types: Types,
}

impl RescueRefusal {
    // The number of the refusal, above 0.
    fn number(self) -> u8
        ensures exact { result ≡ rescue_number self }
        ensures some { 0 < result }
    {
        match self {
            RescueRefusal::Fault(fault) => fault.cause.number(),
            RescueRefusal::SmallRoom(_) => 24,
            RescueRefusal::NoMemory => 23,
        }
    }

    // What is told of the refusal.
    fn told(self) -> RescueTold
        ensures { result ≡ rescue_told self }
    {
        let (blocks, block) = match self {
            RescueRefusal::Fault(fault) => (0, fault.block),
            RescueRefusal::SmallRoom(blocks) => (blocks, 0),
            RescueRefusal::NoMemory => (0, 0),
        };
        RescueTold {
            losses: 0,
            paths: 0,
            blocks,
            block,
        }
    }
}

/// The number of blocks that is meant: 0 for as many as the image has.
pub fn asked_blocks(blocks: u32) -> Option<u32> {
    match blocks {
        0 => None,
        _ => Some(blocks),
    }
}

// The boot blocks of an image, with zeros for what is not there.
fn boot_of(alloc: Global, image: &[u8]) -> Result<Vec<u8>, NoMemory>
    ensures { IfOk result (λ boot. boot.items ≡ sized BOOT_LEN image.now) }
{
    let mut boot = [0; BOOT_LEN];
    put_all(&mut boot, image);
    Ok(Vec::from_slice(alloc, &boot)?)
}

// The rescue of an image that is accepted as it is, if it has as many blocks as are asked for.
fn accepted_as_asked(alloc: Global, input: RescueInput<'_>) -> Result<Option<Prepared>, NoMemory>
    ensures { IfOk result (λ o. IfSome o (IsOwnTree input.entry.types input.entry.image.now)) }
{
    if input.blocks != 0 && input.blocks as usize * BLOCK_LEN != input.image.len() {
        return Ok(None);
    }
    accepted(alloc, input.image, input.types)
}

// A rescue that is ready, with the boot blocks of the image.
fn ready_with(
    alloc: Global,
    input: RescueInput<'_>,
    prepared: Prepared,
    losses: Vec<Loss>,
) -> Result<Ready, Unrescued>
    requires rescue { IsRescueOf input.types input.image.now prepared }
    requires room { IsBuildable prepared.tree prepared.blocks }
    ensures { IfOk result (IsReadyOf input.entry.types input.entry.image.now) }
{
    let boot = boot_of(alloc, input.image)?;
    Ok(Ready {
        prepared,
        boot,
        losses,
    })
}

// All that is not in the volume of a rescue, or in doubt there: it has no links.
fn losses_of(
    alloc: Global,
    judgement: &Judgement<'_>,
    prepared: &Prepared,
) -> Result<Vec<Loss>, NoMemory> {
    let result = RescueResult {
        left_out: &prepared.left_out,
        deleted_out: &prepared.deleted_out,
        deleted_directory: &prepared.deleted_directory,
        laid_links: &[],
    };
    let report = Report::of(alloc, judgement)?;
    Ok(report.losses(alloc, &result)?)
}

// Prepares the rescue of what is judged to exist on an image.
fn ready_of(
    alloc: Global,
    input: RescueInput<'_>,
    judgement: &Judgement<'_>,
) -> Result<Ready, Unrescued>
    ensures { IfOk result (IsReadyOf input.entry.types input.entry.image.now) }
{
    let terms = RescueTerms {
        types: input.types,
        with_deleted: false,
    };
    let prepared = prepare(alloc, input.image, judgement, terms)?;
    let losses = losses_of(alloc, judgement, &prepared)?;
    ready_with(alloc, input, prepared, losses)
}

// The fault of an image that is not judged.
fn fault_of(refusal: Refusal) -> Fault {
    match refusal {
        Refusal::BadSize => fault_at(0, Cause::BadSize),
        Refusal::LongNames => fault_at(0, Cause::NotDos),
    }
}

// Judges an image, and prepares its rescue.
fn ready_judged(alloc: Global, input: RescueInput<'_>) -> Result<Ready, Unrescued>
    ensures { IfOk result (IsReadyOf input.entry.types input.entry.image.now) }
{
    let question = Question {
        blocks: asked_blocks(input.blocks),
        unread: &[],
    };
    match judge(alloc, input.image, &question)? {
        Ok(judgement) => ready_of(alloc, input, &judgement),
        Err(refusal) => Err(Unrescued::Refused(fault_of(refusal))),
    }
}

// Prepares the rescue of an image.
fn ready_image(alloc: Global, input: RescueInput<'_>) -> Result<Ready, Unrescued>
    ensures { IfOk result (IsReadyOf input.entry.types input.entry.image.now) }
{
    match accepted_as_asked(alloc, input)? {
        Some(prepared) => ready_with(alloc, input, prepared, Vec::new(alloc)),
        None => ready_judged(alloc, input),
    }
}

// Lays the volume of a tree that fits in so many blocks into a room of as many bytes, with these boot blocks.
fn lay_in(
    alloc: Global,
    tree: &Tree,
    blocks: u32,
    boot: &[u8],
    room: &mut [u8],
) -> Result<(), NoMemory>
    requires size { length room.old ≡ blocks * 512 }
    requires boot { BOOT_LEN ≤ length boot.now }
    ensures volume { OnOk result (IsVolumeOf tree.now blocks boot.now room.new) }
    ensures unchanged { OnErr result (room.new ≡ room.old) }
{
    match build_into(alloc, tree, blocks, room) {
        Ok(()) => {
            restore(room, boot);
            Ok(())
        }
        Err(_) => Err(NoMemory),
    }
}

// Lays such a volume at the front of a room.
fn lay_in_front(
    alloc: Global,
    tree: &Tree,
    blocks: u32,
    boot: &[u8],
    room: &mut [u8],
) -> Result<(), RescueRefusal>
    requires boot { BOOT_LEN ≤ length boot.now }
    ensures volume { OnOk result ((volume : List ℕ) × IsVolumeOf tree.now blocks boot.now volume
        × (room.new ≡ filled volume room.old)) }
    ensures fault { IfErr result (IsRoomRefusal blocks (length room.old)) }
    ensures unchanged { OnErr result (room.new ≡ room.old) }
{
    let count = blocks as usize * BLOCK_LEN;
    if room.len() < count {
        return Err(RescueRefusal::SmallRoom(blocks));
    }
    match lay_in(alloc, tree, blocks, boot, &mut room[..count]) {
        Ok(()) => Ok(()),
        Err(_) => Err(RescueRefusal::NoMemory),
    }
}

// Lays the volume of a rescue at the front of a room, and then fills the table of what is not in it, or in doubt there.
fn put_rescue(
    alloc: Global,
    ready: &Ready,
    room: &mut [u8],
    losses: &mut [TableLoss],
    paths: &mut [u8],
) -> Result<RescueTold, RescueRefusal>
    requires { BOOT_LEN ≤ length ready.now.boot.items }
    ensures volume { IfOk result (HasRescue
        (IsVolumeOf ready.now.prepared.tree ready.now.prepared.blocks ready.now.boot.items)
        room.old room.new losses.old losses.new paths.old paths.new) }
    ensures fault { IfErr result (IsRoomRefusal ready.now.prepared.blocks (length room.old)) }
    ensures unchanged { OnErr result
        ((room.new ≡ room.old) × (losses.new ≡ losses.old) × (paths.new ≡ paths.old)) }
{
    let Ok(table) = table_of(alloc, &ready.losses) else {
        return Err(RescueRefusal::NoMemory);
    };
    let blocks = ready.prepared.blocks;
    lay_in_front(alloc, &ready.prepared.tree, blocks, &ready.boot, room)?;
    put_all(losses, &table.rows);
    put_all(paths, &table.paths);
    Ok(RescueTold {
        losses: table.rows.len(),
        paths: table.paths.len(),
        blocks,
        block: 0,
    })
}

// Rescues an image into the rooms.
fn rescue_into(
    alloc: Global,
    input: RescueInput<'_>,
    room: &mut [u8],
    losses: &mut [TableLoss],
    paths: &mut [u8],
) -> Result<RescueTold, RescueRefusal>
    ensures volume { IfOk result (HasRescue (GivesVolume input.entry.types input.entry.image.now)
        room.old room.new losses.old losses.new paths.old paths.new) }
    ensures fault { IfErr result (ExplainsRescue input.entry.types input.entry.image.now (length room.old)) }
    ensures unchanged { OnErr result
        ((room.new ≡ room.old) × (losses.new ≡ losses.old) × (paths.new ≡ paths.old)) }
{
    match ready_image(alloc, input) {
        Ok(ready) => put_rescue(alloc, &ready, room, losses, paths),
        Err(Unrescued::Refused(fault)) => Err(RescueRefusal::Fault(fault)),
        Err(Unrescued::NoMemory) => Err(RescueRefusal::NoMemory),
    }
}

// Tells of a rescue, and answers its number.
fn tell(rescued: Result<RescueTold, RescueRefusal>, told: &mut RescueTold) -> u8
    ensures done { result ≡ 0 → rescued ≡ Ok told.new }
    ensures refused { ¬ (result ≡ 0)
        → (r : ARescueRefusal) × (result ≡ rescue_number r) × (told.new ≡ rescue_told r) × (rescued ≡ Err r) }
{
    match rescued {
        Ok(rescue) => {
            *told = rescue;
            0
        }
        Err(refusal) => {
            *told = refusal.told();
            refusal.number()
        }
    }
}

/// Rescues an image: writes the new volume of all that exists on it to the front of the room, and fills a table of what is not in
/// that, or in doubt there, and the text of all paths, as far as there is room. Names are compared by the letters of the image, as
/// far as these types have them. Returns 0; or the number of the first fault of the image, if nothing exists; or 24 if the volume
/// is larger than its room, or that of `NoMemory` if memory ran out.
pub fn rescue_volume(
    alloc: Global,
    input: RescueInput<'_>,
    room: &mut [u8],
    losses: &mut [TableLoss],
    paths: &mut [u8],
    told: &mut RescueTold,
) -> u8
    ensures { RescuesVolume input.entry.types input.entry.image.now
        room.old room.new losses.old losses.new paths.old paths.new told.new result }
{
    tell(rescue_into(alloc, input, room, losses, paths), told)
}

// Volumes that are built from a table of additions.

ghost use Rattle.std.specs.Prelude.{◌≡◌, ◌≤◌, ◌<◌, ◌*◌, ◌↔◌, [], List, ℕ, length, IsSome, IfSome, IfOk, IfErr, OnOk, OnErr};
ghost use Rattle.adf_names.specs.VolumeTypes.{letters_of_type};
ghost use Rattle.adf_tree.specs.Tree.{Tree as ATree};
ghost use Rattle.adf_memory.specs.Building.{ExplainsBuild, ExplainsNeed, HasVolume, IsBadVolume, IsFewest};
ghost use Rattle.adf_memory.specs.Building.{IsSoundVolume, IsTableRefusal, built_in};
ghost use Rattle.adf_memory.specs.Building.{kind_of_type, new_tree, refusal_number, told, tree_of};
ghost use Rattle.adf_memory.specs.TableAdditions.{AreSound, IsDraftOf, tree_with};
ghost use Rattle.adf_memory.specs.VolumeCalls.{BuildsVolume, NeedsBlocks};

use crate::table_additions::{AdditionFault, NotAdded, TableAddition, add_next, stamp_of, text_in};
use crate::tables::Date;
use adf_base::BLOCK_LEN;
use adf_blocks::{MOST_BLOCKS, is_allowed_size};
use adf_build::{BuildFault, build_into, fewest_blocks, need_types};
use adf_drafts::Draft;
use adf_names::letters_of_type;
use adf_tree::{Kind, Label, Stamps, Tree};
use adf_volume::Types;
use std::alloc::Global;

/// A volume that is to be built.
#[repr(C)]
#[derive(Clone, Copy)]
pub struct NewVolume {
    /// The type of the volume: 0 for OFS, 1 for FFS, 2 and 3 for these with international letters.
    pub kind: u32,
    /// All blocks, including the two boot blocks.
    pub blocks: u32,
    /// The root's own date in the root block.
    pub root: Date,
    /// The date of the last change of the volume.
    pub altered: Date,
    /// The date on which the volume was created.
    pub created: Date,
    pub label_length: u8,
    pub label: [u8; 30],
}

/// What is told of a building beside its number. Fields that do not apply are 0.
#[repr(C)]
#[derive(Clone, Copy)]
pub struct Built {
    /// The number of the addition that has the fault.
    pub addition: usize,
    /// The blocks that the tree needs, and those that the volume has, without the two boot blocks.
    pub need: u64,
    pub have: u64,
    /// All blocks of the volume, including the two boot blocks.
    pub blocks: u32,
}

/// Why no volume is built.
#[derive(Clone, Copy, Debug, PartialEq, Eq)]
pub enum Refusal {
    /// No volume of this type is built.
    BadKind,
    /// The label is longer than 30 bytes.
    BadLabel,
    /// The number of blocks is not allowed.
    BadSize,
    /// The room is smaller than the image.
    SmallRoom,
    /// The addition with this number is the first that has a fault.
    Addition(usize, AdditionFault),
    /// The tree needs more blocks than the volume has, not counting the two boot blocks.
    Full(u64, u64),
    /// An allocation failed.
    NoMemory,
}

impl Refusal {
    // The number of the refusal, above 0.
    fn number(self) -> u8
        ensures exact { result ≡ refusal_number self }
        ensures some { 0 < result }
    {
        match self {
            Refusal::BadKind => 1,
            Refusal::BadLabel => 2,
            Refusal::BadSize => 3,
            Refusal::SmallRoom => 4,
            Refusal::Addition(_, fault) => fault.number(),
            Refusal::Full(_, _) => 11,
            Refusal::NoMemory => 23,
        }
    }

    // What is told of the refusal.
    fn told(self) -> Built
        ensures { result ≡ told self }
    {
        let none = built_in(0);
        match self {
            Refusal::Addition(addition, _) => Built { addition, ..none },
            Refusal::Full(need, have) => Built { need, have, ..none },
            _ => none,
        }
    }
}

// What is told of a volume of so many blocks.
fn built_in(blocks: u32) -> Built
    ensures { result ≡ built_in blocks }
{
    Built {
        addition: 0,
        need: 0,
        have: 0,
        blocks,
    }
}

// The kind of a volume of this type; `None` if none is built.
fn kind_of_type(number: u32) -> Option<Kind>
    ensures allowed { IsSome result ↔ (number ≤ 3) }
    ensures kind { IfSome result (λ k. k ≡ kind_of_type number) }
{
    match number {
        0 | 2 => Some(Kind::Ofs),
        1 | 3 => Some(Kind::Ffs),
        _ => None,
    }
}

// The draft of a new volume, without entries.
fn new_draft(alloc: Global, volume: &NewVolume) -> Result<Draft, Refusal>
    ensures draft { IfOk result (λ d. (bytes : List ℕ) → IsDraftOf (new_tree volume.now) bytes [] d) }
    ensures letters { IfOk result (λ d. d.tree.letters ≡ letters_of_type volume.now.kind) }
    ensures sound { OnOk result ((volume.now.kind ≤ 3) × (volume.now.label_length ≤ 30)) }
    ensures fault { IfErr result (IsBadVolume volume.now) }
{
    let Some(kind) = kind_of_type(volume.kind) else {
        return Err(Refusal::BadKind);
    };
    let Some(label) = text_in(&volume.label, volume.label_length) else {
        return Err(Refusal::BadLabel);
    };
    let stamps = Stamps {
        root: stamp_of(volume.root),
        altered: stamp_of(volume.altered),
        created: stamp_of(volume.created),
    };
    let letters = letters_of_type(volume.kind);
    let label = Label::new(label).unwrap();
    Ok(Draft::with_letters(alloc, kind, letters, label, stamps))
}

// Adds all additions to a draft without entries.
fn add_all(
    alloc: Global,
    draft: &mut Draft,
    additions: &[TableAddition],
    contents: &[u8],
) -> Result<(), Refusal>
    requires { (t : ATree) × IsDraftOf t contents.now [] draft.old }
    ensures draft { OnOk result ((t : ATree) → IsDraftOf t contents.now [] draft.old
        → IsDraftOf t contents.now additions.now draft.new) }
    ensures sound { OnOk result (AreSound draft.old.tree.letters contents.now additions.now) }
    ensures fault { IfErr result (IsTableRefusal draft.old.tree.letters contents.now additions.now) }
{
    for i in 0..additions.len() {
        match add_next(alloc, draft, additions, i, contents) {
            Ok(()) => (),
            Err(NotAdded::Fault(fault)) => return Err(Refusal::Addition(i + 1, fault)),
            Err(NotAdded::NoMemory) => return Err(Refusal::NoMemory),
        }
    }
    Ok(())
}

// The tree of the additions to a draft without entries.
fn tree_of(
    alloc: Global,
    draft: Draft,
    additions: &[TableAddition],
    contents: &[u8],
) -> Result<Tree, Refusal>
    requires { (t : ATree) × IsDraftOf t contents.now [] draft }
    ensures tree { IfOk result (λ r. (t : ATree) → IsDraftOf t contents.now [] draft
        → r ≡ tree_with t contents.now additions.now) }
    ensures sound { OnOk result (AreSound draft.tree.letters contents.now additions.now) }
    ensures fault { IfErr result (IsTableRefusal draft.tree.letters contents.now additions.now) }
{
    let mut draft = draft;
    add_all(alloc, &mut draft, additions, contents)?;
    match draft.finish(alloc) {
        Ok(tree) => Ok(tree),
        Err(_) => Err(Refusal::NoMemory),
    }
}

// Builds a volume at the front of a room.
fn build_in_room(
    alloc: Global,
    volume: &NewVolume,
    additions: &[TableAddition],
    contents: &[u8],
    room: &mut [u8],
) -> Result<(), Refusal>
    ensures sound { OnOk result (IsSoundVolume volume.now contents.now additions.now) }
    ensures volume { OnOk result (HasVolume (tree_of volume.now contents.now additions.now)
        volume.now.blocks room.old room.new) }
    ensures fault { IfErr result (ExplainsBuild volume.now contents.now additions.now (length room.old)) }
    ensures unchanged { OnErr result (room.new ≡ room.old) }
{
    let draft = new_draft(alloc, volume)?;
    if !is_allowed_size(volume.blocks) {
        return Err(Refusal::BadSize);
    }
    let count = volume.blocks as usize * BLOCK_LEN;
    if room.len() < count {
        return Err(Refusal::SmallRoom);
    }
    let tree = tree_of(alloc, draft, additions, contents)?;
    match build_into(alloc, &tree, volume.blocks, &mut room[..count]) {
        Ok(()) => Ok(()),
        Err(BuildFault::BadSize) => Err(Refusal::BadSize),
        Err(BuildFault::Full { need, have }) => Err(Refusal::Full(need, have)),
        Err(BuildFault::NoMemory) => Err(Refusal::NoMemory),
    }
}

// The fewest blocks of a volume that has room for the additions.
fn fewest_for(
    alloc: Global,
    volume: &NewVolume,
    additions: &[TableAddition],
    contents: &[u8],
) -> Result<u32, Refusal>
    ensures sound { OnOk result (IsSoundVolume volume.now contents.now additions.now) }
    ensures fewest { IfOk result (IsFewest (tree_of volume.now contents.now additions.now)) }
    ensures fault { IfErr result (ExplainsNeed volume.now contents.now additions.now) }
{
    let draft = new_draft(alloc, volume)?;
    let tree = tree_of(alloc, draft, additions, contents)?;
    if let Some(blocks) = fewest_blocks(&tree) {
        return Ok(blocks);
    }
    let need = need_types(Types::WithInternational, &tree, MOST_BLOCKS).unwrap();
    Err(Refusal::Full(need, u64::from(MOST_BLOCKS - 2)))
}

/// Builds a volume of a table of additions, in which each directory stands before what is in it, and of the contents of all
/// files, at the front of the room. Returns 0, or the number of a refusal: the first one of the volume, the room, and the
/// additions in their order; then that of a tree that does not fit.
pub fn build_volume(
    alloc: Global,
    volume: &NewVolume,
    additions: &[TableAddition],
    contents: &[u8],
    room: &mut [u8],
    built: &mut Built,
) -> u8
    ensures { BuildsVolume volume.now additions.now contents.now room.old room.new built.new result }
{
    match build_in_room(alloc, volume, additions, contents, room) {
        Ok(()) => {
            *built = built_in(volume.blocks);
            0
        }
        Err(refusal) => {
            *built = refusal.told();
            refusal.number()
        }
    }
}

/// Finds the fewest blocks of a volume that has room for these additions. Returns 0, or the number of a refusal, as
/// `build_volume` does; neither the number of blocks of the volume nor a room counts.
pub fn need_volume(
    alloc: Global,
    volume: &NewVolume,
    additions: &[TableAddition],
    contents: &[u8],
    built: &mut Built,
) -> u8
    ensures { NeedsBlocks volume.now additions.now contents.now built.new result }
{
    match fewest_for(alloc, volume, additions, contents) {
        Ok(blocks) => {
            *built = built_in(blocks);
            0
        }
        Err(refusal) => {
            *built = refusal.told();
            refusal.number()
        }
    }
}

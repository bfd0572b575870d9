// The builder.

ghost use Rattle.std.specs.Prelude.{◌≡◌, ◌*◌, true, IfOk, IfErr, OnOk, OnErr, length, replicate, vec_len};
ghost use Rattle.adf_blocks.specs.Sizes.{is_plain_size};
ghost use Rattle.adf_volume.specs.{Fits.FitsBy, Types.is_size_of};
ghost use Rattle.adf_volume.specs.declared.types.Types.TheVariants.{Plain, WithInternational};
ghost use Rattle.adf_build.specs.{Laid.IsLaid, Laid.IsWellFormed, Laid.node_blocks, Laid.volume, Plan.entries_blocks};
ghost use Rattle.adf_build.specs.{Plan.planned, Building.IsBuildable, Building.IsBuildFault, Building.build_fault_number};

use crate::counting::count_entries;
use crate::nodes::nodes_of;
use crate::plan::Plan;
use crate::volume::write_volume;
use adf_base::BLOCK_LEN;
use adf_tree::Tree;
use adf_volume::Types;
use std::alloc::Global;
use std::error::Error;
use std::fmt;

/// Why an image cannot be built.
#[derive(Clone, Copy, Debug, PartialEq, Eq)]
pub enum BuildFault {
    /// The number of blocks is not allowed: even, from 4 to 1,048,576, or to 8,388,608 where all types are accepted.
    BadSize,
    /// The tree needs more blocks than the volume has, not counting the two boot blocks.
    Full { need: u64, have: u64 },
    /// An allocation failed.
    NoMemory,
}

impl BuildFault {
    /// The number of the fault, 1 to 3.
    pub fn number(self) -> u8
        ensures { result ≡ build_fault_number self }
    {
        match self {
            BuildFault::BadSize => 1,
            BuildFault::Full { .. } => 2,
            BuildFault::NoMemory => 3,
        }
    }
}

impl fmt::Display for BuildFault {
    ghost use Rattle.std.specs.Prelude.{Some};
    ghost use Rattle.adf_build.specs.Building.{build_fault_text};

    ghost output = { λ f. Some (build_fault_text f) };

    fn fmt<W: fmt::Write>(&self, f: &mut fmt::Formatter<W>) -> fmt::Result {
        match *self {
            BuildFault::BadSize => f.write_str("bad size"),
            BuildFault::Full { need, have } => write!(f, "full: need {need}, have {have}"),
            BuildFault::NoMemory => f.write_str("no memory"),
        }
    }
}

impl Error for BuildFault {}

// The fields of a tree fit the fields of blocks.
fn fields_fit(tree: &Tree)
    ensures { IsWellFormed tree.now }
{
    tree.bounds();
    let _count = tree.len();
}

/// What is known before a volume is written: its plan, the blocks of its nodes, and the number of blocks of its entries.
#[derive(Drop)]
struct Prepared {
    plan: Plan,
    nodes: Vec<u32>,
    total: u32,
}

// Plans the volume of a tree, if these types may have so many blocks, and they are enough.
fn prepare(alloc: Global, types: Types, tree: &Tree, blocks: u32) -> Result<Prepared, BuildFault>
    ensures plan { IfOk result (λ p. p.plan.blocks ≡ blocks) }
    ensures nodes { IfOk result (λ p. p.nodes.items ≡ node_blocks tree.now blocks) }
    ensures total { IfOk result (λ p. p.total ≡ entries_blocks tree.now.kind tree.now.entries) }
    ensures room { OnOk result (IsBuildable tree.now blocks) }
    ensures size { OnOk result (is_size_of types blocks ≡ true) }
    ensures fault { IfErr result (IsBuildFault types tree.now blocks) }
{
    let Some(plan) = Plan::of(types, blocks) else {
        return Err(BuildFault::BadSize);
    };
    let total = count_entries(tree);
    let need = plan.need(total);
    let have = u64::from(blocks - 2);
    if need > have {
        return Err(BuildFault::Full { need, have });
    }
    match nodes_of(alloc, tree, plan) {
        Ok(nodes) => Ok(Prepared {
            plan,
            nodes,
            total: total as u32,
        }),
        Err(_) => Err(BuildFault::NoMemory),
    }
}

/// Builds the image of a tree in a volume of `blocks` blocks, even, 4 to 1,048,576: the root in the middle, the bitmap
/// pages and bitmap extension blocks after it, the entries in walk order in the remaining blocks, and 0 in all other bytes.
pub fn build(alloc: Global, tree: &Tree, blocks: u32) -> Result<Vec<u8>, BuildFault>
    ensures laid { IfOk result (λ image. IsLaid image.items tree.now) }
    ensures fits { IfOk result (λ image. FitsBy tree.now.letters image.items tree.now (planned tree.now blocks)) }
    ensures bytes { IfOk result (λ image. image.items ≡ volume tree.now blocks) }
    ensures len { IfOk result (λ image. vec_len image ≡ blocks * 512) }
    ensures room { OnOk result (IsBuildable tree.now blocks) }
    ensures size { OnOk result (is_plain_size blocks ≡ true) }
    ensures fault { IfErr result (IsBuildFault Plain tree.now blocks) }
{
    build_types(alloc, Types::Plain, tree, blocks)
}

/// Builds the image of a tree, as `build` does, in as many blocks as volumes of these types may have.
pub fn build_types(
    alloc: Global,
    types: Types,
    tree: &Tree,
    blocks: u32,
) -> Result<Vec<u8>, BuildFault>
    ensures laid { IfOk result (λ image. IsLaid image.items tree.now) }
    ensures fits { IfOk result (λ image. FitsBy tree.now.letters image.items tree.now (planned tree.now blocks)) }
    ensures bytes { IfOk result (λ image. image.items ≡ volume tree.now blocks) }
    ensures len { IfOk result (λ image. vec_len image ≡ blocks * 512) }
    ensures room { OnOk result (IsBuildable tree.now blocks) }
    ensures size { OnOk result (is_size_of types blocks ≡ true) }
    ensures fault { IfErr result (IsBuildFault types tree.now blocks) }
{
    let prepared = prepare(alloc, types, tree, blocks)?;
    let Ok(mut image) = vec![in alloc; 0u8; blocks as usize * BLOCK_LEN] else {
        return Err(BuildFault::NoMemory);
    };
    write_volume(
        &mut image,
        prepared.plan,
        tree,
        &prepared.nodes,
        prepared.total,
    );
    fields_fit(tree);
    Ok(image)
}

// Sets all bytes to 0.
fn clear(room: &mut [u8])
    ensures { room.new ≡ replicate (length room.old) 0 }
{
    room.fill(0);
}

/// Builds the image of a tree, as `build_types` does for all types, in memory of the caller, which has exactly as many
/// bytes. On a fault nothing is written.
pub fn build_into(
    alloc: Global,
    tree: &Tree,
    blocks: u32,
    room: &mut [u8],
) -> Result<(), BuildFault>
    requires { length room.old ≡ blocks * 512 }
    ensures laid { OnOk result (IsLaid room.new tree.now) }
    ensures fits { OnOk result (FitsBy tree.now.letters room.new tree.now (planned tree.now blocks)) }
    ensures bytes { OnOk result (room.new ≡ volume tree.now blocks) }
    ensures fault { IfErr result (IsBuildFault WithInternational tree.now blocks) }
    ensures unchanged { OnErr result (room.new ≡ room.old) }
{
    let prepared = prepare(alloc, Types::WithInternational, tree, blocks)?;
    clear(room);
    write_volume(room, prepared.plan, tree, &prepared.nodes, prepared.total);
    fields_fit(tree);
    Ok(())
}

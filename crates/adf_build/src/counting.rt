// The blocks that a tree needs.

ghost use Rattle.std.specs.Prelude.{◌≡◌, ◌≤◌, ◌↔◌, ◌+◌, ◌-◌, ◌^◌, ℕ, IfNone, IfSome, IsTrue, true, min};
ghost use Rattle.std.specs.Option.{SomeIff};
ghost use Rattle.adf_blocks.specs.Sizes.{is_allowed, is_plain_size};
ghost use Rattle.adf_volume.specs.Types.{is_size_of};
ghost use Rattle.adf_build.specs.Plan.{data_blocks, entries_blocks, entry_blocks, exts_needed, reserved};
ghost use Rattle.adf_build.specs.Building.{IsBuildable, need_of};
ghost use Rattle.adf_tree.specs.Tree.{Tree};

use crate::plan::Plan;
use adf_blocks::{MOST_BLOCKS, POINTERS, data_count};
use adf_tree::{Body, Entry, Kind, Node, Tree};
use adf_volume::Types;

/// The number of data blocks of a body.
pub fn data_blocks(kind: Kind, body: &Body) -> usize
    ensures { result ≡ data_blocks kind body.now }
{
    match body {
        Body::Dir => 0,
        Body::File(file) => data_count(kind, file.bytes().len()),
    }
}

/// The number of extension blocks for this many data blocks.
#[tactic(auto, unfolding(crate::specs::Plan::exts_needed))]
pub fn ext_count(datas: usize) -> usize
    ensures { result ≡ exts_needed datas }
{
    datas.saturating_sub(POINTERS).div_ceil(POINTERS)
}

// Adds the blocks of an entry to a sum; `u64::MAX` on overflow.
fn add_entry(sum: u64, kind: Kind, entry: &Entry) -> u64
    ensures { result ≡ min (sum + entry_blocks kind entry.now) (2 ^ 64 - 1) }
{
    let datas = data_blocks(kind, &entry.body);
    sum.saturating_add(1)
        .saturating_add(ext_count(datas) as u64)
        .saturating_add(datas as u64)
}

/// The number of blocks of all entries; `u64::MAX` on overflow.
#[tactic(auto, using(crate::proofs::CountSteps::count_step, crate::proofs::CountSteps::count_goes_on))]
pub fn count_entries(tree: &Tree) -> u64
    ensures { result ≡ min (entries_blocks tree.now.kind tree.now.entries) (2 ^ 64 - 1) }
{
    let mut sum = 0;
    for i in 0..tree.len() {
        if let Some(entry) = tree.entry(Node(i + 1)) {
            sum = add_entry(sum, tree.kind(), entry);
        }
    }
    sum
}

/// The blocks that a tree needs in a volume of `blocks` blocks: the root, the bitmap pages, the bitmap extension
/// blocks and all blocks of the entries; `u64::MAX` on overflow. `None` if the number of blocks is not allowed: even,
/// 4 to 1,048,576.
pub fn need(tree: &Tree, blocks: u32) -> Option<u64>
    ensures { SomeIff result (is_plain_size blocks ≡ true) (need_of tree.now blocks) }
{
    need_types(Types::Plain, tree, blocks)
}

/// The same where these types are accepted, with the most blocks that they may have.
pub fn need_types(types: Types, tree: &Tree, blocks: u32) -> Option<u64>
    ensures { SomeIff result (is_size_of types blocks ≡ true) (need_of tree.now blocks) }
{
    let plan = Plan::of(types, blocks)?;
    Some(plan.need(count_entries(tree)))
}

// Whether a volume of `blocks` blocks is allowed and has room for a tree whose entries have so many blocks.
fn has_room(total: u64, blocks: u32) -> bool
    ensures { (t : Tree) → total ≡ min (entries_blocks t.kind t.entries) (2 ^ 64 - 1)
        → IsTrue result ↔ IsBuildable t blocks }
{
    match Plan::new(blocks) {
        Some(plan) => plan.need(total) <= u64::from(blocks - 2),
        None => false,
    }
}

/// The number of blocks of the smallest volume that has room for a tree; `None` if the largest one has none.
pub fn fewest_blocks(tree: &Tree) -> Option<u32>
    ensures room { IfSome result (IsBuildable tree.now) }
    ensures fewest { IfSome result (λ n. (m : ℕ) → IsBuildable tree.now m → n ≤ m) }
    ensures none { IfNone result ((m : ℕ) → ¬ IsBuildable tree.now m) }
{
    let total = count_entries(tree);
    for blocks in total.min(u64::from(MOST_BLOCKS)) as u32..MOST_BLOCKS + 1 {
        if has_room(total, blocks) {
            return Some(blocks);
        }
    }
    None
}

/// The number of blocks that a volume of `blocks` blocks has for entries: all but the two boot blocks, the root, the
/// bitmap pages and the bitmap extension blocks.
#[tactic(auto, unfolding(crate::specs::Plan::reserved, adf_volume::specs::Image::map_exts_needed))]
pub fn free_blocks(blocks: u32) -> u32
    requires { is_allowed blocks ≡ true }
    ensures exact { result ≡ blocks - 2 - (1 + reserved blocks) }
    ensures room { 1 + reserved blocks ≤ blocks - 2 }
{
    match Plan::new(blocks) {
        Some(plan) => (blocks - 2).saturating_sub(1 + plan.reserved()),
        None => 0,
    }
}

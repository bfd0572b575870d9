// The blocks of all entries.

ghost use Rattle.std.specs.Prelude.{◌≡◌, ◌≤◌, ◌+◌, ◌*◌, ℕ, length, drop};
ghost use Rattle.adf_build.specs.Laid.{entries_writes, node_blocks};
ghost use Rattle.adf_build.specs.{Writes.with_blocks, Building.IsBuildable, Order.RisesFromBy};
ghost use Rattle.adf_volume.specs.Layout.{nodes_from_by};

use crate::chains::{children_end, next_of, parent_block, slots_between};
use crate::heads::{Spot, write_entry};
use crate::nodes::{entry_at, next_free};
use crate::plan::Plan;
use adf_tree::Tree;

/// Writes the blocks of all entries; the children of the root have indices below `first`.
pub fn write_entries(image: &mut [u8], tree: &Tree, plan: Plan, nodes: &[u32], first: usize)
    requires room { IsBuildable tree.now plan.blocks }
    requires whole { length image.old ≡ plan.blocks * 512 }
    requires nodes { nodes.now ≡ node_blocks tree.now plan.blocks }
    requires within { first ≤ length tree.now.entries }
    requires low { RisesFromBy tree.now.letters 72 (drop first tree.now.entries) }
    requires chains { (q s : ℕ) → 1 ≤ q
        → nodes_from_by tree.now.letters 1 tree.now.entries q s
        ≡ nodes_from_by tree.now.letters (first + 1) (drop first tree.now.entries) q s }
    ensures { image.new
        ≡ with_blocks image.old (entries_writes plan.blocks tree.now 1 0 tree.now.entries) }
{
    let mut k = 0;
    let mut child = first;
    for i in 0..tree.len() {
        let entry = entry_at(tree, i);
        let end = children_end(tree, i + 1, child);
        let slots = slots_between(tree, nodes, i + 1, child, end);
        let spot = Spot {
            k,
            parent: parent_block(tree, nodes, i, entry),
            next: next_of(tree, nodes, i, entry),
        };
        write_entry(image, plan, tree.kind(), spot, slots, entry);
        k = next_free(k, tree.kind(), entry);
        child = end;
    }
}

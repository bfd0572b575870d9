// The nodes of a tree and the blocks of their headers.

ghost use Rattle.std.specs.Prelude.{◌≡◌, ◌<◌, ◌+◌, ◌^◌, ◌∷◌, length, drop, IfOk};
ghost use Rattle.adf_build.specs.{Laid.node_blocks, Plan.entry_blocks, Building.IsBuildable};

use crate::counting::{data_blocks, ext_count};
use crate::plan::Plan;
use adf_tree::{Entry, Kind, Node, Tree};
use std::alloc::{AllocError, Global};

/// The entry at index `i`, which is node `i + 1`.
#[tactic(auto, using(crate::proofs::CountSteps::entry_left))]
pub fn entry_at(tree: &Tree, i: usize) -> &Entry
    requires { i < length tree.now.entries }
    ensures { drop i tree.now.entries ≡ result.now ∷ drop (i + 1) tree.now.entries }
{
    let count = tree.len();
    prove!(i < count);
    tree.entry(Node(i + 1)).unwrap()
}

/// The number of the parent of an entry.
pub fn parent_of(entry: &Entry) -> usize
    ensures { result ≡ entry.now.parent }
{
    entry.parent.0
}

/// The index of the free block after those of an entry with its header in the `k`-th.
pub fn next_free(k: u32, kind: Kind, entry: &Entry) -> u32
    requires { k + entry_blocks kind entry.now < 2 ^ 30 }
    ensures { result ≡ k + entry_blocks kind entry.now }
{
    let datas = data_blocks(kind, &entry.body);
    k + (1 + ext_count(datas) + datas) as u32
}

/// The blocks of the root and of all headers.
pub fn nodes_of(alloc: Global, tree: &Tree, plan: Plan) -> Result<Vec<u32>, AllocError>
    requires { IsBuildable tree.now plan.blocks }
    ensures { IfOk result (λ nodes. nodes.items ≡ node_blocks tree.now plan.blocks) }
{
    let mut nodes = Vec::new(alloc);
    nodes.push(plan.root())?;
    let mut k = 0;
    for i in 0..tree.len() {
        nodes.push(plan.nth_free(k))?;
        k = next_free(k, tree.kind(), entry_at(tree, i));
    }
    Ok(nodes)
}

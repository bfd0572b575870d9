// The chains of a tree: entries are ordered by parent, then by slot.

ghost use Rattle.std.specs.Prelude.{◌≡◌, ◌≤◌, ◌<◌, ◌+◌, ◌*◌, ◌∷◌, ◌≢◌, ℕ, length, drop, slice_index};
ghost use Rattle.std.specs.List.{AllWithin};
ghost use Rattle.adf_base.specs.Hash.{slot_by};
ghost use Rattle.adf_tree.specs.{declared.entry.Entry.Entry, Chain.in_chain_by};
ghost use Rattle.adf_blocks.specs.declared.layout.TheConstants.{SLOTS};
ghost use Rattle.adf_build.specs.{Laid.first_block, Order.RisesFromBy};
ghost use Rattle.adf_volume.specs.Layout.{nodes_from_by};

use crate::nodes::{entry_at, parent_of};
use adf_base::{Letters, slot_by};
use adf_blocks::SLOTS;
use adf_tree::{Entry, Tree};

// Whether two entries are in the same chain; their names have these letters.
fn are_together(letters: Letters, entry: &Entry, after: &Entry) -> bool
    ensures { result
        ≡ in_chain_by letters entry.now.parent (slot_by letters entry.now.name) after.now }
{
    parent_of(after) == parent_of(entry)
        && slot_by(letters, after.name.bytes()) == slot_by(letters, entry.name.bytes())
}

/// The block of the parent of entry `i + 1`.
pub fn parent_block(tree: &Tree, nodes: &[u32], i: usize, entry: &Entry) -> u32
    requires here { drop i tree.now.entries ≡ entry.now ∷ drop (i + 1) tree.now.entries }
    requires place { i < length tree.now.entries }
    requires nodes { length nodes.now ≡ 1 + length tree.now.entries }
    ensures { result ≡ slice_index nodes.now entry.now.parent }
{
    let parent = parent_of(entry);
    let count = tree.len();
    prove!(parent < count);
    nodes[parent]
}

/// The next header in the chain of entry `i + 1`, or 0: the next entry's header, if that entry is in the same chain.
#[tactic(auto, using(crate::proofs::Order::next_none, crate::proofs::Order::next_end))]
pub fn next_of(tree: &Tree, nodes: &[u32], i: usize, entry: &Entry) -> u32
    requires here { drop i tree.now.entries ≡ entry.now ∷ drop (i + 1) tree.now.entries }
    requires place { i < length tree.now.entries }
    requires nodes { length nodes.now ≡ 1 + length tree.now.entries }
    ensures { result
        ≡ first_block (slice_index nodes.now)
        (nodes_from_by tree.now.letters (i + 2) (drop (i + 1) tree.now.entries) entry.now.parent
        (slot_by tree.now.letters entry.now.name)) }
{
    if i + 1 < tree.len() && are_together(tree.letters(), entry, entry_at(tree, i + 1)) {
        nodes[i + 2]
    } else {
        0
    }
}

/// The index after the children of node `p`, which begin at index `from`.
pub fn children_end(tree: &Tree, p: usize, from: usize) -> usize
    requires within { from ≤ length tree.now.entries }
    requires low { RisesFromBy tree.now.letters (72 * p) (drop from tree.now.entries) }
    ensures start { from ≤ result }
    ensures within { result ≤ length tree.now.entries }
    ensures mine { AllWithin (λ (e : Entry). e.parent ≡ p) tree.now.entries from result }
    ensures past { RisesFromBy tree.now.letters (72 * (p + 1)) (drop result tree.now.entries) }
    ensures others { (q s : ℕ) → q ≢ p
        → nodes_from_by tree.now.letters (from + 1) (drop from tree.now.entries) q s
        ≡ nodes_from_by tree.now.letters (result + 1) (drop result tree.now.entries) q s }
{
    let mut end = from;
    while end < tree.len() && parent_of(entry_at(tree, end)) == p {
        end += 1;
    }
    end
}

/// The slots of node `p`, with children at the indices from `from` up to `end`: the block of the first header of each
/// chain, or 0.
#[tactic(auto, using(crate::proofs::Order::slots_start))]
pub fn slots_between(
    tree: &Tree,
    nodes: &[u32],
    p: usize,
    from: usize,
    end: usize,
) -> [u32; SLOTS as usize]
    requires start { from ≤ end }
    requires within { end ≤ length tree.now.entries }
    requires nodes { length nodes.now ≡ 1 + length tree.now.entries }
    requires mine { AllWithin (λ (e : Entry). e.parent ≡ p) tree.now.entries from end }
    requires past { RisesFromBy tree.now.letters (72 * (p + 1)) (drop end tree.now.entries) }
    ensures { (s : ℕ) → s < SLOTS
        → slice_index result s
        ≡ first_block (slice_index nodes.now)
        (nodes_from_by tree.now.letters (from + 1) (drop from tree.now.entries) p s) }
{
    let letters = tree.letters();
    let mut slots = [0u32; SLOTS as usize];
    let mut at = end;
    while at > from {
        at -= 1;
        let entry = entry_at(tree, at);
        slots[slot_by(letters, entry.name.bytes()) as usize] = nodes[at + 1];
    }
    slots
}

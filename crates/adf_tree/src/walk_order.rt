// Walk order: where an entry belongs, and how it is inserted.

ghost use Rattle.std.specs.Prelude.{◌≡◌, ◌≤◌, ◌<◌, length, map, take, drop, nat_lt, nat_le, ℕ, ◌+◌, ◌^◌, slice_index_or};
ghost use Rattle.std.specs.Prelude.{if◌then◌else◌, is_ok, IfErr, ◌++◌, true, false};
ghost use Rattle.std.specs.List.Sorted.{IsNonDecreasingBy, IsPartitionPoint};
ghost use Rattle.adf_tree.specs.Tree.{added_by, place_by, rank_by, rank_of, moved_entry, IsTreeBy};

use crate::entry::{Entry, Node};
use crate::tree::AddFault;
use adf_base::{Letters, slot_by};

// Whether the entry's parent and slot are at most these.
fn is_at_most(letters: Letters, e: &Entry, parent: Node, slot: u8) -> bool
    requires { slot < 72 }
    ensures { result ≡ nat_le (rank_by letters e.now) (rank_of parent slot) }
{
    e.parent.0 < parent.0 || e.parent.0 == parent.0 && slot_by(letters, e.name.bytes()) <= slot
}

// Whether the entry's parent and slot are less than these.
fn is_less(letters: Letters, e: &Entry, parent: Node, slot: u8) -> bool
    requires { slot < 72 }
    ensures { result ≡ nat_lt (rank_by letters e.now) (rank_of parent slot) }
{
    e.parent.0 < parent.0 || e.parent.0 == parent.0 && slot_by(letters, e.name.bytes()) < slot
}

/// The number of entries with a lower parent and slot.
pub fn start_of(letters: Letters, entries: &[Entry], parent: Node, slot: u8) -> usize
    requires slot { slot < 72 }
    requires order { IsNonDecreasingBy (rank_by letters) entries.now }
    ensures within { result ≤ length entries.now }
    ensures parted { IsPartitionPoint (λ e. nat_lt (rank_by letters e) (rank_of parent slot) ≡ true) (λ e.
        nat_lt (rank_by letters e) (rank_of parent slot) ≡ false) entries.now result }
{
    entries.partition_point(|e| is_less(letters, e, parent, slot))
}

/// The number of entries with at most this parent and slot.
pub fn place_of(letters: Letters, entries: &[Entry], parent: Node, slot: u8) -> usize
    requires slot { slot < 72 }
    requires order { IsNonDecreasingBy (rank_by letters) entries.now }
    ensures exact { result ≡ place_by letters entries.now (rank_of parent slot) }
    ensures within { result ≤ length entries.now }
{
    entries.partition_point(|e| is_at_most(letters, e, parent, slot))
}

// Adds 1 to the parent if it is at least `from`.
fn renumber_entry(e: &mut Entry, from: Node)
    requires { e.old.parent + 1 < 2 ^ 64 }
    ensures { e.new ≡ moved_entry from e.old }
{
    if from.0 <= e.parent.0 {
        e.parent = Node(e.parent.0 + 1);
    }
}

// Adds 1 to each parent that is at least `from`.
fn renumber_all(entries: &mut [Entry], from: Node)
    requires { (i : ℕ) (d : Entry) → i < length entries.old
        → (slice_index_or entries.old i d).parent + 1 < 2 ^ 64 }
    ensures { entries.new ≡ map (moved_entry from) entries.old }
{
    for e in entries.iter_mut() {
        renumber_entry(e, from);
    }
}

// Adds 1 to the parents, of the entries after the new one at `at`, that are after the new one.
fn renumber(entries: &mut [Entry], at: usize)
    requires within { at < length entries.old }
    requires parents { (i : ℕ) (d : Entry) → at < i → i < length entries.old
        → (slice_index_or entries.old i d).parent < i }
    ensures { entries.new
        ≡ take (at + 1) entries.old ++ map (moved_entry (at + 1)) (drop (at + 1) entries.old) }
{
    let count = entries.len();
    renumber_all(&mut entries[at + 1..count], Node(at + 1));
}

/// Adds an entry after all entries of the same or a lower parent and slot.
#[tactic(auto, using(crate::proofs::WalkOrder::inserted_mapped, crate::proofs::WalkOrder::written_whole))]
pub fn insert_entry(
    letters: Letters,
    entries: &mut Vec<Entry>,
    entry: Entry,
) -> Result<(), AddFault>
    requires tree { IsTreeBy letters entries.old.items }
    ensures entries { entries.new.items
        ≡ if is_ok result then added_by letters entries.old.items entry else entries.old.items }
    ensures refused { IfErr result (λ f. f ≡ AddFault.NoMemory) }
{
    let slot = slot_by(letters, entry.name.bytes());
    let at = place_of(letters, entries, entry.parent, slot);
    if entries.insert(at, entry).is_err() {
        return Err(AddFault::NoMemory);
    }
    renumber(entries, at);
    Ok(())
}

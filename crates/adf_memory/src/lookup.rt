// Looking up paths in the table of entries.

ghost use Rattle.std.specs.Prelude.{◌≡◌, ◌≤◌, ◌<◌, List, IfSome, length, nat_le, nat_lt};
ghost use Rattle.std.specs.List.Sorted.{IsNonDecreasingBy};
ghost use Rattle.adf_tree.specs.{declared.entry.Entry.Entry, Tree.child_by, Tree.find_by, Tree.rank_of};
ghost use Rattle.adf_blocks.specs.declared.layout.TheConstants.{SLOTS};
ghost use Rattle.adf_memory.specs.TableNames.{HasNamesOfBy, IsEndBy, IsStartBy, is_child_in_by, name_in, rank_in_by};
ghost use Rattle.adf_memory.specs.CheckCalls.{FindsEntry};

use crate::tables::TableEntry;
use adf_base::{Letters, slot_by};
use adf_blocks::Cause;
use adf_tree::{Name, PathFault, read_path};
use std::alloc::Global;

// The name of an entry of the table.
fn name_in(entry: &TableEntry) -> &[u8]
    ensures name { result.now ≡ name_in entry.now }
    ensures short { length result.now ≤ 30 }
{
    let length = usize::from(entry.name_length).min(30);
    &entry.name[..length]
}

// Whether the entry's pair of directory and slot is less than this one.
fn is_less(letters: Letters, entry: &TableEntry, parent: usize, slot_wanted: u8) -> bool
    requires { slot_wanted < SLOTS }
    ensures { result ≡ nat_lt (rank_in_by letters entry.now) (rank_of parent slot_wanted) }
{
    let own = entry.parent as usize;
    own < parent || own == parent && slot_by(letters, name_in(entry)) < slot_wanted
}

// Whether the entry's pair of directory and slot is at most this one.
fn is_at_most(letters: Letters, entry: &TableEntry, parent: usize, slot_wanted: u8) -> bool
    requires { slot_wanted < SLOTS }
    ensures { result ≡ nat_le (rank_in_by letters entry.now) (rank_of parent slot_wanted) }
{
    let own = entry.parent as usize;
    own < parent || own == parent && slot_by(letters, name_in(entry)) <= slot_wanted
}

// Whether the entry has this directory and this name, ignoring case.
fn is_child(letters: Letters, entry: &TableEntry, parent: usize, name: &Name) -> bool
    ensures { result ≡ is_child_in_by letters parent name.now entry.now }
{
    entry.parent as usize == parent && name.matches_by(letters, name_in(entry))
}

// The entries before the first one of this pair or a greater one.
fn start_of(letters: Letters, entries: &[TableEntry], parent: usize, slot: u8) -> usize
    requires { slot < SLOTS }
    ensures within { result ≤ length entries.now }
    ensures parted { IsNonDecreasingBy (rank_in_by letters) entries.now
        → IsStartBy letters entries.now (rank_of parent slot) result }
{
    entries.partition_point(|entry| is_less(letters, entry, parent, slot))
}

// The entries before the first one of a greater pair.
fn end_of(letters: Letters, entries: &[TableEntry], parent: usize, slot: u8) -> usize
    requires { slot < SLOTS }
    ensures within { result ≤ length entries.now }
    ensures parted { IsNonDecreasingBy (rank_in_by letters) entries.now
        → IsEndBy letters entries.now (rank_of parent slot) result }
{
    entries.partition_point(|entry| is_at_most(letters, entry, parent, slot))
}

// The number of the entry with this directory and this name, among those with greater numbers than the directory's.
fn child(letters: Letters, entries: &[TableEntry], parent: usize, name: &Name) -> Option<usize>
    requires { parent ≤ length entries.now }
    ensures found { (es : List Entry) → HasNamesOfBy letters entries.now es
        → result ≡ child_by letters es parent name.now }
    ensures above { IfSome result (λ n. parent < n) }
    ensures inside { IfSome result (λ n. n ≤ length entries.now) }
{
    let slot = slot_by(letters, name.bytes());
    let start = start_of(letters, entries, parent, slot).max(parent);
    let end = end_of(letters, entries, parent, slot);
    for i in start..end {
        if is_child(letters, &entries[i], parent, name) {
            return Some(i + 1);
        }
    }
    None
}

// The number of the entry that the path leads to, 0 for the root.
fn find(letters: Letters, entries: &[TableEntry], path: &[Name]) -> Option<usize>
    ensures found { (es : List Entry) → HasNamesOfBy letters entries.now es → result ≡ find_by letters es path.now }
    ensures inside { IfSome result (λ n. n ≤ length entries.now) }
{
    let mut node = 0;
    for name in path {
        match child(letters, entries, node, name) {
            None => return None,
            Some(n) => node = n,
        }
    }
    Some(node)
}

/// Looks up a path, in escape form, in the table of a volume's entries, by the letters of their names. Returns 0 and writes the
/// entry's number to `node` if it is there, 1 if there is no such entry, 2 if the text is not a path, and the number of
/// `NoMemory` if memory ran out.
pub fn find_entry(
    alloc: Global,
    letters: Letters,
    entries: &[TableEntry],
    path: &[u8],
    node: &mut usize,
) -> u8
    ensures { FindsEntry letters entries.now path.now node.old node.new result }
{
    match read_path(alloc, path) {
        Ok(names) => match find(letters, entries, &names) {
            Some(found) => {
                *node = found;
                0
            }
            None => 1,
        },
        Err(PathFault::BadText) => 2,
        Err(PathFault::NoMemory) => Cause::NoMemory.number(),
    }
}

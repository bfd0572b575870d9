// Look-up of names and paths.

ghost use Rattle.std.specs.Prelude.{◌≡◌};
ghost use Rattle.std.specs.{Option.is_some, Option.option_copied, List.Sorted.IsNonDecreasingBy};
ghost use Rattle.adf_tree.specs.{LastChain.IsOfBy, Tree.room_at_by};
ghost use Rattle.adf_tree.specs.Tree.{child_by, directory_from_by, entry, find_by, is_child_by, is_dir, is_dir_body, rank_by};

use crate::entry::{Body, Entry, Node};
use crate::last_chain::LastChain;
use crate::tree::RoomFault;
use crate::walk_order::{place_of, start_of};
use adf_base::{Letters, slot_by};
use adf_names::Name;

// Whether the entry has this parent and this name, ignoring case.
fn is_child(letters: Letters, e: &Entry, parent: Node, name: &Name) -> bool
    ensures { result ≡ is_child_by letters parent name.now e.now }
{
    e.parent.0 == parent.0 && e.name.same_by(letters, name)
}

// The number of the entry with this parent and this name.
#[tactic(auto, using(crate::proofs::ChildLookup::child_found_by))]
fn child(letters: Letters, entries: &[Entry], parent: Node, name: &Name) -> Option<Node>
    requires { IsNonDecreasingBy (rank_by letters) entries.now }
    ensures { result ≡ child_by letters entries.now parent name.now }
{
    let slot = slot_by(letters, name.bytes());
    let start = start_of(letters, entries, parent, slot);
    let end = place_of(letters, entries, parent, slot);
    for i in start..end {
        if is_child(letters, &entries[i], parent, name) {
            return Some(Node(i + 1));
        }
    }
    None
}

// Whether the body is that of a directory.
fn is_dir_body(body: &Body) -> bool
    ensures { result ≡ is_dir_body body.now }
{
    match body {
        Body::Dir => true,
        Body::File(_) => false,
    }
}

/// The entry with this number.
pub fn entry(entries: &[Entry], n: Node) -> Option<&Entry>
    ensures { option_copied result ≡ entry entries.now n }
{
    if n.0 == 0 {
        return None;
    }
    entries.get(n.0 - 1)
}

/// Whether the node is a directory.
pub fn is_dir(entries: &[Entry], n: Node) -> bool
    ensures { result ≡ is_dir entries.now n }
{
    if n.0 == 0 {
        return true;
    }
    match entries.get(n.0 - 1) {
        Some(e) => is_dir_body(&e.body),
        None => false,
    }
}

/// The node that the path leads to.
pub fn find(letters: Letters, entries: &[Entry], path: &[Name]) -> Option<Node>
    requires { IsNonDecreasingBy (rank_by letters) entries.now }
    ensures { result ≡ find_by letters entries.now path.now }
{
    let mut node = Node(0);
    for name in path {
        match child(letters, entries, node, name) {
            None => return None,
            Some(n) => node = n,
        }
    }
    Some(node)
}

// The directory that the path leads to.
fn directory(letters: Letters, entries: &[Entry], path: &[Name]) -> Result<Node, RoomFault>
    requires { IsNonDecreasingBy (rank_by letters) entries.now }
    ensures { result ≡ directory_from_by letters entries.now 0 path.now }
{
    let mut node = Node(0);
    for name in path {
        match child(letters, entries, node, name) {
            None => return Err(RoomFault::NoParent),
            Some(n) => {
                if !is_dir(entries, n) {
                    return Err(RoomFault::ParentIsFile);
                }
                node = n;
            }
        }
    }
    Ok(node)
}

// Whether an entry has this parent and this name; the last chain needs no scan.
#[tactic(auto, using(crate::proofs::LastNames::known_child))]
fn is_taken(
    letters: Letters,
    entries: &[Entry],
    chain: &LastChain,
    parent: Node,
    name: &Name,
) -> bool
    requires order { IsNonDecreasingBy (rank_by letters) entries.now }
    requires names { IsOfBy letters chain.now entries.now }
    ensures { result ≡ is_some (child_by letters entries.now parent name.now) }
{
    if chain.knows(parent, slot_by(letters, name.bytes())) {
        return chain.has(letters, name);
    }
    child(letters, entries, parent, name).is_some()
}

/// The directory that the path leads to, if it has no entry of this name.
pub fn room_for(
    letters: Letters,
    entries: &[Entry],
    chain: &LastChain,
    path: &[Name],
    name: &Name,
) -> Result<Node, RoomFault>
    requires order { IsNonDecreasingBy (rank_by letters) entries.now }
    requires names { IsOfBy letters chain.now entries.now }
    ensures { result
        ≡ room_at_by letters entries.now name.now (directory_from_by letters entries.now 0 path.now) }
{
    let parent = directory(letters, entries, path)?;
    if is_taken(letters, entries, chain, parent, name) {
        return Err(RoomFault::Exists);
    }
    Ok(parent)
}

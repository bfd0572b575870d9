// The set of names in the last chain of a tree: an entry at its end is added without a scan.

ghost use Rattle.std.specs.Prelude.{◌≡◌, ◌<◌, ◌≤◌, ℕ, List, length, true, false, is_ok, if◌then◌else◌, IfErr};
ghost use Rattle.std.specs.List.Sorted.{IsNonDecreasingBy};
ghost use Rattle.adf_names.specs.Texts.{uppers_by};
ghost use Rattle.adf_tree.specs.Tree.{added_by, place_by, rank_by, rank_of, IsTreeBy};
ghost use Rattle.adf_tree.specs.{NameSet.has, LastChain.knows, LastChain.IsOfBy, LastChain.Puts};

use crate::entry::{Entry, Node};
use crate::name_set::NameSet;
use crate::tree::AddFault;
use crate::walk_order::{insert_entry, place_of, start_of};
use adf_base::{Letters, slot_by};
use adf_names::Name;
use std::alloc::Global;

/// The names, in upper case, of the entries of one parent and slot, if they are known.
#[derive(Drop)]
pub struct LastChain {
    is_known: bool,
    parent: Node,
    slot: u8,
    names: NameSet,
}

impl LastChain {
    /// The value with no names known.
    pub fn new(alloc: Global) -> LastChain
        ensures { result.is_known ≡ false }
    {
        LastChain {
            is_known: false,
            parent: Node(0),
            slot: 0,
            names: NameSet::new(alloc),
        }
    }

    /// Whether the names of this parent and slot are known.
    pub fn knows(&self, parent: Node, slot: u8) -> bool
        ensures { result ≡ knows self.now parent slot }
    {
        self.is_known && self.parent.0 == parent.0 && self.slot == slot
    }

    /// Whether the known names include this one, ignoring case.
    pub fn has(&self, letters: Letters, name: &Name) -> bool
        ensures { result ≡ has self.now.names (uppers_by letters name.now) }
    {
        self.names.has_by(letters, name)
    }

    /// Forgets the names.
    pub fn forget(&mut self)
        ensures { self.new.is_known ≡ false }
    {
        self.is_known = false;
        self.names.clear();
    }

    // Starts a chain with no names.
    fn start(&mut self, parent: Node, slot: u8)
        ensures parent { self.new.parent ≡ parent }
        ensures slot { self.new.slot ≡ slot }
        ensures none { (x : List ℕ) → has self.new.names x ≡ false }
    {
        self.names.clear();
        self.is_known = true;
        self.parent = parent;
        self.slot = slot;
    }

    // Adds a name; if memory is refused, forgets all of them.
    #[tactic(auto, using(crate::proofs::LastNames::at_ok))]
    fn put(&mut self, letters: Letters, name: &Name)
        ensures { Puts self.old self.new (uppers_by letters name.now) }
    {
        if self.names.put_by(letters, name).is_err() {
            self.is_known = false;
        }
    }

    // Prepares for an entry of this parent and slot: keeps names only if they are those of the last chain.
    #[tactic(auto, using(crate::proofs::LastNames::begun, crate::proofs::LastNames::place_past))]
    fn prepare(&mut self, letters: Letters, entries: &[Entry], parent: Node, slot: u8)
        requires slot { slot < 72 }
        requires order { IsNonDecreasingBy (rank_by letters) entries.now }
        requires names { IsOfBy letters self.old entries.now }
        ensures names { IsOfBy letters self.new entries.now }
        ensures parent { self.new.is_known ≡ true → self.new.parent ≡ parent }
        ensures slot { self.new.is_known ≡ true → self.new.slot ≡ slot }
        ensures last { self.new.is_known ≡ true
            → place_by letters entries.now (rank_of parent slot) ≡ length entries.now }
    {
        if start_of(letters, entries, parent, slot) == entries.len() {
            self.start(parent, slot);
        } else if place_of(letters, entries, parent, slot) < entries.len()
            || !self.knows(parent, slot)
        {
            self.forget();
        }
    }
}

/// Adds an entry after all entries of the same or a lower parent and slot.
pub fn add_entry(
    letters: Letters,
    entries: &mut Vec<Entry>,
    chain: &mut LastChain,
    entry: Entry,
) -> Result<(), AddFault>
    requires tree { IsTreeBy letters entries.old.items }
    requires names { IsOfBy letters chain.old entries.old.items }
    ensures entries { entries.new.items
        ≡ if is_ok result then added_by letters entries.old.items entry else entries.old.items }
    ensures refused { IfErr result (λ f. f ≡ AddFault.NoMemory) }
    ensures names { IsOfBy letters chain.new entries.new.items }
{
    let name = entry.name.copy();
    let slot = slot_by(letters, entry.name.bytes());
    chain.prepare(letters, entries, entry.parent, slot);
    insert_entry(letters, entries, entry)?;
    chain.put(letters, &name);
    Ok(())
}

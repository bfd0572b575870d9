// The entries of a tree, by the letters whose case is ignored in their names.

ghost use Rattle.std.specs.Prelude.{◌≡◌, [], length, is_ok, if◌then◌else◌, IfOk, OnOk};
ghost use Rattle.std.specs.{Option.option_copied, List.All};
ghost use Rattle.adf_tree.specs.Tree.{entry, find_by, new_entry_by, room_for_by, with_added, with_last_entry, IsAnswer, IsLastBy};
ghost use Rattle.adf_tree.specs.{Tree.IsTreeBy, Tree.MayAddBy, Bounds.IsBoundedEntry, Paths.AddsOneBy};

use crate::bounds::entry_bounds;
use crate::entry::{Body, Entry, Node};
use crate::last_chain::{LastChain, add_entry};
use crate::lookup::{entry, find, room_for};
use crate::tree::AddFault;
use adf_base::{Letters, NoMemory};
use adf_names::{Meta, Name};
use std::alloc::Global;
use std::marker::Model;

/// The entries of a tree, in walk order, and the letters whose case is ignored in their names.
#[derive(Drop)]
pub struct TreeEntries {
    letters: Letters,
    entries: Vec<Entry>,
    last_chain: LastChain,
}

impl Model for TreeEntries {
    ghost use Rattle.adf_tree.specs.Tree as specs;
    ghost use Rattle.adf_tree.specs.{Tree.IsTreeBy, LastChain.IsOfBy};

    ghost Value = { specs.TreeEntries };

    ghost view = { λ t. record { letters = t.letters; entries = t.entries.items } };

    ghost invariant = { λ t. IsTreeBy t.letters t.entries.items × IsOfBy t.letters t.last_chain t.entries.items };
}

impl TreeEntries {
    /// No entries; the case of these letters is ignored.
    pub fn new(alloc: Global, letters: Letters) -> TreeEntries
        ensures { result ≡ record { letters = letters; entries = [] } }
    {
        TreeEntries {
            letters,
            entries: Vec::new(alloc),
            last_chain: LastChain::new(alloc),
        }
    }

    /// No entries, and memory for `count` of them.
    pub fn with_capacity(
        alloc: Global,
        letters: Letters,
        count: usize,
    ) -> Result<TreeEntries, NoMemory>
        ensures { IfOk result (λ t. t ≡ record { letters = letters; entries = [] }) }
    {
        let entries = Vec::with_capacity(alloc, count)?;
        let mut made = TreeEntries::new(alloc, letters);
        made.entries = entries;
        Ok(made)
    }

    /// The letters whose case is ignored.
    pub fn letters(&self) -> Letters
        ensures { result ≡ self.now.letters }
    {
        self.letters
    }

    /// The number of entries, not counting the root.
    pub fn len(&self) -> usize
        ensures count { result ≡ length self.now.entries }
        ensures tree { IsTreeBy self.now.letters self.now.entries }
    {
        self.entries.len()
    }

    /// States that each field of the entries is within the bounds of its type; does nothing at run time.
    pub fn bounds(&self)
        ensures { All IsBoundedEntry self.now.entries }
    {
        for entry in &self.entries {
            entry_bounds(entry);
        }
    }

    /// Adds an entry after all entries of its parent and slot. On a fault nothing changes. Of several faults the
    /// first is returned: `EmptyPath`, then `NoParent` or `ParentIsFile`, then `Exists`.
    pub fn add(&mut self, path: &[Name], meta: Meta, body: Body) -> Result<(), AddFault>
        ensures answer { IsAnswer (room_for_by self.old.letters self.old.entries path.now) result }
        ensures paths { OnOk result
            (AddsOneBy self.old.letters self.old.entries self.new.entries
            (new_entry_by self.old.letters self.old.entries path.now meta body) path.now) }
        ensures entries { self.new
            ≡ if is_ok result then with_added self.old path.now meta body else self.old }
    {
        if path.is_empty() {
            return Err(AddFault::EmptyPath);
        }
        let last = path.len() - 1;
        let name = path[last].copy();
        let letters = self.letters;
        let chain = &self.last_chain;
        let parent = room_for(letters, &self.entries, chain, &path[..last], &name)?;
        add_entry(
            letters,
            &mut self.entries,
            &mut self.last_chain,
            Entry {
                parent,
                name,
                meta,
                body,
            },
        )
    }

    /// Adds an entry that is last in walk order, without a look-up. Its parent must be a directory with no
    /// entry of its name. On `NoMemory` nothing changes.
    pub fn add_last(&mut self, entry: Entry) -> Result<(), NoMemory>
        requires may { MayAddBy self.old.letters self.old.entries entry }
        requires last { IsLastBy self.old.letters self.old.entries entry }
        ensures { self.new ≡ if is_ok result then with_last_entry self.old entry else self.old }
    {
        self.last_chain.forget();
        match self.entries.push(entry) {
            Ok(()) => Ok(()),
            Err(_) => Err(NoMemory),
        }
    }

    /// The node that the path leads to; 0 for the empty path.
    pub fn find(&self, path: &[Name]) -> Option<Node>
        ensures found { result ≡ find_by self.now.letters self.now.entries path.now }
        ensures tree { IsTreeBy self.now.letters self.now.entries }
    {
        find(self.letters, &self.entries, path)
    }

    /// The entry with this number; `None` for the root.
    pub fn entry(&self, n: Node) -> Option<&Entry>
        ensures found { option_copied result ≡ entry self.now.entries n }
        ensures tree { IsTreeBy self.now.letters self.now.entries }
    {
        entry(&self.entries, n)
    }
}

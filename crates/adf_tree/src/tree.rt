// Trees.

ghost use Rattle.std.specs.Prelude.{◌≡◌, ◌<◌, [], length, is_ok, if◌then◌else◌, IfOk, OnOk};
ghost use Rattle.std.specs.Option.{option_copied};
ghost use Rattle.adf_base.specs.declared.hash.Letters.TheVariants.{Ascii};
ghost use Rattle.adf_tree.specs.Tree.{entry, find_by, new_entry_by, room_for_by, with_entry_by, with_kind, with_last, IsAnswer};
ghost use Rattle.adf_tree.specs.Tree.{IsLastBy, IsTree, IsTreeBy, MayAddBy};
ghost use Rattle.adf_tree.specs.{Faults.add_fault_number, Bounds.IsBounded, Paths.AddsOneBy};

use crate::entry::{Body, Entry, Node};
use crate::tree_entries::TreeEntries;
use adf_base::{Letters, NoMemory};
use adf_names::{Kind, Label, Meta, Name, Stamps};
use std::alloc::Global;
use std::error::Error;
use std::fmt;
use std::marker::Model;

/// A tree of directories and files.
#[derive(Drop)]
pub struct Tree {
    kind: Kind,
    label: Label,
    stamps: Stamps,
    entries: TreeEntries,
}

impl Model for Tree {
    ghost use Rattle.adf_tree.specs.Tree as specs;

    ghost Value = { specs.Tree };

    ghost view = { λ t. record {
      kind = t.kind;
      letters = t.entries.letters;
      label = t.label;
      stamps = t.stamps;
      entries = t.entries.entries;
    } };
}

/// Why a path has no room in a tree.
#[derive(Clone, Copy, Debug, PartialEq, Eq)]
pub enum RoomFault {
    /// The path has no name.
    EmptyPath,
    /// The shortest proper prefix of the path that is not a directory does not exist.
    NoParent,
    /// The shortest proper prefix of the path that is not a directory is a file.
    ParentIsFile,
    /// The path leads to an existing entry.
    Exists,
}

/// Why an entry cannot be added.
#[derive(Clone, Copy, Debug, PartialEq, Eq)]
pub enum AddFault {
    /// The shortest proper prefix of the path that is not a directory does not exist.
    NoParent = 1,
    /// The shortest proper prefix of the path that is not a directory is a file.
    ParentIsFile = 2,
    /// The path leads to an existing entry.
    Exists = 3,
    /// An allocation failed.
    NoMemory = 4,
    /// The path has no name.
    EmptyPath = 5,
}

impl From<RoomFault> for AddFault {
    ghost use Rattle.std.specs.Prelude.{◌≡◌};
    ghost use Rattle.adf_tree.specs.Faults.{add_fault};

    ghost from_gives = { λ room e. e ≡ add_fault room };

    fn from(fault: RoomFault) -> AddFault {
        match fault {
            RoomFault::EmptyPath => AddFault::EmptyPath,
            RoomFault::NoParent => AddFault::NoParent,
            RoomFault::ParentIsFile => AddFault::ParentIsFile,
            RoomFault::Exists => AddFault::Exists,
        }
    }
}

impl AddFault {
    /// The number of the fault, 1 to 5.
    pub fn number(self) -> u8
        ensures { result ≡ add_fault_number self }
    {
        self as u8
    }
}

impl fmt::Display for AddFault {
    ghost use Rattle.std.specs.Prelude.{Some};
    ghost use Rattle.adf_tree.specs.Faults.{add_fault_text};

    ghost output = { λ x. Some (add_fault_text x) };

    fn fmt<W: fmt::Write>(&self, f: &mut fmt::Formatter<W>) -> fmt::Result {
        f.write_str(match self {
            AddFault::NoParent => "no parent",
            AddFault::ParentIsFile => "parent is file",
            AddFault::Exists => "exists",
            AddFault::NoMemory => "no memory",
            AddFault::EmptyPath => "no name",
        })
    }
}

impl Error for AddFault {}

impl fmt::Display for RoomFault {
    ghost use Rattle.std.specs.Prelude.{Some};
    ghost use Rattle.adf_tree.specs.Faults.{add_fault, add_fault_text};

    ghost output = { λ x. Some (add_fault_text (add_fault x)) };

    fn fmt<W: fmt::Write>(&self, f: &mut fmt::Formatter<W>) -> fmt::Result {
        AddFault::from(*self).fmt(f)
    }
}

impl Error for RoomFault {}

impl Tree {
    /// A tree of ASCII letters with no entries.
    pub fn new(alloc: Global, kind: Kind, label: Label, stamps: Stamps) -> Tree
        ensures { result ≡ record { kind = kind; letters = Ascii; label = label; stamps = stamps; entries = [] } }
    {
        Tree::with_letters(alloc, kind, Letters::Ascii, label, stamps)
    }

    /// A tree with no entries; the case of these letters is ignored in its names.
    pub fn with_letters(
        alloc: Global,
        kind: Kind,
        letters: Letters,
        label: Label,
        stamps: Stamps,
    ) -> Tree
        ensures { result ≡ record { kind = kind; letters = letters; label = label; stamps = stamps; entries = [] } }
    {
        Tree {
            kind,
            label,
            stamps,
            entries: TreeEntries::new(alloc, letters),
        }
    }

    /// A tree of ASCII letters with no entries, and memory for `count` of them.
    pub fn with_capacity(
        alloc: Global,
        kind: Kind,
        label: Label,
        stamps: Stamps,
        count: usize,
    ) -> Result<Tree, NoMemory>
        ensures { IfOk result (λ t.
            t ≡ record { kind = kind; letters = Ascii; label = label; stamps = stamps; entries = [] }) }
    {
        Ok(Tree {
            kind,
            label,
            stamps,
            entries: TreeEntries::with_capacity(alloc, Letters::Ascii, count)?,
        })
    }

    /// The kind of the volume.
    pub fn kind(&self) -> Kind
        ensures { result ≡ self.now.kind }
    {
        self.kind
    }

    /// The letters whose case is ignored in the names.
    pub fn letters(&self) -> Letters
        ensures { result ≡ self.now.letters }
    {
        self.entries.letters()
    }

    /// The label of the volume.
    pub fn label(&self) -> &Label
        ensures { result.now ≡ self.now.label }
    {
        &self.label
    }

    /// The dates of the volume.
    pub fn stamps(&self) -> Stamps
        ensures { result ≡ self.now.stamps }
    {
        self.stamps
    }

    /// Sets the kind of the volume.
    pub fn set_kind(&mut self, kind: Kind)
        ensures { self.new ≡ with_kind self.old kind }
    {
        self.kind = kind;
    }

    /// The number of entries, not counting the root.
    pub fn len(&self) -> usize
        ensures count { result ≡ length self.now.entries }
        ensures tree { IsTreeBy self.now.letters self.now.entries }
        ensures plain { self.now.letters ≡ Ascii → IsTree self.now.entries }
    {
        self.entries.len()
    }

    /// States that each field of the tree is within the bounds of its type; does nothing at run time.
    pub fn bounds(&self)
        ensures { IsBounded self.now }
    {
        let _label = self.label.bytes();
        self.stamps.bounds();
        self.entries.bounds();
    }

    /// Adds an entry after all entries of its parent and slot. On a fault the tree is unchanged. Of several
    /// faults the first is returned: `EmptyPath`, then `NoParent` or `ParentIsFile`, then `Exists`.
    pub fn add(&mut self, path: &[Name], meta: Meta, body: Body) -> Result<(), AddFault>
        ensures answer { IsAnswer (room_for_by self.old.letters self.old.entries path.now) result }
        ensures paths { OnOk result
            (AddsOneBy self.old.letters self.old.entries self.new.entries
            (new_entry_by self.old.letters self.old.entries path.now meta body) path.now) }
        ensures tree { self.new ≡ if is_ok result
            then with_entry_by self.old.letters self.old path.now meta body else self.old }
    {
        self.entries.add(path, meta, body)
    }

    /// Adds an entry that is last in walk order, without a look-up. Its parent must be a directory with no
    /// entry of its name. On `NoMemory` the tree is unchanged.
    pub fn add_last(&mut self, entry: Entry) -> Result<(), NoMemory>
        requires may { MayAddBy self.old.letters self.old.entries entry }
        requires last { IsLastBy self.old.letters self.old.entries entry }
        ensures { self.new ≡ if is_ok result then with_last self.old entry else self.old }
    {
        self.entries.add_last(entry)
    }

    /// The node that the path leads to; 0 for the empty path.
    pub fn find(&self, path: &[Name]) -> Option<Node>
        ensures found { result ≡ find_by self.now.letters self.now.entries path.now }
        ensures tree { IsTreeBy self.now.letters self.now.entries }
    {
        self.entries.find(path)
    }

    /// The entry with this number; `None` for the root.
    pub fn entry(&self, n: Node) -> Option<&Entry>
        ensures found { option_copied result ≡ entry self.now.entries n }
        ensures tree { IsTreeBy self.now.letters self.now.entries }
        ensures plain { self.now.letters ≡ Ascii → IsTree self.now.entries }
    {
        self.entries.entry(n)
    }
}

// Trees under construction.

ghost use Rattle.std.specs.Prelude.{◌≡◌, ◌≤◌, ◌+◌, ◌++◌, ◌∷◌, ℕ, List, [], length, is_ok, if◌then◌else◌, Err, IfOk, IfErr};
ghost use Rattle.std.specs.Prelude.{IfNone, IfSome, OnOk, OnErr};
ghost use Rattle.adf_base.specs.declared.hash.Letters.TheVariants.{Ascii};
ghost use Rattle.adf_tree.specs.Tree.{directory_from_by, new_entry_by, room_at_by, room_for_by, with_entry_by, IsAnswer};
ghost use Rattle.adf_tree.specs.Paths.{AddsOneBy};
ghost use Rattle.adf_names.specs.Texts.{uppers_by};
ghost use Rattle.adf_drafts.specs.ChildMap.{number_in, AddsNumber};
ghost use Rattle.adf_drafts.specs.Draft.{room_in_tree, built, IsDirectoryOf, IsDraft, IsRoomFor};

use crate::child_map::ChildMap;
use crate::groups::walked;
use adf_base::{Letters, NoMemory};
use adf_names::{Kind, Label, Meta, Name, Stamps};
use adf_tree::{AddFault, Body, Entry, Node, RoomFault, Tree, is_dir};
use std::alloc::Global;
use std::marker::Model;

/// A tree under construction. Entries are added in any order; each addition costs at most one look-up.
#[derive(Drop)]
pub struct Draft {
    kind: Kind,
    letters: Letters,
    label: Label,
    stamps: Stamps,
    entries: Vec<Entry>,
    children: ChildMap,
}

impl Model for Draft {
    ghost use Rattle.adf_drafts.specs.Draft.{draft_value, built, DraftValue, IsDraft};

    ghost Value = { DraftValue };

    ghost view = { λ d. draft_value d.kind d.letters d.label d.stamps (built d.letters d.entries.items) };

    ghost invariant = { λ d. IsDraft d.letters d.entries.items d.children.buckets.items };
}

/// The place of a new entry in a draft: its parent, by number of addition, and its name.
#[derive(Drop)]
pub struct Room {
    pub parent: Node,
    pub name: Name,
}

// The directory that the path leads to, by number of addition.
#[tactic(auto, using(crate::proofs::DraftLookup::step_none))]
fn directory(
    letters: Letters,
    entries: &[Entry],
    children: &ChildMap,
    path: &[Name],
) -> Result<Node, RoomFault>
    requires { IsDraft letters entries.now children.now.buckets.items }
    ensures room { directory_from_by letters (built letters entries.now).entries 0 path.now
        ≡ room_in_tree (built letters entries.now).nodes result }
    ensures within { IfOk result (λ m. m ≤ length entries.now) }
{
    let mut node = Node(0);
    for name in path {
        match children.get(letters, node, name) {
            None => return Err(RoomFault::NoParent),
            Some(n) => {
                if !is_dir(entries, n) {
                    return Err(RoomFault::ParentIsFile);
                }
                node = n;
            }
        }
    }
    Ok(node)
}

// The directory that the path leads to, if it has no entry of this name.
fn free_directory(
    letters: Letters,
    entries: &[Entry],
    children: &ChildMap,
    path: &[Name],
    name: &Name,
) -> Result<Node, RoomFault>
    requires { IsDraft letters entries.now children.now.buckets.items }
    ensures room { room_at_by letters (built letters entries.now).entries name.now
        (directory_from_by letters (built letters entries.now).entries 0 path.now)
        ≡ room_in_tree (built letters entries.now).nodes result }
    ensures within { IfOk result (λ m. m ≤ length entries.now) }
{
    let parent = directory(letters, entries, children, path)?;
    match children.get(letters, parent, name) {
        None => Ok(parent),
        Some(_) => Err(RoomFault::Exists),
    }
}

// Adds an entry. On `NoMemory` nothing changes.
fn add_child(
    letters: Letters,
    entries: &mut Vec<Entry>,
    children: &mut ChildMap,
    entry: Entry,
) -> Result<(), NoMemory>
    ensures entries { entries.new.items
        ≡ if is_ok result then entries.old.items ++ entry ∷ [] else entries.old.items }
    ensures more { OnOk result
        (AddsNumber children.old.buckets.items children.new.buckets.items entry.parent
        (uppers_by letters entry.name) (length entries.old.items + 1)) }
    ensures same { OnErr result ((p : ℕ) (x : List ℕ)
        → number_in children.new.buckets.items p x ≡ number_in children.old.buckets.items p x) }
{
    let parent = entry.parent;
    entries.push(entry)?;
    let number = entries.len();
    let name = &entries[number - 1].name;
    if children.put(letters, parent, name, Node(number)).is_err() {
        entries.pop();
        return Err(NoMemory);
    }
    Ok(())
}

impl Draft {
    /// A draft of ASCII letters with no entries.
    pub fn new(alloc: Global, kind: Kind, label: Label, stamps: Stamps) -> Draft
        ensures tree { result.tree
            ≡ record { kind = kind; letters = Ascii; label = label; stamps = stamps; entries = [] } }
        ensures nodes { result.nodes ≡ [] }
    {
        Draft::with_letters(alloc, kind, Letters::Ascii, label, stamps)
    }

    /// A draft with no entries; the case of these letters is ignored in its names.
    pub fn with_letters(
        alloc: Global,
        kind: Kind,
        letters: Letters,
        label: Label,
        stamps: Stamps,
    ) -> Draft
        ensures tree { result.tree
            ≡ record { kind = kind; letters = letters; label = label; stamps = stamps; entries = [] } }
        ensures nodes { result.nodes ≡ [] }
    {
        Draft {
            kind,
            letters,
            label,
            stamps,
            entries: Vec::new(alloc),
            children: ChildMap::new(alloc),
        }
    }

    /// The number of additions.
    pub fn len(&self) -> usize
        ensures { result ≡ length self.now.nodes }
    {
        self.entries.len()
    }

    /// The letters whose case is ignored in names.
    pub fn letters(&self) -> Letters
        ensures { result ≡ self.now.tree.letters }
    {
        self.letters
    }

    /// The room for an entry of this name in a directory, by number of addition; `None` if the directory has an entry
    /// of this name. The cost does not depend on how deep the directory is.
    pub fn room_in(&self, directory: Node, name: &Name) -> Option<Room>
        ensures some { (path : List (List ℕ)) → IsDirectoryOf self.now path directory
            → IfSome result (λ r. IsRoomFor self.now (path ++ name.now ∷ []) r) }
        ensures none { (path : List (List ℕ)) → IsDirectoryOf self.now path directory
            → IfNone result (room_for_by self.now.tree.letters self.now.tree.entries (path ++ name.now ∷ [])
            ≡ Err RoomFault.Exists) }
    {
        match self.children.get(self.letters, directory, name) {
            None => Some(Room {
                parent: directory,
                name: name.copy(),
            }),
            Some(_) => None,
        }
    }

    /// The room for an entry with this path, or why there is none.
    pub fn room(&self, path: &[Name]) -> Result<Room, RoomFault>
        ensures some { IfOk result (λ r. IsRoomFor self.now path.now r) }
        ensures fault { IfErr result (λ f. room_for_by self.now.tree.letters self.now.tree.entries path.now ≡ Err f) }
    {
        if path.is_empty() {
            return Err(RoomFault::EmptyPath);
        }
        let last = path.len() - 1;
        let name = path[last].copy();
        let parent = free_directory(
            self.letters,
            &self.entries,
            &self.children,
            &path[..last],
            &name,
        )?;
        Ok(Room { parent, name })
    }

    /// Adds an entry in a room of this draft, without another look-up. On `NoMemory` the draft is unchanged.
    pub fn put(&mut self, room: &Room, meta: Meta, body: Body) -> Result<(), NoMemory>
        requires room { (path : List (List ℕ)) × IsRoomFor self.old path room.now }
        ensures paths { (path : List (List ℕ)) → IsRoomFor self.old path room.now → OnOk result
            (AddsOneBy self.old.tree.letters self.old.tree.entries self.new.tree.entries
            (new_entry_by self.old.tree.letters self.old.tree.entries path meta body) path) }
        ensures tree { (path : List (List ℕ)) → IsRoomFor self.old path room.now
            → self.new.tree
            ≡ if is_ok result then with_entry_by self.old.tree.letters self.old.tree path meta body else self.old.tree }
        ensures count { (path : List (List ℕ)) → IsRoomFor self.old path room.now
            → OnOk result (length self.new.nodes ≡ length self.old.nodes + 1) }
        ensures directories { (path other : List (List ℕ)) (m : ℕ)
            → IsRoomFor self.old path room.now
            → IsDirectoryOf self.old other m → IsDirectoryOf self.new other m }
        ensures directory { (path : List (List ℕ)) → IsRoomFor self.old path room.now
            → body ≡ Body.Dir
            → OnOk result (IsDirectoryOf self.new path (length self.old.nodes + 1)) }
    {
        let parent = room.parent;
        let name = room.name.copy();
        add_child(
            self.letters,
            &mut self.entries,
            &mut self.children,
            Entry {
                parent,
                name,
                meta,
                body,
            },
        )
    }

    /// Adds an entry, as `Tree::add` does.
    pub fn add(&mut self, path: &[Name], meta: Meta, body: Body) -> Result<(), AddFault>
        ensures answer { IsAnswer (room_for_by self.old.tree.letters self.old.tree.entries path.now) result }
        ensures paths { OnOk result
            (AddsOneBy self.old.tree.letters self.old.tree.entries self.new.tree.entries
            (new_entry_by self.old.tree.letters self.old.tree.entries path.now meta body) path.now) }
        ensures tree { self.new.tree
            ≡ if is_ok result then with_entry_by self.old.tree.letters self.old.tree path.now meta body else self.old.tree }
    {
        let room = self.room(path)?;
        match self.put(&room, meta, body) {
            Ok(()) => Ok(()),
            Err(NoMemory) => Err(AddFault::NoMemory),
        }
    }

    /// The finished tree.
    pub fn finish(self, alloc: Global) -> Result<Tree, NoMemory>
        ensures { IfOk result (λ t. t ≡ self.tree) }
    {
        let tree = match self.letters {
            Letters::Ascii => {
                Tree::with_capacity(
                    alloc,
                    self.kind,
                    self.label,
                    self.stamps,
                    self.entries.len(),
                )?
            }
            letters => Tree::with_letters(alloc, self.kind, letters, self.label, self.stamps),
        };
        walked(alloc, tree, self.entries)
    }
}

// Trees as lists of additions.

ghost use Rattle.std.specs.Prelude.{◌≡◌, ◌≤◌, length, IfOk, IsOk, OnOk};
ghost use Rattle.adf_tree.specs.{Additions.AllHaveRoomBy, Tree.room_for_by};
ghost use Rattle.adf_edits.specs.Outline.{addition_for, outline_of, tree_additions, tree_of_outline_by, with_addition_for, with_addition_in};

use crate::paths::{MOST_DEPTH, push_names};
use crate::tree_fault::{TreeFault, refusal};
use adf_base::{Letters, NoMemory};
use adf_drafts::Draft;
use adf_names::{Kind, Label, Meta, Name, Stamps};
use adf_tree::{Body, Bytes, Entry, Node, Tree};
use std::alloc::Global;
use std::marker::Model;

/// An entry with its path.
#[derive(Drop)]
pub struct Item {
    pub path: Vec<Name>,
    pub meta: Meta,
    pub body: Body,
}

impl Model for Item {
    ghost use Rattle.adf_tree.specs.Additions.{Addition};

    ghost Value = { Addition };

    ghost view = { λ x. record { path = x.path.items; meta = x.meta; body = x.body } };
}

/// A tree as the list of its additions, each directory before what is in it.
#[derive(Drop)]
pub struct Outline {
    pub kind: Kind,
    pub label: Label,
    pub stamps: Stamps,
    pub items: Vec<Item>,
}

impl Model for Outline {
    ghost use Rattle.adf_edits.specs.Outline.{OutlineValue};

    ghost Value = { OutlineValue };

    ghost view = { λ o. record { kind = o.kind; label = o.label; stamps = o.stamps; additions = o.items.items } };
}

/// Why a tree has no outline.
#[derive(Clone, Copy, Debug, PartialEq, Eq)]
pub enum OutlineFault {
    /// An entry is deeper than `MOST_DEPTH` names.
    TooDeep,
    /// An allocation failed.
    NoMemory,
}

impl From<NoMemory> for OutlineFault {
    fn from(_fault: NoMemory) -> OutlineFault {
        OutlineFault::NoMemory
    }
}

// A copy of a body.
fn copy_body(alloc: Global, body: &Body) -> Result<Body, NoMemory>
    ensures { IfOk result (λ b. b ≡ body.now) }
{
    match body {
        Body::Dir => Ok(Body::Dir),
        Body::File(bytes) => {
            let mut copied = Vec::new(alloc);
            copied.extend_from_slice(bytes.bytes())?;
            Ok(Body::File(Bytes::new(copied)))
        }
    }
}

// The number of names in the path of an entry's directory.
fn parent_depth(items: &[Item], entry: &Entry) -> usize
    requires { entry.now.parent ≤ length items.now }
{
    if entry.parent.0 == 0 {
        return 0;
    }
    let parent = &items[entry.parent.0 - 1];
    parent.path.len()
}

// The path of an entry, by those of the entries before it.
fn path_for(alloc: Global, items: &[Item], entry: &Entry) -> Result<Vec<Name>, NoMemory>
    requires { entry.now.parent ≤ length items.now }
    ensures { IfOk result (λ path. path.items ≡ (addition_for items.now entry.now).path) }
{
    let mut path = Vec::new(alloc);
    if 0 < entry.parent.0 {
        let parent = &items[entry.parent.0 - 1];
        push_names(&mut path, &parent.path)?;
    }
    path.push(entry.name.copy())?;
    Ok(path)
}

// Appends an entry to the additions of the entries before it, if its path is not too deep.
fn push_entry(alloc: Global, items: &mut Vec<Item>, entry: &Entry) -> Result<(), OutlineFault>
    requires { entry.now.parent ≤ length items.old.items }
    ensures { OnOk result (items.new.items ≡ with_addition_for items.old.items entry.now) }
{
    if MOST_DEPTH <= parent_depth(items, entry) {
        return Err(OutlineFault::TooDeep);
    }
    let path = path_for(alloc, items, entry)?;
    let body = copy_body(alloc, &entry.body)?;
    let meta = entry.meta.copy();
    match items.push(Item { path, meta, body }) {
        Ok(()) => Ok(()),
        Err(_) => Err(OutlineFault::NoMemory),
    }
}

// The additions of the entries of a tree.
#[tactic(auto, using(crate::proofs::Additions::some_entry, crate::proofs::Additions::entry_step, crate::proofs::Additions::parent_early, crate::proofs::Additions::additions_all))]
fn items_of(alloc: Global, tree: &Tree) -> Result<Vec<Item>, OutlineFault>
    ensures { IfOk result (λ items. items.items ≡ tree_additions tree.now.entries) }
{
    let mut items = Vec::new(alloc);
    for i in 0..tree.len() {
        let entry = tree.entry(Node(i + 1)).unwrap();
        match push_entry(alloc, &mut items, entry) {
            Ok(()) => {}
            Err(fault) => return Err(fault),
        }
    }
    Ok(items)
}

// A draft with one addition more.
fn with_item(alloc: Global, draft: Draft, item: Item) -> Result<Draft, TreeFault>
    ensures room { OnOk result (IsOk (room_for_by draft.tree.letters draft.tree.entries item.path)) }
    ensures tree { IfOk result (λ d. d.tree ≡ with_addition_in draft.tree item) }
{
    let mut draft = draft;
    let path = item.path;
    match draft.add(&path, item.meta, item.body) {
        Ok(()) => Ok(draft),
        Err(fault) => Err(refusal(alloc, draft, &path, fault)?),
    }
}

impl Outline {
    /// The outline of a tree; `TooDeep` where an entry is deeper than `MOST_DEPTH` names, and `NoMemory` if an allocation fails.
    /// No path is kept that has more names.
    pub fn of(alloc: Global, tree: &Tree) -> Result<Outline, OutlineFault>
        ensures { IfOk result (λ o. o ≡ outline_of tree.now) }
    {
        Ok(Outline {
            kind: tree.kind(),
            label: Label::new(tree.label().bytes()).unwrap(),
            stamps: tree.stamps(),
            items: items_of(alloc, tree)?,
        })
    }

    /// The tree of the outline by these letters. Why there is none: the first addition that has no room in the tree of those
    /// before it, with both entries where two names of one directory are one by these letters; or `NoMemory`.
    pub fn finish_by(self, alloc: Global, letters: Letters) -> Result<Tree, TreeFault>
        ensures room { OnOk result (AllHaveRoomBy letters self.additions) }
        ensures tree { IfOk result (λ t. t ≡ tree_of_outline_by letters self) }
    {
        let mut draft = Draft::with_letters(alloc, self.kind, letters, self.label, self.stamps);
        for item in self.items {
            draft = with_item(alloc, draft, item)?;
        }
        Ok(draft.finish(alloc)?)
    }
}

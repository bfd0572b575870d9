// Library calls on paths and trees that no command makes.

use crate::outcome::CallOutcome;
use adf_base::NO_STAMP;
use adf_drafts::Draft;
use adf_tree::{
    AddFault, Body, Bytes, Comment, Kind, Label, Meta, NO_STAMPS, Name, Node, Tree, read_path,
    write_path,
};
use std::alloc::Global;

/// Paths that have no place in the worked tree.
const REFUSED: [(&str, AddFault); 4] = [
    ("x/y", AddFault::NoParent),
    ("a/b/z", AddFault::ParentIsFile),
    ("A", AddFault::Exists),
    ("", AddFault::EmptyPath),
];

/// The text of a path of two names.
pub fn write_path_outcome(alloc: Global) -> Option<CallOutcome> {
    let path = [Name::new(b"c")?, Name::new(b"a b\\")?];
    Some(match write_path(alloc, &path) {
        Ok(text) => CallOutcome::Done.only_if(text.as_str() == "c/a b\\x5c"),
        Err(_) => CallOutcome::NoMemory,
    })
}

/// The metadata of entries that are added.
pub fn meta() -> Option<Meta> {
    Some(Meta::new(Comment::new(b"note")?, 15, NO_STAMP))
}

// Whether a tree has entries of these names, joined by spaces, in this order, and no others.
fn has_names(tree: &Tree, names: &str) -> bool {
    let mut count = 0usize;
    for name in names.split(' ') {
        count = count.saturating_add(1);
        match tree.entry(Node(count)) {
            Some(entry) if entry.name.bytes() == name.as_bytes() => {}
            _ => return false,
        }
    }
    tree.len() == count
}

// Adds an entry at a path.
fn add(alloc: Global, tree: &mut Tree, path: &str, body: Body) -> Option<Result<(), AddFault>> {
    let names = read_path(alloc, path.as_bytes()).ok()?;
    Some(tree.add(&names, meta()?, body))
}

// A tree of the directory `a`, the empty file `a/b` and the directory `3`, added in this order.
fn worked_tree(alloc: Global) -> Option<Tree> {
    let mut tree = Tree::new(alloc, Kind::Ofs, Label::new(b"Work")?, NO_STAMPS);
    for path in ["a", "a/b", "3"] {
        let body = match path {
            "a/b" => Body::File(Bytes::new(Vec::new(alloc))),
            _ => Body::Dir,
        };
        add(alloc, &mut tree, path, body)?.ok()?;
    }
    Some(tree)
}

// Whether the entries of the worked tree are numbered in walk order, and entries that have no place in it are refused and
// leave it as it was.
fn refuses_others(alloc: Global, tree: &mut Tree) -> Option<bool> {
    let mut refuses = has_names(tree, "a 3 b");
    for (path, fault) in REFUSED {
        let res = add(alloc, tree, path, Body::Dir)?;
        refuses = refuses && res == Err(fault) && has_names(tree, "a 3 b");
    }
    Some(refuses)
}

/// The worked tree, and then two entries of one chain: the second is added where the entries fill the room that was made
/// for them.
pub fn tree_add_outcome(alloc: Global) -> Option<CallOutcome> {
    let mut tree = worked_tree(alloc)?;
    let refuses = refuses_others(alloc, &mut tree)?;
    add(alloc, &mut tree, "BA", Body::Dir)?.ok()?;
    Some(match add(alloc, &mut tree, "AN", Body::Dir)? {
        Ok(()) => CallOutcome::Done.only_if(refuses && has_names(&tree, "a BA AN 3 b")),
        Err(fault) => {
            let stays = has_names(&tree, "a BA 3 b");
            CallOutcome::NoMemory.only_if(stays && fault == AddFault::NoMemory)
        }
    })
}

/// A second entry in a draft, which is then finished.
pub fn draft_add_outcome(alloc: Global) -> Option<CallOutcome> {
    let path = [Name::new(b"b")?, Name::new(b"c")?];
    let (first, second) = (meta()?, meta()?);
    let mut draft = Draft::new(alloc, Kind::Ofs, Label::new(b"Work")?, NO_STAMPS);
    draft.add(&path[..1], first, Body::Dir).ok()?;
    let res = draft.add(&path, second, Body::Dir);
    let has_room = draft.room(&path).is_ok();
    Some(match res {
        Err(fault) => CallOutcome::NoMemory.only_if(has_room && fault == AddFault::NoMemory),
        Ok(()) => finish_outcome(alloc, draft, has_room),
    })
}

// A draft of two entries, finished; nothing has room for the second any more.
fn finish_outcome(alloc: Global, draft: Draft, has_room: bool) -> CallOutcome {
    match draft.finish(alloc) {
        Ok(tree) => CallOutcome::Done.only_if(!has_room && has_names(&tree, "b c")),
        Err(_) => CallOutcome::NoMemory,
    }
}

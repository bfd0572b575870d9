// Why additions have no tree.

use crate::path_text::PathText;
use adf_base::NoMemory;
use adf_drafts::Draft;
use adf_names::Name;
use adf_tree::{AddFault, Node, Tree};
use std::alloc::Global;
use std::fmt;

/// Why additions have no tree by letters: the first of them that has no room in the tree of those before it.
#[derive(Debug, Drop)]
pub enum TreeFault {
    /// An entry of that tree has its path by these letters: the texts of the entry's own path, and of the path of the addition.
    Exists(PathText, PathText),
    /// There is another reason.
    NoRoom(AddFault),
    /// An allocation failed.
    NoMemory,
}

impl fmt::Display for TreeFault {
    fn fmt<W: fmt::Write>(&self, f: &mut fmt::Formatter<W>) -> fmt::Result {
        match self {
            TreeFault::Exists(standing, path) => {
                let standing = standing.as_str();
                let path = path.as_str();
                write!(f, "exists: remove or move one first: {standing} and {path}")
            }
            TreeFault::NoRoom(fault) => write!(f, "{fault}"),
            TreeFault::NoMemory => f.write_str("no memory"),
        }
    }
}

impl From<NoMemory> for TreeFault {
    fn from(_fault: NoMemory) -> TreeFault {
        TreeFault::NoMemory
    }
}

// The names of an entry from the root on, as written.
fn names_of(alloc: Global, tree: &Tree, n: Node) -> Result<Vec<Name>, NoMemory> {
    let mut names = Vec::new(alloc);
    let mut node = n;
    while let Some(entry) = tree.entry(node) {
        names.push(entry.name.copy())?;
        node = entry.parent;
    }
    names.reverse();
    Ok(names)
}

// The text of the own path of the entry that has this path.
fn standing_text(alloc: Global, tree: &Tree, path: &[Name]) -> Result<PathText, NoMemory> {
    match tree.find(path) {
        Some(n) => {
            let names = names_of(alloc, tree, n)?;
            PathText::of(alloc, &names)
        }
        None => PathText::of(alloc, path),
    }
}

// Why there is no room for this path where an entry has it: both are named.
fn both_named(alloc: Global, draft: Draft, path: &[Name]) -> Result<TreeFault, NoMemory> {
    let tree = draft.finish(alloc)?;
    let standing = standing_text(alloc, &tree, path)?;
    let own = PathText::of(alloc, path)?;
    Ok(TreeFault::Exists(standing, own))
}

/// Why an addition of this path has no room in a draft, whose answer is this fault.
pub fn refusal(
    alloc: Global,
    draft: Draft,
    path: &[Name],
    fault: AddFault,
) -> Result<TreeFault, NoMemory> {
    match fault {
        AddFault::Exists => both_named(alloc, draft, path),
        AddFault::NoMemory => Err(NoMemory),
        fault => Ok(TreeFault::NoRoom(fault)),
    }
}

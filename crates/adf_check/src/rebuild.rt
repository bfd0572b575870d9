// The tree of a checked volume, rebuilt.

ghost use Rattle.std.specs.Prelude.{[], IsOk, ◌≡◌, ◌≢◌, ◌≤◌, ◌<◌, ◌+◌, length, option_map, IfOk, IfSome, IsSome};
ghost use Rattle.adf_tree.specs.{declared.entry.Body.Body, Tree.entry};
ghost use Rattle.adf_check.specs.{Rebuild.body_with, Volumes.OnVolume};

use crate::checked::Checked;
use adf_base::NoMemory;
use adf_tree::{Body, Bytes, Entry, Label, Node};
use std::alloc::Global;

// The body of a directory, or of a file with these bytes.
fn body_with(bytes: Option<Vec<u8>>) -> Body
    ensures { result ≡ body_with (option_map (λ v. v.items) bytes) }
{
    match bytes {
        None => Body::Dir,
        Some(bytes) => Body::File(Bytes::new(bytes)),
    }
}

// An entry with its bytes; `None` for the root and past the last entry.
fn entry_of(volume: &Checked<'_>, alloc: Global, n: Node) -> Result<Option<Entry>, NoMemory>
    ensures { OnVolume volume.now (λ t _. IfOk result (λ e. e ≡ entry t.entries n)) }
{
    let Some(row) = volume.row(n) else {
        return Ok(None);
    };
    let body = body_with(volume.read(alloc, n)?);
    Ok(Some(Entry {
        parent: row.parent,
        name: row.name,
        meta: row.meta,
        body,
    }))
}

// A copy of the label.
fn label_of(label: &Label) -> Label
    ensures { result ≡ label.now }
{
    Label::new(label.bytes()).unwrap()
}

/// The tree of a volume, entry by entry.
pub fn tree_of(volume: &Checked<'_>, alloc: Global) -> Result<adf_tree::Tree, NoMemory>
    ensures tree { OnVolume volume.now (λ t _. IfOk result (λ u. u ≡ t)) }
    ensures empty { OnVolume volume.now (λ t _. t.entries ≡ [] → IsOk result) }
{
    let kind = volume.counts().kind;
    let label = label_of(volume.label());
    let mut tree = adf_tree::Tree::with_letters(
        alloc,
        kind,
        volume.letters(),
        label,
        volume.stamps(),
    );
    for i in 0..volume.len() {
        let entry = entry_of(volume, alloc, Node(i + 1))?.unwrap();
        tree.add_last(entry)?;
    }
    Ok(tree)
}

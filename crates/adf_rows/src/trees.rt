// Trees of images and of manifests.

ghost use Rattle.std.specs.Prelude.{◌≡◌, IfOk};
ghost use Rattle.adf_base.specs.declared.hash.Letters.TheVariants.{Ascii};

use crate::questions::NOTHING;
use crate::row_error::RowError;
use crate::texts::{block, first_word, lines_text};
use adf_build::{BuildFault, build, need};
use adf_check::check;
use adf_manifest::read_manifest;
use adf_tree::{Body, Entry, Node, Tree};
use std::alloc::Global;

/// What has a tree.
#[derive(Clone, Copy)]
pub enum TreeOf<'a> {
    /// The lines of a manifest, told with ` | ` between them.
    Lines(&'a str),
    Image(&'a [u8]),
}

/// The tree of the lines of a manifest, told with ` | ` between them.
pub fn tree_of_lines(alloc: Global, lines: &str) -> Result<Tree, RowError>
    ensures { IfOk result (λ tree. tree.letters ≡ Ascii) }
{
    match read_manifest(alloc, &lines_text(alloc, lines)?) {
        Ok((tree, _)) => Ok(tree),
        Err(_) => Err(RowError::Refused),
    }
}

// The number of blocks, and the tree of the lines behind it.
fn blocks_and_tree(alloc: Global, text: &str) -> Result<(u32, Tree), RowError> {
    let (blocks, lines) = first_word(text);
    match block(blocks) {
        Some(blocks) => Ok((blocks, tree_of_lines(alloc, lines)?)),
        None => Err(RowError::Unread),
    }
}

/// Appends how many blocks the tree of lines needs in a volume of so many, `BLOCKS LINES`: `nothing` if no volume has that size.
pub fn push_need(alloc: Global, about: &str, text: &mut String) -> Result<(), RowError> {
    let (blocks, tree) = blocks_and_tree(alloc, about)?;
    Ok(match need(&tree, blocks) {
        Some(count) => write!(text, "{count}"),
        None => text.push_str(NOTHING),
    }?)
}

/// Appends why the tree of lines is not built in so many blocks, `BLOCKS LINES`.
pub fn push_fault(alloc: Global, about: &str, text: &mut String) -> Result<(), RowError> {
    let (blocks, tree) = blocks_and_tree(alloc, about)?;
    Ok(match build(alloc, &tree, blocks) {
        Ok(_) => text.push_str("an image"),
        Err(fault) => write!(text, "{fault}"),
    }?)
}

// The tree of an image.
fn tree_of_image(alloc: Global, image: &[u8]) -> Result<Tree, RowError> {
    let Ok(volume) = check(alloc, image) else {
        return Err(RowError::Refused);
    };
    volume.to_tree(alloc).ok().ok_or(RowError::NoMemory)
}

/// The first entry in which an image has not the tree that is wanted: 0 the root, `None` if it has that tree.
pub fn other_entry(
    alloc: Global,
    wanted: TreeOf<'_>,
    image: &[u8],
) -> Result<Option<usize>, RowError> {
    let wanted = match wanted {
        TreeOf::Lines(lines) => tree_of_lines(alloc, lines)?,
        TreeOf::Image(other) => tree_of_image(alloc, other)?,
    };
    Ok(first_other(&wanted, &tree_of_image(alloc, image)?))
}

/// The first entry in which two trees differ: 0 the root, `None` if they are equal.
pub fn first_other(one: &Tree, other: &Tree) -> Option<usize> {
    let has_same_root = one.kind() == other.kind()
        && one.label().bytes() == other.label().bytes()
        && one.stamps() == other.stamps()
        && one.len() == other.len();
    if !has_same_root {
        return Some(0);
    }
    for i in 0..one.len() {
        let n = i.saturating_add(1);
        match (one.entry(Node(n)), other.entry(Node(n))) {
            (Some(entry), Some(wanted)) if is_same(entry, wanted) => {}
            _ => return Some(n),
        }
    }
    None
}

fn is_same(one: &Entry, other: &Entry) -> bool {
    one.parent == other.parent
        && one.name.bytes() == other.name.bytes()
        && one.meta.comment.bytes() == other.meta.comment.bytes()
        && one.meta.protect == other.meta.protect
        && one.meta.stamp == other.meta.stamp
        && is_same_body(&one.body, &other.body)
}

fn is_same_body(one: &Body, other: &Body) -> bool {
    match (one, other) {
        (Body::Dir, Body::Dir) => true,
        (Body::File(bytes), Body::File(wanted)) => bytes.bytes() == wanted.bytes(),
        _ => false,
    }
}

// Trees that are the same.

ghost use Rattle.std.specs.Prelude.{◌≡◌, true};
ghost use Rattle.adf_tree.specs.Tree.{entry};

use adf_tree::{Body, Entry, Meta, Node, Tree};

// Whether two bodies are the same.
fn is_same_body(a: &Body, b: &Body) -> bool
    ensures { result ≡ true → b.now ≡ a.now }
{
    match (a, b) {
        (Body::Dir, Body::Dir) => true,
        (Body::File(first), Body::File(second)) => second.bytes() == first.bytes(),
        _ => false,
    }
}

// Whether metadata are the same.
fn is_same_meta(a: &Meta, b: &Meta) -> bool
    ensures { result ≡ true → b.now ≡ a.now }
{
    b.comment.bytes() == a.comment.bytes() && b.protect == a.protect && b.stamp == a.stamp
}

// Whether two entries are the same.
fn is_same_entry(a: &Entry, b: &Entry) -> bool
    ensures { result ≡ true → b.now ≡ a.now }
{
    b.parent == a.parent
        && b.name.bytes() == a.name.bytes()
        && is_same_meta(&a.meta, &b.meta)
        && is_same_body(&a.body, &b.body)
}

// Whether two trees have the same entry of this number.
fn has_same_entry(one: &Tree, other: &Tree, n: Node) -> bool
    ensures { result ≡ true → entry other.now.entries n ≡ entry one.now.entries n }
{
    match (one.entry(n), other.entry(n)) {
        (Some(a), Some(b)) => is_same_entry(a, b),
        _ => false,
    }
}

// Whether two trees have the same entries.
fn have_same_entries(one: &Tree, other: &Tree) -> bool
    ensures { result ≡ true → other.now.entries ≡ one.now.entries }
{
    if other.len() != one.len() {
        return false;
    }
    for i in 0..one.len() {
        if !has_same_entry(one, other, Node(i + 1)) {
            return false;
        }
    }
    true
}

/// Whether two trees are the same.
pub fn is_same_tree(one: &Tree, other: &Tree) -> bool
    ensures { result ≡ true → other.now ≡ one.now }
{
    other.kind() == one.kind()
        && other.letters() == one.letters()
        && other.label().bytes() == one.label().bytes()
        && other.stamps() == one.stamps()
        && have_same_entries(one, other)
}

// Look-up along the chains of an image.

ghost use Rattle.std.specs.Prelude.{◌≡◌, ◌≢◌, ◌≤◌, ◌<◌, ◌+◌, length, map, IfSome};
ghost use Rattle.adf_blocks.specs.{declared.layout.TheConstants.NEXT_IN_CHAIN, declared.layout.TheConstants.SLOTS, Sizes.blocks};
ghost use Rattle.adf_tree.specs.Tree.{child_by, find_from_by};
ghost use Rattle.adf_volume.specs.{Image.word_in, Layout.at_node, Layout.chain_nodes_by, Lists.Spelled};
ghost use Rattle.adf_check.specs.{Reading.StoreFits, Store.store_value, Lookup.headed, Volumes.OnVolume};
ghost use Rattle.adf_volume.specs.KeptOwner.{kept_at};

use crate::store::Store;
use adf_base::slot_by;
use adf_blocks::{Head, HeadBody};
use adf_tree::{Name, Node};
use adf_volume::{Image, OwnerClass, OwnerTable};

/// The block of a node.
pub fn block_of(image: &Image<'_>, store: &Store, node: Node) -> u32
    requires tells { StoreFits image.now (store_value store.now) }
    requires node { node ≤ length store.now.headers.items }
    ensures block { OnVolume image.now (λ _ l. result ≡ at_node image.now l node) }
    ensures inside { result < blocks image.now }
{
    if node.0 == 0 {
        return image.root();
    }
    store.headers[node.0 - 1].head
}

// The node whose header is at a block.
fn node_at(owners: &OwnerTable, b: u32) -> Option<Node>
    requires { b < length owners.now }
    ensures { result ≡ headed (kept_at owners.now b) }
{
    let kept = owners.at(b);
    match kept.class {
        OwnerClass::Head => Some(Node(kept.place as usize)),
        _ => None,
    }
}

// The first header in the chain of a slot of a node, or 0: a file has no chain.
fn first_of(image: &Image<'_>, store: &Store, parent: Node, slot: u8) -> u32
    requires tells { StoreFits image.now (store_value store.now) }
    requires node { parent ≤ length store.now.headers.items }
    requires slot { slot < SLOTS }
    ensures { OnVolume image.now (λ t l. Spelled (λ b. word_in image.now b NEXT_IN_CHAIN) result
        (map (at_node image.now l) (chain_nodes_by t.letters t parent slot))) }
{
    let up = block_of(image, store, parent);
    match image.body(up) {
        HeadBody::File { .. } if parent.0 != 0 => 0,
        _ => image.directory(up).slot(slot),
    }
}

/// The entry with this parent and this name, ignoring case.
pub fn child(image: &Image<'_>, store: &Store, parent: Node, name: &Name) -> Option<Node>
    requires tells { StoreFits image.now (store_value store.now) }
    requires node { parent ≤ length store.now.headers.items }
    ensures found { OnVolume image.now (λ t _. result ≡ child_by t.letters t.entries parent name.now) }
    ensures node { IfSome result (λ n. n ≤ length store.now.headers.items) }
{
    let letters = image.letters();
    let mut b = first_of(image, store, parent, slot_by(letters, name.bytes()));
    while b != 0 {
        let head = Head::over(image.block(b));
        if head.name().same_by(letters, name) {
            return node_at(&store.owners, b);
        }
        b = head.next();
    }
    None
}

/// The node that the path leads to.
pub fn find(image: &Image<'_>, store: &Store, path: &[Name]) -> Option<Node>
    requires { StoreFits image.now (store_value store.now) }
    ensures { OnVolume image.now (λ t _. result ≡ find_from_by t.letters t.entries 0 path.now) }
{
    let mut node = Node(0);
    for name in path {
        match child(image, store, node, name) {
            None => return None,
            Some(n) => node = n,
        }
    }
    Some(node)
}

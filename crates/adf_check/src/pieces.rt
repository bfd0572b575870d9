// The bytes of files, piece by piece.

ghost use Rattle.std.specs.Prelude.{◌≡◌, ◌≤◌, ◌<◌, ◌+◌, length, option_map, take, drop, IfSome};
ghost use Rattle.std.specs.List.{All, concat};
ghost use Rattle.adf_tree.specs.Tree.{entry};
ghost use Rattle.adf_blocks.specs.Sizes.{blocks, count};
ghost use Rattle.adf_volume.specs.{Image.kind_of, Layout.datas_of};
ghost use Rattle.adf_check.specs.{Reading.StoreFits, Store.store_value, Pieces.bytes_of, Pieces.pieces_at, Volumes.OnVolume};

use crate::lookup::block_of;
use crate::store::Store;
use adf_blocks::HeadBody;
use adf_tree::Node;
use adf_volume::{Image, Pieces, count_of};

// The `len` members of a list from an index on.
fn part(xs: &[u32], from: usize, len: usize) -> &[u32]
    requires { from + len ≤ length xs.now }
    ensures { result.now ≡ take len (drop from xs.now) }
{
    &xs[from..from + len]
}

// The data blocks of file `n` of `size` bytes.
fn datas_of<'a>(image: &Image<'_>, store: &'a Store, n: Node, size: u32) -> &'a [u32]
    requires tells { StoreFits image.now (store_value store.now) }
    requires node { n ≤ length store.now.headers.items }
    requires size { OnVolume image.now (λ _ l. length (datas_of l n) ≡ count (kind_of image.now) size) }
    ensures { OnVolume image.now (λ _ l. result.now ≡ datas_of l n) }
{
    let count = count_of(image.kind(), size) as usize;
    if count == 0 {
        return &[];
    }
    part(&store.datas, store.starts[n.0].datas as usize, count)
}

/// The data blocks of a file; empty for the root, a directory, and past the last entry.
pub fn blocks_of<'a>(image: &Image<'_>, store: &'a Store, n: Node) -> &'a [u32]
    requires { StoreFits image.now (store_value store.now) }
    ensures { OnVolume image.now (λ _ l. result.now ≡ datas_of l n) }
{
    if n.0 == 0 {
        return &[];
    }
    if store.headers.len() < n.0 {
        return &[];
    }
    match image.body(block_of(image, store, n)) {
        HeadBody::Dir => &[],
        HeadBody::File { size, .. } => datas_of(image, store, n, size),
    }
}

/// The pieces of a file; `None` for the root, a directory, and past the last entry.
pub fn pieces_of<'a>(image: &Image<'a>, store: &'a Store, n: Node) -> Option<Pieces<'a>>
    requires { StoreFits image.now (store_value store.now) }
    ensures exact { OnVolume image.now (λ t l. result ≡ pieces_at image.now t l n) }
    ensures joined { OnVolume image.now (λ t _. option_map concat result ≡ bytes_of (entry t.entries n)) }
    ensures one_each { OnVolume image.now (λ _ l. IfSome result (λ ps. length ps ≡ length (datas_of l n))) }
    ensures some { IfSome result (λ ps. All (λ p. 0 < length p) ps) }
{
    if n.0 == 0 || store.headers.len() < n.0 {
        return None;
    }
    let head = block_of(image, store, n);
    let HeadBody::File { size, .. } = image.body(head) else {
        return None;
    };
    let datas = datas_of(image, store, n, size);
    Some(Pieces::new(image.bytes(), image.kind(), size, datas))
}

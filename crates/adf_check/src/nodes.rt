// The nodes of a volume in order: the root, then each entry in the order in which its header is read.

ghost use Rattle.std.specs.Prelude.{◌≡◌, ◌<◌, ◌+◌, ◌^◌, [], ◌∷◌, OnOk, IfErr, length};
ghost use Rattle.adf_check.specs.Reading.{IsAtNode, IsInExts, IsInNode, IsRead};
ghost use Rattle.adf_check.specs.{Store.entered, Store.store_value, Own.IsOwnFault, Datas.ext_link};
ghost use Rattle.adf_volume.specs.Fault.{fault};

use crate::chains::read_directory;
use crate::datas::read_datas;
use crate::exts::read_exts;
use crate::file::File;
use crate::store::Store;
use adf_blocks::{Cause, HeadBody};
use adf_tree::{NameSet, Node};
use adf_volume::{Fault, Image, NodeStart};
use std::alloc::Global;

// Starts the next node: its blocks follow those already read.
fn enter(store: &mut Store) -> Result<(), Fault>
    requires exts { length store.old.exts.items < 2 ^ 32 }
    requires datas { length store.old.datas.items < 2 ^ 32 }
    ensures entered { OnOk result (store_value store.new ≡ entered (store_value store.old)) }
    ensures fault { IfErr result (λ f. f ≡ fault 0 Cause.NoMemory) }
{
    let start = NodeStart {
        exts: store.exts.len() as u32,
        datas: store.datas.len() as u32,
    };
    store.starts.push(start)?;
    Ok(())
}

// Reads the extension blocks and the data blocks of a file.
fn read_file(
    image: &Image<'_>,
    store: &mut Store,
    table: &mut Vec<u32>,
    file: &File,
) -> Result<(), Fault>
    requires state { IsInExts image.now
        (store_value store.old) file.now (file.now.head ∷ []) (ext_link file.now) }
    ensures state { OnOk result (IsAtNode image.now (store_value store.new) (file.now.node + 1)) }
    ensures fault { IfErr result (IsOwnFault image.now) }
{
    table.clear();
    table.push(file.head)?;
    read_exts(image, store, table, file)?;
    read_datas(image, store, table, file)
}

// Reads the chains of a directory, or the blocks of a file.
#[tactic(auto, using(crate::proofs::NodeSteps::root_begins))]
fn read_node(
    image: &Image<'_>,
    store: &mut Store,
    seen: &mut NameSet,
    table: &mut Vec<u32>,
    node: Node,
) -> Result<(), Fault>
    requires state { IsInNode image.now (store_value store.old) node }
    ensures state { OnOk result (IsAtNode image.now (store_value store.new) (node + 1)) }
    ensures fault { IfErr result (IsOwnFault image.now) }
{
    let root = image.root();
    if node.0 == 0 {
        return read_directory(image, store, seen, node, root);
    }
    let head = store.headers[node.0 - 1].head;
    match HeadBody::of(&image.block(head)) {
        HeadBody::Dir => read_directory(image, store, seen, node, head),
        HeadBody::File { size, ext } => {
            let file = File {
                node,
                head,
                size,
                ext,
            };
            read_file(image, store, table, &file)
        }
    }
}

/// Reads all nodes. The entries of a directory are numbered after all headers read so far.
pub fn read_nodes(alloc: Global, image: &Image<'_>, store: &mut Store) -> Result<(), Fault>
    requires state { IsAtNode image.now (store_value store.old) 0 }
    ensures state { OnOk result (IsRead image.now (store_value store.new)) }
    ensures fault { IfErr result (IsOwnFault image.now) }
{
    let mut seen = NameSet::new(alloc);
    let mut table = Vec::new(alloc);
    let mut node = 0usize;
    while node <= store.headers.len() {
        enter(store)?;
        read_node(image, store, &mut seen, &mut table, Node(node))?;
        node += 1;
    }
    Ok(())
}

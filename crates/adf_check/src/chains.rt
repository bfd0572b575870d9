// Directories: the headers of each slot's chain.

ghost use Rattle.adf_base.specs.Words.{word};
ghost use Rattle.adf_check.specs.{Own.IsOwnFault, Progress.left, Store.store_value};
ghost use Rattle.std.specs.Prelude.{◌≡◌, ◌≢◌, ◌==◌, ◌<◌, ◌+◌, ◌^◌, OnOk, IfOk, IfErr};
ghost use Rattle.adf_blocks.specs.Sizes.{blocks};
ghost use Rattle.adf_blocks.specs.declared.layout.TheConstants.{FIRST_SLOT, SECONDARY_TYPE, SLOTS, ST_DIR};
ghost use Rattle.adf_volume.specs.Image.{word_in};
ghost use Rattle.adf_check.specs.Reading.{IsAtNode, IsAtSlot, IsInChain, sees_of};

use crate::claims::{Link, claim_named};
use crate::store::Store;
use adf_blocks::{Cause, Directory, Head, HeadBody, HeadPlace, SLOTS, read_head_at};
use adf_tree::{NameSet, Node};
use adf_volume::{Fault, Image, KeptHeader, KeptOwner, OwnerClass, fault_at};

/// The chain of a slot of a directory; `up` is the directory's block.
#[derive(Drop)]
struct Chain {
    parent: Node,
    up: u32,
    slot: u8,
}

// The record kept of the header at block `head`, of an entry with this parent.
fn kept_header(parent: Node, head: u32) -> KeptHeader
    requires { parent < 2 ^ 32 }
    ensures { result ≡ record { parent = parent; head = head } }
{
    KeptHeader {
        parent: parent.0 as u32,
        head,
    }
}

// Whether a header is that of a directory.
fn is_directory(head: &Head<'_>) -> bool
    ensures { result ≡ (word head.now SECONDARY_TYPE == ST_DIR) }
{
    head.body() == HeadBody::Dir
}

// Claims and reads the header that a link of its chain points to; returns the next link, of a block 0 at the end.
fn read_header(
    image: &Image<'_>,
    store: &mut Store,
    seen: &mut NameSet,
    chain: &Chain,
    link: Link,
) -> Result<Link, Fault>
    requires slot { chain.now.slot < SLOTS }
    requires some { link.block ≢ 0 }
    requires state { IsInChain image.now
        (store_value store.old) chain.now link (sees_of seen.old) }
    ensures state { IfOk result (λ next.
        IsInChain image.now (store_value store.new) chain.now next (sees_of seen.new)) }
    ensures less { OnOk result (left store.new < left store.old) }
    ensures fault { IfErr result (IsOwnFault image.now) }
{
    let kind = image.kind();
    let letters = image.letters();
    let node = store.headers.len() as u32 + 1;
    let b = link.block;
    let owner = KeptOwner {
        class: OwnerClass::Head,
        place: node,
    };
    claim_named(&mut store.owners, link.holder, b, owner)?;
    let place = HeadPlace {
        own: b,
        parent: chain.up,
        letters,
        slot: chain.slot,
    };
    let head = match read_head_at(image.block(b), kind, place) {
        Ok(head) => head,
        Err(cause) => return Err(fault_at(b, cause)),
    };
    if !seen.put_by(letters, &head.name())? {
        return Err(fault_at(b, Cause::SameName));
    }
    store.dirs += usize::from(is_directory(&head));
    store.headers.push(kept_header(chain.parent, b))?;
    Ok(Link {
        holder: b,
        block: head.next(),
    })
}

// Reads a chain to its end.
fn read_chain(
    image: &Image<'_>,
    store: &mut Store,
    seen: &mut NameSet,
    chain: &Chain,
    first: u32,
) -> Result<(), Fault>
    requires slot { chain.now.slot < SLOTS }
    requires state { IsAtSlot image.now
        (store_value store.old) chain.now.parent chain.now.up chain.now.slot }
    requires named { first ≡ word_in image.now chain.now.up (FIRST_SLOT + chain.now.slot) }
    ensures state { OnOk result
        (IsAtSlot image.now (store_value store.new) chain.now.parent chain.now.up
        (chain.now.slot + 1)) }
    ensures fault { IfErr result (IsOwnFault image.now) }
{
    seen.clear();
    let mut link = Link {
        holder: chain.up,
        block: first,
    };
    while link.block != 0 {
        link = read_header(image, store, seen, chain, link)?;
    }
    Ok(())
}

/// Reads the slots of a directory; `up` is its block.
#[tactic(auto, using(crate::proofs::ChainSteps::empty_chain))]
pub fn read_directory(
    image: &Image<'_>,
    store: &mut Store,
    seen: &mut NameSet,
    parent: Node,
    up: u32,
) -> Result<(), Fault>
    requires inside { up < blocks image.now }
    requires state { IsAtSlot image.now (store_value store.old) parent up 0 }
    ensures state { OnOk result (IsAtNode image.now (store_value store.new) (parent + 1)) }
    ensures fault { IfErr result (IsOwnFault image.now) }
{
    let directory = Directory::over(image.block(up));
    for slot in 0..SLOTS as u8 {
        let first = directory.slot(slot);
        if first == 0 {
            continue;
        }
        read_chain(image, store, seen, &Chain { parent, up, slot }, first)?;
    }
    Ok(())
}

// The blocks of an entry.

ghost use Rattle.std.specs.Prelude.{◌≡◌, ◌+◌, ◌*◌, ℕ, List, length};
ghost use Rattle.adf_tree.specs.declared.entry.Body.TheVariants.{File as TheFile};
ghost use Rattle.adf_base.specs.Words.{with_block};
ghost use Rattle.adf_blocks.specs.HeadBlock.{FitsTable, body_fields, head_block};
ghost use Rattle.adf_build.specs.{Writes.with_blocks, Laid.entry_writes, Laid.planned_head};
ghost use Rattle.adf_build.specs.Plan.{HasFree, entry_blocks, nth_free};

use crate::counting::{data_blocks, ext_count};
use crate::datas::write_datas;
use crate::exts::write_exts;
use crate::plan::Plan;
use adf_blocks::{HeadOut, HeadOutBody, POINTERS, SLOTS, write_head};
use adf_tree::{Body, Entry, Kind};

/// The place of a header and its pointers: the index among the free blocks, the block of the directory, and the next
/// header of the chain or 0.
#[derive(Clone, Copy)]
pub struct Spot {
    pub k: u32,
    pub parent: u32,
    pub next: u32,
}

// Writes the header of an entry, with this body.
#[tactic(auto, using(crate::proofs::FreeBlocks::free_fits))]
fn write_header(image: &mut [u8], plan: Plan, spot: Spot, entry: &Entry, body: HeadOutBody<'_>)
    requires whole { length image.old ≡ plan.blocks * 512 }
    requires room { HasFree plan.blocks (spot.k + 1) }
    requires table { FitsTable (body_fields body) }
    ensures { let h = planned_head plan.blocks spot (body_fields body.entry) entry.now in
        image.new ≡ with_block image.old (nth_free plan.blocks spot.k) (head_block h) }
{
    let own = plan.nth_free(spot.k);
    let head = HeadOut {
        own,
        parent: spot.parent,
        next: spot.next,
        name: &entry.name,
        meta: &entry.meta,
        body,
    };
    write_head(image, own, &head);
}

// Writes the blocks of a file.
#[tactic(auto, using(crate::proofs::FreeBlocks::size_small, adf_volume::proofs::Sizes::size_high))]
fn write_file(image: &mut [u8], plan: Plan, kind: Kind, spot: Spot, entry: &Entry, bytes: &[u8])
    requires body { entry.now.body ≡ TheFile bytes.now }
    requires whole { length image.old ≡ plan.blocks * 512 }
    requires room { HasFree plan.blocks (spot.k + entry_blocks kind entry.now) }
    ensures { (slots : List ℕ)
        → image.new ≡ with_blocks image.old (entry_writes plan.blocks kind spot slots entry.now) }
{
    let datas = data_blocks(kind, &entry.body);
    let exts = ext_count(datas) as u32;
    let short = datas.min(POINTERS);
    let body = HeadOutBody::File {
        size: bytes.len() as u32,
        table: &plan.table_of(spot.k + 1 + exts, short)[..short],
        ext: plan.nth_free_or_none(spot.k + 1, exts),
    };
    write_header(image, plan, spot, entry, body);
    write_exts(image, plan, spot.k, datas);
    write_datas(image, plan, kind, spot.k, bytes);
}

/// Writes the blocks of an entry.
pub fn write_entry(
    image: &mut [u8],
    plan: Plan,
    kind: Kind,
    spot: Spot,
    slots: [u32; SLOTS as usize],
    entry: &Entry,
)
    requires whole { length image.old ≡ plan.blocks * 512 }
    requires room { HasFree plan.blocks (spot.k + entry_blocks kind entry.now) }
    ensures { image.new
        ≡ with_blocks image.old (entry_writes plan.blocks kind spot slots entry.now) }
{
    match &entry.body {
        Body::Dir => write_header(image, plan, spot, entry, HeadOutBody::Dir { slots }),
        Body::File(file) => write_file(image, plan, kind, spot, entry, file.bytes()),
    }
}

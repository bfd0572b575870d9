// The parts of a volume.

ghost use Rattle.std.specs.Prelude.{◌≡◌, ◌*◌, [], ◌∷◌, length, take};
ghost use Rattle.adf_base.specs.Words.{with_block};
ghost use Rattle.adf_blocks.specs.{Fields.block_of_fields, RootBlock.root_block, Sizes.middle};
ghost use Rattle.adf_build.specs.Laid.{boot_bytes_by, node_blocks, writes, planned_root, slots_by};
ghost use Rattle.adf_build.specs.{Writes.with_blocks, Plan.entries_blocks, Building.IsBuildable};

use crate::chains::{children_end, slots_between};
use crate::entries::write_entries;
use crate::map_exts::write_map_exts;
use crate::pages::write_pages;
use crate::plan::Plan;
use adf_base::{Letters, put_block, put_bytes};
use adf_blocks::{ROOT_PAGES, RootOut, SLOTS, write_root};
use adf_names::type_number;
use adf_tree::{Kind, Tree};

// The 512 bytes of block 0.
fn boot_block(letters: Letters, kind: Kind) -> [u8; 512]
    ensures { result ≡ block_of_fields ((0, boot_bytes_by letters kind) ∷ []) }
{
    let mut block = [0u8; 512];
    put_bytes(
        &mut block,
        0,
        &[b'D', b'O', b'S', type_number(letters, kind)],
    );
    block
}

// Writes the root.
fn write_the_root(image: &mut [u8], plan: Plan, tree: &Tree, slots: [u32; SLOTS as usize])
    requires whole { length image.old ≡ plan.blocks * 512 }
    requires slots { slots ≡ slots_by tree.now.letters (node_blocks tree.now plan.blocks) tree.now.entries 0 }
    ensures { image.new
        ≡ with_block image.old (middle plan.blocks)
        (root_block (planned_root tree.now plan.blocks)) }
{
    let count = ROOT_PAGES.min(plan.pages() as usize);
    let table: [u32; ROOT_PAGES] = plan.page_table(0, count);
    let root = RootOut {
        slots,
        pages: &table[..count],
        map_ext: plan.map_ext_or_none(0),
        label: tree.label(),
        stamps: tree.stamps(),
    };
    write_root(image, plan.root(), &root);
}

/// Writes every part of a volume, with its nodes at these blocks and `total` blocks for its entries.
pub fn write_volume(image: &mut [u8], plan: Plan, tree: &Tree, nodes: &[u32], total: u32)
    requires room { IsBuildable tree.now plan.blocks }
    requires whole { length image.old ≡ plan.blocks * 512 }
    requires nodes { nodes.now ≡ node_blocks tree.now plan.blocks }
    requires total { total ≡ entries_blocks tree.now.kind tree.now.entries }
    ensures { image.new ≡ with_blocks image.old (writes tree.now plan.blocks) }
{
    let count = tree.len();
    prove!(count < nodes.len());
    let first = children_end(tree, 0, 0);
    let slots = slots_between(tree, nodes, 0, 0, first);
    write_entries(image, tree, plan, nodes, first);
    write_pages(image, plan, total);
    write_map_exts(image, plan);
    write_the_root(image, plan, tree, slots);
    put_block(image, 0, &boot_block(tree.letters(), tree.kind()));
}

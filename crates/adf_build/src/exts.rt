// The extension blocks of a file.

ghost use Rattle.std.specs.Prelude.{◌≡◌, ◌+◌, ◌*◌, length};
ghost use Rattle.adf_build.specs.{Laid.ext_writes, Writes.with_blocks, Plan.HasFree, Plan.exts_needed};

use crate::counting::ext_count;
use crate::plan::Plan;
use adf_blocks::{ExtOut, POINTERS, write_ext};

/// Writes the extension blocks of a file with `datas` data blocks and its header in the `k`-th free block. They follow
/// the header, and point to the data blocks that it does not point to.
#[tactic(auto, using(crate::proofs::FreeBlocks::free_fits))]
pub fn write_exts(image: &mut [u8], plan: Plan, k: u32, datas: usize)
    requires whole { length image.old ≡ plan.blocks * 512 }
    requires room { HasFree plan.blocks (k + (1 + exts_needed datas + datas)) }
    ensures { image.new ≡ with_blocks image.old (ext_writes plan.blocks k datas) }
{
    let count = ext_count(datas) as u32;
    for j in 0..count {
        let before = POINTERS * (1 + j as usize);
        let short = datas.saturating_sub(before).min(POINTERS);
        let own = plan.nth_free(k + 1 + j);
        let ext = ExtOut {
            own,
            head: plan.nth_free(k),
            table: &plan.table_of(k + 1 + count + before as u32, short)[..short],
            next: plan.nth_free_or_none(k + 1 + (j + 1), count - (j + 1)),
        };
        write_ext(image, own, &ext);
    }
}

// The bitmap extension blocks of a volume.

ghost use Rattle.std.specs.Prelude.{◌≡◌, ◌*◌, length};
ghost use Rattle.adf_build.specs.{Laid.map_ext_writes, Writes.with_blocks};

use crate::plan::Plan;
use adf_blocks::{MAP_EXT_PAGES, ROOT_PAGES, write_map_ext};

/// Writes the bitmap extension blocks of a volume, after its pages: each points to up to 127 pages and the next one.
pub fn write_map_exts(image: &mut [u8], plan: Plan)
    requires { length image.old ≡ plan.blocks * 512 }
    ensures { image.new ≡ with_blocks image.old (map_ext_writes plan.blocks) }
{
    let count = plan.map_exts();
    for j in 0..count {
        let first = ROOT_PAGES as u32 + MAP_EXT_PAGES as u32 * j;
        let len = plan.pages().saturating_sub(first).min(MAP_EXT_PAGES as u32) as usize;
        let table: [u32; MAP_EXT_PAGES] = plan.page_table(first, len);
        let next = plan.map_ext_or_none(j + 1);
        write_map_ext(image, plan.map_ext(j), &table[..len], next);
    }
}

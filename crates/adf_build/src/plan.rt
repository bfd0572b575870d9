// The plan of a volume: where its parts are.

ghost use Rattle.std.specs.Prelude.{◌≡◌, ◌≤◌, ◌<◌, ◌+◌, ◌-◌, ◌^◌, false, true, min, take, IfSome, IfNone, OnSome};
ghost use Rattle.std.specs.List.{range_with_len};
ghost use Rattle.adf_blocks.specs.Sizes.{is_allowed, middle, pages_needed};
ghost use Rattle.adf_volume.specs.{Image.map_exts_needed, Types.is_size_of};
ghost use Rattle.adf_build.specs.{Laid.map_ext_or_none, Laid.nth_free_or_none, Plan.nth_free, Plan.reserved, Plan.allocated};

use adf_blocks::{MAP_EXT_PAGES, POINTERS, ROOT_PAGES, is_allowed_size, page_count};
use adf_volume::Types;

/// A volume of `blocks` blocks: the root in the middle, then the bitmap pages, then the bitmap extension blocks; all
/// other blocks from 2 on are free for entries.
#[derive(Clone, Copy)]
pub struct Plan {
    pub blocks: u32,
    ghost allowed: { is_allowed blocks ≡ true },
}

impl Plan {
    /// The plan of a volume of `blocks` blocks; `None` if that number is not allowed.
    pub fn new(blocks: u32) -> Option<Plan>
        ensures some { IfSome result (λ plan. plan.blocks ≡ blocks) }
        ensures none { IfNone result (is_allowed blocks ≡ false) }
    {
        if is_allowed_size(blocks) {
            Some(Plan { blocks })
        } else {
            None
        }
    }

    /// The plan of a volume of `blocks` blocks where these types are accepted; `None` if it may not have so many.
    pub fn of(types: Types, blocks: u32) -> Option<Plan>
        ensures some { IfSome result (λ plan. plan.blocks ≡ blocks) }
        ensures size { OnSome result (is_size_of types blocks ≡ true) }
        ensures none { IfNone result (is_size_of types blocks ≡ false) }
    {
        if types.is_size(blocks) {
            Plan::new(blocks)
        } else {
            None
        }
    }

    /// The block of the root.
    pub fn root(self) -> u32
        ensures { result ≡ middle self.blocks }
    {
        self.blocks / 2
    }

    /// The number of bitmap pages, 1 to 2,065.
    pub fn pages(self) -> u32
        ensures exact { result ≡ pages_needed self.blocks }
        ensures few { result ≤ 2065 }
    {
        page_count(self.blocks)
    }

    /// The block of bitmap page `j`.
    pub fn page(self, j: u32) -> u32
        requires { j < 2 ^ 30 }
        ensures { result ≡ middle self.blocks + 1 + j }
    {
        self.root() + 1 + j
    }

    /// A table that starts with the blocks of `m` bitmap pages, from page `j` on.
    #[tactic(auto, using(std::proofs::lemmas::Grind::common_steps, crate::proofs::Ranges::range_step))]
    pub fn page_table<const N: usize>(self, j: u32, m: usize) -> [u32; N]
        requires short { m ≤ N }
        requires near { j + m < 2 ^ 30 }
        ensures { take m result ≡ range_with_len (middle self.blocks + 1 + j) m }
    {
        let mut table = [0u32; N];
        for i in 0..m {
            table[i] = self.page(j + i as u32);
        }
        table
    }

    /// The number of bitmap extension blocks: the root points to 25 pages, each of these to 127 more.
    #[tactic(auto, unfolding(adf_volume::specs::Image::map_exts_needed))]
    pub fn map_exts(self) -> u32
        ensures { result ≡ map_exts_needed (pages_needed self.blocks) }
    {
        self.pages()
            .saturating_sub(ROOT_PAGES as u32)
            .div_ceil(MAP_EXT_PAGES as u32)
    }

    /// The block of bitmap extension block `j`.
    pub fn map_ext(self, j: u32) -> u32
        requires { j < 2 ^ 30 }
        ensures { result ≡ middle self.blocks + 1 + pages_needed self.blocks + j }
    {
        self.page(self.pages()) + j
    }

    /// The block of bitmap extension block `j`; 0 if there is none.
    pub fn map_ext_or_none(self, j: u32) -> u32
        requires { j < 2 ^ 30 }
        ensures { result ≡ map_ext_or_none self.blocks j }
    {
        if j < self.map_exts() {
            self.map_ext(j)
        } else {
            0
        }
    }

    /// The number of reserved blocks after the root: bitmap pages and bitmap extension blocks.
    #[tactic(auto, unfolding(crate::specs::Plan::reserved), using(crate::proofs::FreeBlocks::reserved_few))]
    pub fn reserved(self) -> u32
        ensures exact { result ≡ reserved self.blocks }
        ensures few { result < 2 ^ 16 }
    {
        self.pages() + self.map_exts()
    }

    /// The number of blocks of the root, the reserved blocks and `entries` more; `u64::MAX` on overflow.
    pub fn need(self, entries: u64) -> u64
        ensures { result ≡ min (1 + reserved self.blocks + entries) (2 ^ 64 - 1) }
    {
        entries.saturating_add(1 + u64::from(self.reserved()))
    }

    /// The `k`-th block that is free for entries.
    #[tactic(auto, using(crate::proofs::AllocatedBlocks::free_low, crate::proofs::AllocatedBlocks::free_high))]
    pub fn nth_free(self, k: u32) -> u32
        requires { k < 2 ^ 30 }
        ensures { result ≡ nth_free self.blocks k }
    {
        if 2 + k < self.root() {
            2 + k
        } else {
            3 + k + self.reserved()
        }
    }

    /// The `k`-th free block if `left` is above 0, otherwise 0.
    pub fn nth_free_or_none(self, k: u32, left: u32) -> u32
        requires { k < 2 ^ 30 }
        ensures { result ≡ nth_free_or_none self.blocks k left }
    {
        if left > 0 { self.nth_free(k) } else { 0 }
    }

    /// A table that starts with `m` free blocks, from the `k`-th on.
    #[tactic(auto, using(std::proofs::lemmas::Grind::common_steps, crate::proofs::FreeBlocks::allocated_step))]
    pub fn table_of(self, k: u32, m: usize) -> [u32; POINTERS]
        requires room { k < 2 ^ 29 }
        requires short { m ≤ POINTERS }
        ensures { take m result ≡ allocated self.blocks k m }
    {
        let mut table = [0u32; POINTERS];
        for j in 0..m {
            table[j] = self.nth_free(k + j as u32);
        }
        table
    }
}

// The laws of built volumes. Each is the contract of a function that does nothing at run time.

ghost use Rattle.std.specs.Prelude.{◌≡◌, ◌≤◌, ◌<◌, ◌↔◌, ℕ, List, ◌+◌, ◌-◌, ◌*◌, length, replicate, true};
ghost use Rattle.adf_base.specs.Words.{block};
ghost use Rattle.adf_tree.specs.Tree.{Tree};
ghost use Rattle.adf_blocks.specs.{declared.layout.TheConstants.POINTERS, Sizes.blocks, Sizes.is_allowed};
ghost use Rattle.adf_volume.specs.{declared.owner.Owner.Owner, Layout.Layout, Layout.owned, Fits.FitsBy};
ghost use Rattle.adf_volume.specs.Lists.{In, NoBlockTwice};
ghost use Rattle.adf_build.specs.{InOrder.IsInOrder, Plan.blocks_needed, Plan.exts_needed, Plan.planned, Writes.numbers_of};
ghost use Rattle.adf_build.specs.Laid.{IsLaid, IsWellFormed, writes, volume};

/// The planned layout owns as many blocks as the tree needs, none twice, and all in range if there is room.
#[tactic(auto, using(crate::proofs::Planned::planned_count, crate::proofs::Planned::planned_once, crate::proofs::Planned::planned_range))]
pub fn planned_blocks()
    ensures count { (image : List ℕ) (t : Tree)
        → length (owned image (planned t (blocks image))) ≡ blocks_needed t (blocks image) }
    ensures once { (image : List ℕ) (t : Tree)
        → NoBlockTwice (owned image (planned t (blocks image))) }
    ensures range { (image : List ℕ) (t : Tree) (o : Owner) (b : ℕ) → 4 ≤ blocks image
        → blocks_needed t (blocks image) ≤ blocks image - 2
        → In (owned image (planned t (blocks image))) (o, b) → (2 ≤ b) × (b < blocks image) }
{}

/// A built image fits its tree by the letters of the tree, in the planned layout.
pub fn laid_fits()
    ensures { (image : List ℕ) (t : Tree) → IsLaid image t
        → FitsBy t.letters image t (planned t (blocks image)) }
{}

/// A tree with its fields within their bounds can be built in every allowed size that has room for it.
#[tactic(auto, using(crate::proofs::WholeVolume::volume_laid, crate::proofs::LaidWrites::volume_blocks))]
pub fn volumes_are_laid()
    ensures laid { (t : Tree) (n : ℕ) → IsWellFormed t → is_allowed n ≡ true
        → blocks_needed t n ≤ n - 2 → IsLaid (volume t n) t }
    ensures size { (t : Tree) (n : ℕ) → IsWellFormed t → is_allowed n ≡ true
        → blocks_needed t n ≤ n - 2 → blocks (volume t n) ≡ n }
{}

/// A file has the fewest extension blocks for its data blocks: the header and each extension block point to up to 72.
#[tactic(auto, unfolding(crate::specs::Plan::exts_needed))]
pub fn extensions_are_few()
    ensures { (count exts : ℕ) → (count ≤ POINTERS * (1 + exts)) ↔ (exts_needed count ≤ exts) }
{}

/// For a tree and a size there is at most one built image.
pub fn one_laid()
    ensures { (image other : List ℕ) (t : Tree) → IsLaid image t → IsLaid other t
        → blocks image ≡ blocks other → image ≡ other }
{}

/// A built image has room for the blocks that its tree needs and the two boot blocks.
#[tactic(auto, using(crate::proofs::Planned::planned_count))]
pub fn laid_room()
    ensures needed { (image : List ℕ) (t : Tree) → IsLaid image t
        → blocks_needed t (blocks image) ≤ blocks image - 2 }
    ensures owned { (image : List ℕ) (t : Tree) → IsLaid image t
        → length (owned image (planned t (blocks image))) ≤ blocks image - 2 }
{}

/// Each part of a built image is in its block, and all other bytes are 0.
#[tactic(auto, using(crate::proofs::LaidOrder::rest_zero))]
pub fn laid_bytes()
    ensures part { (image : List ℕ) (t : Tree) → IsLaid image t → (b : ℕ) (bytes : List ℕ)
        → In (writes t (blocks image)) (b, bytes) → block image b ≡ bytes }
    ensures rest { (image : List ℕ) (t : Tree) → IsLaid image t → (b : ℕ) → b < blocks image
        → (In (numbers_of (writes t (blocks image))) b → ⊥)
        → block image b ≡ replicate 512 0 }
{}

/// A built image is in order: the pages ascend by one from the block after the root, the bitmap extension blocks
/// follow, each file has the fewest extension blocks for its table, the blocks of the entries ascend in walk order,
/// and every block from 2 up to the last of them is owned.
#[tactic(auto, using(crate::proofs::LaidOrder::in_order))]
pub fn laid_in_order()
    ensures { (image : List ℕ) (t : Tree) → IsLaid image t
        → (l : Layout) × FitsBy t.letters image t l × IsInOrder image t l }
{}

// The owners of the blocks of a walk.

ghost use Rattle.std.specs.Prelude.{◌≡◌, ◌≤◌, ◌<◌, ◌-◌, ◌^◌, ◌∷◌, ℕ, IfOk, IsTrue, OnOk, length, replicate, slice_set, true};
ghost use Rattle.adf_volume.specs.Owners.{is_part, owner_at};
ghost use Rattle.adf_findings.specs.WalkOwners.{HasNumber, node_after};
ghost use Rattle.adf_volume.specs.Parts.{entry_of};

use crate::given_places::GivenPlaces;
use adf_base::NoMemory;
use adf_volume::{Owner, OwnerTable, owner_of};
use std::alloc::Global;
use std::marker::Model;

/// The owner of each block, in four bytes each, as the parts of a walk are taken: those of a file after those of the
/// files before it.
#[derive(Drop)]
pub struct WalkOwners {
    table: OwnerTable,
    places: GivenPlaces,
}

impl Model for WalkOwners {
    ghost use Rattle.std.specs.Prelude.{List, ◌-◌, length, map};
    ghost use Rattle.std.specs.List.{All};
    ghost use Rattle.adf_volume.specs.Places.{owner_kept};
    ghost use Rattle.adf_findings.specs.WalkOwners.{AreFit, IsInside, OwnersValue};

    ghost Value = { OwnersValue };

    ghost view = { λ t. record {
      owners = map (owner_kept t.places.starts.items) t.table;
      node = length t.places.starts.items - 1;
    } };

    ghost invariant = { λ t. AreFit t.places × All (IsInside t.places.exts t.places.datas) t.table };
}

impl WalkOwners {
    /// The owners of `blocks` blocks: `Boot` for blocks 0 and 1, `Free` for all others.
    pub fn new(alloc: Global, blocks: u32) -> Result<WalkOwners, NoMemory>
        requires { 2 ≤ blocks }
        ensures owners { IfOk result (λ t. t.owners
            ≡ Owner.Boot ∷ Owner.Boot ∷ replicate (blocks - 2) Owner.Free) }
        ensures node { IfOk result (λ t. t.node ≡ 0) }
    {
        let table = OwnerTable::new(alloc, blocks)?;
        let places = GivenPlaces::new(alloc)?;
        Ok(WalkOwners { table, places })
    }

    /// Makes `owner` the owner of a free block. `NoMemory` also if its number has no room beside its class, in 29 bits.
    #[inline(always)]
    pub fn claim(&mut self, b: u32, owner: Owner) -> Result<(), NoMemory>
        requires from { 2 ≤ b }
        requires below { b < length self.old.owners }
        requires free { owner_at self.old.owners b ≡ Owner.Free }
        requires part { is_part owner ≡ true }
        requires small { entry_of owner < 2 ^ 32 }
        requires number { HasNumber owner }
        requires order { self.old.node ≤ node_after owner self.old.node }
        ensures owners { OnOk result (self.new.owners ≡ slice_set self.old.owners b owner) }
        ensures node { OnOk result (self.new.node ≡ node_after owner self.old.node) }
    {
        let kept = self.places.kept(owner)?;
        self.table.put(b, kept);
        Ok(())
    }

    /// The number of blocks.
    pub fn len(&self) -> u32
        ensures { result ≡ length self.now.owners }
    {
        self.table.len()
    }

    /// Whether a block is free, and neither a boot block nor past the last one.
    #[inline(always)]
    pub fn is_free(&self, b: u32) -> bool
        ensures from { IsTrue result → 2 ≤ b }
        ensures below { IsTrue result → b < length self.now.owners }
        ensures free { IsTrue result → owner_at self.now.owners b ≡ Owner.Free }
    {
        b >= 2 && b < self.table.len() && self.table.is_free(b)
    }

    /// Whether a part of the volume owns a block; not past the last block.
    #[inline(always)]
    pub fn is_part(&self, b: u32) -> bool
        ensures { result ≡ is_part (owner_at self.now.owners b) }
    {
        self.table.is_claimed(b)
    }

    /// Whether parts of the volume own all blocks from `first` up to, but not including, `end`, or none of them.
    pub fn are_parts(&self, first: u32, end: u32, are_owned: bool) -> bool
        ensures { IsTrue result → (b : ℕ) → first ≤ b → b < end
            → is_part (owner_at self.now.owners b) ≡ are_owned }
    {
        end <= self.table.len() && self.table.are_claimed(first, end, are_owned)
    }

    /// The owner of a block; `Free` past the last block.
    pub fn at(&self, b: u32) -> Owner
        ensures { result ≡ owner_at self.now.owners b }
    {
        owner_of(&self.places.starts, self.table.at(b))
    }
}

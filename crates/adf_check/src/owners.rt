// The owners of the blocks of a volume.

ghost use Rattle.std.specs.Prelude.{◌≡◌, ◌≢◌, ◌≤◌, ◌<◌, ◌+◌, ◌-◌, ◌∷◌, ◌++◌, ◌↔◌, [], length, replicate, true, false, IsOk, IfOk};
ghost use Rattle.std.specs.Prelude.{IfErr, OnOk, OnErr, slice_set};
ghost use Rattle.adf_volume.specs.Owners.{is_part, owned_count, owner_at};

use adf_base::NoMemory;
use adf_blocks::Cause;
use adf_volume::Owner;
use std::alloc::Global;
use std::marker::Model;

/// A table of the owner of each block.
#[derive(Drop)]
pub struct Owners {
    blocks: u32,
    used: u32,
    owners: Vec<Owner>,
}

impl Model for Owners {
    ghost use Rattle.std.specs.Prelude.{List};
    ghost use Rattle.adf_volume.specs.{Owners.is_part, OwnerTable.IsTable};
    ghost use Rattle.adf_volume.specs.{declared.owner.Owner.Owner, declared.owner.Owner.TheVariants.Boot};

    ghost Value = { List Owner };

    ghost view = { λ t. t.owners.items };

    ghost invariant = { λ t. IsTable is_part Boot t.owners.items t.blocks t.used };
}

impl Owners {
    /// The table for `blocks` blocks: `Boot` for blocks 0 and 1, `Free` for all others.
    pub fn new(alloc: Global, blocks: u32) -> Result<Owners, NoMemory>
        requires { 2 ≤ blocks }
        ensures { IfOk result (λ t.
            t ≡ Owner.Boot ∷ Owner.Boot ∷ replicate (blocks - 2) Owner.Free) }
    {
        let mut owners = vec![in alloc; Owner::Free; blocks as usize]?;
        owners[0] = Owner::Boot;
        owners[1] = Owner::Boot;
        Ok(Owners {
            blocks,
            used: 0,
            owners,
        })
    }

    /// Makes `o` the owner of a free block; `Taken` if the block has an owner, and then nothing changes.
    pub fn claim(&mut self, b: u32, o: Owner) -> Result<(), Cause>
        requires from { 2 ≤ b }
        requires below { b < length self.old }
        requires part { is_part o ≡ true }
        ensures free { IsOk result ↔ (owner_at self.old b ≡ Owner.Free) }
        ensures ok { OnOk result (self.new ≡ slice_set self.old b o) }
        ensures taken { IfErr result (λ c. c ≡ Cause.Taken) }
        ensures unchanged { OnErr result (self.new ≡ self.old) }

        // Each successful claim is of a different block, and two blocks are never claimed.
        ensures count { OnOk result (owned_count self.new ≡ owned_count self.old + 1) }
        ensures bound { owned_count self.new + 2 ≤ length self.new }
    {
        match self.owners[b as usize] {
            Owner::Free => {
                self.owners[b as usize] = o;
                self.used += 1;
                Ok(())
            }
            _ => Err(Cause::Taken),
        }
    }

    /// The number of blocks.
    pub fn len(&self) -> u32
        ensures { result ≡ length self.now }
    {
        self.blocks
    }

    /// The number of blocks that parts of the volume own.
    pub fn used(&self) -> u32
        ensures used { result ≡ owned_count self.now }
        ensures bound { result + 2 ≤ length self.now }
    {
        self.used
    }

    /// The owner of a block.
    pub fn get(&self, b: u32) -> Owner
        requires { b < length self.now }
        ensures { result ≡ owner_at self.now b }
    {
        self.owners[b as usize]
    }
}

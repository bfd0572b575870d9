// The owners of the blocks of an image, as a check keeps them.

ghost use Rattle.std.specs.Prelude.{◌≡◌, ◌≢◌, ◌≤◌, ◌<◌, ◌+◌, ◌-◌, ◌^◌, ◌∷◌, ◌↔◌, length, replicate, ℕ, true, false, IsTrue, IsOk};
ghost use Rattle.std.specs.Prelude.{IfOk, IfErr, OnOk, OnErr, slice_set};
ghost use Rattle.adf_volume.specs.KeptOwner.{boot_owner, claimed_count, is_claimed, kept_at, no_owner};

use crate::kept_owner::{BOOT_OWNER, KeptOwner, NO_OWNER, PackedOwner};
use adf_base::NoMemory;
use adf_blocks::Cause;
use std::alloc::Global;
use std::marker::Model;

/// A table of the owner of each block, in four bytes each.
#[derive(Drop)]
pub struct OwnerTable {
    blocks: u32,
    used: u32,
    owners: Vec<PackedOwner>,
}

impl Model for OwnerTable {
    ghost use Rattle.std.specs.Prelude.{List, map};
    ghost use Rattle.adf_volume.specs.KeptOwner.{boot_owner, is_claimed, unpacked};
    ghost use Rattle.adf_volume.specs.{OwnerTable.IsTable, declared.kept_owner.KeptOwner.KeptOwner};

    ghost Value = { List KeptOwner };

    ghost view = { λ t. map unpacked t.owners.items };

    ghost invariant = { λ t. IsTable is_claimed boot_owner (map unpacked t.owners.items) t.blocks t.used };
}

impl OwnerTable {
    // The table for `blocks` blocks: `Boot` for blocks 0 and 1, `Free` for all others.
    #[tactic(auto, using(crate::proofs::OwnerTables::new_is, crate::proofs::OwnerTables::new_table))]
    pub fn new(alloc: Global, blocks: u32) -> Result<OwnerTable, NoMemory>
        requires { 2 ≤ blocks }
        ensures { IfOk result (λ t.
            t ≡ boot_owner ∷ boot_owner ∷ replicate (blocks - 2) no_owner) }
    {
        let free = PackedOwner::of(NO_OWNER);
        let boot = PackedOwner::of(BOOT_OWNER);
        let mut owners = vec![in alloc; free; blocks as usize]?;
        owners[0] = boot;
        owners[1] = boot;
        Ok(OwnerTable {
            blocks,
            used: 0,
            owners,
        })
    }

    // Makes `o` the owner of a free block; `Taken` if the block has an owner, and then nothing changes.
    #[inline(always)]
    pub fn claim(&mut self, b: u32, o: KeptOwner) -> Result<(), Cause>
        requires from { 2 ≤ b }
        requires below { b < length self.old }
        requires part { is_claimed o ≡ true }
        requires place { o.place < 2 ^ 29 }
        ensures free { IsOk result ↔ (kept_at self.old b ≡ no_owner) }
        ensures ok { OnOk result (self.new ≡ slice_set self.old b o) }
        ensures taken { IfErr result (λ c. c ≡ Cause.Taken) }
        ensures unchanged { OnErr result (self.new ≡ self.old) }
        ensures count { OnOk result (claimed_count self.new ≡ claimed_count self.old + 1) }
        ensures bound { claimed_count self.new + 2 ≤ length self.new }
    {
        if !self.owners[b as usize].is_free() {
            return Err(Cause::Taken);
        }
        self.owners[b as usize] = PackedOwner::of(o);
        self.used += 1;
        Ok(())
    }

    // Makes `o` the owner of a block that is known to be free.
    #[inline(always)]
    pub fn put(&mut self, b: u32, o: KeptOwner)
        requires from { 2 ≤ b }
        requires below { b < length self.old }
        requires free { kept_at self.old b ≡ no_owner }
        requires part { is_claimed o ≡ true }
        requires place { o.place < 2 ^ 29 }
        ensures { self.new ≡ slice_set self.old b o }
    {
        self.owners[b as usize] = PackedOwner::of(o);
        self.used += 1;
    }

    // The number of blocks.
    pub fn len(&self) -> u32
        ensures { result ≡ length self.now }
    {
        self.blocks
    }

    // The number of blocks that parts of the volume own.
    pub fn used(&self) -> u32
        ensures used { result ≡ claimed_count self.now }
        ensures bound { result + 2 ≤ length self.now }
    {
        self.used
    }

    // Whether no part of the volume owns a block.
    pub fn is_free(&self, b: u32) -> bool
        requires { b < length self.now }
        ensures { IsTrue result ↔ (kept_at self.now b ≡ no_owner) }
    {
        self.owners[b as usize].is_free()
    }

    // Whether a part of the volume owns a block; not past the last block.
    #[inline(always)]
    pub fn is_claimed(&self, b: u32) -> bool
        ensures { result ≡ is_claimed (kept_at self.now b) }
    {
        match self.owners.get(b as usize) {
            Some(owner) => owner.is_claimed(),
            None => false,
        }
    }

    // The owner of a block; `Free` past the last block.
    pub fn at(&self, b: u32) -> KeptOwner
        ensures owner { result ≡ kept_at self.now b }
        ensures place { result.place < 2 ^ 29 }
    {
        match self.owners.get(b as usize) {
            Some(owner) => owner.unpacked(),
            None => NO_OWNER,
        }
    }

    // Whether the blocks from `first` up to, but not including, `end` all have no owner, or all have one.
    pub fn are_all(&self, first: u32, end: u32, is_free: bool) -> bool
        requires { end ≤ length self.now }
        ensures { IsTrue result ↔ ((b : ℕ) → first ≤ b → b < end
            → IsTrue is_free ↔ (kept_at self.now b ≡ no_owner)) }
    {
        let mut all = true;
        for b in first..end {
            all &= self.is_free(b) == is_free;
        }
        all
    }

    // Whether a part of the volume owns a block.
    fn is_owned(&self, b: u32) -> bool
        requires { b < length self.now }
        ensures { result ≡ is_claimed (kept_at self.now b) }
    {
        self.owners[b as usize].is_claimed()
    }

    // Whether parts of the volume own all blocks from `first` up to, but not including, `end`, or none of them.
    pub fn are_claimed(&self, first: u32, end: u32, are_owned: bool) -> bool
        requires { end ≤ length self.now }
        ensures { IsTrue result → (b : ℕ) → first ≤ b → b < end → is_claimed (kept_at self.now b) ≡ are_owned }
    {
        let mut all = true;
        for b in first..end {
            all &= self.is_owned(b) == are_owned;
        }
        all
    }
}

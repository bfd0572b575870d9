// Claims of blocks that a word points to.

ghost use Rattle.adf_check.specs.Claims.{InRange, IsClaimFault};
ghost use Rattle.std.specs.Prelude.{◌≡◌, ◌+◌, ◌<◌, ◌≤◌, ◌^◌, OnOk, IfErr, length, set, true};
ghost use Rattle.adf_volume.specs.KeptOwner.{claimed_count, is_claimed, kept_at, no_owner};

use adf_blocks::Cause;
use adf_volume::{Fault, KeptOwner, OwnerTable, fault_at};

/// A word of block `holder` that points to `block`.
#[derive(Drop)]
pub struct Link {
    pub holder: u32,
    pub block: u32,
}

/// Makes `o` the owner of block `b`, which a word of block `holder` points to.
pub fn claim_named(owners: &mut OwnerTable, holder: u32, b: u32, o: KeptOwner) -> Result<(), Fault>
    requires part { is_claimed o ≡ true }
    requires place { o.place < 2 ^ 29 }
    ensures range { OnOk result (InRange (length owners.old) b) }
    ensures free { OnOk result (kept_at owners.old b ≡ no_owner) }
    ensures ok { OnOk result (owners.new ≡ set owners.old b o) }
    ensures len { length owners.new ≡ length owners.old }
    ensures count { OnOk result (claimed_count owners.new ≡ claimed_count owners.old + 1) }
    ensures bound { OnOk result (claimed_count owners.new + 2 ≤ length owners.new) }
    ensures fault { IfErr result (IsClaimFault owners.old holder b) }
{
    if b < 2 || b >= owners.len() {
        return Err(fault_at(holder, Cause::OutOfRange));
    }
    match owners.claim(b, o) {
        Ok(()) => Ok(()),
        Err(cause) => Err(fault_at(b, cause)),
    }
}

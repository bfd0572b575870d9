// Rescues of which only the new volume is to be laid.

use crate::proposal::LeftOut;
use adf_base::NoMemory;
use adf_tree::Tree;
use adf_volume::{Fault, Types};
use std::alloc::AllocError;

/// The terms of a rescue: the types that the new volume may have, and whether the deleted files that are whole are kept too.
#[derive(Clone, Copy)]
pub struct RescueTerms {
    pub types: Types,
    pub with_deleted: bool,
}

/// A rescue of which only the new volume is to be laid: its tree, the number of its blocks, the claims that are left out (the index
/// is that of the claim) and the whole deleted files that are left out (the index is that in `Judgement::deleted`), both in
/// order; and the name of the directory of the deleted files, empty if there is none.
#[derive(Drop)]
pub struct Prepared {
    pub tree: Tree,
    pub blocks: u32,
    pub left_out: Vec<LeftOut>,
    pub deleted_out: Vec<LeftOut>,
    pub deleted_directory: Vec<u8>,
}

/// Why a rescue gives no volume.
#[derive(Clone, Copy)]
pub enum Unrescued {
    /// Nothing is kept of the image, which has this first fault.
    Refused(Fault),
    /// An allocation failed.
    NoMemory,
}

impl From<AllocError> for Unrescued {
    ghost use Rattle.std.specs.Prelude.{◌≡◌};
    ghost use Rattle.adf_keep.specs.declared.prepared.Unrescued.TheVariants.{NoMemory};

    ghost from_gives = { λ _ u. u ≡ NoMemory };

    fn from(_e: AllocError) -> Unrescued {
        Unrescued::NoMemory
    }
}

impl From<NoMemory> for Unrescued {
    ghost use Rattle.std.specs.Prelude.{◌≡◌};
    ghost use Rattle.adf_keep.specs.declared.prepared.Unrescued.TheVariants.{NoMemory};

    ghost from_gives = { λ _ u. u ≡ NoMemory };

    fn from(_e: NoMemory) -> Unrescued {
        Unrescued::NoMemory
    }
}

// Of a proposal what stands is kept.

ghost use Rattle.std.specs.Prelude.{◌≡◌, IfOk, List, true};
ghost use Rattle.adf_blocks.specs.Sizes.{is_allowed};
ghost use Rattle.adf_build.specs.Building.{IsBuildable};
ghost use Rattle.adf_keep.specs.{Kept.IsOutcomeOf, Kept.setting_of, Verdicts.EntryVerdict};

use crate::held::Held;
use crate::keeper::Keeper;
use crate::proposal::{LeftOut, Proposed};
use adf_base::{Letters, NoMemory};
use adf_drafts::Draft;
use adf_names::{Kind, Label, Stamps};
use std::alloc::Global;

/// The new volume: its kind, which is also that of the image; the letters whose case is ignored in its names; its label and
/// dates; and the number of its blocks.
#[derive(Drop)]
pub struct Terms {
    pub kind: Kind,
    pub letters: Letters,
    pub label: Label,
    pub stamps: Stamps,
    pub blocks: u32,
}

/// What is kept: the draft of the new tree; the number of blocks that are left in the new volume; and the entries of the proposal
/// that are left out, in order.
#[derive(Drop)]
pub struct Kept {
    pub draft: Draft,
    pub left: u32,
    pub left_out: Vec<LeftOut>,
}

/// Keeps of a proposal what stands, whatever is proposed. The input holds the first `held` blocks of the image. `NoMemory` if an
/// allocation fails.
pub fn keep(
    alloc: Global,
    image: &[u8],
    held: u32,
    proposal: &[Proposed],
    terms: Terms,
) -> Result<Kept, NoMemory>
    requires { is_allowed terms.blocks ≡ true }
    ensures fits { IfOk result (λ k. IsBuildable k.draft.tree terms.blocks) }
    ensures kept { IfOk result (λ k. (vs : List EntryVerdict)
        × IsOutcomeOf (setting_of image.now held terms) proposal.now vs k) }
{
    let Terms {
        kind,
        letters,
        label,
        stamps,
        blocks,
    } = terms;
    let draft = Draft::with_letters(alloc, kind, letters, label, stamps);
    let mut keeper = Keeper::begin(alloc, Held::of(image, held), draft, kind, blocks)?;
    for p in proposal {
        keeper.take(alloc, p)?;
    }
    let Keeper {
        draft,
        left,
        left_out,
        ..
    } = keeper;
    Ok(Kept {
        draft,
        left,
        left_out,
    })
}

// Laws of what is kept.

ghost use Rattle.std.specs.Prelude.{◌≡◌, ℕ, List};
ghost use Rattle.std.specs.List.{flat_map};
ghost use Rattle.adf_tree.specs.{Additions.IsTreeOfBy, declared.entry.Entry.Entry};
ghost use Rattle.adf_volume.specs.Lists.{In};
ghost use Rattle.adf_keep.specs.{Marks.IsOnce, Kept.Agree, Kept.HasRoomFor, Kept.IsOfProposal, declared.proposal.Proposed.Proposed};
ghost use Rattle.adf_judge.specs.declared.judgement.{Claim.Claim, DeletedHeader.DeletedHeader, Reading.Reading};
ghost use Rattle.adf_keep.specs.{Rescued.IsRescued, declared.prepared.Prepared.Prepared, declared.prepared.RescueTerms.RescueTerms};
ghost use Rattle.adf_keep.specs.Verdicts.{AreVerdicts, Setting, EntryVerdict, kept_blocks, kept_tree, kept_addition};

/// The tree of what is kept has each entry that is kept, at its path, and no other.
#[tactic(auto, using(crate::proofs::KeptTrees::kept_is_tree))]
pub fn kept_tree_has_what_is_kept()
    ensures { (g : Setting) (ps : List Proposed) (vs : List EntryVerdict) → AreVerdicts g ps vs
        → IsTreeOfBy g.tree.letters (kept_tree g vs).entries (flat_map kept_addition vs) }
{}

/// Each entry of the tree of what is kept is that of a proposed one.
#[tactic(auto, using(crate::proofs::KeptTrees::kept_is_proposed))]
pub fn kept_entries_are_proposed()
    ensures { (g : Setting) (ps : List Proposed) (vs : List EntryVerdict) → AreVerdicts g ps vs
        → (e : Entry) → In (kept_tree g vs).entries e → IsOfProposal g ps e }
{}

/// Each entry of the tree of a rescue is that of a proposed one: it has the name that is proposed, and a file has the bytes that
/// one header of the input and its extension blocks name.
pub fn rescued_entries_are_proposed()
    ensures { (input : List ℕ) (reading : Reading) (cs : List Claim) (ds : List DeletedHeader) (terms : RescueTerms) (p : Prepared)
        (r : IsRescued input reading cs ds terms p) (e : Entry) → In p.tree.entries e → IsOfProposal r.setting r.ps e }
{}

/// A proposal has one outcome: what is kept of it, and so the tree, does not depend on who keeps; only where several reasons
/// hold may another be told.
#[tactic(auto, using(crate::proofs::OneOutcome::one_outcome, crate::proofs::OneOutcome::agree_additions))]
pub fn one_outcome()
    ensures verdicts { (g : Setting) (ps : List Proposed) (vs ws : List EntryVerdict) → AreVerdicts g ps vs → AreVerdicts g ps ws
        → IsOnce (kept_blocks vs) → IsOnce (kept_blocks ws) → HasRoomFor g vs → HasRoomFor g ws → Agree vs ws }
    ensures tree { (vs ws : List EntryVerdict) → Agree vs ws
        → flat_map kept_addition vs ≡ flat_map kept_addition ws }
{}

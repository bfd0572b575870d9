// Laws of trees, for the proofs of callers. None of these functions does anything.

ghost use Rattle.adf_tree.specs.Laws.{AddingGrowsTheTree, AdditionsAreBuilt, AdditionsHaveOneTree, CaseKeepsPaths};
ghost use Rattle.adf_tree.specs.Laws.{CaseKeepsSlots, ChildrenAreFound, EntriesStandInOneChain, NamesAreFound, PathsAreFound};
ghost use Rattle.adf_tree.specs.Laws.{TreesGrowInOrder};

/// Every entry is in the chain of exactly one parent and slot.
pub fn entries_stand_in_one_chain()
    ensures { EntriesStandInOneChain }
{}

/// Names that are equal ignoring case have the same slot.
#[tactic(auto, using(crate::proofs::ChildLookup::same_slot_by))]
pub fn case_keeps_slots()
    ensures { CaseKeepsSlots }
{}

/// Paths that are equal ignoring case lead to the same node.
#[tactic(auto, using(crate::proofs::PathContents::find_uppers_by))]
pub fn case_keeps_paths()
    ensures { CaseKeepsPaths }
{}

/// Looking up a name finds the entry of that name, in the chain of its slot; every entry is found.
pub fn children_are_found()
    ensures { ChildrenAreFound }
{}

/// Each entry is found under its path.
#[tactic(auto, using(crate::proofs::EntryPaths::path_found))]
pub fn paths_are_found()
    ensures { PathsAreFound }
{}

/// Each entry is found under its names as written, from the root on.
#[tactic(auto, using(crate::proofs::EntryPaths::names_found))]
pub fn names_are_found()
    ensures { NamesAreFound }
{}

/// Adding the entries of a tree in their order gives the same tree.
pub fn trees_grow_in_order()
    ensures { TreesGrowInOrder }
{}

/// Two trees of the same additions are equal.
pub fn additions_have_one_tree()
    ensures { AdditionsHaveOneTree }
{}

/// `add` turns the tree of some additions into the tree of those and one more.
pub fn adding_grows_the_tree()
    ensures { AddingGrowsTheTree }
{}

/// If every addition has room, `add` builds their tree.
pub fn additions_are_built()
    ensures { AdditionsAreBuilt }
{}

// The entries that have blocks, and those that hold the blocks of findings.

ghost use Rattle.std.specs.Prelude.{◌≡◌, slice_get};
ghost use Rattle.std.specs.Option.{option_and_then};
ghost use Rattle.adf_findings.specs.{Concerned.is_taken, WalkOwners.data_number_of};
ghost use Rattle.adf_findings.specs.SurveyResult.{entry_at, owner_for};
ghost use Rattle.adf_volume.specs.Parts.{entry_of};

use crate::finding::Finding;
use crate::walk_owners::WalkOwners;
use adf_blocks::Cause;
use adf_tree::Node;
use adf_volume::Owner;

/// The number of the entry that an owner is a part of; 0 of the root and the bitmap, and where there is none.
pub fn entry_of(owner: &Owner) -> usize
    ensures { result ≡ entry_of owner.now }
{
    match owner {
        Owner::Head(node) | Owner::Ext(node, _) | Owner::Data(node, _) => node.0,
        _ => 0,
    }
}

/// The number of the data block that an owner is, from 1; 0 of others.
pub fn data_number_of(owner: &Owner) -> u32
    ensures { result ≡ data_number_of owner.now }
{
    match owner {
        Owner::Data(_, k) => *k,
        _ => 0,
    }
}

/// Whether the cause is that another part has the block.
pub fn is_taken(cause: Cause) -> bool
    ensures { result ≡ is_taken cause }
{
    matches!(cause, Cause::Taken)
}

/// The entry of a block; `None` if it has none.
pub fn entry_at(owners: &WalkOwners, b: u32) -> Option<Node>
    ensures { result ≡ entry_at owners.now.owners b }
{
    match entry_of(&owners.at(b)) {
        0 => None,
        n => Some(Node(n)),
    }
}

// The entry of the block of a finding, if its cause is that another part has the block.
fn owner_for(owners: &WalkOwners, finding: &Finding) -> Option<Node>
    ensures { result ≡ owner_for owners.now.owners finding.now }
{
    if is_taken(finding.cause) {
        entry_at(owners, finding.block)
    } else {
        None
    }
}

/// The entry of the block of the finding at an index, if its cause is that another part has the block.
pub fn owner_nth(owners: &WalkOwners, findings: &Vec<Finding>, k: usize) -> Option<Node>
    ensures { result ≡ option_and_then (owner_for owners.now.owners) (slice_get findings.now.items k) }
{
    match findings.get(k) {
        Some(finding) => owner_for(owners, finding),
        None => None,
    }
}

// Partitions by name.

ghost use Rattle.std.specs.Prelude.{◌≡◌, bytes_eq};
ghost use Rattle.adf_names.specs.Texts.{uppers};
ghost use Rattle.adf_partitions.specs.Partitions.{is_partition_named};

use crate::partition::Partition;
use adf_base::upper;

/// Whether two texts are equal, ignoring the case of `a` to `z`.
#[tactic(auto, using(adf_names::proofs::EqualNames::ascii_yes, adf_names::proofs::EqualNames::ascii_no, adf_names::proofs::EqualNames::ascii_short))]
pub fn are_same(a: &[u8], b: &[u8]) -> bool
    ensures { result ≡ bytes_eq (uppers a.now) (uppers b.now) }
{
    if a.len() != b.len() {
        return false;
    }
    for i in 0..a.len() {
        if upper(a[i]) != upper(b[i]) {
            return false;
        }
    }
    true
}

/// Whether a partition has this name, ignoring the case of `a` to `z`.
pub fn is_named(name: &[u8], partition: &Partition) -> bool
    ensures { result ≡ is_partition_named name.now partition.now }
{
    are_same(partition.name.bytes(), name)
}

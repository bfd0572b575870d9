// Places in the list of all extension blocks and in that of all data blocks.

ghost use Rattle.std.specs.Prelude.{◌≡◌, ◌<◌, ◌^◌};
ghost use Rattle.adf_volume.specs.declared.owner.Owner.{Owner};
ghost use Rattle.adf_volume.specs.Places.{AreStarts, IsLastStart, IsNumbered, first_data, first_ext, kept_as, last_start};
ghost use Rattle.adf_volume.specs.Places.{owner_kept};

use crate::kept_owner::KeptOwner;
use crate::node_start::NodeStart;
use crate::owner::Owner;
use crate::owner_class::OwnerClass;
use adf_tree::Node;

// The file of the extension block at a place.
fn file_of_ext(starts: &[NodeStart], place: u32) -> usize
    requires { AreStarts first_ext starts.now }
    ensures last { IsLastStart first_ext starts.now place result }
    ensures node { result ≡ last_start first_ext starts.now place }
{
    starts.partition_point(|start| start.exts <= place) - 1
}

// The file of the data block at a place.
fn file_of_data(starts: &[NodeStart], place: u32) -> usize
    requires { AreStarts first_data starts.now }
    ensures last { IsLastStart first_data starts.now place result }
    ensures node { result ≡ last_start first_data starts.now place }
{
    starts.partition_point(|start| start.datas <= place) - 1
}

/// The owner that is kept so. The file of an extension or data block is found by a binary search in the starts.
pub fn owner_of(starts: &[NodeStart], kept: KeptOwner) -> Owner
    requires exts { AreStarts first_ext starts.now }
    requires datas { AreStarts first_data starts.now }
    requires place { kept.place < 2 ^ 29 }
    ensures owner { result ≡ owner_kept starts.now kept }
    ensures part { (o : Owner) → IsNumbered starts.now o → kept ≡ kept_as starts.now o → result ≡ o }
{
    let place = kept.place;
    match kept.class {
        OwnerClass::Free => Owner::Free,
        OwnerClass::Boot => Owner::Boot,
        OwnerClass::Root => Owner::Root,
        OwnerClass::Page => Owner::Page(place),
        OwnerClass::MapExt => Owner::MapExt(place),
        OwnerClass::Head => Owner::Head(Node(place as usize)),
        OwnerClass::Ext => {
            let file = file_of_ext(starts, place);
            Owner::Ext(Node(file), place - starts[file].exts + 1)
        }
        OwnerClass::Data => {
            let file = file_of_data(starts, place);
            Owner::Data(Node(file), place - starts[file].datas + 1)
        }
    }
}

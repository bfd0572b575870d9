// The parts of a volume.

ghost use Rattle.std.specs.Prelude.{◌≡◌, ◌<◌, ◌^◌};
ghost use Rattle.adf_volume.specs.{LayoutRoles.owner_of, Parts.entry_of, Parts.renumbered, Parts.role_of};

use crate::owner::Owner;
use adf_tree::Node;

/// A part of a volume.
///
/// Pages and bitmap extension blocks are numbered from 0; a file's extension blocks and data blocks from 1.
#[derive(Clone, Copy, Debug, PartialEq, Eq)]
pub enum Part {
    /// The root.
    Root,
    /// A page of the bitmap, by number.
    Page(u32),
    /// A bitmap extension block, by number.
    MapExt(u32),
    /// The header of a node, with the number of its parent, its slot and its position in the chain.
    Head {
        node: u32,
        parent: u32,
        slot: u8,
        place: u32,
    },
    /// An extension block of a file: the file's node, and its number.
    Ext(u32, u32),
    /// A data block of a file: the file's node, and its number.
    Data(u32, u32),
}

impl Part {
    /// The part, with this node number if it is a header.
    pub fn numbered(self, number: u32) -> Part
        ensures { role_of result ≡ renumbered number (role_of self) }
    {
        match self {
            Part::Head {
                parent,
                slot,
                place,
                ..
            } => Part::Head {
                node: number,
                parent,
                slot,
                place,
            },
            _ => self,
        }
    }

    /// The part as the owner of a block.
    #[inline(always)]
    pub fn owner(self) -> Owner
        ensures owner { result ≡ owner_of (role_of self) }
        ensures small { entry_of result < 2 ^ 32 }
    {
        match self {
            Part::Root => Owner::Root,
            Part::Page(i) => Owner::Page(i),
            Part::MapExt(j) => Owner::MapExt(j),
            Part::Head { node, .. } => Owner::Head(Node(node as usize)),
            Part::Ext(node, k) => Owner::Ext(Node(node as usize), k),
            Part::Data(node, k) => Owner::Data(Node(node as usize), k),
        }
    }
}

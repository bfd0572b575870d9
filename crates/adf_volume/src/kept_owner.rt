// The owner of a block as a check keeps it.

ghost use Rattle.std.specs.Prelude.{◌≡◌, ◌<◌, ◌^◌, ◌↔◌, IsTrue};
ghost use Rattle.adf_volume.specs.KeptOwner.{is_claimed, no_owner, unpacked};

use crate::owner_class::OwnerClass;

/// The owner of a block by its class and its place in the list of that class: the number of a page or of a bitmap
/// extension block, the node of a header, the place of an extension or data block among those of all files; 0 for others.
#[derive(Clone, Copy)]
pub struct KeptOwner {
    pub class: OwnerClass,
    pub place: u32,
}

/// What is kept of a free block.
pub const NO_OWNER: KeptOwner = KeptOwner {
    class: OwnerClass::Free,
    place: 0,
};

/// What is kept of a boot block.
pub const BOOT_OWNER: KeptOwner = KeptOwner {
    class: OwnerClass::Boot,
    place: 0,
};

/// A kept owner in four bytes: the number of its class, 0 to 7, and 8 times its place.
#[derive(Clone, Copy)]
pub struct PackedOwner(u32);

impl PackedOwner {
    // The packed owner.
    pub fn of(owner: KeptOwner) -> PackedOwner
        requires { owner.place < 2 ^ 29 }
        ensures { unpacked result ≡ owner }
    {
        PackedOwner(u32::from(owner.class.number()) + 8 * owner.place)
    }

    // The owner that is packed.
    pub fn unpacked(self) -> KeptOwner
        ensures owner { result ≡ unpacked self }
        ensures place { result.place < 2 ^ 29 }
    {
        KeptOwner {
            class: OwnerClass::numbered(self.0 % 8),
            place: self.0 / 8,
        }
    }

    // Whether a part of the volume owns the block.
    pub fn is_claimed(self) -> bool
        ensures { result ≡ is_claimed (unpacked self) }
    {
        self.0 % 8 >= 2
    }

    // Whether no part of the volume owns the block, and it is no boot block.
    pub fn is_free(self) -> bool
        ensures { IsTrue result ↔ (unpacked self ≡ no_owner) }
    {
        self.0 == 0
    }
}

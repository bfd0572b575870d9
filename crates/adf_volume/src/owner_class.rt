// The classes of owners.

ghost use Rattle.std.specs.Prelude.{◌≡◌, ◌<◌};
ghost use Rattle.adf_volume.specs.OwnerClass.{class_number, class_numbered};

/// What owns a block, without its number and without its file.
#[derive(Clone, Copy, Debug, PartialEq, Eq)]
pub enum OwnerClass {
    /// No part: the block is free.
    Free,
    /// The boot blocks.
    Boot,
    /// The root.
    Root,
    /// A page of the bitmap.
    Page,
    /// A bitmap extension block.
    MapExt,
    /// The header of an entry.
    Head,
    /// An extension block of a file.
    Ext,
    /// A data block of a file.
    Data,
}

impl OwnerClass {
    /// The number of the class, 0 to 7.
    pub fn number(self) -> u8
        ensures number { result ≡ class_number self }
        ensures small { result < 8 }
    {
        self as u8
    }

    // The class with this number; `Data` past the last.
    pub(crate) fn numbered(number: u32) -> OwnerClass
        ensures { result ≡ class_numbered number }
    {
        match number {
            0 => OwnerClass::Free,
            1 => OwnerClass::Boot,
            2 => OwnerClass::Root,
            3 => OwnerClass::Page,
            4 => OwnerClass::MapExt,
            5 => OwnerClass::Head,
            6 => OwnerClass::Ext,
            _ => OwnerClass::Data,
        }
    }
}

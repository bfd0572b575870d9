// What a judge says exists on a damaged volume, and what is amiss.

use adf_base::Letters;
use adf_names::{Kind, Label, Meta, Stamps};

/// What a header is of.
#[derive(Clone, Copy, Debug, PartialEq, Eq)]
pub enum Object {
    Directory,
    File,
    SoftLink,
    DirectoryLink,
    FileLink,
}

/// How an entry was found.
#[derive(Clone, Copy, Debug, PartialEq, Eq)]
pub enum Origin {
    /// The hash chains lead to it from the root.
    Reached,
    /// Nothing is left of its header but the block that other headers or a directory cache name.
    Made,
    /// Nothing leads to it, and the bitmap has it allocated.
    Orphaned,
    /// Nothing leads to it, and nothing tells whether it was deleted.
    PerhapsDeleted,
}

/// An entry that exists. Nothing of it is trusted.
#[derive(Drop)]
pub struct Claim {
    /// The block of its header; of a directory that is made the block that its entries name.
    pub header: u32,
    /// Its directory: 0 for the root, else one more than the index of an earlier claim.
    pub directory: usize,
    /// Its name in the new volume, unique in its directory.
    pub name: Vec<u8>,
    /// The name that its header states, up to 79 bytes: another one if it is renamed.
    pub stated_name: Vec<u8>,
    pub object: Object,
    pub origin: Origin,
    /// Its comment, protection bits and date, by its header or by the record of a directory cache.
    pub meta: Meta,
    /// The size of a file in bytes, by its header; else 0.
    pub size: u32,
    /// It is intact, so it is given back: a directory, or a file whose blocks are all its own.
    pub is_given: bool,
    /// Its checksum is right, and nothing that is whole says that it was deleted.
    pub is_certain: bool,
    /// A hard link: one more than the index of the claim that it leads to; 0 if it is wrong.
    pub target: usize,
}

/// What is wrong, or may be.
#[derive(Clone, Copy, Debug, PartialEq, Eq)]
pub enum Sign {
    /// The type of the boot block is not that of the volume.
    Type,
    /// The root is damaged, or another root is not older.
    Root,
    /// The image is longer than the volume.
    Length,
    /// The input does not hold these blocks.
    NoData,
    LabelCut,
    /// A page of the bitmap cannot be read.
    Bitmap,
    /// A hash chain of this directory is broken.
    LostIn,
    Damaged,
    Link,
    InDoubt,
    Made,
    PerhapsDeleted,
    FoundAgain,
    OwnedFree,
    Renamed,
    CommentCut,
    /// Allocated blocks that nothing has.
    Lost,
}

/// Something that is wrong: of a claim (one more than its index; 0 for the volume, or for the root as a directory), at the blocks
/// from `first` to before `past`.
#[derive(Clone, Copy, Debug, PartialEq, Eq)]
pub struct Amiss {
    pub sign: Sign,
    pub claim: usize,
    pub first: u32,
    pub past: u32,
}

/// A header that was deleted.
#[derive(Drop)]
pub struct DeletedHeader {
    pub header: u32,
    pub object: Object,
    pub name: Vec<u8>,
    pub meta: Meta,
    /// The size of a file in bytes.
    pub size: u32,
    /// The block of the directory that it names.
    pub directory: u32,
    /// How many data blocks a file needs, and how many of these are not its own any more.
    pub needs: u32,
    pub overwritten: u32,
    /// FFS: the latest other deleted header that names one of its data blocks; 0 if none does.
    pub rival: u32,
    /// A hard link: the block of the header that it leads to.
    pub target: u32,
}

/// Why an image is not judged.
#[derive(Clone, Copy, Debug, PartialEq, Eq)]
pub enum Refusal {
    /// No volume has so many blocks.
    BadSize,
    /// The volume is of type 6 or 7, with long names.
    LongNames,
}

/// How the volume is read.
#[derive(Drop)]
pub struct Reading {
    /// The number of its blocks, and how many of them the input holds, from the first one on.
    pub blocks: u32,
    pub held: u32,
    pub kind: Kind,
    pub letters: Letters,
    /// The label and the dates of the root, if that can be read.
    pub label: Label,
    pub stamps: Stamps,
}

// Why the partitions of a disk cannot be read.

ghost use Rattle.std.specs.Prelude.{◌≡◌};
ghost use Rattle.adf_partitions.specs.{Faults.disk_fault, FaultTexts.disk_cause_number, FaultTexts.disk_cause_text};

use std::error::Error;
use std::fmt;

/// What is wrong with the tables of a disk, or `NoMemory`.
#[derive(Clone, Copy, Debug, PartialEq, Eq)]
pub enum DiskCause {
    /// None of the blocks 0 to 15 is a rigid disk block: one that begins with `RDSK` and has a sound sum, or says that blocks
    /// have another size than 512 bytes and has a sum over more than 128 words. Reported at block 0.
    NoRigidDisk = 1,
    /// Word 4 of the rigid disk block, the bytes of a block, is not 512.
    BlockSize = 2,
    /// The number of a partition block is not below 65,536, or the bytes end before that block does. Reported at the block that
    /// holds the number.
    OutOfRange = 3,
    /// The list of partition blocks comes back to a block.
    Repeated = 4,
    /// A block of the list does not begin with `PART`.
    NotPartition = 5,
    /// The first words of a block of the list, 3 to 128 as its word 1 says, do not add up to 0 modulo 2^32.
    BadSum = 6,
    /// The block comes after 1,024 partitions.
    TooMany = 7,
    /// An allocation failed; nothing is known of the partitions. Reported at block 0.
    NoMemory = 8,
}

impl DiskCause {
    /// The number of the cause, 1 to 8.
    pub fn number(self) -> u8
        ensures { result ≡ disk_cause_number self }
    {
        self as u8
    }

    /// The text of the cause as printed, in lower case.
    pub fn text(self) -> &'static str
        ensures { result.now ≡ disk_cause_text self }
    {
        match self {
            DiskCause::NoRigidDisk => "no rigid disk",
            DiskCause::BlockSize => "bad block size",
            DiskCause::OutOfRange => "out of range",
            DiskCause::Repeated => "repeated",
            DiskCause::NotPartition => "not a partition",
            DiskCause::BadSum => "bad sum",
            DiskCause::TooMany => "too many",
            DiskCause::NoMemory => "no memory",
        }
    }
}

impl fmt::Display for DiskCause {
    ghost use Rattle.std.specs.Prelude.{Some};
    ghost use Rattle.adf_partitions.specs.FaultTexts.{disk_cause_text};

    ghost output = { λ x. Some (disk_cause_text x) };

    fn fmt<W: fmt::Write>(&self, f: &mut fmt::Formatter<W>) -> fmt::Result {
        f.write_str(self.text())
    }
}

impl Error for DiskCause {}

/// Why the partitions of a disk cannot be read, and the block of the fault.
#[derive(Clone, Copy, Debug, PartialEq, Eq)]
pub struct DiskFault {
    pub block: u32,
    pub cause: DiskCause,
}

impl fmt::Display for DiskFault {
    ghost use Rattle.std.specs.Prelude.{Some};
    ghost use Rattle.adf_partitions.specs.FaultTexts.{disk_fault_text};

    ghost output = { λ f. Some (disk_fault_text f) };

    fn fmt<W: fmt::Write>(&self, f: &mut fmt::Formatter<W>) -> fmt::Result {
        let block = self.block;
        let cause = self.cause;
        write!(f, "block {block}: {cause}")
    }
}

impl Error for DiskFault {}

/// A fault at a block.
pub fn disk_fault(block: u32, cause: DiskCause) -> DiskFault
    ensures { result ≡ disk_fault block cause }
{
    DiskFault { block, cause }
}

// Why a volume is not checked.

ghost use Rattle.std.specs.Prelude.{◌≡◌, IfNone, IfSome, false, true};
ghost use Rattle.adf_disk_cmd.specs.Checks.{is_checked};

use crate::listing::block_bytes_text;
use crate::types::{bytes_text, is_checked};
use adf_blocks::MOST_BLOCKS;
use adf_partitions::{FieldFault, Partition, Place};
use std::alloc::{AllocError, Global};

/// Why the volume of a partition is not checked. The tests run in the order given.
#[derive(Clone, Copy)]
pub enum Unchecked {
    /// Its file system has this type.
    OtherType(u32),
    /// A block of its file system has so many sectors of so many words; in a volume that is read it has 1 of 128.
    BlockBytes(u32, u32),
    /// Something else is wrong with the fields of the partition.
    Fields(FieldFault),
    /// So many blocks are reserved; a volume that is read has 2.
    Reserved(u32),
    /// It has an odd number of blocks.
    OddBlocks,
    /// It has more blocks than a volume that is read.
    BadSize,
}

/// Why the volume of a partition at a place is not checked; `None` if it is.
pub fn why_unchecked(partition: &Partition, place: Place) -> Option<Unchecked>
    ensures checked { IfNone result (is_checked partition.now place ≡ true) }
    ensures unchecked { IfSome result (λ _. is_checked partition.now place ≡ false) }
{
    if !is_checked(partition.dos_type) {
        return Some(Unchecked::OtherType(partition.dos_type));
    }
    if let Some(fault) = partition.fault {
        return Some(match fault {
            FieldFault::OtherBlocks => {
                Unchecked::BlockBytes(partition.block_sectors, partition.sector_words)
            }
            _ => Unchecked::Fields(fault),
        });
    }
    if partition.reserved != 2 {
        return Some(Unchecked::Reserved(partition.reserved));
    }
    if place.blocks % 2 != 0 {
        return Some(Unchecked::OddBlocks);
    }
    if place.blocks > u64::from(MOST_BLOCKS) {
        return Some(Unchecked::BadSize);
    }
    None
}

/// The text of the reason.
pub fn unchecked_text(alloc: Global, why: Unchecked) -> Result<String, AllocError> {
    match why {
        Unchecked::OtherType(dos_type) => {
            let kind = bytes_text(alloc, dos_type)?;
            format!(in alloc; "type {kind}")
        }
        Unchecked::BlockBytes(sectors, words) => {
            let bytes = block_bytes_text(alloc, sectors, words)?;
            format!(in alloc; "{}: {bytes}", FieldFault::OtherBlocks)
        }
        Unchecked::Fields(fault) => format!(in alloc; "{fault}"),
        Unchecked::Reserved(blocks) => format!(in alloc; "reserved {blocks}"),
        Unchecked::OddBlocks => format!(in alloc; "odd blocks"),
        Unchecked::BadSize => format!(in alloc; "block 0: bad size"),
    }
}

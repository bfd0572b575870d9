// The partitions that can be read where the tables of a disk have a fault.

ghost use Rattle.std.specs.Prelude.{◌≡◌, ◌≢◌, [], IfOk, OnErr};
ghost use Rattle.adf_partitions.specs.Searches.{AreReadable, HasReadable, bare_partitions, is_lost_partition, is_partition_block};
ghost use Rattle.adf_partitions.specs.Searches.{is_searched, with_all_lost};
ghost use Rattle.adf_partitions.specs.{Tables.IsTables, declared.layout.TheConstants.MOST_TABLES};

use crate::fault::DiskCause;
use crate::layout::{MARK, MOST_PARTITIONS, MOST_TABLES, NO_BLOCK, PART, RDSK_BLOCKS};
use crate::list::{follow_list, is_found};
use crate::partition::{Partition, partition_of};
use crate::summed::is_summed;
use crate::tables::{Tables, is_kept, may_be_table, read_tables};
use adf_base::Block;
use std::alloc::{AllocError, Global};

// Whether a block says that it is a partition block, with a sound sum.
fn is_partition_block(part: &Block<'_>) -> bool
    ensures { result ≡ is_partition_block part.now }
{
    part.word(MARK) == PART && is_summed(part)
}

// Whether a block is searched: it is kept for the tables, or is one of those in which tables begin.
fn is_searched(bytes: &[u8], tables: Tables, b: u32) -> bool
    ensures { result ≡ is_searched bytes.now tables b }
{
    (b < RDSK_BLOCKS || is_kept(tables, b)) && may_be_table(bytes, b)
}

// Whether a block that is searched is a partition block that these partitions do not have.
fn is_lost_partition(bytes: &[u8], tables: Tables, found: &[Partition], b: u32) -> bool
    ensures { result ≡ is_lost_partition bytes.now tables found.now b }
{
    is_searched(bytes, tables, b)
        && is_partition_block(&Block::at(bytes, b).unwrap())
        && !is_found(found, b)
        && found.len() < MOST_PARTITIONS
}

// The partitions, and those of all blocks that are lost.
fn with_all_lost(
    bytes: &[u8],
    blocks: u64,
    tables: Tables,
    partitions: Vec<Partition>,
) -> Result<Vec<Partition>, AllocError>
    ensures all { IfOk result (λ v. v.items
        ≡ with_all_lost bytes.now blocks tables partitions.items MOST_TABLES) }
    ensures begun { OnErr result (
        with_all_lost bytes.now blocks tables partitions.items MOST_TABLES ≢ []) }
{
    let mut found = partitions;
    for b in 0..MOST_TABLES {
        if is_lost_partition(bytes, tables, &found, b) {
            let part = Block::at(bytes, b).unwrap();
            let partition = partition_of(b, &part, tables, blocks, &found);
            found.push(partition)?;
        }
    }
    Ok(found)
}

/// No tables: without a rigid disk block, block 0 alone is kept.
const NO_TABLES: Tables = Tables {
    rdsk: 0,
    first: NO_BLOCK,
    lowest: 0,
    highest: 0,
};

// The partitions of lost blocks of a disk without a rigid disk block.
fn bare_partitions(alloc: Global, bytes: &[u8], blocks: u64) -> Result<Vec<Partition>, AllocError>
    ensures all { IfOk result (λ v. v.items ≡ bare_partitions bytes.now blocks) }
    ensures begun { OnErr result (bare_partitions bytes.now blocks ≢ []) }
{
    with_all_lost(bytes, blocks, NO_TABLES, Vec::new(alloc))
}

// The partitions of a disk with these tables that can be read.
fn readable_by(
    alloc: Global,
    bytes: &[u8],
    tables: Tables,
    blocks: u64,
) -> Result<Vec<Partition>, AllocError>
    requires { IsTables bytes.now tables }
    ensures readable { IfOk result (λ v. AreReadable bytes.now blocks v.items) }
    ensures begun { OnErr result (HasReadable bytes.now blocks) }
{
    let list = follow_list(alloc, bytes, tables, blocks)?;
    match list.fault {
        None => Ok(list.partitions),
        Some(_) => with_all_lost(bytes, blocks, tables, list.partitions),
    }
}

/// The partitions that can be read of a disk of so many blocks of 512 bytes, from its first bytes (as of `Disk::open`): all of
/// its list; where the list has a fault, those before it, and those of each partition block with a sound sum among the blocks 0
/// to 15 and those kept for the tables that the list does not come to, in the order of the blocks, 1,024 in all at most. Of a
/// disk without a rigid disk block only block 0 counts as kept. If its blocks have another size than 512 bytes there are
/// none. `AllocError` if an allocation fails, which can happen only if a partition can be read.
pub fn readable_partitions(
    alloc: Global,
    bytes: &[u8],
    blocks: u64,
) -> Result<Vec<Partition>, AllocError>
    ensures readable { IfOk result (λ v. AreReadable bytes.now blocks v.items) }

    // Memory is wanted only if there is a partition that can be read.
    ensures begun { OnErr result (HasReadable bytes.now blocks) }
{
    match read_tables(bytes) {
        Ok(tables) => readable_by(alloc, bytes, tables, blocks),
        Err(fault) => match fault.cause {
            DiskCause::NoRigidDisk => bare_partitions(alloc, bytes, blocks),
            _ => Ok(Vec::new(alloc)),
        },
    }
}

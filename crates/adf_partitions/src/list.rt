// The list of partition blocks.

ghost use Rattle.std.specs.Prelude.{◌≡◌, Some, None, ◌<◌, length, IfOk, OnErr, OnOk, MatchResult};
ghost use Rattle.std.specs.List.{list_any};
ghost use Rattle.adf_base.specs.Words.{block};
ghost use Rattle.adf_partitions.specs.Disks.{IsFollowed, NamesPartition, is_block_of, part_form};
ghost use Rattle.adf_partitions.specs.Faults.{first_failed};

use crate::fault::{DiskCause, DiskFault, disk_fault};
use crate::layout::{MARK, MOST_PARTITIONS, NEXT_PART, NO_BLOCK, PART};
use crate::partition::{Partition, partition_of};
use crate::summed::is_summed;
use crate::tables::{Tables, may_be_table};
use adf_base::Block;
use std::alloc::{AllocError, Global};

/// Whether the list has come to a block.
pub fn is_found(earlier: &[Partition], b: u32) -> bool
    ensures { result ≡ list_any (is_block_of b) earlier.now }
{
    earlier.iter().any(|partition| partition.block == b)
}

// The partition block `b`, which `holder` names, after the earlier ones.
fn read_part<'a>(
    bytes: &'a [u8],
    earlier: &[Partition],
    holder: u32,
    b: u32,
) -> Result<Block<'a>, DiskFault>
    ensures form { MatchResult result
        (λ p. (first_failed (part_form bytes.now earlier.now holder b) ≡ None)
        × (p ≡ block bytes.now b))
        (λ f. first_failed (part_form bytes.now earlier.now holder b) ≡ Some f) }
    ensures few { OnOk result (length earlier.now < MOST_PARTITIONS) }
{
    if !may_be_table(bytes, b) {
        return Err(disk_fault(holder, DiskCause::OutOfRange));
    }
    if is_found(earlier, b) {
        return Err(disk_fault(b, DiskCause::Repeated));
    }
    let part = Block::at(bytes, b).unwrap();
    if part.word(MARK) != PART {
        return Err(disk_fault(b, DiskCause::NotPartition));
    }
    if !is_summed(&part) {
        return Err(disk_fault(b, DiskCause::BadSum));
    }
    if earlier.len() >= MOST_PARTITIONS {
        return Err(disk_fault(b, DiskCause::TooMany));
    }
    Ok(part)
}

/// The partitions of a list up to its end, or up to its first fault.
#[derive(Drop)]
pub struct Followed {
    pub partitions: Vec<Partition>,
    pub fault: Option<DiskFault>,
}

/// Reads the partitions of a disk of so many blocks, as far as their list can be followed.
pub fn follow_list(
    alloc: Global,
    bytes: &[u8],
    tables: Tables,
    blocks: u64,
) -> Result<Followed, AllocError>
    ensures followed { IfOk result (λ l. IsFollowed bytes.now blocks tables l.partitions.items l.fault) }
    ensures begun { OnErr result (NamesPartition bytes.now tables) }
{
    let mut found = Vec::new(alloc);
    let mut holder = tables.rdsk;
    let mut next = tables.first;
    while next != NO_BLOCK {
        let part = match read_part(bytes, &found, holder, next) {
            Ok(part) => part,
            Err(fault) => {
                return Ok(Followed {
                    partitions: found,
                    fault: Some(fault),
                });
            }
        };
        let partition = partition_of(next, &part, tables, blocks, &found);
        found.push(partition)?;
        holder = next;
        next = part.word(NEXT_PART);
    }
    Ok(Followed {
        partitions: found,
        fault: None,
    })
}

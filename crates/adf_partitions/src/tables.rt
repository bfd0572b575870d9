// The rigid disk block, and the blocks kept for a disk's tables.

ghost use Rattle.std.specs.Prelude.{◌≡◌, ◌≤◌, ◌+◌, ◌*◌, length, IfErr, IfNone, IfOk, IfSome};
ghost use Rattle.adf_base.specs.Words.{block};
ghost use Rattle.adf_partitions.specs.Tables.{HasNoRdsk, HasNoTables, IsRdsk, IsTables, is_kept_for_tables, is_larger, is_rdsk};
ghost use Rattle.adf_partitions.specs.Tables.{may_be_table, tables_at};

use crate::fault::{DiskCause, DiskFault, disk_fault};
use crate::layout::{
    BLOCK_BYTES, FIRST_PART, HIGHEST_TABLE, LOWEST_TABLE, MARK, MOST_TABLES, RDSK, RDSK_BLOCKS,
    SUMMED_LONGS,
};
use crate::summed::{holds, is_summed};
use adf_base::Block;

/// Where a disk's tables are, as its rigid disk block says.
#[derive(Clone, Copy, Debug, PartialEq, Eq)]
pub struct Tables {
    /// The rigid disk block, 0 to 15.
    pub rdsk: u32,
    /// The first partition block, or `NO_BLOCK`: word 7.
    pub first: u32,
    /// The lowest block kept for the tables: word 32.
    pub lowest: u32,
    /// The highest block kept for the tables: word 33.
    pub highest: u32,
}

// Whether a rigid disk block says that blocks have another size than 512 bytes, and has a sum over more words than such a
// block has.
fn is_larger(block: &Block<'_>) -> bool
    ensures { result ≡ is_larger block.now }
{
    block.word(SUMMED_LONGS) > 128 && block.word(BLOCK_BYTES) != 512
}

// Whether a block is a rigid disk block.
fn is_rdsk(bytes: &[u8], b: u32) -> bool
    ensures { result ≡ is_rdsk bytes.now b }
{
    match Block::at(bytes, b) {
        Some(block) => block.word(MARK) == RDSK && (is_summed(&block) || is_larger(&block)),
        None => false,
    }
}

// The first rigid disk block.
fn find_rdsk(bytes: &[u8]) -> Option<u32>
    ensures first { IfSome result (λ b. IsRdsk bytes.now b) }
    ensures none { IfNone result (HasNoRdsk bytes.now) }
{
    for b in 0..RDSK_BLOCKS {
        if is_rdsk(bytes, b) {
            return Some(b);
        }
    }
    None
}

/// Reads the rigid disk block. The first 16 blocks of a disk are enough; what follows them changes nothing
/// (`tables_are_enough`).
///
/// The first fault: `NoRigidDisk`, at block 0; `BlockSize`, at the rigid disk block.
pub fn read_tables(bytes: &[u8]) -> Result<Tables, DiskFault>
    ensures tables { IfOk result (λ t. IsTables bytes.now t) }
    ensures fault { IfErr result (λ f. HasNoTables bytes.now f) }
{
    let Some(rdsk) = find_rdsk(bytes) else {
        return Err(disk_fault(0, DiskCause::NoRigidDisk));
    };
    let block = Block::at(bytes, rdsk).unwrap();
    if block.word(BLOCK_BYTES) != 512 {
        return Err(disk_fault(rdsk, DiskCause::BlockSize));
    }
    Ok(Tables {
        rdsk,
        first: block.word(FIRST_PART),
        lowest: block.word(LOWEST_TABLE),
        highest: block.word(HIGHEST_TABLE),
    })
}

/// Whether a block may have a table, and the bytes hold it.
pub fn may_be_table(bytes: &[u8], b: u32) -> bool
    ensures { result ≡ may_be_table bytes.now b }
{
    b < MOST_TABLES && holds(bytes, b)
}

/// Whether a block is kept for the tables.
pub fn is_kept(tables: Tables, b: u32) -> bool
    ensures { result ≡ is_kept_for_tables tables b }
{
    tables.lowest <= b && b <= tables.highest
}

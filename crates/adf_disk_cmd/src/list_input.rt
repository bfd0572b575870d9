// The command `list` over an input, of which only the blocks that may have tables are held.

ghost use Rattle.std.specs.Prelude.{◌≡◌, ◌+◌, ◌/◌, List, ℕ, false, min, true};
ghost use Rattle.adf_disk_cmd.specs.{Answers.DiskAnswer, CommandLine.list};
ghost use Rattle.adf_runs.specs.Outcomes.{Blames, DoesOn, EndsBy, is_read_fault};
ghost use Rattle.adf_runs.specs.Streams.{IsExcerpt, TakesAtMost, seen};

use crate::answering::Telling;
use crate::listing::write_list;
use crate::surveying::survey_disk;
use crate::work::MOST_DISK_BYTES;
use adf_base::BLOCK_LEN;
use adf_partitions::MOST_TABLES;
use adf_runs::{Excerpt, Outcome, Sink, Source, read_excerpt};

/// The bytes of the blocks that may have tables.
pub const TABLES_LEN: usize = MOST_TABLES as usize * BLOCK_LEN;

/// How many blocks a disk of so many bytes has that count.
pub fn blocks_of(len: usize) -> u64
    ensures { result ≡ min len MOST_DISK_BYTES / 512 }
{
    (len.min(MOST_DISK_BYTES) / BLOCK_LEN) as u64
}

// Lists the partitions of a disk of which the tables are held.
fn list_part<W: Sink>(telling: Telling, held: &Excerpt, output: &mut W) -> Outcome
    requires { W.has_failed output.old ≡ false }
    ensures ends { (all : List ℕ)
        → IsExcerpt 0 TABLES_LEN (MOST_DISK_BYTES + 1) all held.now.bytes.items held.now.len
        → EndsBy (DiskAnswer (list telling.json) all) result (W.held output.old) (W.held output.new) }
    ensures blames { Blames result false (W.has_failed output.new) }
{
    let tables = held.bytes.as_slice();
    match survey_disk(telling.alloc, tables, blocks_of(held.len)) {
        Ok(disk) => write_list(telling, &disk, output),
        Err(_) => Outcome::NoMemory,
    }
}

/// Lists the partitions of an input.
pub fn list_input<R: Source, W: Sink>(telling: Telling, input: &mut R, output: &mut W) -> Outcome
    requires reads { R.has_failed input.old ≡ false }
    requires writes { W.has_failed output.old ≡ false }
    ensures ends { DoesOn (DiskAnswer (list telling.json)) result (seen R.left R.has_failed input.old input.new)
        (seen W.held W.has_failed output.old output.new) }
    ensures unwritten { is_read_fault result ≡ true → output.new ≡ output.old }
    ensures at_most { TakesAtMost (MOST_DISK_BYTES + 1) (R.left input.old) (R.left input.new) }
{
    match read_excerpt(telling.alloc, input, 0, TABLES_LEN, MOST_DISK_BYTES) {
        Ok(held) => list_part(telling, &held, output),
        Err(fault) => Outcome::after_reading(fault),
    }
}

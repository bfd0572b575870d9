// What data blocks say of themselves.

ghost use Rattle.std.specs.Prelude.{◌≡◌};
ghost use Rattle.adf_keep.specs.File.{says_data};

use adf_base::Block;
use adf_blocks::{DATA_HEAD, DATA_NUMBER, T_DATA, TYPE};

/// Whether a block says of itself that it is OFS data block `number` of the file with its header at block `head`: by its type,
/// words 1 and 2, and its checksum.
pub fn says_data(block: &Block<'_>, head: u32, number: u32) -> bool
    ensures { result ≡ says_data block.now head number }
{
    block.word(TYPE) == T_DATA
        && block.word(DATA_HEAD) == head
        && block.word(DATA_NUMBER) == number
        && block.long_sum() == 0
}

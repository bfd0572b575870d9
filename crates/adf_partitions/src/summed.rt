// Blocks with a sum: the rigid disk block and the partition blocks.

ghost use Rattle.std.specs.Prelude.{◌≡◌, ◌≤◌};
ghost use Rattle.adf_partitions.specs.Summed.{holds, is_summed, sum_of};

use crate::layout::SUMMED_LONGS;
use adf_base::{BLOCK_LEN, BLOCK_WORDS, Block};

// The sum of the first words of a block, modulo 2^32.
#[tactic(auto, using(adf_base::proofs::WordLaws::sum_words_more, adf_base::proofs::WordLaws::no_words))]
fn sum_of(b: &Block<'_>, count: usize) -> u32
    requires { count ≤ 128 }
    ensures { result ≡ sum_of count b.now }
{
    let mut sum = 0u32;
    for i in 0..count {
        sum = sum.wrapping_add(b.word(i));
    }
    sum
}

/// Whether the first words of a block, 3 to 128 as its word 1 says, add up to 0 modulo 2^32.
pub fn is_summed(b: &Block<'_>) -> bool
    ensures { result ≡ is_summed b.now }
{
    let count = b.word(SUMMED_LONGS) as usize;
    3 <= count && count <= BLOCK_WORDS && sum_of(b, count) == 0
}

/// Whether the bytes hold the whole block.
pub fn holds(bytes: &[u8], b: u32) -> bool
    ensures { result ≡ holds bytes.now b }
{
    b as usize * BLOCK_LEN + BLOCK_LEN <= bytes.len()
}

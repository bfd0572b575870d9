// The sizes and types of readings.

ghost use Rattle.std.specs.Prelude.{◌≡◌};
ghost use Rattle.adf_merge_cmd.specs.Sizes.{has_dos, has_reading_size};

use adf_base::BLOCK_LEN;
use adf_blocks::MOST_BLOCKS;

/// The bytes of the largest reading: those of the largest volume.
pub const MOST_BYTES: usize = MOST_BLOCKS as usize * BLOCK_LEN;

/// The bytes of the smallest reading, of four blocks.
pub const LEAST_BYTES: usize = 4 * BLOCK_LEN;

/// Whether a reading is whole blocks, four or more, and no more than the largest volume has.
pub fn has_reading_size(reading: &[u8]) -> bool
    ensures { result ≡ has_reading_size reading.now }
{
    reading.len() % BLOCK_LEN == 0 && LEAST_BYTES <= reading.len() && reading.len() <= MOST_BYTES
}

/// Whether a reading begins with `DOS`.
pub fn has_dos(reading: &[u8]) -> bool
    ensures { result ≡ has_dos reading.now }
{
    matches!(reading, [b'D', b'O', b'S', ..])
}

// Reading files of volumes of type 0 to 5 through the tables.

ghost use Rattle.adf_memory_types.specs.CachedFiles.{ReadsAnyFile};

use adf_memory::{TableEntry, read_bytes};

/// Reads a file through the tables of its image, of type 0 to 5, from `offset` on, as many bytes as there are and as fit into
/// `room`. Returns how many. It neither checks the image nor allocates.
pub fn read_bytes_types(
    image: &[u8],
    entries: &[TableEntry],
    blocks: &[u32],
    node: usize,
    offset: usize,
    room: &mut [u8],
) -> usize
    ensures { ReadsAnyFile image.now entries.now blocks.now node offset room.old room.new result }
{
    read_bytes(image, entries, blocks, node, offset, room)
}

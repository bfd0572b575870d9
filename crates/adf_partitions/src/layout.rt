// The words of a disk's tables, and the constants of the format. Words are numbered from 0.

/// The first word of a rigid disk block, `RDSK`.
pub const RDSK: u32 = 0x5244_534B;

/// The first word of a partition block, `PART`.
pub const PART: u32 = 0x5041_5254;

/// A rigid disk block is one of the blocks before this one.
pub const RDSK_BLOCKS: u32 = 16;

/// Tables lie before this block.
pub const MOST_TABLES: u32 = 65_536;

/// The most partitions that are read.
pub const MOST_PARTITIONS: usize = 1_024;

/// No block: where a list ends.
pub const NO_BLOCK: u32 = 0xFFFF_FFFF;

/// The word with the mark of a rigid disk block or a partition block.
pub const MARK: usize = 0;

/// The word that counts the words of the sum.
pub const SUMMED_LONGS: usize = 1;

/// The word that makes the sum 0.
pub const CHECKSUM: usize = 2;

/// The words of the sum in a block that is written.
pub const WRITTEN_LONGS: u32 = 64;

/// The word with the number of the host on the bus of the drive.
pub const HOST: usize = 3;

/// The word of a rigid disk block that has the bytes of a block.
pub const BLOCK_BYTES: usize = 4;

/// The word of a rigid disk block that names the first block of the list of bad blocks.
pub const BAD_BLOCKS: usize = 6;

/// The word of a rigid disk block that names the first partition block.
pub const FIRST_PART: usize = 7;

/// The first of eight words of a rigid disk block that name the other lists, or are kept for further ones.
pub const OTHER_LISTS: usize = 8;

/// The word of a rigid disk block that counts the cylinders of the drive.
pub const CYLINDERS: usize = 16;

/// The word of a rigid disk block with the sectors of a track.
pub const SECTORS: usize = 17;

/// The word of a rigid disk block that counts the heads of the drive.
pub const HEADS: usize = 18;

/// The word of a rigid disk block with the interleave of the sectors.
pub const INTERLEAVE: usize = 19;

/// The word of a rigid disk block with the cylinder where the heads are parked.
pub const PARKED: usize = 20;

/// The word of a rigid disk block that has the lowest block kept for the tables.
pub const LOWEST_TABLE: usize = 32;

/// The word of a rigid disk block that has the highest block kept for the tables.
pub const HIGHEST_TABLE: usize = 33;

/// The word of a rigid disk block that has the lowest cylinder for volumes.
pub const LOWEST_CYLINDER: usize = 34;

/// The word of a rigid disk block that has the highest cylinder for volumes.
pub const HIGHEST_CYLINDER: usize = 35;

/// The word of a rigid disk block with the blocks of a cylinder.
pub const CYLINDER_BLOCKS: usize = 36;

/// The word of a rigid disk block that has the highest block in use.
pub const HIGHEST_USED: usize = 38;

/// The word of a partition block that names the next one.
pub const NEXT_PART: usize = 4;

/// The word of a partition block with its flags.
pub const FLAGS: usize = 5;

/// The flag of a partition that a computer may start from.
pub const BOOTABLE: u32 = 1;

/// The flag of a partition that is not mounted by itself.
pub const NO_MOUNT: u32 = 2;

/// The byte of a partition block with the length of the drive's name; the name follows.
pub const DRIVE_NAME: usize = 36;

/// The word of a partition block that counts the words of its environment, which follow.
pub const ENV_LENGTH: usize = 32;

/// The word of a partition block with the words of a block.
pub const ENV_BLOCK_WORDS: usize = 33;

/// The word of a partition block with the surfaces, or heads.
pub const SURFACES: usize = 35;

/// The word of a partition block with the sectors of a block.
pub const BLOCK_SECTORS: usize = 36;

/// The word of a partition block with the blocks of a track.
pub const TRACK_BLOCKS: usize = 37;

/// The word of a partition block with the blocks before the first that its file system uses.
pub const RESERVED: usize = 38;

/// The word of a partition block with the blocks at the end that its file system does not use.
pub const PREALLOCATED: usize = 39;

/// The word of a partition block with its lowest cylinder.
pub const LOW_CYLINDER: usize = 41;

/// The word of a partition block with its highest cylinder.
pub const HIGH_CYLINDER: usize = 42;

/// The word of a partition block that counts the buffers of its file system.
pub const BUFFERS: usize = 43;

/// The word of a partition block with the most bytes of one transfer.
pub const MOST_TRANSFER: usize = 45;

/// The word of a partition block with the mask of the addresses that a transfer may have.
pub const ADDRESS_MASK: usize = 46;

/// The word of a partition block with its boot priority, which is signed.
pub const BOOT_PRIORITY: usize = 47;

/// The word of a partition block with the type of its file system.
pub const DOS_TYPE: usize = 48;

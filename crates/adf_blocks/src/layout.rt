// The offsets of fields in blocks, and the constants of the format. Words are numbered from 0.

/// The most blocks of a volume: 4 GiB, with 2,065 bitmap pages. The root points to 25, 17 bitmap extension blocks to the rest.
pub const MOST_BLOCKS: u32 = 8_388_608;

/// The most blocks of a volume of plain types, as a check, a build and a manifest take it: 512 MiB, with 259 bitmap pages.
pub const MOST_PLAIN_BLOCKS: u32 = 1_048_576;

/// The bitmap pages that the root points to.
pub const ROOT_PAGES: usize = 25;

/// The bitmap pages that a bitmap extension block points to.
pub const MAP_EXT_PAGES: usize = 127;

/// The blocks that a bitmap page has bits for.
pub const PAGE_BITS: u32 = 4064;

/// The word of the primary type.
pub const TYPE: usize = 0;

/// The primary type of a root and a header.
pub const T_SHORT: u32 = 2;

/// The primary type of an OFS data block.
pub const T_DATA: u32 = 8;

/// The primary type of an extension block.
pub const T_LIST: u32 = 16;

/// The primary type of a directory cache.
pub const T_DIR_CACHE: u32 = 33;

/// The word of a header or an extension block that holds the block's own number.
pub const OWN_KEY: usize = 1;

/// The word of a file header or an extension block that counts its pointers to data blocks.
pub const POINTER_COUNT: usize = 2;

/// The word of a file header that repeats the pointer to its first data block.
pub const FIRST_DATA: usize = 4;

/// The word of an OFS data block that points to the file's header.
pub const DATA_HEAD: usize = 1;

/// The word of an OFS data block that holds its number in the file, from 1 on.
pub const DATA_NUMBER: usize = 2;

/// The word of an OFS data block that counts the bytes it holds.
pub const DATA_HELD: usize = 3;

/// The word of an OFS data block that points to the next one, or is 0.
pub const DATA_NEXT: usize = 4;

/// The byte of an OFS data block where the file's bytes begin.
pub const DATA_BYTES: usize = 24;

/// The most bytes of a file in an OFS data block.
pub const DATA_ROOM: usize = 488;

/// The word of the checksum, except in a bitmap page.
pub const CHECKSUM: usize = 5;

/// The word of the checksum of a bitmap page.
pub const PAGE_CHECKSUM: usize = 0;

/// The first word of the bits of a bitmap page.
pub const PAGE_FIRST: usize = 1;

/// The number of words of bits in a bitmap page.
pub const PAGE_WORDS: usize = 127;

/// The word of the root that holds the size of its hash table.
pub const HASH_SIZE: usize = 3;

/// The number of slots of a directory.
pub const SLOTS: u32 = 72;

/// The word of slot 0 of the root or a directory.
pub const FIRST_SLOT: usize = 6;

/// The most pointers to data blocks in a header or an extension block.
pub const POINTERS: usize = 72;

/// The word of the first pointer to a data block in a header or an extension block; the others follow downwards.
pub const FIRST_POINTER: usize = 77;

/// The word of an entry's protection bits.
pub const PROTECTION: usize = 80;

/// The word of a file's size in bytes.
pub const SIZE: usize = 81;

/// The byte of a comment's length; its text follows.
pub const COMMENT: usize = 328;

/// The word of the root that holds the bitmap flag.
pub const BITMAP_FLAG: usize = 78;

/// The bitmap flag of a valid bitmap.
pub const VALID: u32 = 0xFFFF_FFFF;

/// The word of the root that points to bitmap page 0.
pub const FIRST_PAGE: usize = 79;

/// The word of the root that points to the first bitmap extension block.
pub const FIRST_MAP_EXT: usize = 104;

/// The word of a bitmap extension block that points to its first page.
pub const MAP_EXT_FIRST: usize = 0;

/// The word of a bitmap extension block that points to the next one.
pub const MAP_EXT_NEXT: usize = 127;

/// The first word of the date of the root or an entry.
pub const DATE: usize = 105;

/// The byte of the length of a label or name; its text follows.
pub const NAME: usize = 432;

/// The first word of the date of the last change of the volume.
pub const ALTERED: usize = 118;

/// The first word of the date of creation of the volume.
pub const CREATED: usize = 121;

/// The word of a header that points to the next one in its chain, or is 0.
pub const NEXT_IN_CHAIN: usize = 124;

/// The word of a header that points to its directory, and of an extension block that points to its file's header.
pub const PARENT: usize = 125;

/// The word of a file header or an extension block that points to the next extension block, or is 0.
pub const EXTENSION: usize = 126;

/// The word of the secondary type.
pub const SECONDARY_TYPE: usize = 127;

/// The secondary type of a root.
pub const ST_ROOT: u32 = 1;

/// The secondary type of a directory.
pub const ST_DIR: u32 = 2;

/// The secondary type of a soft link.
pub const ST_SOFT_LINK: u32 = 3;

/// The secondary type of a hard link to a directory.
pub const ST_LINK_DIR: u32 = 4;

/// The secondary type of a file, -3.
pub const ST_FILE: u32 = 0xFFFF_FFFD;

/// The secondary type of a hard link to a file, -4.
pub const ST_LINK_FILE: u32 = 0xFFFF_FFFC;

// The tables of a volume, and how they are filled.

ghost use Rattle.std.specs.Prelude.{◌≡◌, ◌<◌, ◌≤◌, ◌+◌, ◌++◌, ◌∷◌, [], ◌^◌, ℕ, List, length};
ghost use Rattle.adf_tree.specs.{declared.entry.Body.Body, declared.entry.Entry.Entry, Tree.Tree, Tree.entry};
ghost use Rattle.adf_volume.specs.{Image.letters_of, Rows.row_of_body, Rows.row_of_entry, Fits.FitsBy, Counts.counts_of};
ghost use Rattle.adf_volume.specs.Layout.{Layout, at_node, owned};
ghost use Rattle.adf_check.specs.Volumes.{OnVolume};
ghost use Rattle.adf_memory.specs.{Rooms.filled, Tables.refused_at, Tables.table_entry};
ghost use Rattle.adf_memory.specs.Tables.{block_table, bytes_of_body, contents_of, date_of, entry_table, field, file_number};

use adf_base::Stamp;
use adf_check::{Checked, Counts, Row, RowBody};
use adf_names::type_number;
use adf_tree::Node;

/// A date of the file system.
#[repr(C)]
#[derive(Clone, Copy)]
pub struct Date {
    /// Days since 1978-01-01.
    pub days: u32,
    /// Minutes of the day.
    pub mins: u32,
    /// Fiftieths of a second in the minute.
    pub ticks: u32,
}

/// A directory or file of a volume. Entry n is at index n - 1 of the table.
#[repr(C)]
#[derive(Clone, Copy)]
pub struct TableEntry {
    /// The number of its directory, or 0 for the root.
    pub parent: u32,
    /// The block of its header.
    pub header: u32,
    /// The size of a file in bytes, or 0 for a directory.
    pub size: u32,
    /// The index of its first data block in the table of blocks: the number of data blocks of the files before it.
    pub first: u32,
    /// The protection word.
    pub protection: u32,
    pub date: Date,
    /// 1 for a file, 0 for a directory.
    pub is_file: u8,
    pub name_length: u8,
    /// The name, padded with zeros.
    pub name: [u8; 30],
    pub comment_length: u8,
    /// The comment, padded with zeros.
    pub comment: [u8; 79],
}

/// What an accepted image has besides its tables, or the block of the first fault. Fields that do not apply are 0.
#[repr(C)]
#[derive(Clone, Copy)]
pub struct Contents {
    /// The number of the type: 0 or 2 for OFS, 1 or 3 for FFS.
    pub kind: u32,
    /// All blocks, including the two boot blocks.
    pub blocks: u32,
    /// Blocks that the volume owns, excluding the two boot blocks.
    pub used: u32,
    /// Blocks from 2 on that nothing owns.
    pub free: u32,
    /// Directories and files, excluding the root.
    pub entries: usize,
    /// The data blocks of all files.
    pub data_blocks: usize,
    /// The block that has the fault.
    pub block: u32,
    /// The root's own date in the root block.
    pub root: Date,
    /// The date of the last change of the volume.
    pub altered: Date,
    /// The date on which the volume was created.
    pub created: Date,
    pub label_length: u8,
    /// The label, padded with zeros.
    pub label: [u8; 30],
}

/// A date of the table.
pub fn date_of(stamp: Stamp) -> Date
    ensures { result ≡ date_of stamp }
{
    Date {
        days: stamp.days,
        mins: stamp.mins,
        ticks: stamp.ticks,
    }
}

/// A text in a field, padded with zeros.
pub fn field<const N: usize>(text: &[u8]) -> [u8; N]
    requires { length text.now ≤ N }
    ensures { result ≡ field N text.now }
{
    let mut bytes = [0; N];
    bytes[..text.len()].copy_from_slice(text);
    bytes
}

// 1 for a file, 0 for a directory; and the bytes of a file, 0 of a directory.
fn numbers_of(body: RowBody) -> (u8, u32)
    ensures { (b : Body) → body ≡ row_of_body b
        → (result.0 ≡ file_number b) × (result.1 ≡ length (bytes_of_body b)) }
{
    match body {
        RowBody::Dir => (0, 0),
        RowBody::File { size } => (1, size),
    }
}

// The entry of a row, whose header is at a block, and before whose data blocks there are so many others.
fn entry_of(row: &Row, header: u32, first: u32) -> TableEntry
    requires { row.now.parent < 2 ^ 32 }
    ensures { (e : Entry) → row.now ≡ row_of_entry e → result ≡ table_entry header first e }
{
    let name = row.name.bytes();
    let comment = row.meta.comment.bytes();
    let (is_file, size) = numbers_of(row.body);
    TableEntry {
        parent: row.parent.0 as u32,
        header,
        size,
        first,
        protection: row.meta.protect,
        date: date_of(row.meta.stamp),
        is_file,
        name_length: name.len() as u8,
        name: field(name),
        comment_length: comment.len() as u8,
        comment: field(comment),
    }
}

// The entry with a number, before whose data blocks there are so many others.
fn table_entry(volume: &Checked<'_>, node: Node, first: u32) -> TableEntry
    requires few { OnVolume volume.now (λ _ l. length (owned volume.now l) < 2 ^ 32) }
    requires fits { (t : Tree) × (l : Layout) × FitsBy (letters_of volume.now) volume.now t l }
    requires some { OnVolume volume.now (λ t _. (0 < node) × (node ≤ length t.entries)) }
    ensures { OnVolume volume.now (λ t l. (e : Entry) → entry t.entries node ≡ Some e
        → result ≡ table_entry (at_node volume.now l node) first e) }
{
    let row = volume.row(node).unwrap();
    let header = volume.block_of(node).unwrap();
    entry_of(&row, header, first)
}

/// Appends a row to those in a table, if there is room.
pub fn put<T: Copy>(table: &mut [T], at: usize, row: T)
    ensures { (xs room : List T) → at ≡ length xs → table.old ≡ filled xs room
        → table.new ≡ filled (xs ++ row ∷ []) room }
{
    if at < table.len() {
        table[at] = row;
    }
}

/// Fills a room, as far as there is room.
pub fn put_all<T: Copy>(room: &mut [T], all: &[T])
    ensures { room.new ≡ filled all.now room.old }
{
    let count = all.len().min(room.len());
    room[..count].copy_from_slice(&all[..count]);
}

// Puts data blocks behind those that stand in the table of blocks, as far as there is room.
fn put_blocks(table: &mut [u32], first: usize, datas: &[u32])
    requires { first + length datas.now < 2 ^ 64 }
    ensures { (xs room : List ℕ) → first ≡ length xs → table.old ≡ filled xs room
        → table.new ≡ filled (xs ++ datas.now) room }
{
    for i in 0..datas.len() {
        put(table, first + i, datas[i]);
    }
}

/// Fills the tables as far as there is room. Returns the number of data blocks.
pub fn put_tables(volume: &Checked<'_>, entries: &mut [TableEntry], blocks: &mut [u32]) -> usize
    requires few { OnVolume volume.now (λ _ l. length (owned volume.now l) < 2 ^ 32) }
    ensures count { OnVolume volume.now (λ _ l. result ≡ length (block_table l)) }
    ensures entries { OnVolume volume.now (λ t l. entries.new ≡ filled (entry_table t l) entries.old) }
    ensures blocks { OnVolume volume.now (λ _ l. blocks.new ≡ filled (block_table l) blocks.old) }
{
    let mut first = 0;
    for i in 0..volume.len() {
        let node = Node(i + 1);
        put(entries, i, table_entry(volume, node, first as u32));
        let datas = volume.blocks_of(node);
        put_blocks(blocks, first, datas);
        first += datas.len();
    }
    first
}

/// What an accepted image has besides its tables.
pub fn contents_of(volume: &Checked<'_>, counts: &Counts, data_blocks: usize) -> Contents
    ensures { OnVolume volume.now (λ t l. counts.now ≡ counts_of volume.now t l
        → data_blocks ≡ length (block_table l) → result ≡ contents_of volume.now t l) }
{
    let label = volume.label().bytes();
    let stamps = volume.stamps();
    Contents {
        kind: u32::from(type_number(volume.letters(), counts.kind)),
        blocks: counts.blocks,
        used: counts.used,
        free: counts.free,
        entries: volume.len(),
        data_blocks,
        block: 0,
        root: date_of(stamps.root),
        altered: date_of(stamps.altered),
        created: date_of(stamps.created),
        label_length: label.len() as u8,
        label: field(label),
    }
}

/// What a refused image has: the block of its fault.
pub fn refused_at(block: u32) -> Contents
    ensures { result ≡ refused_at block }
{
    let date = Date {
        days: 0,
        mins: 0,
        ticks: 0,
    };
    Contents {
        kind: 0,
        blocks: 0,
        used: 0,
        free: 0,
        entries: 0,
        data_blocks: 0,
        block,
        root: date,
        altered: date,
        created: date,
        label_length: 0,
        label: [0; 30],
    }
}

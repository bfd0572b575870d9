// Library calls on entries and trees by the letters whose case is ignored.

use crate::outcome::CallOutcome;
use crate::tree_calls::meta;
use adf_blocks::Cause;
use adf_build::{BuildFault, build};
use adf_check::check_types;
use adf_tree::{AddFault, Body, Kind, Label, Letters, NO_STAMPS, Name, Node, Tree, TreeEntries};
use adf_volume::Types;
use std::alloc::Global;

/// Names of one byte that are added, in this order: 0xC9 is 0xE9 in upper case by international letters alone, and 0xF7 and
/// 0xFF have no upper case by any.
const ADDED: [u8; 6] = [0xE9, 0xC9, 0xF7, 0xD7, 0xFF, 0xDF];

/// The names that stand there afterwards, in walk order.
const BY_INTERNATIONAL: [u8; 5] = [0xD7, 0xDF, 0xF7, 0xFF, 0xE9];

const BY_ASCII: [u8; 6] = [0xD7, 0xDF, 0xE9, 0xF7, 0xFF, 0xC9];

// Adds a directory of each name, unless one stands there.
fn add_all(entries: &mut TreeEntries) -> Option<Result<(), AddFault>> {
    for byte in ADDED {
        let path = [Name::new(&[byte])?];
        match entries.add(&path, meta()?, Body::Dir) {
            Ok(()) | Err(AddFault::Exists) => {}
            Err(fault) => return Some(Err(fault)),
        }
    }
    Some(Ok(()))
}

// Whether entries have these names, in this order, and no others.
fn are_named(entries: &TreeEntries, names: &[u8]) -> bool {
    let mut count = 0usize;
    for byte in names {
        count = count.saturating_add(1);
        match entries.entry(Node(count)) {
            Some(entry) if entry.name.bytes() == [*byte].as_slice() => {}
            _ => return false,
        }
    }
    entries.len() == count
}

// Adds all names by these letters; these are to stand there, and 0xC9 is to lead to the last of them.
fn lettered_outcome(alloc: Global, letters: Letters, names: &[u8]) -> Option<CallOutcome> {
    let mut entries = TreeEntries::new(alloc, letters);
    let path = [Name::new(b"\xC9")?];
    Some(match add_all(&mut entries)? {
        Ok(()) => CallOutcome::Done.only_if(
            are_named(&entries, names) && entries.find(&path) == Some(Node(names.len())),
        ),
        Err(fault) => CallOutcome::NoMemory.only_if(fault == AddFault::NoMemory),
    })
}

/// Names that are equal by international letters and differ by ASCII letters, and names that differ by both.
pub fn entries_add_outcome(alloc: Global) -> Option<CallOutcome> {
    match lettered_outcome(alloc, Letters::International, &BY_INTERNATIONAL)? {
        CallOutcome::Done => lettered_outcome(alloc, Letters::Ascii, &BY_ASCII),
        outcome => Some(outcome),
    }
}

// Adds a directory with a name of one byte.
fn add_byte(tree: &mut Tree, byte: u8) -> Option<Result<(), AddFault>> {
    let path = [Name::new(&[byte])?];
    Some(tree.add(&path, meta()?, Body::Dir))
}

// The words of a volume of 16 blocks with a name 0xE9, behind its type: its header, block 2, is in slot (13 + 0xC9) % 72 = 70
// of the root, and slot (13 + 0xE9) % 72 = 30 is empty. Each has its block, its number in the block, and its value.
const LAID: [(usize, usize, u32); 3] = [(8, 6 + 70, 2), (8, 6 + 30, 0), (2, 108, 0x01E9_0000)];

/// Kinds, and the first words of their volumes of international letters: `DOS` and 2 or 3.
const TYPES: [(Kind, u32); 2] = [(Kind::Ofs, 0x444F_5302), (Kind::Ffs, 0x444F_5303)];

// Whether an image has this word in a block.
fn has_word(image: &[u8], block: usize, number: usize, word: u32) -> bool {
    let at = block
        .saturating_mul(512)
        .saturating_add(number.saturating_mul(4));
    image.get(at..at.saturating_add(4)) == Some(word.to_be_bytes().as_slice())
}

// Whether the volume of such a tree has this first word and those behind it.
fn are_laid(image: &[u8], first: u32) -> bool {
    for (block, number, word) in LAID {
        if !has_word(image, block, number, word) {
            return false;
        }
    }
    has_word(image, 0, 0, first)
}

// Builds such a tree, and checks its volume, which has this first word; 0xC9 leads to its directory too.
fn laid_outcome(alloc: Global, tree: &Tree, first: u32) -> CallOutcome {
    let image = match build(alloc, tree, 16) {
        Ok(image) => image,
        Err(fault) => return CallOutcome::NoMemory.only_if(fault == BuildFault::NoMemory),
    };
    let Some(other) = Name::new(&[0xC9]) else {
        return CallOutcome::Failed;
    };
    match check_types(alloc, Types::WithInternational, &image) {
        Ok(volume) => CallOutcome::Done.only_if(
            volume.find(&[other]) == Some(Node(1)) && are_laid(&image, first),
        ),
        Err(fault) => CallOutcome::NoMemory.only_if(fault.cause == Cause::NoMemory),
    }
}

/// 0xC9 beside 0xE9 in a tree of international letters, by which they are one name; the tree is laid as types 2 and 3.
pub fn tree_letters_outcome(alloc: Global) -> Option<CallOutcome> {
    let label = Label::new(b"Work")?;
    let mut tree = Tree::with_letters(alloc, Kind::Ffs, Letters::International, label, NO_STAMPS);
    if let Err(fault) = add_byte(&mut tree, 0xE9)? {
        return Some(CallOutcome::NoMemory.only_if(fault == AddFault::NoMemory));
    }
    let refuses = add_byte(&mut tree, 0xC9)? == Err(AddFault::Exists) && tree.len() == 1;
    for (kind, first) in TYPES {
        tree.set_kind(kind);
        match laid_outcome(alloc, &tree, first) {
            CallOutcome::Done => {}
            outcome => return Some(outcome),
        }
    }
    Some(CallOutcome::Done.only_if(refuses))
}

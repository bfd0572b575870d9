// The additions to a new volume, from a table.

ghost use Rattle.std.specs.Prelude.{◌≡◌, ◌≤◌, ◌<◌, ◌+◌, ◌↔◌, ◌⊎◌, ◌++◌, ◌∷◌, [], List, None, true, false, take, drop, length};
ghost use Rattle.std.specs.Prelude.{slice_index_or, IsSome, IfSome, IfNone, IfOk, IfErr, OnOk};
ghost use Rattle.adf_tree.specs.Tree.{Tree};
ghost use Rattle.adf_memory.specs.TableAdditions.{IsDraftOf, IsNextAddition, IsNotAdded, addition_body, addition_fault_number};
ghost use Rattle.adf_memory.specs.TableAdditions.{addition_name, directory_in, fault_of, has_bytes, has_entry_name, meta_in};
ghost use Rattle.adf_memory.specs.TableAdditions.{stamp_of};

use crate::tables::Date;
use adf_base::Stamp;
use adf_drafts::Draft;
use adf_tree::{Body, Bytes, Comment, Meta, Name, Node};
use std::alloc::Global;

/// A directory or file that is to be built. Addition n is at index n - 1 of the table.
#[repr(C)]
#[derive(Clone, Copy)]
pub struct TableAddition {
    /// The number of its directory, which stands before it in the table, or 0 for the root.
    pub parent: usize,
    /// The offset of a file's first byte in the contents.
    pub begin: usize,
    /// The bytes of a file.
    pub size: usize,
    /// The protection word.
    pub protection: u32,
    pub date: Date,
    /// 0 for a directory, any other number for a file.
    pub is_file: u8,
    pub name_length: u8,
    pub name: [u8; 30],
    pub comment_length: u8,
    pub comment: [u8; 79],
}

/// Why an addition cannot be built.
#[derive(Clone, Copy, Debug, PartialEq, Eq)]
pub enum AdditionFault {
    /// Its directory does not stand before it in the table.
    NoParent = 5,
    /// Its directory is a file.
    ParentIsFile = 6,
    /// Its name is empty or too long, or has a `/` or `:`.
    BadName = 7,
    /// An addition before it has its directory and its name, ignoring the case of the volume's letters.
    Exists = 8,
    /// Its comment is longer than 79 bytes.
    BadComment = 9,
    /// Its bytes end past the contents.
    PastContents = 10,
}

impl AdditionFault {
    /// The number of the fault, 5 to 10.
    pub fn number(self) -> u8
        ensures { result ≡ addition_fault_number self }
    {
        self as u8
    }
}

/// Why an addition is not added.
#[derive(Clone, Copy, Debug, PartialEq, Eq)]
pub enum NotAdded {
    Fault(AdditionFault),
    NoMemory,
}

/// The date of a table.
pub fn stamp_of(date: Date) -> Stamp
    ensures { result ≡ stamp_of date }
{
    Stamp {
        days: date.days,
        mins: date.mins,
        ticks: date.ticks,
    }
}

/// The text of this length at the front of a field; `None` if the field is shorter.
pub fn text_in(field: &[u8], count: u8) -> Option<&[u8]>
    ensures short { IsSome result ↔ (count ≤ length field.now) }
    ensures text { IfSome result (λ text. text.now ≡ take count field.now) }
{
    if count as usize <= field.len() {
        Some(&field[..count as usize])
    } else {
        None
    }
}

// The directory of the addition at index `i`, by its number.
fn directory_of(additions: &[TableAddition], i: usize) -> Result<Node, AdditionFault>
    requires { i < length additions.now }
    ensures { (d : TableAddition) → result ≡ directory_in (take i additions.now) (slice_index_or additions.now i d) }
{
    let parent = additions[i].parent;
    if parent > i {
        return Err(AdditionFault::NoParent);
    }
    if parent > 0 && additions[parent - 1].is_file > 0 {
        return Err(AdditionFault::ParentIsFile);
    }
    Ok(Node(parent))
}

// The name of an addition; `None` if it is none that a volume can have.
fn name_of(addition: &TableAddition) -> Option<Name>
    ensures some { IfSome result (λ n. (has_entry_name addition.now ≡ true) × (n ≡ addition_name addition.now)) }
    ensures none { IfNone result (has_entry_name addition.now ≡ false) }
{
    Name::new(text_in(&addition.name, addition.name_length)?)
}

// The comment, the protection and the date of an addition; `None` if the comment is too long.
fn meta_of(addition: &TableAddition) -> Option<Meta>
    ensures some { IfSome result (λ m. (addition.now.comment_length ≤ 79) × (m ≡ meta_in addition.now)) }
    ensures none { IfNone result (79 < addition.now.comment_length) }
{
    let comment = Comment::new(text_in(&addition.comment, addition.comment_length)?)?;
    let date = stamp_of(addition.date);
    Some(Meta::new(comment, addition.protection, date))
}

// The part of the contents from this byte on; `None` if it ends past them.
fn part_of(contents: &[u8], begin: usize, size: usize) -> Option<&[u8]>
    ensures within { IsSome result ↔ (begin + size ≤ length contents.now) }
    ensures part { IfSome result (λ part. part.now ≡ take size (drop begin contents.now)) }
{
    if begin > contents.len() || size > contents.len() - begin {
        return None;
    }
    Some(&contents[begin..begin + size])
}

// What an addition is, with a copy of its bytes.
fn body_of(alloc: Global, addition: &TableAddition, contents: &[u8]) -> Result<Body, NotAdded>
    ensures body { IfOk result (λ b. (has_bytes contents.now addition.now ≡ true)
        × (b ≡ addition_body contents.now addition.now)) }
    ensures fault { IfErr result (λ e. (e ≡ NotAdded.NoMemory) ⊎ ((e ≡ NotAdded.Fault AdditionFault.PastContents)
        × (has_bytes contents.now addition.now ≡ false))) }
{
    if addition.is_file == 0 {
        return Ok(Body::Dir);
    }
    let Some(part) = part_of(contents, addition.begin, addition.size) else {
        return Err(NotAdded::Fault(AdditionFault::PastContents));
    };
    match Vec::from_slice(alloc, part) {
        Ok(bytes) => Ok(Body::File(Bytes::new(bytes))),
        Err(_) => Err(NotAdded::NoMemory),
    }
}

// Adds an addition whose directory stands before it, to a draft of those before it.
fn add_in(
    alloc: Global,
    draft: &mut Draft,
    directory: Node,
    addition: &TableAddition,
    contents: &[u8],
) -> Result<(), NotAdded>
    requires { (t : Tree) × (before : List TableAddition)
        × IsNextAddition t contents.now before addition.now directory draft.old }
    ensures added { OnOk result ((t : Tree) (before : List TableAddition)
        → IsNextAddition t contents.now before addition.now directory draft.old
        → IsDraftOf t contents.now (before ++ addition.now ∷ []) draft.new) }
    ensures sound { OnOk result ((t : Tree) (before : List TableAddition)
        → IsNextAddition t contents.now before addition.now directory draft.old
        → fault_of draft.old.tree.letters contents.now before addition.now ≡ None) }
    ensures fault { IfErr result (λ e. (t : Tree) (before : List TableAddition)
        → IsNextAddition t contents.now before addition.now directory draft.old
        → IsNotAdded draft.old.tree.letters contents.now before addition.now e) }
{
    let Some(name) = name_of(addition) else {
        return Err(NotAdded::Fault(AdditionFault::BadName));
    };
    let Some(room) = draft.room_in(directory, &name) else {
        return Err(NotAdded::Fault(AdditionFault::Exists));
    };
    let Some(meta) = meta_of(addition) else {
        return Err(NotAdded::Fault(AdditionFault::BadComment));
    };
    let body = match body_of(alloc, addition, contents) {
        Ok(body) => body,
        Err(fault) => return Err(fault),
    };
    match draft.put(&room, meta, body) {
        Ok(()) => Ok(()),
        Err(_) => Err(NotAdded::NoMemory),
    }
}

// The addition at index `i`.
fn addition_at(additions: &[TableAddition], i: usize) -> &TableAddition
    requires { i < length additions.now }
    ensures { (d : TableAddition) → result.now ≡ slice_index_or additions.now i d }
{
    &additions[i]
}

/// Adds the addition at index `i` to a draft of those before it.
pub fn add_next(
    alloc: Global,
    draft: &mut Draft,
    additions: &[TableAddition],
    i: usize,
    contents: &[u8],
) -> Result<(), NotAdded>
    requires next { i < length additions.now }
    requires state { (t : Tree) × IsDraftOf t contents.now (take i additions.now) draft.old }
    ensures added { OnOk result ((t : Tree) → IsDraftOf t contents.now (take i additions.now) draft.old
        → IsDraftOf t contents.now (take (i + 1) additions.now) draft.new) }
    ensures sound { OnOk result ((d : TableAddition)
        → fault_of draft.old.tree.letters contents.now (take i additions.now) (slice_index_or additions.now i d) ≡ None) }
    ensures fault { IfErr result (λ e. (d : TableAddition)
        → IsNotAdded draft.old.tree.letters contents.now (take i additions.now) (slice_index_or additions.now i d) e) }
{
    let addition = addition_at(additions, i);
    match directory_of(additions, i) {
        Ok(directory) => add_in(alloc, draft, directory, addition, contents),
        Err(fault) => Err(NotAdded::Fault(fault)),
    }
}

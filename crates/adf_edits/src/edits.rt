// What an edit makes of a tree.

ghost use Rattle.std.specs.Prelude.{◌≡◌, ◌≤◌, ◌++◌, ◌∷◌, [], None, Some, IfOk, OnOk, All, length, map, take, true};
ghost use Rattle.std.specs.List.{filter};
ghost use Rattle.adf_tree.specs.{Tree.is_dir_body, declared.entry.Body.Body};
ghost use Rattle.adf_edits.specs.Edits.{can_add, can_move, can_remove, can_replace, changed_at, changed_if, changed_meta, edit_value, edited};
ghost use Rattle.adf_edits.specs.Edits.{edited_additions, edited_label, has_directory, has_path, has_under, is_at, is_directory_at};
ghost use Rattle.adf_edits.specs.Edits.{is_file_named, is_within, leads_to_directory, moved_additions, new_addition, rebased};
ghost use Rattle.adf_edits.specs.Edits.{refilled_at, refilled_if, removed, without};

use crate::outline::{Item, Outline};
use crate::path_text::PathText;
use crate::paths::{MOST_DEPTH, is_at_or_under, is_deep, is_under, push_names, same_path};
use adf_base::{NO_STAMP, NoMemory, Stamp};
use adf_names::{Comment, Label, Meta, Name};
use adf_tree::{Body, Bytes};
use std::alloc::Global;
use std::fmt;

/// A change of what an entry has besides its path and its body.
#[derive(Drop)]
pub enum Change {
    Note(Comment),
    Protect(u32),
    Date(Stamp),
}

/// One edit of a tree.
#[derive(Drop)]
pub enum Edit {
    /// Removes a file, or a directory with nothing in it.
    Remove(Vec<Name>),
    /// Gives a file, or a directory with all that is in it, another path.
    Move(Vec<Name>, Vec<Name>),
    /// Adds a directory.
    Dir(Vec<Name>),
    /// Adds a file of so many bytes, which are given.
    File(Vec<Name>, u32),
    /// Gives a file other bytes, so many of the given ones.
    Replace(Vec<Name>, u32),
    /// Changes the comment, the protection or the date of an entry.
    Change(Vec<Name>, Change),
    /// Changes the label.
    Label(Label),
}

/// Why an edit cannot be applied.
#[derive(Debug, Drop)]
pub enum EditFault {
    /// Nothing is there under the path.
    NoSuchPath,
    /// The path is that of a directory.
    NotAFile,
    /// Something is in the directory.
    NotEmpty,
    /// A directory would come into itself.
    WithinItself,
    /// The new path has no name.
    EmptyPath,
    /// The directory of the new path does not exist.
    NoParent,
    /// A name before the last of the new path is that of a file.
    ParentIsFile,
    /// An entry has the new path, perhaps in other letters: the text of its own.
    Exists(PathText),
    /// A new path would have more than `MOST_DEPTH` names.
    TooDeep,
    /// An allocation failed.
    NoMemory,
}

impl fmt::Display for EditFault {
    fn fmt<W: fmt::Write>(&self, f: &mut fmt::Formatter<W>) -> fmt::Result {
        match self {
            EditFault::NoSuchPath => f.write_str("no such path"),
            EditFault::NotAFile => f.write_str("not a file"),
            EditFault::NotEmpty => f.write_str("not empty: remove what is in it first"),
            EditFault::WithinItself => f.write_str("within itself"),
            EditFault::EmptyPath => f.write_str("no name"),
            EditFault::NoParent => f.write_str("no parent: add the directory first"),
            EditFault::ParentIsFile => f.write_str("parent is file"),
            EditFault::Exists(path) => {
                let path = path.as_str();
                write!(f, "exists: remove it first, or take another name: {path}")
            }
            EditFault::TooDeep => f.write_str("too deep: 255 names at most"),
            EditFault::NoMemory => f.write_str("no memory"),
        }
    }
}

impl From<NoMemory> for EditFault {
    fn from(_fault: NoMemory) -> EditFault {
        EditFault::NoMemory
    }
}

// Whether the body is that of a directory.
pub fn is_dir(body: &Body) -> bool
    ensures { result ≡ is_dir_body body.now }
{
    match body {
        Body::Dir => true,
        Body::File(_) => false,
    }
}

// Whether an entry has this path.
pub fn is_at(path: &[Name], item: &Item) -> bool
    ensures { result ≡ is_at path.now item.now }
{
    same_path(&item.path, path)
}

// Whether an entry has this path, or is in the directory that has it.
pub fn is_within(path: &[Name], item: &Item) -> bool
    ensures { result ≡ is_within path.now item.now }
{
    is_at_or_under(path, &item.path)
}

// Whether an entry is a directory with this path.
fn is_directory_at(path: &[Name], item: &Item) -> bool
    ensures { result ≡ is_directory_at path.now item.now }
{
    is_dir(&item.body) && same_path(&item.path, path)
}

// Whether an entry is a file with this path.
pub fn is_file_named(path: &[Name], item: &Item) -> bool
    ensures { result ≡ is_file_named path.now item.now }
{
    !is_dir(&item.body) && same_path(&item.path, path)
}

// Whether an entry is a file that the path leads through.
fn is_file_above(path: &[Name], item: &Item) -> bool {
    !is_dir(&item.body) && is_under(&item.path, path)
}

// Whether an entry has this path.
fn has_path(items: &[Item], path: &[Name]) -> bool
    ensures { result ≡ has_path items.now path.now }
{
    items.iter().any(|item| is_at(path, item))
}

// Whether an entry is in the directory with this path.
fn has_under(items: &[Item], path: &[Name]) -> bool
    ensures { result ≡ has_under items.now path.now }
{
    items.iter().any(|item| is_under(path, &item.path))
}

// Whether a path leads through a file.
fn leads_through_file(items: &[Item], path: &[Name]) -> bool {
    items.iter().any(|item| is_file_above(path, item))
}

// Whether a directory has this path.
fn has_directory(items: &[Item], path: &[Name]) -> bool
    ensures { result ≡ has_directory items.now path.now }
{
    items.iter().any(|item| is_directory_at(path, item))
}

// Whether a path is that of the root or of a directory.
fn leads_to_directory(items: &[Item], path: &[Name]) -> bool
    ensures { result ≡ leads_to_directory items.now path.now }
{
    path.is_empty() || has_directory(items, path)
}

// The first entry that has this path.
fn first_at<'a>(items: &'a [Item], path: &[Name]) -> Option<&'a Item> {
    for item in items {
        if is_at(path, item) {
            return Some(item);
        }
    }
    None
}

// The text of its path.
fn standing_text(alloc: Global, items: &[Item], path: &[Name]) -> Result<PathText, NoMemory> {
    match first_at(items, path) {
        Some(item) => PathText::of(alloc, &item.path),
        None => PathText::of(alloc, &[]),
    }
}

// Why no entry can be added under a path.
fn room_fault(alloc: Global, items: &[Item], path: &[Name]) -> Result<Option<EditFault>, NoMemory>
    ensures { IfOk result (λ fault. fault ≡ None → can_add items.now path.now ≡ true) }
{
    if path.is_empty() {
        return Ok(Some(EditFault::EmptyPath));
    }
    if leads_through_file(items, path) {
        return Ok(Some(EditFault::ParentIsFile));
    }
    if !leads_to_directory(items, &path[..path.len() - 1]) {
        return Ok(Some(EditFault::NoParent));
    }
    if has_path(items, path) {
        let text = standing_text(alloc, items, path)?;
        return Ok(Some(EditFault::Exists(text)));
    }
    if is_deep(path) {
        return Ok(Some(EditFault::TooDeep));
    }
    Ok(None)
}

// The same entry with the path `to` in the place of its first names, as many as `from` has.
pub fn rebased(alloc: Global, item: Item, from: &[Name], to: &[Name]) -> Result<Item, NoMemory>
    requires { length from.now ≤ length item.path }
    ensures { IfOk result (λ x. x ≡ rebased from.now to.now item) }
{
    let mut path = Vec::new(alloc);
    push_names(&mut path, to)?;
    push_names(&mut path, &item.path[from.len()..])?;
    Ok(Item {
        path,
        meta: item.meta,
        body: item.body,
    })
}

// Whether an entry's path gets too deep where `to` stands for its first names, as many as `from` has.
pub fn gets_deep(from: &[Name], to: &[Name], item: &Item) -> bool {
    let behind = item.path.len().saturating_sub(from.len());
    MOST_DEPTH < to.len().saturating_add(behind)
}

// Whether the path of one of the entries gets too deep.
fn any_gets_deep(items: &[Item], from: &[Name], to: &[Name]) -> bool {
    items.iter().any(|item| gets_deep(from, to, item))
}

// Appends an entry to those that have the path or are in the directory that has it, or else to the rest.
fn sort_in(
    rest: &mut Vec<Item>,
    within: &mut Vec<Item>,
    item: Item,
    path: &[Name],
) -> Result<(), NoMemory>
    ensures rest { OnOk result (rest.new.items ≡ rest.old.items ++ without path.now (item ∷ [])) }
    ensures within { OnOk result
        (within.new.items ≡ within.old.items ++ filter (is_within path.now) (item ∷ [])) }
{
    let pushed = if is_within(path, &item) {
        within.push(item)
    } else {
        rest.push(item)
    };
    Ok(pushed?)
}

// What neither has the path nor is in the directory that has it, and what has it or is there.
fn split(alloc: Global, items: Vec<Item>, path: &[Name]) -> Result<(Vec<Item>, Vec<Item>), NoMemory>
    ensures rest { IfOk result (λ r. r.0.items ≡ without path.now items.items) }
    ensures within { IfOk result (λ r. r.1.items ≡ filter (is_within path.now) items.items) }
{
    let mut rest = Vec::new(alloc);
    let mut within = Vec::new(alloc);
    for item in items {
        sort_in(&mut rest, &mut within, item, path)?;
    }
    Ok((rest, within))
}

// Appends what is moved.
fn push_moved(
    alloc: Global,
    items: &mut Vec<Item>,
    within: Vec<Item>,
    from: &[Name],
    to: &[Name],
) -> Result<(), NoMemory>
    requires { All (λ x. is_within from.now x ≡ true) within.items }
    ensures { OnOk result
        (items.new.items ≡ items.old.items ++ map (rebased from.now to.now) within.items) }
{
    for item in within {
        let moved = rebased(alloc, item, from, to)?;
        items.push(moved)?;
    }
    Ok(())
}

// Moves what has a path, and what is in the directory that has it.
fn moved(
    alloc: Global,
    items: Vec<Item>,
    from: &[Name],
    to: &[Name],
) -> Result<Vec<Item>, EditFault>
    ensures ok { OnOk result (can_move items.items from.now to.now ≡ true) }
    ensures moved { IfOk result (λ xs. xs.items ≡ moved_additions from.now to.now items.items) }
{
    if !has_path(&items, from) {
        return Err(EditFault::NoSuchPath);
    }
    if is_under(from, to) {
        return Err(EditFault::WithinItself);
    }
    let (mut rest, within) = split(alloc, items, from)?;
    if let Some(fault) = room_fault(alloc, &rest, to)? {
        return Err(fault);
    }
    if any_gets_deep(&within, from, to) {
        return Err(EditFault::TooDeep);
    }
    push_moved(alloc, &mut rest, within, from, to)?;
    Ok(rest)
}

// Removes what has a path.
fn removed(items: Vec<Item>, path: &[Name]) -> Result<Vec<Item>, EditFault>
    ensures ok { OnOk result (can_remove items.items path.now ≡ true) }
    ensures removed { IfOk result (λ xs. xs.items ≡ removed path.now items.items) }
{
    if !has_path(&items, path) {
        return Err(EditFault::NoSuchPath);
    }
    if has_under(&items, path) {
        return Err(EditFault::NotEmpty);
    }
    let mut items = items;
    items.retain(|item| !is_at(path, item));
    Ok(items)
}

// Adds an entry.
fn added(alloc: Global, items: Vec<Item>, item: Item) -> Result<Vec<Item>, EditFault>
    ensures ok { OnOk result (can_add items.items item.path ≡ true) }
    ensures added { IfOk result (λ xs. xs.items ≡ items.items ++ item ∷ []) }
{
    if let Some(fault) = room_fault(alloc, &items, &item.path)? {
        return Err(fault);
    }
    let mut items = items;
    match items.push(item) {
        Ok(()) => Ok(items),
        Err(_) => Err(EditFault::NoMemory),
    }
}

impl Change {
    // Makes the change.
    fn make(&self, meta: &mut Meta)
        ensures { meta.new ≡ changed_meta self.now meta.old }
    {
        match self {
            Change::Note(comment) => meta.comment = Comment::new(comment.bytes()).unwrap(),
            Change::Protect(protect) => meta.protect = *protect,
            Change::Date(stamp) => meta.stamp = *stamp,
        }
    }
}

// Makes a change of an entry if it has the path.
pub fn change_item(item: &mut Item, path: &[Name], change: &Change)
    ensures { item.new ≡ changed_if path.now change.now item.old }
{
    if is_at(path, item) {
        change.make(&mut item.meta);
    }
}

// Makes a change of what has a path.
fn change_items(items: &mut [Item], path: &[Name], change: &Change)
    ensures { items.new ≡ changed_at path.now change.now items.old }
{
    for item in items.iter_mut() {
        change_item(item, path, change);
    }
}

// Changes what has a path.
fn changed(items: Vec<Item>, path: &[Name], change: &Change) -> Result<Vec<Item>, EditFault>
    ensures ok { OnOk result (has_path items.items path.now ≡ true) }
    ensures changed { IfOk result (λ xs. xs.items ≡ changed_at path.now change.now items.items) }
{
    if !has_path(&items, path) {
        return Err(EditFault::NoSuchPath);
    }
    let mut items = items;
    change_items(&mut items, path, change);
    Ok(items)
}

// A copy of bytes.
pub fn bytes_of(alloc: Global, bytes: &[u8]) -> Result<Bytes, NoMemory>
    ensures { IfOk result (λ b. b ≡ bytes.now) }
{
    let mut copy = Vec::new(alloc);
    copy.extend_from_slice(bytes)?;
    Ok(Bytes::new(copy))
}

// Gives an entry these bytes if it is a file with this path.
pub fn refill_item(
    alloc: Global,
    item: &mut Item,
    path: &[Name],
    bytes: &[u8],
) -> Result<(), NoMemory>
    ensures { OnOk result (item.new ≡ refilled_if path.now bytes.now item.old) }
{
    if is_file_named(path, item) {
        item.body = Body::File(bytes_of(alloc, bytes)?);
    }
    Ok(())
}

// Gives the file with a path these bytes.
fn refill_items(
    alloc: Global,
    items: &mut [Item],
    path: &[Name],
    bytes: &[u8],
) -> Result<(), NoMemory>
    ensures { OnOk result (items.new ≡ refilled_at path.now bytes.now items.old) }
{
    for item in items.iter_mut() {
        refill_item(alloc, item, path, bytes)?;
    }
    Ok(())
}

// Replaces the bytes of the file that has a path.
fn replaced(
    alloc: Global,
    items: Vec<Item>,
    path: &[Name],
    bytes: &[u8],
) -> Result<Vec<Item>, EditFault>
    ensures ok { OnOk result (can_replace items.items path.now ≡ true) }
    ensures refilled { IfOk result (λ xs. xs.items ≡ refilled_at path.now bytes.now items.items) }
{
    if !has_path(&items, path) {
        return Err(EditFault::NoSuchPath);
    }
    if has_directory(&items, path) {
        return Err(EditFault::NotAFile);
    }
    let mut items = items;
    refill_items(alloc, &mut items, path, bytes)?;
    Ok(items)
}

// A new entry, with no comment, nothing forbidden and no date.
pub fn new_item(path: Vec<Name>, body: Body) -> Item
    ensures { result ≡ new_addition path.items body }
{
    let comment = Comment::new(b"").unwrap();
    Item {
        path,
        meta: Meta::new(comment, 0, NO_STAMP),
        body,
    }
}

// The first of the given bytes, as many as a file has.
pub fn first_of(given: &[u8], size: u32) -> &[u8]
    ensures { result.now ≡ take size given.now }
{
    &given[..given.len().min(size as usize)]
}

// A file of these bytes.
pub fn new_file(alloc: Global, path: Vec<Name>, bytes: &[u8]) -> Result<Item, NoMemory>
    ensures { IfOk result (λ x. x ≡ new_addition path.items (Body.File bytes.now)) }
{
    let bytes = bytes_of(alloc, bytes)?;
    Ok(new_item(path, Body::File(bytes)))
}

// The additions after an edit.
fn edited_items(
    alloc: Global,
    items: Vec<Item>,
    edit: Edit,
    given: &[u8],
) -> Result<Vec<Item>, EditFault>
    ensures { IfOk result (λ xs. edited_additions (edit_value edit) given.now items.items ≡ Some xs.items) }
{
    match edit {
        Edit::Remove(path) => removed(items, &path),
        Edit::Move(from, to) => moved(alloc, items, &from, &to),
        Edit::Dir(path) => added(alloc, items, new_item(path, Body::Dir)),
        Edit::File(path, size) => {
            let item = new_file(alloc, path, first_of(given, size))?;
            added(alloc, items, item)
        }
        Edit::Replace(path, size) => replaced(alloc, items, &path, first_of(given, size)),
        Edit::Change(path, change) => changed(items, &path, &change),
        Edit::Label(_) => Ok(items),
    }
}

// The label after an edit.
pub fn edited_label(label: Label, edit: &Edit) -> Label
    ensures { result ≡ edited_label (edit_value edit.now) label }
{
    match edit {
        Edit::Label(text) => Label::new(text.bytes()).unwrap(),
        _ => label,
    }
}

impl Outline {
    /// The outline after an edit, or why the edit cannot be applied; `NoMemory` if an allocation fails. The bytes of a file
    /// are the first of the given ones.
    pub fn edited(self, alloc: Global, edit: Edit, given: &[u8]) -> Result<Outline, EditFault>
        ensures { IfOk result (λ o. edited (edit_value edit) given.now self ≡ Some o) }
    {
        let label = edited_label(self.label, &edit);
        Ok(Outline {
            kind: self.kind,
            label,
            stamps: self.stamps,
            items: edited_items(alloc, self.items, edit, given)?,
        })
    }
}

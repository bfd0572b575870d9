// Outlines with an index of their paths.

ghost use Rattle.std.specs.Prelude.{◌≡◌, ◌++◌, ◌∷◌, [], IfOk, OnOk, Some, false, true};
ghost use Rattle.adf_edits.specs.Edits.{can_remove, can_replace, changed_at, edit_value, edited, edited_additions};
ghost use Rattle.adf_edits.specs.Edits.{has_path, has_under, only_if, refilled_at, removed, with_new};
ghost use Rattle.adf_edits.specs.Index.{IsIndexedAt, IsSoundIndex, IsStep, standing};

use crate::edits::{Change, Edit, EditFault, edited_label, first_of, new_file, new_item};
use crate::index::Places;
use crate::moves::quick_move;
use crate::outline::{Item, Outline};
use crate::paths::{is_deep, push_names};
use adf_base::NoMemory;
use adf_names::{Kind, Label, Name, Stamps};
use adf_tree::Body;
use std::alloc::Global;
use std::collections::BTreeMap;
use std::marker::Model;

// How often all entries may be moved with their directories by an index, and how many entries besides, before it no longer pays: a
// list takes less time to move many at once.
const MOVES_OF_ALL: usize = 16;

const FEW_MOVED: usize = 65_536;

/// An outline with an index of its paths: an edit looks its paths up there, and reads no list.
#[derive(Drop)]
pub struct IndexedOutline {
    kind: Kind,
    label: Label,
    stamps: Stamps,
    places: Places,
}

impl Model for IndexedOutline {
    ghost use Rattle.adf_edits.specs.Outline.{OutlineValue};
    ghost use Rattle.adf_edits.specs.Index.{IsSoundIndex, standing};

    ghost Value = { OutlineValue };

    ghost view = { λ o. record {
      kind = o.kind;
      label = o.label;
      stamps = o.stamps;
      additions = standing o.places.entries.items;
    } };

    ghost invariant = { λ o. IsSoundIndex o.places };
}

// Changes what has a path.
fn quick_change(
    alloc: Global,
    places: &mut Places,
    path: &[Name],
    change: &Change,
) -> Result<bool, NoMemory>
    requires { IsSoundIndex places.old }
    ensures step { IfOk result (IsStep (only_if (has_path (standing places.old.entries.items) path.now)
        (changed_at path.now change.now (standing places.old.entries.items))) places.old places.new) }
    ensures sound { OnOk result (IsSoundIndex places.new) }
{
    if !places.is_whole {
        return Ok(false);
    }
    match places.find(alloc, path)? {
        Some(place) => {
            places.change(place, path, change);
            Ok(true)
        }
        None => Ok(false),
    }
}

// Replaces the bytes of the file that has a path.
fn quick_replace(
    alloc: Global,
    places: &mut Places,
    path: &[Name],
    bytes: &[u8],
) -> Result<bool, NoMemory>
    requires { IsSoundIndex places.old }
    ensures step { IfOk result (IsStep (only_if (can_replace (standing places.old.entries.items) path.now)
        (refilled_at path.now bytes.now (standing places.old.entries.items))) places.old places.new) }
    ensures sound { OnOk result (IsSoundIndex places.new) }
{
    if !places.is_whole {
        return Ok(false);
    }
    match places.find(alloc, path)? {
        Some(place) => {
            if !places.is_file_at(place) {
                return Ok(false);
            }
            places.refill(alloc, place, path, bytes)?;
            Ok(true)
        }
        None => Ok(false),
    }
}

// Adds an entry.
fn quick_add(alloc: Global, places: &mut Places, item: Item) -> Result<bool, NoMemory>
    requires { IsSoundIndex places.old }
    ensures step { IfOk result (IsStep (with_new item (standing places.old.entries.items)) places.old places.new) }
    ensures sound { OnOk result (IsSoundIndex places.new) }
{
    if !places.is_whole || is_deep(&item.path) || !places.has_room(alloc, &item.path)? {
        return Ok(false);
    }
    places.push(alloc, item, true)?;
    Ok(true)
}

// Whether nothing stands in the directory with this path, which stands at this place, or it is a file.
fn is_empty_at(
    alloc: Global,
    places: &Places,
    place: usize,
    path: &[Name],
) -> Result<bool, NoMemory>
    requires { IsIndexedAt places.now place path.now }
    ensures { IfOk result (λ empty. empty ≡ true → has_under (standing places.now.entries.items) path.now ≡ false) }
{
    if places.is_file_at(place) {
        return Ok(true);
    }
    Ok(!places.may_have_under(alloc, place, path)?)
}

// Removes what has this path, which stands at this place, and has nothing in it.
fn remove_at(
    alloc: Global,
    places: &mut Places,
    place: usize,
    path: &[Name],
) -> Result<bool, NoMemory>
    requires found { IsIndexedAt places.old place path.now }
    requires empty { has_under (standing places.old.entries.items) path.now ≡ false }
    ensures step { IfOk result (IsStep (only_if (can_remove (standing places.old.entries.items) path.now)
        (removed path.now (standing places.old.entries.items))) places.old places.new) }
    ensures sound { OnOk result (IsSoundIndex places.new) }
{
    let _ = places.take(place);
    places.forget(alloc, path)?;
    Ok(true)
}

// Removes what has a path.
fn quick_remove(alloc: Global, places: &mut Places, path: &[Name]) -> Result<bool, NoMemory>
    requires { IsSoundIndex places.old }
    ensures step { IfOk result (IsStep (only_if (can_remove (standing places.old.entries.items) path.now)
        (removed path.now (standing places.old.entries.items))) places.old places.new) }
    ensures sound { OnOk result (IsSoundIndex places.new) }
{
    if !places.is_whole {
        return Ok(false);
    }
    match places.find(alloc, path)? {
        Some(place) => {
            if !is_empty_at(alloc, places, place, path)? {
                return Ok(false);
            }
            remove_at(alloc, places, place, path)
        }
        None => Ok(false),
    }
}

// A copy of a path.
fn copy_path(alloc: Global, path: &[Name]) -> Result<Vec<Name>, NoMemory>
    ensures { IfOk result (λ copy. copy.items ≡ path.now) }
{
    let mut copy = Vec::new(alloc);
    push_names(&mut copy, path)?;
    Ok(copy)
}

// Applies an edit, if the index tells that it can be applied.
fn quick_edit(
    alloc: Global,
    places: &mut Places,
    edit: &Edit,
    given: &[u8],
) -> Result<bool, NoMemory>
    requires { IsSoundIndex places.old }
    ensures step { IfOk result (IsStep (edited_additions (edit_value edit.now) given.now (standing places.old.entries.items))
        places.old places.new) }
    ensures sound { OnOk result (IsSoundIndex places.new) }
{
    match edit {
        Edit::Remove(path) => quick_remove(alloc, places, path),
        Edit::Move(from, to) => quick_move(alloc, places, from, to),
        Edit::Dir(path) => {
            let path = copy_path(alloc, path)?;
            quick_add(alloc, places, new_item(path, Body::Dir))
        }
        Edit::File(path, size) => {
            let path = copy_path(alloc, path)?;
            let item = new_file(alloc, path, first_of(given, *size))?;
            quick_add(alloc, places, item)
        }
        Edit::Replace(path, size) => quick_replace(alloc, places, path, first_of(given, *size)),
        Edit::Change(path, change) => quick_change(alloc, places, path, change),
        Edit::Label(_) => Ok(true),
    }
}

// Appends an entry, if it stands.
fn push_standing(items: &mut Vec<Item>, entry: Option<Item>) -> Result<(), NoMemory>
    ensures { OnOk result (items.new.items ≡ items.old.items ++ standing (entry ∷ [])) }
{
    match entry {
        Some(item) => Ok(items.push(item)?),
        None => Ok(()),
    }
}

// The entries that stand.
fn items_of(alloc: Global, entries: Vec<Option<Item>>) -> Result<Vec<Item>, NoMemory>
    ensures { IfOk result (λ items. items.items ≡ standing entries.items) }
{
    let mut items = Vec::new(alloc);
    for entry in entries {
        push_standing(&mut items, entry)?;
    }
    Ok(items)
}

// The places of entries.
fn places_of(alloc: Global, items: Vec<Item>) -> Result<Places, NoMemory>
    ensures standing { IfOk result (λ places. standing places.entries.items ≡ items.items) }
    ensures sound { IfOk result IsSoundIndex }
{
    let mut places = Places::new(alloc);
    for item in items {
        let has_room = places.has_room(alloc, &item.path)?;
        places.push(alloc, item, has_room)?;
    }
    places.made = places.entries.len();
    Ok(places)
}

// The same places, or without the empty ones where they have become many.
fn settled(alloc: Global, places: Places) -> Result<Places, NoMemory>
    requires { IsSoundIndex places }
    ensures standing { IfOk result (λ new. standing new.entries.items ≡ standing places.entries.items) }
    ensures sound { IfOk result IsSoundIndex }
{
    if places.are_few() {
        return Ok(places);
    }
    let left = places.left;
    let items = items_of(alloc, places.entries)?;
    let mut places = places_of(alloc, items)?;
    places.left = left;
    Ok(places)
}

// Entries at their places, without an index.
fn places_alone(alloc: Global, items: Vec<Item>) -> Result<Places, NoMemory>
    ensures standing { IfOk result (λ places. standing places.entries.items ≡ items.items) }
    ensures sound { IfOk result IsSoundIndex }
{
    let mut entries = Vec::new(alloc);
    for item in items {
        entries.push(Some(item))?;
    }
    Ok(Places {
        entries,
        index: BTreeMap::new(alloc),
        is_whole: false,
        made: 0,
        left: 0,
    })
}

impl IndexedOutline {
    // An outline with an index, by which so many entries may still be moved with their directories.
    fn with_left(alloc: Global, outline: Outline, left: usize) -> Result<IndexedOutline, NoMemory>
        ensures { IfOk result (λ o. o ≡ outline) }
    {
        let mut places = places_of(alloc, outline.items)?;
        places.left = left;
        Ok(IndexedOutline {
            kind: outline.kind,
            label: outline.label,
            stamps: outline.stamps,
            places,
        })
    }

    // An outline whose edits all read its list.
    fn without_index(alloc: Global, outline: Outline) -> Result<IndexedOutline, NoMemory>
        ensures { IfOk result (λ o. o ≡ outline) }
    {
        Ok(IndexedOutline {
            kind: outline.kind,
            label: outline.label,
            stamps: outline.stamps,
            places: places_alone(alloc, outline.items)?,
        })
    }

    // An outline with an index that is made anew, which counts as a move of all, if that still pays.
    fn again(alloc: Global, outline: Outline, left: usize) -> Result<IndexedOutline, NoMemory>
        ensures { IfOk result (λ o. o ≡ outline) }
    {
        let count = outline.items.len();
        if left < count {
            return IndexedOutline::without_index(alloc, outline);
        }
        IndexedOutline::with_left(alloc, outline, left - count)
    }

    /// An outline with an index.
    pub fn of(alloc: Global, outline: Outline) -> Result<IndexedOutline, NoMemory>
        ensures { IfOk result (λ o. o ≡ outline) }
    {
        let count = outline.items.len();
        let left = count.saturating_mul(MOVES_OF_ALL).saturating_add(FEW_MOVED);
        IndexedOutline::with_left(alloc, outline, left)
    }

    /// The outline without its index.
    pub fn outline(self, alloc: Global) -> Result<Outline, NoMemory>
        ensures { IfOk result (λ o. o ≡ self) }
    {
        let places = self.places;
        Ok(Outline {
            kind: self.kind,
            label: self.label,
            stamps: self.stamps,
            items: items_of(alloc, places.entries)?,
        })
    }

    /// The outline after an edit, or why the edit cannot be applied, as of `Outline`. The entries are read one by one only
    /// where the edit cannot be applied, or moves a directory.
    pub fn edited(
        self,
        alloc: Global,
        edit: Edit,
        given: &[u8],
    ) -> Result<IndexedOutline, EditFault>
        ensures { IfOk result (λ o. edited (edit_value edit) given.now self ≡ Some o) }
    {
        let mut places = self.places;
        if quick_edit(alloc, &mut places, &edit, given)? {
            return Ok(IndexedOutline {
                kind: self.kind,
                label: edited_label(self.label, &edit),
                stamps: self.stamps,
                places: settled(alloc, places)?,
            });
        }
        let left = places.left;
        let outline = Outline {
            kind: self.kind,
            label: self.label,
            stamps: self.stamps,
            items: items_of(alloc, places.entries)?,
        };
        let outline = outline.edited(alloc, edit, given)?;
        Ok(IndexedOutline::again(alloc, outline, left)?)
    }
}

// Entries by place, and an index of their paths.

ghost use Rattle.std.specs.Prelude.{◌≡◌, ◌<◌, ◌++◌, ◌∷◌, [], None, Some, false, length, set, true, IfOk, OnOk, option_copied};
ghost use Rattle.adf_tree.specs.Additions.{Addition};
ghost use Rattle.std.specs.List.{filter};
ghost use Rattle.adf_edits.specs.{Edits.changed_if, Edits.has_under, Edits.is_within, Edits.refilled_if, Paths.is_under};
ghost use Rattle.adf_edits.specs.Index.{HasPlaceLess, HasPlaceMore, HasRoom, HasRoomBut, IsDirectoryAt, IsFileAt, IsIndexedAt};
ghost use Rattle.adf_edits.specs.Index.{IsRooted, IsSoundIndex, StandsIn, StandsAt, end_key, entry_placed};
ghost use Rattle.adf_edits.specs.Index.{is_entry_within, left_by, left_without, path_key, place_at, place_in_index, standing};

use crate::edits::{Change, change_item, gets_deep, is_at, is_dir, is_within, refill_item};
use crate::outline::Item;
use adf_base::{Letters, NoMemory};
use adf_names::Name;
use std::alloc::Global;
use std::collections::BTreeMap;
use std::ops::Bound;

/// Entries in the order of their additions, and an index that has the place of each path. A place is given to one entry alone,
/// and is empty once that entry is removed or moved. `made` is the number of places when they were last made without empty ones,
/// and `left` how many entries may still be moved with their directories before an index no longer pays.
#[derive(Drop)]
pub struct Places {
    pub entries: Vec<Option<Item>>,
    pub index: BTreeMap<Vec<u8>, usize>,
    pub is_whole: bool,
    pub made: usize,
    pub left: usize,
}

// So many places more than twice those that were made are still few.
const FEW_PLACES: usize = 1024;

// The key of a path: its names in upper case, with a `/` behind each.
fn key_of(alloc: Global, path: &[Name]) -> Result<Vec<u8>, NoMemory>
    ensures { IfOk result (λ key. key.items ≡ path_key path.now) }
{
    let mut key = Vec::new(alloc);
    for name in path {
        let upper = name.raised(Letters::Ascii);
        key.extend_from_slice(upper.bytes())?;
        key.push(b'/')?;
    }
    Ok(key)
}

// The place of a key.
fn place_at(index: &BTreeMap<Vec<u8>, usize>, key: &[u8]) -> Option<usize>
    ensures { result ≡ place_at index.now key.now }
{
    match index.get(key) {
        Some(place) => Some(*place),
        None => None,
    }
}

// The entry at a place.
fn entry_placed(entries: &[Option<Item>], place: usize) -> Option<&Item>
    ensures { option_copied result ≡ entry_placed entries.now (Some place) }
{
    if entries.len() <= place {
        return None;
    }
    match &entries[place] {
        Some(item) => Some(item),
        None => None,
    }
}

// Whether no entry stands at a place, or one that has the path or is in the directory that has it.
#[tactic(auto, using(crate::proofs::LeftPlaces::left_entry))]
fn is_left_free(entries: &[Option<Item>], path: &[Name], place: usize) -> bool
    ensures { result ≡ true → entry_placed (left_without path.now entries.now) (Some place) ≡ None }
{
    match entry_placed(entries, place) {
        Some(item) => is_within(path, item),
        None => true,
    }
}

// Whether an entry stands, and has the path or is in the directory that has it.
fn is_entry_within(path: &[Name], entry: &Option<Item>) -> bool
    ensures { result ≡ is_entry_within path.now entry.now }
{
    match entry {
        Some(item) => is_within(path, item),
        None => false,
    }
}

// Whether an entry stands, and gets too deep where what has a path, and what is in it, is moved.
fn is_entry_deep(from: &[Name], to: &[Name], entry: &Option<Item>) -> bool {
    match entry {
        Some(item) => gets_deep(from, to, item) && is_within(from, item),
        None => false,
    }
}

// Takes an entry away, behind those taken before, if it has the path or is in the directory that has it.
fn take_if_within(
    taken: &mut Vec<Item>,
    entry: &mut Option<Item>,
    path: &[Name],
) -> Result<(), NoMemory>
    ensures entry { OnOk result (entry.new ≡ left_by path.now entry.old) }
    ensures taken { OnOk result
        (taken.new.items ≡ taken.old.items ++ filter (is_within path.now) (standing (entry.old ∷ []))) }
{
    if !is_entry_within(path, entry) {
        return Ok(());
    }
    match entry.take() {
        Some(item) => Ok(taken.push(item)?),
        None => Ok(()),
    }
}

// Takes each of these entries away that has the path or is in the directory that has it.
fn take_each_within(
    taken: &mut Vec<Item>,
    entries: &mut [Option<Item>],
    path: &[Name],
) -> Result<(), NoMemory>
    ensures entries { OnOk result (entries.new ≡ left_without path.now entries.old) }
    ensures taken { OnOk result
        (taken.new.items ≡ taken.old.items ++ filter (is_within path.now) (standing entries.old)) }
{
    for entry in entries.iter_mut() {
        take_if_within(taken, entry, path)?;
    }
    Ok(())
}

// The first key behind those of what is in the directory with this path.
fn end_of(alloc: Global, path: &[Name]) -> Result<Vec<u8>, NoMemory>
    ensures { IfOk result (λ key. key.items ≡ end_key path.now) }
{
    let mut key = key_of(alloc, path)?;
    let _ = key.pop();
    key.push(b'0')?;
    Ok(key)
}

// Puts the place of a key.
fn put_key(index: &mut BTreeMap<Vec<u8>, usize>, key: Vec<u8>, place: usize) -> Result<(), NoMemory>
    ensures { OnOk result (HasPlaceMore index.old index.new key place) }
{
    match index.insert(key, place) {
        Ok(_) => Ok(()),
        Err(_) => Err(NoMemory),
    }
}

// Takes the place of a key out.
fn remove_key(index: &mut BTreeMap<Vec<u8>, usize>, key: &[u8])
    ensures { HasPlaceLess index.old index.new key.now }
{
    let _ = index.remove(key);
}

impl Places {
    /// No entries.
    pub fn new(alloc: Global) -> Places
        ensures none { result.entries.items ≡ [] }
        ensures sound { IsSoundIndex result }
    {
        Places {
            entries: Vec::new(alloc),
            index: BTreeMap::new(alloc),
            is_whole: true,
            made: 0,
            left: 0,
        }
    }

    /// Whether no more places than these are worth the time to leave the empty ones out.
    pub fn are_few(&self) -> bool {
        self.entries.len() / 2 <= self.made.saturating_add(FEW_PLACES / 2)
    }

    // The place of a path.
    fn place_in_index(&self, alloc: Global, path: &[Name]) -> Result<Option<usize>, NoMemory>
        ensures { IfOk result (λ place. place ≡ place_in_index self.now.index path.now) }
    {
        let key = key_of(alloc, path)?;
        Ok(place_at(&self.index, &key))
    }

    /// The place of an entry that has this path.
    pub fn find(&self, alloc: Global, path: &[Name]) -> Result<Option<usize>, NoMemory>
        ensures { IfOk result (λ found. StandsAt self.now.entries.items path.now found) }
    {
        let Some(place) = self.place_in_index(alloc, path)? else {
            return Ok(None);
        };
        match entry_placed(&self.entries, place) {
            Some(item) if is_at(path, item) => Ok(Some(place)),
            _ => Ok(None),
        }
    }

    // Whether no entry stands where the index has this key.
    fn is_free_at(&self, key: &[u8]) -> bool
        ensures { result ≡ true → entry_placed self.now.entries.items (place_at self.now.index key.now) ≡ None }
    {
        match place_at(&self.index, key) {
            Some(place) => entry_placed(&self.entries, place).is_none(),
            None => true,
        }
    }

    // Whether no entry stands where the index has this path.
    fn is_free(&self, alloc: Global, path: &[Name]) -> Result<bool, NoMemory>
        ensures { IfOk result (λ free. free ≡ true
            → entry_placed self.now.entries.items (place_in_index self.now.index path.now) ≡ None) }
    {
        let key = key_of(alloc, path)?;
        Ok(self.is_free_at(&key))
    }

    // Whether the entry at a place is a directory.
    fn is_dir_at(&self, place: usize) -> bool
        ensures { result ≡ true → IsDirectoryAt self.now.entries.items place }
    {
        match entry_placed(&self.entries, place) {
            Some(item) => is_dir(&item.body),
            None => false,
        }
    }

    // Whether the directory of a path is the root, or stands.
    fn is_rooted(&self, alloc: Global, path: &[Name]) -> Result<bool, NoMemory>
        ensures { IfOk result (λ rooted. rooted ≡ true → IsRooted self.now.entries.items path.now) }
    {
        if path.len() < 2 {
            return Ok(path.len() == 1);
        }
        match self.find(alloc, &path[..path.len() - 1])? {
            Some(place) => Ok(self.is_dir_at(place)),
            None => Ok(false),
        }
    }

    /// Whether an entry with this path has room.
    pub fn has_room(&self, alloc: Global, path: &[Name]) -> Result<bool, NoMemory>
        ensures { IfOk result (λ room. room ≡ true → HasRoom self.now path.now) }
    {
        Ok(self.is_rooted(alloc, path)? && self.is_free(alloc, path)?)
    }

    // Whether no entry stands where the index has a path, or one that has the path `from` or is in the directory that has it.
    fn is_free_but(&self, alloc: Global, from: &[Name], to: &[Name]) -> Result<bool, NoMemory>
        ensures { IfOk result (λ free. free ≡ true
            → entry_placed (left_without from.now self.now.entries.items) (place_in_index self.now.index to.now) ≡ None) }
    {
        match self.place_in_index(alloc, to)? {
            Some(place) => Ok(is_left_free(&self.entries, from, place)),
            None => Ok(true),
        }
    }

    /// Whether a path has room where what has the path `from`, and what is in it, is taken away.
    pub fn has_room_but(&self, alloc: Global, from: &[Name], to: &[Name]) -> Result<bool, NoMemory>
        requires { is_under from.now to.now ≡ false }
        ensures { IfOk result (λ room. room ≡ true → HasRoomBut self.now from.now to.now) }
    {
        Ok(self.is_rooted(alloc, to)? && self.is_free_but(alloc, from, to)?)
    }

    /// How many entries have this path or are in it.
    pub fn count_within(&self, path: &[Name]) -> usize {
        self.entries
            .iter()
            .filter(|entry| is_entry_within(path, entry))
            .count()
    }

    /// Whether the path of something that has the path `from`, or is in the directory that has it, gets too deep.
    pub fn any_gets_deep(&self, from: &[Name], to: &[Name]) -> bool {
        self.entries
            .iter()
            .any(|entry| is_entry_deep(from, to, entry))
    }

    /// Takes away what has a path, and what is in the directory that has it.
    pub fn take_within(&mut self, alloc: Global, path: &[Name]) -> Result<Vec<Item>, NoMemory>
        ensures taken { IfOk result (λ items.
            items.items ≡ filter (is_within path.now) (standing self.old.entries.items)) }
        ensures entries { OnOk result (self.new.entries.items ≡ left_without path.now self.old.entries.items) }
        ensures rest { OnOk result (self.new ≡ record self.old { entries = self.new.entries }) }
    {
        let mut taken = Vec::new(alloc);
        take_each_within(&mut taken, &mut self.entries, path)?;
        Ok(taken)
    }

    // Takes a key out of the index, at whose place nothing stands.
    fn forget_key(&mut self, key: &[u8])
        requires free { entry_placed self.old.entries.items (place_at self.old.index key.now) ≡ None }
        requires sound { IsSoundIndex self.old }
        ensures entries { self.new.entries.items ≡ self.old.entries.items }
        ensures sound { IsSoundIndex self.new }
    {
        remove_key(&mut self.index, key);
    }

    /// Takes the key of a path out of the index, if nothing stands at its place.
    pub fn forget(&mut self, alloc: Global, path: &[Name]) -> Result<(), NoMemory>
        requires { IsSoundIndex self.old }
        ensures entries { self.new.entries.items ≡ self.old.entries.items }
        ensures sound { IsSoundIndex self.new }
    {
        let key = key_of(alloc, path)?;
        if self.is_free_at(&key) {
            self.forget_key(&key);
        }
        Ok(())
    }

    /// Whether the index has a key in the directory with this path, which stands at this place.
    pub fn may_have_under(
        &self,
        alloc: Global,
        place: usize,
        path: &[Name],
    ) -> Result<bool, NoMemory>
        requires { IsIndexedAt self.now place path.now }
        ensures { IfOk result (λ may. may ≡ false → has_under (standing self.now.entries.items) path.now ≡ false) }
    {
        let key = key_of(alloc, path)?;
        let end = end_of(alloc, path)?;
        let inner = (Bound::Excluded(&key), Bound::Excluded(&end));
        Ok(self.index.range(inner).next().is_some())
    }

    /// Appends an entry. If it may have no room, the index is no longer whole.
    pub fn push(&mut self, alloc: Global, item: Item, has_room: bool) -> Result<(), NoMemory>
        requires room { has_room ≡ true → HasRoom self.old item.path }
        requires sound { IsSoundIndex self.old }
        ensures entry { OnOk result (self.new.entries.items ≡ self.old.entries.items ++ Some item ∷ []) }
        ensures sound { OnOk result (IsSoundIndex self.new) }
    {
        let key = key_of(alloc, &item.path)?;
        let place = self.entries.len();
        put_key(&mut self.index, key, place)?;
        self.entries.push(Some(item))?;
        self.is_whole = self.is_whole && has_room;
        Ok(())
    }

    /// Whether the entry at a place is a file.
    pub fn is_file_at(&self, place: usize) -> bool
        ensures { result ≡ true → IsFileAt self.now.entries.items place }
    {
        match entry_placed(&self.entries, place) {
            Some(item) => !is_dir(&item.body),
            None => false,
        }
    }

    /// Takes the entry away that stands at a place.
    pub fn take(&mut self, place: usize) -> Option<Item>
        requires { place < length self.old.entries.items }
        ensures item { result ≡ entry_placed self.old.entries.items (Some place) }
        ensures entries { self.new.entries.items ≡ set self.old.entries.items place None }
        ensures rest { self.new ≡ record self.old { entries = self.new.entries } }
    {
        self.entries[place].take()
    }

    /// Puts an entry where one was taken away.
    pub fn put_back(&mut self, place: usize, item: Item)
        requires { place < length self.old.entries.items }
        ensures entries { self.new.entries.items ≡ set self.old.entries.items place (Some item) }
        ensures rest { self.new ≡ record self.old { entries = self.new.entries } }
    {
        self.entries[place] = Some(item);
    }

    /// Makes a change of the entry at a place, if it has this path.
    pub fn change(&mut self, place: usize, path: &[Name], change: &Change)
        requires { place < length self.old.entries.items }
        ensures entries { (x : Addition) → StandsIn self.old.entries.items place x
            → self.new.entries.items ≡ set self.old.entries.items place (Some (changed_if path.now change.now x)) }
        ensures rest { self.new ≡ record self.old { entries = self.new.entries } }
    {
        if let Some(item) = &mut self.entries[place] {
            change_item(item, path, change);
        }
    }

    /// Gives the entry at a place these bytes, if it is a file with this path.
    pub fn refill(
        &mut self,
        alloc: Global,
        place: usize,
        path: &[Name],
        bytes: &[u8],
    ) -> Result<(), NoMemory>
        requires { place < length self.old.entries.items }
        ensures entries { OnOk result ((x : Addition) → StandsIn self.old.entries.items place x
            → self.new.entries.items ≡ set self.old.entries.items place (Some (refilled_if path.now bytes.now x))) }
        ensures rest { OnOk result (self.new ≡ record self.old { entries = self.new.entries }) }
    {
        if let Some(item) = &mut self.entries[place] {
            refill_item(alloc, item, path, bytes)?;
        }
        Ok(())
    }
}

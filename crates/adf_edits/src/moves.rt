// Moves by an index of paths.

ghost use Rattle.std.specs.Prelude.{◌≡◌, ◌++◌, All, IfOk, OnOk, false, map, true};
ghost use Rattle.adf_edits.specs.Edits.{can_move, is_within, moved_additions, only_if, rebased};
ghost use Rattle.adf_edits.specs.Index.{IsFileAt, IsIndexedAt, IsSoundIndex, IsStep, standing};
ghost use Rattle.adf_edits.specs.Paths.{is_under};

use crate::edits::rebased;
use crate::index::Places;
use crate::outline::Item;
use crate::paths::{is_deep, is_under};
use adf_base::NoMemory;
use adf_names::Name;
use std::alloc::Global;

// Moves the file with this path, which stands at this place.
fn move_file(
    alloc: Global,
    places: &mut Places,
    place: usize,
    from: &[Name],
    to: &[Name],
) -> Result<bool, NoMemory>
    requires found { IsIndexedAt places.old place from.now }
    requires file { IsFileAt places.old.entries.items place }
    requires apart { is_under from.now to.now ≡ false }
    ensures step { IfOk result (IsStep (only_if (can_move (standing places.old.entries.items) from.now to.now)
        (moved_additions from.now to.now (standing places.old.entries.items))) places.old places.new) }
    ensures sound { OnOk result (IsSoundIndex places.new) }
{
    let Some(item) = places.take(place) else {
        return Ok(false);
    };
    if is_deep(to) || !places.has_room(alloc, to)? {
        places.put_back(place, item);
        return Ok(false);
    }
    let item = rebased(alloc, item, from, to)?;
    places.push(alloc, item, true)?;
    places.forget(alloc, from)?;
    Ok(true)
}

// Appends what is moved.
fn push_moved(
    alloc: Global,
    places: &mut Places,
    within: Vec<Item>,
    from: &[Name],
    to: &[Name],
) -> Result<(), NoMemory>
    requires within { All (λ x. is_within from.now x ≡ true) within.items }
    requires sound { IsSoundIndex places.old }
    ensures standing { OnOk result (standing places.new.entries.items
        ≡ standing places.old.entries.items ++ map (rebased from.now to.now) within.items) }
    ensures sound { OnOk result (IsSoundIndex places.new) }
{
    for item in within {
        places.forget(alloc, &item.path)?;
        let item = rebased(alloc, item, from, to)?;
        let has_room = places.has_room(alloc, &item.path)?;
        places.push(alloc, item, has_room)?;
    }
    Ok(())
}

// Moves the directory with this path, which stands at this place, and what is in it.
fn move_directory(
    alloc: Global,
    places: &mut Places,
    place: usize,
    from: &[Name],
    to: &[Name],
) -> Result<bool, NoMemory>
    requires found { IsIndexedAt places.old place from.now }
    requires apart { is_under from.now to.now ≡ false }
    ensures step { IfOk result (IsStep (only_if (can_move (standing places.old.entries.items) from.now to.now)
        (moved_additions from.now to.now (standing places.old.entries.items))) places.old places.new) }
    ensures sound { OnOk result (IsSoundIndex places.new) }
{
    if is_deep(to) || places.any_gets_deep(from, to) || !places.has_room_but(alloc, from, to)? {
        return Ok(false);
    }
    let within = places.take_within(alloc, from)?;
    push_moved(alloc, places, within, from, to)?;
    Ok(true)
}

// The same, if it still pays by the index, which is given up otherwise.
fn move_if_paid(
    alloc: Global,
    places: &mut Places,
    place: usize,
    from: &[Name],
    to: &[Name],
) -> Result<bool, NoMemory>
    requires found { IsIndexedAt places.old place from.now }
    requires apart { is_under from.now to.now ≡ false }
    ensures step { IfOk result (IsStep (only_if (can_move (standing places.old.entries.items) from.now to.now)
        (moved_additions from.now to.now (standing places.old.entries.items))) places.old places.new) }
    ensures sound { OnOk result (IsSoundIndex places.new) }
{
    let count = places.count_within(from);
    if places.left < count {
        places.is_whole = false;
        return Ok(false);
    }
    let moved = move_directory(alloc, places, place, from, to)?;
    places.left = places.left.saturating_sub(count);
    Ok(moved)
}

/// Moves what has a path, and what is in it, if the index tells that it can be moved.
pub fn quick_move(
    alloc: Global,
    places: &mut Places,
    from: &[Name],
    to: &[Name],
) -> Result<bool, NoMemory>
    requires { IsSoundIndex places.old }
    ensures step { IfOk result (IsStep (only_if (can_move (standing places.old.entries.items) from.now to.now)
        (moved_additions from.now to.now (standing places.old.entries.items))) places.old places.new) }
    ensures sound { OnOk result (IsSoundIndex places.new) }
{
    if !places.is_whole || is_under(from, to) {
        return Ok(false);
    }
    match places.find(alloc, from)? {
        Some(place) => {
            if places.is_file_at(place) {
                move_file(alloc, places, place, from, to)
            } else {
                move_if_paid(alloc, places, place, from, to)
            }
        }
        None => Ok(false),
    }
}

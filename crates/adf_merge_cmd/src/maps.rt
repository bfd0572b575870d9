// The maps of readings.

ghost use Rattle.std.specs.Prelude.{◌≡◌, IfErr, IfOk, List, None, OnErr, Option, Some, length, option_map, slice_index_or};
ghost use Rattle.adf_maps.specs.Maps.{MapValue};
ghost use Rattle.adf_words.specs.CommandLine.{texts_of};
ghost use Rattle.adf_merge_cmd.specs.Answers.{IsMapStop, mapped, named_map, named_maps, with_map};

use crate::read_file::ReadFile;
use adf_maps::{Map, MapFault, read_map};
use adf_names::push_escaped;
use adf_readings::MappedReading;
use std::alloc::{AllocError, Global};

/// Why a map is not taken.
#[derive(Clone, Copy, Debug, PartialEq, Eq)]
pub enum MapRefusal {
    NoMap,
    OtherDisk,
}

/// Why the maps are not had.
#[derive(Drop)]
pub enum MapStop {
    /// One is refused, with this line.
    Refused(Vec<u8>),
    NoMemory,
}

impl MapRefusal {
    // What is said behind the name.
    fn text(self) -> &'static str {
        match self {
            MapRefusal::NoMap => ": not a map of ddrescue\n",
            MapRefusal::OtherDisk => ": the map of a disk of another size\n",
        }
    }
}

// The map of a name and a text, if there is one.
fn named_map(
    alloc: Global,
    size: usize,
    name: &str,
    text: &[u8],
) -> Result<Result<Option<Map>, MapRefusal>, AllocError>
    ensures taken { IfOk result (λ map. IfOk map (λ m. named_map size name.now text.now ≡ Some m)) }
    ensures refused { IfOk result (λ map. OnErr map (named_map size name.now text.now ≡ None)) }
{
    if name == "-" {
        return Ok(Ok(None));
    }
    match read_map(alloc, text) {
        Ok(map) if map.end() == size as u64 => Ok(Ok(Some(map))),
        Ok(_) => Ok(Err(MapRefusal::OtherDisk)),
        Err(MapFault::NoMap) => Ok(Err(MapRefusal::NoMap)),
        Err(MapFault::NoMemory) => Err(AllocError),
    }
}

// The line of a map that is refused.
fn refusal_line(alloc: Global, name: &str, why: MapRefusal) -> Result<Vec<u8>, AllocError> {
    let mut line = Vec::new(alloc);
    push_escaped(&mut line, name.as_bytes())?;
    line.extend_from_slice(why.text().as_bytes())?;
    Ok(line)
}

// Why the map of a name is not taken.
fn refused(alloc: Global, name: &str, why: MapRefusal) -> MapStop
    ensures { IsMapStop None result }
{
    match refusal_line(alloc, name, why) {
        Ok(line) => MapStop::Refused(line),
        Err(_) => MapStop::NoMemory,
    }
}

// The map of a name and a text, if there is one; or why it is not taken.
fn taken_map(alloc: Global, size: usize, name: &str, text: &[u8]) -> Result<Option<Map>, MapStop>
    ensures ok { IfOk result (λ map. named_map size name.now text.now ≡ Some map) }
    ensures stop { IfErr result (λ stop. (rest : Option (List (Option MapValue)))
        → IsMapStop (with_map (named_map size name.now text.now) rest) stop) }
{
    match named_map(alloc, size, name, text) {
        Ok(Ok(map)) => Ok(map),
        Ok(Err(why)) => Err(refused(alloc, name, why)),
        Err(_) => Err(MapStop::NoMemory),
    }
}

/// The maps of names and texts, for readings of a size; or the line of the first that is refused.
pub fn named_maps(
    alloc: Global,
    size: usize,
    names: &[&str],
    texts: &[ReadFile],
) -> Result<Vec<Option<Map>>, MapStop>
    requires { length names.now ≡ length texts.now }
    ensures ok { IfOk result (λ maps. named_maps size (texts_of names.now) texts.now ≡ Some maps.items) }
    ensures stop { IfErr result (IsMapStop (named_maps size (texts_of names.now) texts.now)) }
{
    let mut maps = Vec::new(alloc);
    for i in 0..names.len() {
        let map = taken_map(alloc, size, names[i], texts[i].bytes())?;
        if maps.push(map).is_err() {
            return Err(MapStop::NoMemory);
        }
    }
    Ok(maps)
}

// The map of reading `i`, if it has one.
fn map_at(maps: &[Option<Map>], i: usize) -> Option<&Map>
    ensures { option_map (λ m. m.now) result ≡ slice_index_or maps.now i None }
{
    match maps.get(i) {
        Some(Some(map)) => Some(map),
        _ => None,
    }
}

/// Readings with their maps; those behind the last map have none.
pub fn mapped<'a>(
    alloc: Global,
    readings: &'a [ReadFile],
    maps: &'a [Option<Map>],
) -> Result<Vec<MappedReading<'a>>, AllocError>
    ensures { IfOk result (λ all. all.items ≡ mapped readings.entry.now maps.entry.now) }
{
    let mut all = Vec::new(alloc);
    for i in 0..readings.len() {
        all.push(MappedReading::new(readings[i].bytes(), map_at(maps, i)))?;
    }
    Ok(all)
}

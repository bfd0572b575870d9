// What is answered to readings.

ghost use Rattle.std.specs.Prelude.{◌≡◌, ◌≤◌, ◌<◌, ◌*◌, All, false, length};
ghost use Rattle.adf_readings.specs.{Merge.HaveBlocks, declared.choice.TheConstants.MOST_READINGS};
ghost use Rattle.adf_runs.specs.{Outcomes.Does, Streams.seen};
ghost use Rattle.adf_merge_cmd.specs.Answers.{IsLikeFirst, IsMergeReply, MappedReply, MergeReply, first_reading, mapped, named_maps, told_reply};

use crate::command_line::MergeOrder;
use crate::doubt_lines::doubt_lines;
use crate::maps::{MapStop, mapped, named_maps};
use crate::read_file::ReadFile;
use crate::refusal::first_refused;
use adf_base::BLOCK_LEN;
use adf_maps::Map;
use adf_readings::{MappedReading, merge};
use adf_runs::{Outcome, Sink, write_all};
use std::alloc::Global;

// Writes an image, and says what is told of its blocks.
fn write_image<W: Sink>(image: &[u8], lines: Vec<u8>, sound: bool, output: &mut W) -> Outcome
    requires works { W.has_failed output.old ≡ false }
    ensures { Does (λ reply. reply ≡ told_reply sound image.now lines.items) result
        (seen W.held W.has_failed output.old output.new) }
{
    match write_all(output, image) {
        Ok(()) if sound => Outcome::Done,
        Ok(()) => Outcome::LeftOut(lines),
        Err(_) => Outcome::WriteFault,
    }
}

// Writes what readings of so many blocks are merged into.
fn write_merged<W: Sink>(
    alloc: Global,
    readings: &[MappedReading<'_>],
    blocks: u32,
    output: &mut W,
) -> Outcome
    requires works { W.has_failed output.old ≡ false }
    requires whole { HaveBlocks blocks readings.now }
    requires some { 0 < length readings.now }
    requires few { length readings.now ≤ MOST_READINGS }
    ensures { Does (IsMergeReply blocks readings.now) result (seen W.held W.has_failed output.old output.new) }
{
    match merge(alloc, readings, blocks) {
        Ok(merged) => match doubt_lines(alloc, &merged.doubts) {
            Ok(lines) => write_image(&merged.image, lines, merged.doubts.is_empty(), output),
            Err(_) => Outcome::NoMemory,
        },
        Err(_) => Outcome::NoMemory,
    }
}

// Writes what readings with these maps are merged into, each of so many blocks.
fn write_mapped<W: Sink>(
    alloc: Global,
    readings: &[ReadFile],
    maps: &[Option<Map>],
    blocks: u32,
    output: &mut W,
) -> Outcome
    requires works { W.has_failed output.old ≡ false }
    requires whole { All (λ r. length r ≡ blocks * 512) readings.now }
    requires some { 0 < length readings.now }
    requires few { length readings.now ≤ MOST_READINGS }
    ensures { Does (IsMergeReply blocks (mapped readings.now maps.now)) result
        (seen W.held W.has_failed output.old output.new) }
{
    match mapped(alloc, readings, maps) {
        Ok(all) => write_merged(alloc, &all, blocks, output),
        Err(_) => Outcome::NoMemory,
    }
}

// Answers readings that are not refused, and their maps.
fn answer_sized<W: Sink>(
    alloc: Global,
    order: &MergeOrder<'_>,
    readings: &[ReadFile],
    texts: &[ReadFile],
    output: &mut W,
) -> Outcome
    requires works { W.has_failed output.old ≡ false }
    requires sized { All (IsLikeFirst (first_reading readings.now)) readings.now }
    requires maps { length order.now.maps ≡ length texts.now }
    requires some { 0 < length readings.now }
    requires few { length readings.now ≤ MOST_READINGS }
    ensures { Does (MappedReply (named_maps (length (first_reading readings.now)) order.now.maps texts.now)
        (length (first_reading readings.now)) readings.now) result (seen W.held W.has_failed output.old output.new) }
{
    let size = readings[0].bytes().len();
    match named_maps(alloc, size, &order.maps, texts) {
        Ok(maps) => write_mapped(alloc, readings, &maps, (size / BLOCK_LEN) as u32, output),
        Err(MapStop::Refused(line)) => Outcome::LeftOut(line),
        Err(MapStop::NoMemory) => Outcome::NoMemory,
    }
}

/// Answers the readings and the maps of an order: writes what they are merged into, or refuses one.
pub fn answer<W: Sink>(
    alloc: Global,
    order: &MergeOrder<'_>,
    readings: &[ReadFile],
    texts: &[ReadFile],
    output: &mut W,
) -> Outcome
    requires works { W.has_failed output.old ≡ false }
    requires named { length order.now.readings ≡ length readings.now }
    requires maps { length order.now.maps ≡ length texts.now }
    requires some { 0 < length readings.now }
    requires few { length readings.now ≤ MOST_READINGS }
    ensures { Does (MergeReply order.now readings.now texts.now) result
        (seen W.held W.has_failed output.old output.new) }
{
    match first_refused(alloc, readings[0].bytes(), &order.readings, readings) {
        Ok(Some(line)) => Outcome::LeftOut(line),
        Ok(None) => answer_sized(alloc, order, readings, texts, output),
        Err(_) => Outcome::NoMemory,
    }
}

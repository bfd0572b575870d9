// The table of the right links of a judged image.

ghost use Rattle.std.specs.Prelude.{◌≡◌, ◌<◌, IfOk, IfSome, OnErr};
ghost use Rattle.adf_blocks.specs.Sizes.{blocks};
ghost use Rattle.adf_memory.specs.{Rooms.BeginsWith, SurveyCalls.FillsLinks, SurveyCalls.IsLinkOf};

use crate::judged::{Judged, judge_image};
use crate::tables::put;
use adf_base::{BLOCK_LEN, NoMemory};
use adf_blocks::Cause;
use adf_judge::{Claim, Object};
use adf_report::Report;
use std::alloc::Global;

/// The byte of a soft link where its path begins.
const PATH_START: usize = 24;

/// A right link that exists: it leads to something. Fields that do not apply are 0.
#[repr(C)]
#[derive(Clone, Copy)]
pub struct TableLink {
    /// The number of its entry.
    pub node: usize,
    /// The number of the file or directory that a hard link leads to.
    pub target: usize,
    /// The byte of the image where the path of a soft link begins.
    pub path: usize,
    /// The length of that path.
    pub path_length: usize,
    /// The block of its header.
    pub header: u32,
    /// 1 for a hard link to a file, 2 for one to a directory, 3 for a soft link.
    pub kind: u8,
}

// The number of a kind of link; 0 of what is none.
fn link_number(object: Object) -> u8 {
    match object {
        Object::FileLink => 1,
        Object::DirectoryLink => 2,
        Object::SoftLink => 3,
        Object::Directory | Object::File => 0,
    }
}

// Where the path of a soft link begins, by the block of its header; 0 of another link.
fn path_place(header: u32, object: Object) -> usize {
    if object == Object::SoftLink {
        BLOCK_LEN * header as usize + PATH_START
    } else {
        0
    }
}

// The length of the path of a soft link, by its number; 0 of another link.
fn path_size(report: &Report<'_, '_>, number: usize, object: Object) -> usize {
    if object == Object::SoftLink {
        report.soft_path(number).len()
    } else {
        0
    }
}

// The row of the entry at a place in the table.
fn link_row(judged: &Judged<'_>, report: &Report<'_, '_>, i: usize, claim: &Claim) -> TableLink
    requires { i < judged.now.blocks }
    ensures { IsLinkOf judged.now.blocks result }
{
    let header = judged.told_block(claim.header);
    TableLink {
        node: i + 1,
        target: judged.told_entry(claim.target),
        path: path_place(header, claim.object),
        path_length: path_size(report, i + 1, claim.object),
        header,
        kind: link_number(claim.object),
    }
}

// The row of the entry at a place in the table, if it is a right link.
fn right_row(judged: &Judged<'_>, report: &Report<'_, '_>, i: usize) -> Option<TableLink>
    requires { i < judged.now.blocks }
    ensures { IfSome result (IsLinkOf judged.now.blocks) }
{
    let claim = judged.entry(i)?;
    if report.is_right_link(i + 1) {
        Some(link_row(judged, report, i, claim))
    } else {
        None
    }
}

// Fills the table with the right links, as far as there is room. Returns how many there are.
fn put_right(judged: &Judged<'_>, report: &Report<'_, '_>, room: &mut [TableLink]) -> usize
    ensures { BeginsWith (IsLinkOf judged.now.blocks) result room.old room.new }
{
    let mut count = 0;
    for i in 0..judged.len() {
        let Some(row) = right_row(judged, report, i) else {
            continue;
        };
        put(room, count, row);
        count += 1;
    }
    count
}

// Judges an image and fills the table with its right links; with none if nothing is judged. Returns how many there are.
fn put_judged(alloc: Global, image: &[u8], links: &mut [TableLink]) -> Result<usize, NoMemory>
    ensures links { IfOk result (λ count. BeginsWith (IsLinkOf (blocks image.now)) count links.old links.new) }
    ensures unchanged { OnErr result (links.new ≡ links.old) }
{
    match judge_image(alloc, image)? {
        Some(judged) => {
            let report = Report::of(alloc, &judged.judgement)?;
            Ok(put_right(&judged, &report, links))
        }
        None => Ok(0),
    }
}

/// Judges an image and fills a table with its right links, in the order of their entries, as far as it has room. Writes how
/// many there are to `count`. Returns 0, or the number of `NoMemory` if memory ran out.
pub fn put_links(alloc: Global, image: &[u8], links: &mut [TableLink], count: &mut usize) -> u8
    ensures { FillsLinks image.now links.old links.new count.old count.new result }
{
    match put_judged(alloc, image, links) {
        Ok(right) => {
            *count = right;
            0
        }
        Err(_) => Cause::NoMemory.number(),
    }
}

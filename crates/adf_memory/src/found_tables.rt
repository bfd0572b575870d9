// The tables of the findings and of the entries of an image, and how they are filled.

ghost use Rattle.std.specs.Prelude.{◌≡◌, ◌≤◌, ◌<◌, length};
ghost use Rattle.adf_memory.specs.{Rooms.BeginsWith, SurveyCalls.IsEntryIn, SurveyCalls.IsFindingIn};

use crate::judged::Judged;
use crate::tables::{Date, date_of, field, put};
use adf_base::Letters;
use adf_findings::{Concern, Survey};
use adf_judge::{Claim, Object, Reading};
use adf_names::type_number;
use adf_report::{Report, Run};
use adf_tree::Node;

/// Findings of neighbouring blocks that have one cause and concern the same.
#[repr(C)]
#[derive(Clone, Copy)]
pub struct TableFinding {
    /// The first block.
    pub first: u32,
    /// The last block.
    pub last: u32,
    /// The number of the entry that is concerned, or of the directory in which a header was skipped; 0 for the root and for none.
    pub node: usize,
    /// The number of the entry that owns the blocks, if the cause is that they are taken; otherwise 0.
    pub owner: usize,
    /// The number of the cause.
    pub cause: u8,
    /// 1 if `node` is the directory in which a header was skipped, otherwise 0.
    pub is_within: u8,
}

/// A directory, file or link that exists. Entry n is at index n - 1 of the table.
#[repr(C)]
#[derive(Clone, Copy)]
pub struct FoundEntry {
    /// The number of its directory, or 0 for the root.
    pub parent: usize,
    /// The block of its header.
    pub header: u32,
    /// The size of a file in bytes, as its header says, or 0 for a directory.
    pub size: u32,
    /// The protection word.
    pub protection: u32,
    pub date: Date,
    /// 1 for a file or a link, 0 for a directory.
    pub is_file: u8,
    /// 1 if the entry is sound, otherwise 0.
    pub is_sound: u8,
    pub name_length: u8,
    /// The name, or of a renamed entry the new one, padded with zeros.
    pub name: [u8; 79],
    pub comment_length: u8,
    /// The comment, padded with zeros.
    pub comment: [u8; 79],
}

/// What a survey has besides its tables. Fields that do not apply are 0.
#[repr(C)]
#[derive(Clone, Copy)]
pub struct Surveyed {
    /// 0 for OFS, 1 for FFS.
    pub kind: u32,
    /// All blocks, including the two boot blocks; 0 if nothing is judged.
    pub blocks: u32,
    /// Rows of the table of findings.
    pub findings: usize,
    /// Directories, files and links that exist, excluding the root.
    pub entries: usize,
    /// The root's own date in the root block.
    pub root: Date,
    /// The date of the last change of the volume.
    pub altered: Date,
    /// The date on which the volume was created.
    pub created: Date,
    pub label_length: u8,
    /// The label, padded with zeros.
    pub label: [u8; 30],
}

// 1 if a header was skipped in the directory that is concerned.
fn is_within(concern: Option<Concern>) -> u8 {
    match concern {
        Some(Concern::Within(_)) => 1,
        _ => 0,
    }
}

// The number of the entry that a node of a survey is, by the report of what is judged, if anything is; 0 for the root, for one that
// does not exist, and for one past the most.
fn number_of(
    survey: &Survey<'_>,
    report: Option<&Report<'_, '_>>,
    most: usize,
    n: Option<Node>,
) -> usize
    ensures { result ≤ most }
{
    let (Some(report), Some(n)) = (report, n) else {
        return 0;
    };
    let number = report.claim_at(survey.block_of(n).unwrap_or(0));
    if number <= most { number } else { 0 }
}

// The node that is concerned.
fn concerned(concern: Option<Concern>) -> Option<Node> {
    match concern {
        Some(Concern::Entry(n) | Concern::Within(n)) => Some(Node(n as usize)),
        None => None,
    }
}

// The row of a run of findings.
fn finding_row(
    survey: &Survey<'_>,
    report: Option<&Report<'_, '_>>,
    most: usize,
    run: &Run,
) -> TableFinding
    ensures { IsFindingIn most result }
{
    TableFinding {
        first: run.first,
        last: run.last,
        node: number_of(survey, report, most, concerned(run.concern())),
        owner: number_of(survey, report, most, run.owner()),
        cause: run.cause.number(),
        is_within: is_within(run.concern()),
    }
}

/// Fills the table of findings as far as there is room, with a row for each run: it names entries by the report of what is judged,
/// if anything is, and none past the most.
pub fn put_findings(
    survey: &Survey<'_>,
    report: Option<&Report<'_, '_>>,
    most: usize,
    runs: &[Run],
    room: &mut [TableFinding],
)
    ensures { BeginsWith (IsFindingIn most) (length runs.now) room.old room.new }
{
    for i in 0..runs.len() {
        put(room, i, finding_row(survey, report, most, &runs[i]));
    }
}

// Whether a directory or a file is sound; links are not.
fn is_sound(report: &Report<'_, '_>, claim: &Claim, number: usize) -> bool {
    match claim.object {
        Object::Directory | Object::File => report.is_sound(number),
        Object::SoftLink | Object::DirectoryLink | Object::FileLink => false,
    }
}

// The row of the entry at a place in the table.
fn entry_row(judged: &Judged<'_>, i: usize, claim: &Claim, is_sound: bool) -> FoundEntry
    requires { i < judged.now.blocks }
    ensures { IsEntryIn judged.now.blocks result }
{
    let name = &claim.name[..claim.name.len().min(79)];
    let comment = claim.meta.comment.bytes();
    FoundEntry {
        parent: claim.directory.min(i),
        header: judged.told_block(claim.header),
        size: claim.size,
        protection: claim.meta.protect,
        date: date_of(claim.meta.stamp),
        is_file: u8::from(claim.object != Object::Directory),
        is_sound: u8::from(is_sound),
        name_length: name.len() as u8,
        name: field(name),
        comment_length: comment.len() as u8,
        comment: field(comment),
    }
}

/// Fills the table of entries as far as there is room. Returns how many there are.
pub fn put_found(judged: &Judged<'_>, report: &Report<'_, '_>, room: &mut [FoundEntry]) -> usize
    ensures rows { BeginsWith (IsEntryIn judged.now.blocks) result room.old room.new }
    ensures few { result ≤ judged.now.blocks }
{
    let count = judged.len();
    for i in 0..count {
        let Some(claim) = judged.entry(i) else {
            return i;
        };
        put(
            room,
            i,
            entry_row(judged, i, claim, is_sound(report, claim, i + 1)),
        );
    }
    count
}

/// What there is besides so many rows of findings if nothing is judged.
pub fn not_judged(findings: usize) -> Surveyed
    ensures findings { result.findings ≡ findings }
    ensures entries { result.entries ≡ 0 }
{
    let date = Date {
        days: 0,
        mins: 0,
        ticks: 0,
    };
    Surveyed {
        kind: 0,
        blocks: 0,
        findings,
        entries: 0,
        root: date,
        altered: date,
        created: date,
        label_length: 0,
        label: [0; 30],
    }
}

/// What a volume that is read so has besides its tables, of so many rows and entries.
pub fn surveyed_of(reading: &Reading, findings: usize, entries: usize) -> Surveyed
    ensures findings { result.findings ≡ findings }
    ensures entries { result.entries ≡ entries }
{
    let label = reading.label.bytes();
    Surveyed {
        kind: u32::from(type_number(Letters::Ascii, reading.kind)),
        blocks: reading.blocks,
        findings,
        entries,
        root: date_of(reading.stamps.root),
        altered: date_of(reading.stamps.altered),
        created: date_of(reading.stamps.created),
        label_length: label.len() as u8,
        label: field(label),
    }
}

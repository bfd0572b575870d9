// Lines of a manifest after the first.

ghost use Rattle.std.specs.Prelude.{◌≡◌, ◌≢◌, ◌<◌, ◌≤◌, ◌^◌, ◌++◌, ◌∷◌, ℕ, List, IfSome, IfNone, length};
ghost use Rattle.adf_base.specs.declared.dates.Stamp.{Stamp as StampValue};
ghost use Rattle.adf_names.specs.declared.meta.Stamps.{Stamps as StampsValue};
ghost use Rattle.adf_manifest.specs.declared.lines.Sort.{Sort as SortValue};
ghost use Rattle.adf_base.specs.Dates.{IsStamp};
ghost use Rattle.adf_names.specs.Meta.{AreStamps};
ghost use Rattle.adf_manifest.specs.Lines.{DataRun, FillRun, HasForm, IsLine, IsRun, LineValue, RunValue, data_line, entry_line};
ghost use Rattle.adf_manifest.specs.Lines.{fields_text, fill_line, label_line, line_text, line_value, note_line, run_line};
ghost use Rattle.adf_manifest.specs.Lines.{run_value, sort_text, stamps_line};

use crate::digits::{Digits, read_byte, read_word};
use crate::tokens::{after, cut_at, cut_twice, read_number, read_stamp, read_stamps};
use adf_base::Stamp;
use adf_tree::Stamps;

/// The most bytes that one `fill` line may add.
pub const MOST_FILL: u32 = 536_870_912;

/// The first word of an entry line.
#[derive(Clone, Copy)]
pub enum Sort {
    Dir,
    File,
}

/// The content of an entry line, with its path as in the text.
#[derive(Drop)]
pub struct EntryText<'a> {
    pub sort: Sort,
    pub stamp: Stamp,
    pub protect: u32,
    pub path: &'a [u8],
}

/// The bytes that a line adds to a file: by their digits, or one byte repeated.
#[derive(Drop)]
pub enum Run<'a> {
    Data(Digits<'a>),
    Fill(u32, u8),
}

/// The content of a line, with its text or path as in the manifest.
#[derive(Drop)]
pub enum Line<'a> {
    Label(&'a [u8]),
    Stamps(Stamps),
    Entry(EntryText<'a>),
    Note(&'a [u8]),
    Run(Run<'a>),
}

// The text of a label line.
fn label_text(line: &[u8]) -> Option<&[u8]>
    ensures some { IfSome result (λ text. (0 < length text.now)
        × (line.now ≡ label_line text.now)) }
    ensures none { IfNone result ((text : List ℕ) → 0 < length text → line.now ≢ label_line text) }
{
    let text = after(line, b"label ")?;
    if text.is_empty() { None } else { Some(text) }
}

// The text of a note line.
fn note_text(line: &[u8]) -> Option<&[u8]>
    ensures some { IfSome result (λ text. (0 < length text.now) × (line.now ≡ note_line text.now)) }
    ensures none { IfNone result ((text : List ℕ) → 0 < length text → line.now ≢ note_line text) }
{
    let text = after(line, b"note ")?;
    if text.is_empty() { None } else { Some(text) }
}

// The stamps of a stamps line.
fn stamps_of(line: &[u8]) -> Option<Stamps>
    ensures some { IfSome result (λ stamps. AreStamps stamps × (line.now ≡ stamps_line stamps)) }
    ensures none { IfNone result ((stamps : StampsValue) → AreStamps stamps
        → line.now ≢ stamps_line stamps) }
{
    let text = after(line, b"stamps ")?;
    read_stamps(text)
}

// The first word of an entry line, and the rest of the line.
fn sort_of(line: &[u8]) -> Option<(Sort, &[u8])>
    ensures some { IfSome result (λ r. line.now ≡ sort_text r.0 ++ r.1.now) }
    ensures none { IfNone result ((sort : SortValue) (rest : List ℕ)
        → line.now ≢ sort_text sort ++ rest) }
{
    match after(line, b"dir ") {
        Some(rest) => Some((Sort::Dir, rest)),
        None => {
            let rest = after(line, b"file ")?;
            Some((Sort::File, rest))
        }
    }
}

// The fields after the first word of an entry line.
fn fields_of(sort: Sort, text: &[u8]) -> Option<EntryText<'_>>
    ensures sort { IfSome result (λ e. e.sort ≡ sort) }
    ensures form { IfSome result (λ e. IsStamp e.stamp × (e.protect < 2 ^ 32)
        × (0 < length e.path.now)) }
    ensures some { IfSome result (λ e. text.now ≡ fields_text e.stamp e.protect e.path.now) }
    ensures none { IfNone result ((stamp : StampValue) (protect : ℕ) (path : List ℕ) → IsStamp stamp
        → protect < 2 ^ 32 → 0 < length path → text.now ≢ fields_text stamp protect path) }
{
    let (stamp, protect, path) = cut_twice(text, b' ')?;
    let stamp = read_stamp(stamp)?;
    let protect = read_word(protect)?;
    if path.is_empty() {
        return None;
    }
    Some(EntryText {
        sort,
        stamp,
        protect,
        path,
    })
}

// The content of an entry line.
fn entry_of(line: &[u8]) -> Option<EntryText<'_>>
    ensures form { IfSome result (λ e. IsStamp e.stamp × (e.protect < 2 ^ 32)
        × (0 < length e.path.now)) }
    ensures some { IfSome result (λ e. line.now ≡ entry_line e.sort e.stamp e.protect e.path.now) }
    ensures none { IfNone result
        ((sort : SortValue) (stamp : StampValue) (protect : ℕ) (path : List ℕ) → IsStamp stamp
        → protect < 2 ^ 32 → 0 < length path → line.now ≢ entry_line sort stamp protect path) }
{
    let (sort, rest) = sort_of(line)?;
    fields_of(sort, rest)
}

// The digits of a data line.
fn data_of(line: &[u8]) -> Option<Digits<'_>>
    ensures some { IfSome result (λ bytes. (line.now ≡ data_line bytes) × IsRun (DataRun bytes)) }
    ensures none { IfNone result ((bytes : List ℕ) → IsRun (DataRun bytes)
        → line.now ≢ data_line bytes) }
{
    let text = after(line, b"data ")?;
    if text.is_empty() {
        return None;
    }
    Digits::read(text)
}

// The count and the byte of a fill line.
fn fill_of(line: &[u8]) -> Option<(u32, u8)>
    ensures some { IfSome result (λ r. (line.now ≡ fill_line r.0 r.1) × IsRun (FillRun r.0 r.1)) }
    ensures none { IfNone result ((count byte : ℕ) → IsRun (FillRun count byte)
        → line.now ≢ fill_line count byte) }
{
    let text = after(line, b"fill ")?;
    let (count, byte) = cut_at(text, b' ')?;
    let count = read_number(count)?;
    let byte = read_byte(byte)?;
    if 0 < count && count <= MOST_FILL {
        Some((count, byte))
    } else {
        None
    }
}

// The bytes that a data or fill line adds.
fn run_of(line: &[u8]) -> Option<Run<'_>>
    ensures form { IfSome result (λ r. IsRun (run_value r)) }
    ensures some { IfSome result (λ r. line.now ≡ run_line (run_value r)) }
    ensures none { IfNone result ((run : RunValue) → IsRun run → line.now ≢ run_line run) }
{
    match data_of(line) {
        Some(digits) => Some(Run::Data(digits)),
        None => {
            let (count, byte) = fill_of(line)?;
            Some(Run::Fill(count, byte))
        }
    }
}

// The content of a line inside a file or after an entry.
fn inner_line(line: &[u8]) -> Option<Line<'_>>
    ensures form { IfSome result (λ l. IsLine (line_value l)) }
    ensures some { IfSome result (λ l. line.now ≡ line_text (line_value l)) }
    ensures note { IfNone result ((text : List ℕ) → 0 < length text → line.now ≢ note_line text) }
    ensures run { IfNone result ((run : RunValue) → IsRun run → line.now ≢ run_line run) }
{
    match note_text(line) {
        Some(text) => Some(Line::Note(text)),
        None => Some(Line::Run(run_of(line)?)),
    }
}

/// The content of a line after the first; `None` if it has no valid form.
pub fn line_of(line: &[u8]) -> Option<Line<'_>>
    ensures form { IfSome result (λ l. IsLine (line_value l)) }
    ensures some { IfSome result (λ l. line.now ≡ line_text (line_value l)) }
    ensures none { IfNone result (¬ HasForm line.now) }
{
    if let Some(text) = label_text(line) {
        return Some(Line::Label(text));
    }
    if let Some(stamps) = stamps_of(line) {
        return Some(Line::Stamps(stamps));
    }
    match entry_of(line) {
        Some(entry) => Some(Line::Entry(entry)),
        None => inner_line(line),
    }
}

// The state of the reader between two lines.

ghost use Rattle.std.specs.Prelude.{◌≡◌, ◌<◌, ◌++◌, ◌∷◌, [], ℕ, List, IfSome, IfNone, IfOk, IfErr, None, length};
ghost use Rattle.std.specs.Option.{unwrap_or};
ghost use Rattle.adf_base.specs.declared.hash.Letters.TheVariants.{Ascii};
ghost use Rattle.adf_names.specs.{PathTexts.IsPathText, Meta.AreStamps};
ghost use Rattle.adf_drafts.specs.Draft.{IsRoomFor};
ghost use Rattle.adf_manifest.specs.Lines.{IsLine, IsRun, IsVolumeLine, LabelLine, NoteLine, RunLine, StampsLine, entry_value};
ghost use Rattle.adf_manifest.specs.Lines.{label_line, line_text, line_value, run_value, stamps_line, volume_line};
ghost use Rattle.adf_manifest.specs.Items.{Item, body_of_sort, run_bytes, with_item};
ghost use Rattle.adf_manifest.specs.Manifest.{Entries, HasBadText, IsFirstLineFault, IsPreamble, IsLaterFault, IsWell, Manifest};
ghost use Rattle.adf_manifest.specs.Manifest.{preamble_lines, preamble_tree, manifest_lines, manifest_tree};
ghost use Rattle.adf_manifest.specs.Reader.{HasNextLine, IsLastEntry, IsReading, StopsIn, Stops, StopsAt, StateMatches, bare};

use crate::lines::{EntryText, Line, Run, Sort, line_of};
use crate::manifest::ManifestKind;
use crate::tokens::{after, read_number};
use adf_base::{NoMemory, Stamp};
use adf_blocks::is_plain_size;
use adf_drafts::{Draft, Room};
use adf_tree::{
    Body, Bytes, Comment, Kind, Label, Meta, NO_STAMPS, PathFault, RoomFault, Stamps, Tree,
    read_path,
};
use std::alloc::{AllocError, Global};
use std::mem;

/// The content of the lines before the entries.
#[derive(Drop)]
pub struct Preamble {
    pub kind: Kind,
    pub blocks: u32,
    pub label: Option<Label>,
    pub stamps: Option<Stamps>,
}

const NO_PREAMBLE: Preamble = Preamble {
    kind: Kind::Ofs,
    blocks: 0,
    label: None,
    stamps: None,
};

/// The content of the lines of an entry so far, with the room of its path.
#[derive(Drop)]
pub struct LastEntry {
    pub sort: Sort,
    pub stamp: Stamp,
    pub protect: u32,
    pub room: Room,
    pub note: Option<Comment>,
    pub bytes: Vec<u8>,
}

/// The content of the lines from the first entry line on: the tree of the entries before the last, and the last.
#[derive(Drop)]
pub struct Reading {
    pub blocks: u32,
    pub draft: Draft,
    pub last: LastEntry,
}

/// The content of the lines so far.
#[derive(Drop)]
pub enum State {
    Preamble(Preamble),
    Entries(Reading),
}

// The kind and the number of a volume line.
fn volume_of(line: &[u8]) -> Option<(Kind, u32)>
    ensures some { IfSome result (λ v. line.now ≡ volume_line v.0 v.1) }
    ensures none { IfNone result (¬ IsVolumeLine line.now) }
{
    match after(line, b"volume ofs ") {
        Some(number) => Some((Kind::Ofs, read_number(number)?)),
        None => {
            let number = after(line, b"volume ffs ")?;
            Some((Kind::Ffs, read_number(number)?))
        }
    }
}

// Reads the first line.
fn read_volume(line: &[u8]) -> Result<Preamble, ManifestKind>
    ensures preamble { IfOk result IsPreamble }
    ensures lines { IfOk result (λ h. preamble_lines h ≡ line.now ∷ []) }
    ensures fault { IfErr result (λ kind. IsFirstLineFault line.now kind) }
{
    let Some((kind, blocks)) = volume_of(line) else {
        return Err(ManifestKind::BadLine);
    };
    if !is_plain_size(blocks) {
        return Err(ManifestKind::BadSize);
    }
    Ok(Preamble {
        kind,
        blocks,
        label: None,
        stamps: None,
    })
}

// The preamble with a label, from the text of its line.
fn with_label(preamble: Preamble, text: &[u8]) -> Result<Preamble, ManifestKind>
    requires filled { 0 < length text.now }
    requires place { (preamble.label ≡ None) × (preamble.stamps ≡ None) }
    ensures preamble { IsPreamble preamble → IfOk result IsPreamble }
    ensures lines { IfOk result (λ h. preamble_lines h ≡ preamble_lines preamble ++ label_line text.now ∷ []) }
    ensures fault { IfErr result (λ kind. (kind ≡ ManifestKind.BadText)
        × HasBadText (LabelLine text.now)) }
{
    match Label::read(text) {
        Some(label) => Ok(Preamble {
            kind: preamble.kind,
            blocks: preamble.blocks,
            label: Some(label),
            stamps: None,
        }),
        None => Err(ManifestKind::BadText),
    }
}

// The preamble with stamps.
fn with_stamps(preamble: Preamble, stamps: Stamps) -> Preamble
    requires numbers { AreStamps stamps }
    requires place { preamble.stamps ≡ None }
    ensures preamble { IsPreamble preamble → IsPreamble result }
    ensures lines { preamble_lines result ≡ preamble_lines preamble ++ stamps_line stamps ∷ [] }
{
    Preamble {
        kind: preamble.kind,
        blocks: preamble.blocks,
        label: preamble.label,
        stamps: Some(stamps),
    }
}

// The tree of a preamble.
fn tree_of(alloc: Global, preamble: Preamble) -> Draft
    ensures { result.tree ≡ preamble_tree preamble }
{
    let Preamble {
        kind,
        label,
        stamps,
        ..
    } = preamble;
    let no_label = Label::new(b"").unwrap();
    Draft::new(
        alloc,
        kind,
        label.unwrap_or(no_label),
        stamps.unwrap_or(NO_STAMPS),
    )
}

// The entry of an entry line, if the tree, of ASCII letters, has room for it.
fn begin_entry(alloc: Global, draft: &Draft, line: EntryText) -> Result<LastEntry, ManifestKind>
    requires form { IsLine (entry_value line) }
    requires letters { draft.now.tree.letters ≡ Ascii }
    ensures fields { IfOk result (λ o. (o.sort ≡ line.entry.sort) × (o.stamp ≡ line.entry.stamp)
        × (o.protect ≡ line.entry.protect) × (o.note ≡ None) × (o.bytes.items ≡ [])) }
    ensures room { IfOk result (λ o. (path : List (List ℕ)) × IsPathText line.entry.path.now path
        × IsRoomFor draft.now path o.room) }
    ensures fault { IfErr result (λ kind. StopsIn draft.now.tree (entry_value line.entry) kind) }
{
    let path = match read_path(alloc, line.path) {
        Ok(path) => path,
        Err(PathFault::BadText) => return Err(ManifestKind::BadText),
        Err(PathFault::NoMemory) => return Err(ManifestKind::NoMemory),
    };
    match draft.room(path.as_slice()) {
        Ok(room) => Ok(LastEntry {
            sort: line.sort,
            stamp: line.stamp,
            protect: line.protect,
            room,
            note: None,
            bytes: Vec::new(alloc),
        }),
        Err(RoomFault::EmptyPath) => Err(ManifestKind::BadText),
        Err(RoomFault::NoParent) => Err(ManifestKind::NoParent),
        Err(RoomFault::ParentIsFile) => Err(ManifestKind::ParentIsFile),
        Err(RoomFault::Exists) => Err(ManifestKind::Exists),
    }
}

// The body of an entry with these bytes.
fn body_of_sort(sort: Sort, bytes: Vec<u8>) -> Body
    ensures { result ≡ body_of_sort sort bytes.items }
{
    match sort {
        Sort::Dir => Body::Dir,
        Sort::File => Body::File(Bytes::new(bytes)),
    }
}

// The note of an entry, empty if it has none.
fn note_or_none(note: Option<Comment>) -> Comment
    ensures { result ≡ unwrap_or note [] }
{
    match note {
        Some(note) => note,
        None => Comment::new(b"").unwrap(),
    }
}

// Adds an entry in its room of a draft of ASCII letters, after all its lines are read.
fn close(alloc: Global, draft: &mut Draft, last: &mut LastEntry) -> Result<(), ManifestKind>
    requires room { (path : List (List ℕ)) × IsRoomFor draft.old path last.old.room }
    requires letters { draft.old.tree.letters ≡ Ascii }
    ensures tree { IfOk result (λ _. (i : Item) → IsLastEntry last.old i
        → IsRoomFor draft.old i.path last.old.room
        → draft.new.tree ≡ with_item draft.old.tree i) }
    ensures err { IfErr result (λ kind. kind ≡ ManifestKind.NoMemory) }
{
    let meta = Meta::new(note_or_none(last.note.take()), last.protect, last.stamp);
    let bytes = mem::replace(&mut last.bytes, Vec::new(alloc));
    let body = body_of_sort(last.sort, bytes);
    match draft.put(&last.room, meta, body) {
        Ok(()) => Ok(()),
        Err(NoMemory) => Err(ManifestKind::NoMemory),
    }
}

// The state after the first entry line.
fn first_entry(alloc: Global, preamble: Preamble, line: EntryText) -> Result<State, ManifestKind>
    requires form { IsLine (entry_value line) }
    ensures lines { IsWell (bare preamble)
        → IfOk result (λ s. HasNextLine s (bare preamble) (line_text (entry_value line.entry))) }
    ensures fault { IfErr result (λ kind. StopsIn (preamble_tree preamble) (entry_value line.entry) kind) }
{
    let blocks = preamble.blocks;
    let draft = tree_of(alloc, preamble);
    let last = begin_entry(alloc, &draft, line)?;
    Ok(State::Entries(Reading {
        blocks,
        draft,
        last,
    }))
}

// Reads a further entry line.
fn next_entry(alloc: Global, reading: &mut Reading, line: EntryText) -> Result<(), ManifestKind>
    requires form { IsLine (entry_value line) }
    requires told { (m : Manifest) × (e : Entries) × IsReading reading.old m e }
    ensures lines { (m : Manifest) (e : Entries) → IsWell m → IsReading reading.old m e
        → IfOk result (λ _.
        HasNextLine (State.Entries reading.new) m (line_text (entry_value line.entry))) }
    ensures fault { (m : Manifest) (e : Entries) → IsReading reading.old m e
        → IfErr result (λ kind. StopsIn (manifest_tree m) (entry_value line.entry) kind) }
{
    close(alloc, &mut reading.draft, &mut reading.last)?;
    match begin_entry(alloc, &reading.draft, line) {
        Ok(last) => {
            reading.last = last;
            Ok(())
        }
        Err(kind) => Err(kind),
    }
}

// Reads a note line.
#[tactic(auto, using(crate::proofs::StateLaws::is_none, crate::proofs::StateLaws::no_runs, crate::proofs::Growth::last_is))]
fn take_note(reading: &mut Reading, text: &[u8]) -> Result<(), ManifestKind>
    requires form { 0 < length text.now }
    ensures lines { (m : Manifest) (e : Entries) → IsWell m → IsReading reading.old m e
        → IfOk result (λ _. HasNextLine (State.Entries reading.new) m (line_text (NoteLine text.now))) }
    ensures fault { (m : Manifest) (e : Entries) → IsWell m → IsReading reading.old m e
        → IfErr result (λ kind. Stops m (NoteLine text.now) kind) }
{
    if reading.last.note.is_some() || !reading.last.bytes.is_empty() {
        return Err(ManifestKind::BadLine);
    }
    match Comment::read(text) {
        Some(note) => {
            reading.last.note = Some(note);
            Ok(())
        }
        None => Err(ManifestKind::BadText),
    }
}

// Appends the bytes of a line; if memory is refused, some of them may have been appended.
fn push_run(bytes: &mut Vec<u8>, run: Run) -> Result<(), AllocError>
    requires form { IsRun (run_value run) }
    ensures { IfOk result (λ _.
        bytes.new.items ≡ bytes.old.items ++ run_bytes (run_value run.entry)) }
{
    match run {
        Run::Data(digits) => digits.push_onto(bytes),
        Run::Fill(count, byte) => bytes.resize(bytes.len() + count as usize, byte),
    }
}

// Reads a data or fill line.
fn take_run(reading: &mut Reading, run: Run) -> Result<(), ManifestKind>
    requires form { IsRun (run_value run) }
    ensures lines { (m : Manifest) (e : Entries) → IsWell m → IsReading reading.old m e
        → IfOk result (λ _.
        HasNextLine (State.Entries reading.new) m (line_text (RunLine (run_value run.entry)))) }
    ensures fault { (m : Manifest) (e : Entries) → IsReading reading.old m e
        → IfErr result (λ kind. Stops m (RunLine (run_value run.entry)) kind) }
{
    match reading.last.sort {
        Sort::Dir => Err(ManifestKind::BadLine),
        Sort::File => match push_run(&mut reading.last.bytes, run) {
            Ok(()) => Ok(()),
            Err(_) => Err(ManifestKind::NoMemory),
        },
    }
}

// The state after a line of this form, before any entry line.
fn line_in_preamble(alloc: Global, preamble: Preamble, line: Line) -> Result<State, ManifestKind>
    requires form { IsLine (line_value line) }
    ensures lines { IsWell (bare preamble)
        → IfOk result (λ s. HasNextLine s (bare preamble) (line_text (line_value line.entry))) }
    ensures fault { IfErr result (λ kind. Stops (bare preamble) (line_value line.entry) kind) }
{
    match line {
        Line::Label(text) => {
            if preamble.label.is_some() || preamble.stamps.is_some() {
                return Err(ManifestKind::BadLine);
            }
            Ok(State::Preamble(with_label(preamble, text)?))
        }
        Line::Stamps(stamps) => {
            if preamble.stamps.is_some() {
                return Err(ManifestKind::BadLine);
            }
            Ok(State::Preamble(with_stamps(preamble, stamps)))
        }
        Line::Entry(entry) => first_entry(alloc, preamble, entry),
        Line::Note(_) | Line::Run(_) => Err(ManifestKind::BadLine),
    }
}

// Reads a line of this form, after an entry line.
fn line_in_entries(alloc: Global, reading: &mut Reading, line: Line) -> Result<(), ManifestKind>
    requires form { IsLine (line_value line) }
    requires told { (m : Manifest) × (e : Entries) × IsReading reading.old m e }
    ensures lines { (m : Manifest) (e : Entries) → IsWell m → IsReading reading.old m e
        → IfOk result (λ _.
        HasNextLine (State.Entries reading.new) m (line_text (line_value line.entry))) }
    ensures fault { (m : Manifest) (e : Entries) → IsWell m → IsReading reading.old m e
        → IfErr result (λ kind. Stops m (line_value line.entry) kind) }
{
    match line {
        Line::Entry(entry) => next_entry(alloc, reading, entry),
        Line::Note(text) => take_note(reading, text),
        Line::Run(run) => take_run(reading, run),
        Line::Label(_) | Line::Stamps(_) => Err(ManifestKind::BadLine),
    }
}

/// The state after the first line.
#[tactic(auto, using(crate::proofs::StateLaws::bare_lines, crate::proofs::StateLaws::bare_well))]
pub fn first_state(line: &[u8]) -> Result<State, ManifestKind>
    ensures lines { IfOk result (λ s. (m : Manifest) × IsWell m × StateMatches s m
        × (manifest_lines m ≡ line.now ∷ [])) }
    ensures fault { IfErr result (λ kind. IsFirstLineFault line.now kind) }
{
    Ok(State::Preamble(read_volume(line)?))
}

/// Reads a further line.
pub fn next_state(alloc: Global, state: &mut State, line: &[u8]) -> Result<(), ManifestKind>
    requires told { (m : Manifest) × StateMatches state.old m }
    ensures lines { (m : Manifest) → IsWell m → StateMatches state.old m
        → IfOk result (λ _. HasNextLine state.new m line.now) }
    ensures fault { (m : Manifest) → IsWell m → StateMatches state.old m
        → IfErr result (λ kind. StopsAt m line.now kind) }
{
    let Some(line) = line_of(line) else {
        return Err(ManifestKind::BadLine);
    };
    match state {
        State::Preamble(preamble) => {
            let preamble = mem::replace(preamble, NO_PREAMBLE);
            *state = line_in_preamble(alloc, preamble, line)?;
            Ok(())
        }
        State::Entries(reading) => line_in_entries(alloc, reading, line),
    }
}

// The tree of a draft, with the number of blocks.
fn finished(alloc: Global, draft: Draft, blocks: u32) -> Result<(Tree, u32), ManifestKind>
    ensures told { IfOk result (λ r. (r.0 ≡ draft.tree) × (r.1 ≡ blocks)) }
    ensures err { IfErr result (λ kind. kind ≡ ManifestKind.NoMemory) }
{
    match draft.finish(alloc) {
        Ok(tree) => Ok((tree, blocks)),
        Err(_) => Err(ManifestKind::NoMemory),
    }
}

/// The tree and the number of blocks of the lines.
#[tactic(auto, using(crate::proofs::StateLaws::bare_tree))]
pub fn finish(alloc: Global, state: State) -> Result<(Tree, u32), ManifestKind>
    requires told { (m : Manifest) × StateMatches state m }
    ensures told { (m : Manifest) → IsWell m → StateMatches state m
        → IfOk result (λ r. (r.0 ≡ manifest_tree m) × (r.1 ≡ m.preamble.blocks)) }
    ensures err { IfErr result (λ kind. kind ≡ ManifestKind.NoMemory) }
{
    match state {
        State::Preamble(preamble) => {
            let blocks = preamble.blocks;
            finished(alloc, tree_of(alloc, preamble), blocks)
        }
        State::Entries(reading) => {
            let mut reading = reading;
            close(alloc, &mut reading.draft, &mut reading.last)?;
            finished(alloc, reading.draft, reading.blocks)
        }
    }
}

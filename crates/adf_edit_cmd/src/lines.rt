// Lines of a script: a word, and what it is about. A value stands behind the first `:`, which no name has.

ghost use Rattle.std.specs.Prelude.{◌≡◌, ◌≢◌, ◌<◌, ℕ, IfOk, IfErr, IfSome, IfNone, false, true};
ghost use Rattle.adf_edits.specs.Edits.{EditValue, edit_value};
ghost use Rattle.adf_plans.specs.PlanTexts.{before_byte, behind_byte};
ghost use Rattle.adf_edit_cmd.specs.Lines.{SaysBehindVerb, SaysEdit, SaysProtection, flags_text, has_byte, letter_if_clear};
ghost use Rattle.adf_edit_cmd.specs.Lines.{letter_if_set, verb_of};

use crate::dates::said_date;
use adf_edits::{Change, Edit};
use adf_manifest::{read_number, read_word};
use adf_names::{Comment, Label, PathFault, read_path};
use adf_plans::cut;
use std::alloc::Global;

/// The first word of a line.
#[derive(Clone, Copy, Debug, PartialEq, Eq)]
pub enum Verb {
    Remove,
    Move,
    Dir,
    File,
    Replace,
    Note,
    Protect,
    Date,
    Label,
}

// What the first word of a line asks for.
fn verb_of(word: &[u8]) -> Option<Verb>
    ensures { result ≡ verb_of word.now }
{
    if word == b"remove".as_slice() {
        Some(Verb::Remove)
    } else if word == b"move".as_slice() {
        Some(Verb::Move)
    } else if word == b"dir".as_slice() {
        Some(Verb::Dir)
    } else if word == b"file".as_slice() {
        Some(Verb::File)
    } else if word == b"replace".as_slice() {
        Some(Verb::Replace)
    } else if word == b"note".as_slice() {
        Some(Verb::Note)
    } else if word == b"protect".as_slice() {
        Some(Verb::Protect)
    } else if word == b"date".as_slice() {
        Some(Verb::Date)
    } else if word == b"label".as_slice() {
        Some(Verb::Label)
    } else {
        None
    }
}

// The bytes before and behind the first byte of this value; `None` if there is none.
fn cut_at(text: &[u8], byte: u8) -> Option<(&[u8], &[u8])>
    ensures some { IfSome result (λ r. has_byte byte text.now ≡ true) }
    ensures front { IfSome result (λ r. r.0.now ≡ before_byte byte text.now) }
    ensures behind { IfSome result (λ r. r.1.now ≡ behind_byte byte text.now) }
    ensures none { IfNone result (has_byte byte text.now ≡ false) }
{
    let (front, behind) = cut(text, byte);
    if front.len() < text.len() {
        Some((front, behind))
    } else {
        None
    }
}

/// Whether a byte of this value stands in a text.
pub fn has_byte(text: &[u8], byte: u8) -> bool
    ensures { result ≡ has_byte byte text.now }
{
    cut_at(text, byte).is_some()
}

// PATH
#[tactic(auto, using(crate::proofs::ScriptLines::no_remove))]
fn read_remove(alloc: Global, text: &[u8]) -> Result<Edit, PathFault>
    ensures ok { IfOk result (λ e. SaysBehindVerb Verb.Remove text.now (edit_value e)) }
    ensures bad { IfErr result (λ f. f ≡ PathFault.BadText → (e : EditValue)
        → ¬ SaysBehindVerb Verb.Remove text.now e) }
{
    let path = read_path(alloc, text)?;
    Ok(Edit::Remove(path))
}

// PATH
#[tactic(auto, using(crate::proofs::ScriptLines::no_dir))]
fn read_dir(alloc: Global, text: &[u8]) -> Result<Edit, PathFault>
    ensures ok { IfOk result (λ e. SaysBehindVerb Verb.Dir text.now (edit_value e)) }
    ensures bad { IfErr result (λ f. f ≡ PathFault.BadText → (e : EditValue)
        → ¬ SaysBehindVerb Verb.Dir text.now e) }
{
    let path = read_path(alloc, text)?;
    Ok(Edit::Dir(path))
}

// TEXT
#[tactic(auto, using(crate::proofs::ScriptLines::no_label))]
fn read_label(text: &[u8]) -> Result<Edit, PathFault>
    ensures ok { IfOk result (λ e. SaysBehindVerb Verb.Label text.now (edit_value e)) }
    ensures bad { IfErr result (λ f. f ≡ PathFault.BadText → (e : EditValue)
        → ¬ SaysBehindVerb Verb.Label text.now e) }
{
    match Label::read(text) {
        Some(label) => Ok(Edit::Label(label)),
        None => Err(PathFault::BadText),
    }
}

// PATH:PATH
#[tactic(auto, using(crate::proofs::ScriptLines::no_move, crate::proofs::ScriptLines::no_origin, crate::proofs::ScriptLines::no_target))]
fn read_move(alloc: Global, text: &[u8]) -> Result<Edit, PathFault>
    ensures ok { IfOk result (λ e. SaysBehindVerb Verb.Move text.now (edit_value e)) }
    ensures bad { IfErr result (λ f. f ≡ PathFault.BadText → (e : EditValue)
        → ¬ SaysBehindVerb Verb.Move text.now e) }
{
    let Some((from, to)) = cut_at(text, b':') else {
        return Err(PathFault::BadText);
    };
    let from = read_path(alloc, from)?;
    let to = read_path(alloc, to)?;
    Ok(Edit::Move(from, to))
}

// PATH:SIZE
#[tactic(auto, using(crate::proofs::ScriptLines::no_file, crate::proofs::ScriptLines::no_size))]
fn read_file(alloc: Global, text: &[u8]) -> Result<Edit, PathFault>
    ensures ok { IfOk result (λ e. SaysBehindVerb Verb.File text.now (edit_value e)) }
    ensures bad { IfErr result (λ f. f ≡ PathFault.BadText → (e : EditValue)
        → ¬ SaysBehindVerb Verb.File text.now e) }
{
    let (path, size) = cut(text, b':');
    let Some(size) = read_number(size) else {
        return Err(PathFault::BadText);
    };
    let path = read_path(alloc, path)?;
    Ok(Edit::File(path, size))
}

// PATH:SIZE
#[tactic(auto, using(crate::proofs::ScriptLines::no_replaced, crate::proofs::ScriptLines::no_new_size))]
fn read_replace(alloc: Global, text: &[u8]) -> Result<Edit, PathFault>
    ensures ok { IfOk result (λ e. SaysBehindVerb Verb.Replace text.now (edit_value e)) }
    ensures bad { IfErr result (λ f. f ≡ PathFault.BadText → (e : EditValue)
        → ¬ SaysBehindVerb Verb.Replace text.now e) }
{
    let (path, size) = cut(text, b':');
    let Some(size) = read_number(size) else {
        return Err(PathFault::BadText);
    };
    let path = read_path(alloc, path)?;
    Ok(Edit::Replace(path, size))
}

// PATH:TEXT
#[tactic(auto, using(crate::proofs::ScriptLines::no_comment, crate::proofs::ScriptLines::no_noted, crate::proofs::ScriptLines::no_note))]
fn read_note(alloc: Global, text: &[u8]) -> Result<Edit, PathFault>
    ensures ok { IfOk result (λ e. SaysBehindVerb Verb.Note text.now (edit_value e)) }
    ensures bad { IfErr result (λ f. f ≡ PathFault.BadText → (e : EditValue)
        → ¬ SaysBehindVerb Verb.Note text.now e) }
{
    let Some((path, note)) = cut_at(text, b':') else {
        return Err(PathFault::BadText);
    };
    let Some(note) = Comment::read(note) else {
        return Err(PathFault::BadText);
    };
    let path = read_path(alloc, path)?;
    Ok(Edit::Change(path, Change::Note(note)))
}

// A letter if its bit of a protection is set, else `-`.
fn letter_if_set(letter: u8, bit: u32, word: u32) -> u8
    ensures { result ≡ letter_if_set letter bit word }
{
    if word & bit == 0 { b'-' } else { letter }
}

// A letter if its bit is not set, since it forbids, else `-`.
fn letter_if_clear(letter: u8, bit: u32, word: u32) -> u8
    ensures { result ≡ letter_if_clear letter bit word }
{
    if word & bit == 0 { letter } else { b'-' }
}

// The low eight bits of a protection, as AmigaDOS lists them.
fn flags_text(word: u32) -> [u8; 8]
    ensures { result ≡ flags_text word }
{
    [
        letter_if_set(b'h', 128, word),
        letter_if_set(b's', 64, word),
        letter_if_set(b'p', 32, word),
        letter_if_set(b'a', 16, word),
        letter_if_clear(b'r', 8, word),
        letter_if_clear(b'w', 4, word),
        letter_if_clear(b'e', 2, word),
        letter_if_clear(b'd', 1, word),
    ]
}

// The protection of eight bits that is listed so.
fn read_flags(text: &[u8]) -> Option<u32>
    ensures some { IfSome result (λ word. (word < 256) × (text.now ≡ flags_text word)) }
    ensures none { IfNone result ((word : ℕ) → word < 256 → text.now ≢ flags_text word) }
{
    for word in 0..256u32 {
        if text == flags_text(word).as_slice() {
            return Some(word);
        }
    }
    None
}

// The protection that a text says.
fn read_protection(text: &[u8]) -> Option<u32>
    ensures some { IfSome result (λ word. SaysProtection text.now word) }
    ensures none { IfNone result ((word : ℕ) → ¬ SaysProtection text.now word) }
{
    match read_word(text) {
        Some(word) => Some(word),
        None => read_flags(text),
    }
}

// PATH:PROTECTION
#[tactic(auto, using(crate::proofs::ScriptLines::no_protected, crate::proofs::ScriptLines::no_protection))]
fn read_protect(alloc: Global, text: &[u8]) -> Result<Edit, PathFault>
    ensures ok { IfOk result (λ e. SaysBehindVerb Verb.Protect text.now (edit_value e)) }
    ensures bad { IfErr result (λ f. f ≡ PathFault.BadText → (e : EditValue)
        → ¬ SaysBehindVerb Verb.Protect text.now e) }
{
    let (path, word) = cut(text, b':');
    let Some(word) = read_protection(word) else {
        return Err(PathFault::BadText);
    };
    let path = read_path(alloc, path)?;
    Ok(Edit::Change(path, Change::Protect(word)))
}

// PATH:DATE
#[tactic(auto, using(crate::proofs::ScriptLines::no_dated, crate::proofs::ScriptLines::no_date))]
fn read_date(alloc: Global, text: &[u8]) -> Result<Edit, PathFault>
    ensures ok { IfOk result (λ e. SaysBehindVerb Verb.Date text.now (edit_value e)) }
    ensures bad { IfErr result (λ f. f ≡ PathFault.BadText → (e : EditValue)
        → ¬ SaysBehindVerb Verb.Date text.now e) }
{
    let (path, date) = cut(text, b':');
    let date = said_date(alloc, date)?;
    let path = read_path(alloc, path)?;
    Ok(Edit::Change(path, Change::Date(date)))
}

// What a word asks for, with the text behind it.
fn read_verb(alloc: Global, verb: Verb, text: &[u8]) -> Result<Edit, PathFault>
    ensures ok { IfOk result (λ e. SaysBehindVerb verb text.now (edit_value e)) }
    ensures bad { IfErr result (λ f. f ≡ PathFault.BadText → (e : EditValue)
        → ¬ SaysBehindVerb verb text.now e) }
{
    match verb {
        Verb::Remove => read_remove(alloc, text),
        Verb::Move => read_move(alloc, text),
        Verb::Dir => read_dir(alloc, text),
        Verb::File => read_file(alloc, text),
        Verb::Replace => read_replace(alloc, text),
        Verb::Note => read_note(alloc, text),
        Verb::Protect => read_protect(alloc, text),
        Verb::Date => read_date(alloc, text),
        Verb::Label => read_label(text),
    }
}

/// The edit of a line. `BadText` if and only if it has none; `NoMemory` if an allocation fails.
#[tactic(auto, using(crate::proofs::ScriptLines::no_space, crate::proofs::ScriptLines::no_verb, crate::proofs::ScriptLines::no_edit))]
pub fn read_edit(alloc: Global, line: &[u8]) -> Result<Edit, PathFault>
    ensures ok { IfOk result (λ e. SaysEdit line.now (edit_value e)) }
    ensures bad { IfErr result (λ f. f ≡ PathFault.BadText → (e : EditValue) → ¬ SaysEdit line.now e) }
{
    let Some((word, text)) = cut_at(line, b' ') else {
        return Err(PathFault::BadText);
    };
    match verb_of(word) {
        Some(verb) => read_verb(alloc, verb, text),
        None => Err(PathFault::BadText),
    }
}

// Scripts: lines of edits, perhaps one or two that set something of the whole volume, and a line `end`. Each ends in a line feed.

ghost use Rattle.std.specs.Prelude.{◌≡◌, ◌<◌, ◌≤◌, ◌^◌, IfOk, IfErr, OnOk, length, map, option_map};
ghost use Rattle.adf_edits.specs.Edits.{edit_value};
ghost use Rattle.adf_edit_cmd.specs.Script.{IsNextRead, IsScript, IsScriptFault, behind_file, ending, files_len, is_end};
ghost use Rattle.adf_edit_cmd.specs.Script.{boot_asked, bytes_taken, caches_by, ended, ended_next, letters_asked, letters_by, with_boot_edit};
ghost use Rattle.adf_edit_cmd.specs.Script.{with_letters, with_line_of};
ghost use Rattle.adf_edit_cmd.specs.declared.script.TheConstants.{MOST_LINES};

use crate::lines::read_edit;
use crate::stop::Stop;
use adf_base::Letters;
use adf_edits::Edit;
use adf_names::PathFault;
use adf_plans::cut_line;
use std::alloc::Global;
use std::marker::Model;

/// The most edits of a script, each a line.
pub const MOST_LINES: usize = 1000;

/// What is done with the boot blocks.
#[derive(Clone, Copy, Debug, PartialEq, Eq)]
pub enum BootEdit {
    /// They get the code that starts AmigaDOS.
    Install,
    /// They get zeros behind the type.
    Clear,
}

/// What the letters of names become, and whether directories have caches.
#[derive(Clone, Copy, Debug, PartialEq, Eq)]
pub enum LettersEdit {
    /// ASCII letters, and no caches.
    Ascii,
    /// International letters, and no caches.
    International,
    /// International letters, and a cache for each directory.
    Cached,
}

/// What a script sets of the whole volume: the letters of its names with the caches of its directories, and its boot blocks.
#[derive(Clone, Copy, Debug, PartialEq, Eq)]
pub struct Settings {
    pub letters: Option<LettersEdit>,
    pub boot: Option<BootEdit>,
}

// Nothing is set.
const NO_SETTINGS: Settings = Settings {
    letters: None,
    boot: None,
};

/// A script: its edits, and what it sets of the whole volume.
#[derive(Drop)]
pub struct Script {
    pub edits: Vec<Edit>,
    pub settings: Settings,
}

impl Model for Script {
    ghost use Rattle.std.specs.Prelude.{map};
    ghost use Rattle.adf_edits.specs.Edits.{edit_value};
    ghost use Rattle.adf_edit_cmd.specs.Script.{ScriptValue};

    ghost Value = { ScriptValue };

    ghost view = { λ s. record { edits = map edit_value s.edits.items; settings = s.settings } };
}

// Whether a line is `end`.
fn is_end(line: &[u8]) -> bool
    ensures { result ≡ is_end line.now }
{
    line == b"end".as_slice()
}

// What a line asks of letters and caches.
fn letters_asked(line: &[u8]) -> Option<LettersEdit>
    ensures { result ≡ letters_asked line.now }
{
    if line == b"letters ascii".as_slice() {
        Some(LettersEdit::Ascii)
    } else if line == b"letters international".as_slice() {
        Some(LettersEdit::International)
    } else if line == b"letters cached".as_slice() {
        Some(LettersEdit::Cached)
    } else {
        None
    }
}

// What a line asks for the boot blocks.
fn boot_asked(line: &[u8]) -> Option<BootEdit>
    ensures { result ≡ boot_asked line.now }
{
    if line == b"boot install".as_slice() {
        Some(BootEdit::Install)
    } else if line == b"boot clear".as_slice() {
        Some(BootEdit::Clear)
    } else {
        None
    }
}

/// The letters of the new volume, where those of the old one are these.
pub fn letters_after(asked: Option<LettersEdit>, old: Letters) -> Letters
    ensures { result ≡ letters_by asked old }
{
    match asked {
        None => old,
        Some(LettersEdit::Ascii) => Letters::Ascii,
        Some(LettersEdit::International) => Letters::International,
        Some(LettersEdit::Cached) => Letters::International,
    }
}

/// Whether the directories of the new volume have caches, where those of the old one do or do not.
pub fn caches_after(asked: Option<LettersEdit>, old: bool) -> bool
    ensures { result ≡ caches_by asked old }
{
    match asked {
        None => old,
        Some(LettersEdit::Ascii) => false,
        Some(LettersEdit::International) => false,
        Some(LettersEdit::Cached) => true,
    }
}

impl Settings {
    // These letters too, unless a line before set them.
    fn with_letters(self, letters: LettersEdit) -> Option<Settings>
        ensures { result ≡ with_letters self letters }
    {
        if self.letters.is_some() {
            return None;
        }
        Some(Settings {
            letters: Some(letters),
            boot: self.boot,
        })
    }

    // This for the boot blocks too, unless a line before set them.
    fn with_boot(self, boot: BootEdit) -> Option<Settings>
        ensures { result ≡ with_boot_edit self boot }
    {
        if self.boot.is_some() {
            return None;
        }
        Some(Settings {
            letters: self.letters,
            boot: Some(boot),
        })
    }

    // What a line sets too; `None` if it sets nothing, or what a line before set.
    fn with_line(self, line: &[u8]) -> Option<Settings>
        ensures { result ≡ with_line_of self line.now }
    {
        match (letters_asked(line), boot_asked(line)) {
            (Some(letters), _) => self.with_letters(letters),
            (None, Some(boot)) => self.with_boot(boot),
            (None, None) => None,
        }
    }

    // These settings and the bytes behind, where `end` is left.
    fn ended(self, left: &[u8]) -> Option<(Settings, &[u8])>
        ensures { ended self left.now ≡ option_map (λ r. (r.0, r.1.now)) result }
    {
        let (line, next) = cut_line(left);
        if is_end(line) {
            Some((self, next))
        } else {
            None
        }
    }

    // The same, where one line before `end` may set more.
    fn ended_next(self, left: &[u8]) -> Option<(Settings, &[u8])>
        ensures { ended_next self left.now ≡ option_map (λ r. (r.0, r.1.now)) result }
    {
        let (line, next) = cut_line(left);
        if is_end(line) {
            return Some((self, next));
        }
        self.with_line(line)?.ended(next)
    }
}

// What the end of a script sets, and the bytes behind it; `None` if it is not next.
fn ending(left: &[u8]) -> Option<(Settings, &[u8])>
    ensures { ending left.now ≡ option_map (λ r. (r.0, r.1.now)) result }
{
    let (line, next) = cut_line(left);
    if is_end(line) {
        return Some((NO_SETTINGS, next));
    }
    NO_SETTINGS.with_line(line)?.ended_next(next)
}

// Reads the next line as an edit, if the lines before it are not too many.
fn read_next(alloc: Global, edits: &mut Vec<Edit>, line: &[u8]) -> Result<(), Stop>
    requires { length edits.old.items ≤ MOST_LINES }
    ensures { IsNextRead edits.old.items edits.new.items line.now result }
{
    let number = edits.len() + 1;
    if MOST_LINES < number {
        return Err(Stop::BadLine(number));
    }
    match read_edit(alloc, line) {
        Ok(edit) => match edits.push(edit) {
            Ok(()) => Ok(()),
            Err(_) => Err(Stop::NoMemory),
        },
        Err(PathFault::BadText) => Err(Stop::BadLine(number)),
        Err(PathFault::NoMemory) => Err(Stop::NoMemory),
    }
}

impl Script {
    // Adds what a line asks for: an edit, or a setting, behind which no edit stands.
    fn add_line(&mut self, alloc: Global, line: &[u8]) -> Result<(), Stop>
        requires few { length self.old.edits ≤ MOST_LINES }
        ensures few { OnOk result (length self.new.edits ≤ MOST_LINES) }
    {
        if let Some(settings) = self.settings.with_line(line) {
            self.settings = settings;
            return Ok(());
        }
        if self.settings != NO_SETTINGS {
            return Err(Stop::BadLine(self.edits.len() + 1));
        }
        read_next(alloc, &mut self.edits, line)
    }
}

/// The script of lines without `end`. `BadLine` names the first that says no edit, is one too many, or sets something before an edit.
pub fn script_of(alloc: Global, lines: &[String]) -> Result<Script, Stop> {
    let mut script = Script {
        edits: Vec::new(alloc),
        settings: NO_SETTINGS,
    };
    for line in lines {
        script.add_line(alloc, line.as_bytes())?;
    }
    Ok(script)
}

/// Reads a script, and the bytes behind its line `end`. `BadLine` names the first line before its end that says no edit, or is
/// one too many.
#[tactic(auto, using(crate::proofs::Scripts::none_read, crate::proofs::Scripts::next_fault, crate::proofs::Scripts::script_read))]
pub fn read_script(alloc: Global, text: &[u8]) -> Result<(Script, &[u8]), Stop>
    ensures script { IfOk result (λ r. IsScript text.now r.0 r.1.now) }
    ensures fault { IfErr result (IsScriptFault text.now) }
{
    let mut edits = Vec::new(alloc);
    let mut left = text;
    loop {
        if let Some((settings, rest)) = ending(left) {
            return Ok((Script { edits, settings }, rest));
        }
        let (line, rest) = cut_line(left);
        read_next(alloc, &mut edits, line)?;
        left = rest;
    }
}

// How many bytes an edit takes of those behind the script.
fn bytes_taken(edit: &Edit) -> usize
    ensures exact { result ≡ bytes_taken (edit_value edit.now) }
    ensures few { result < 2 ^ 32 }
{
    match edit {
        Edit::File(_, size) | Edit::Replace(_, size) => *size as usize,
        _ => 0,
    }
}

/// How many bytes the files of edits take.
pub fn files_len(edits: &[Edit]) -> usize
    requires { length edits.now ≤ MOST_LINES }
    ensures { result ≡ files_len (map edit_value edits.now) }
{
    let mut len = 0;
    for edit in edits {
        len += bytes_taken(edit);
    }
    len
}

/// The bytes behind those that an edit takes; none if there are fewer.
pub fn behind_file<'a>(edit: &Edit, given: &'a [u8]) -> &'a [u8]
    ensures { result.now ≡ behind_file (edit_value edit.now) given.now }
{
    let size = bytes_taken(edit).min(given.len());
    &given[size..]
}

// Manifests.

ghost use Rattle.std.specs.Prelude.{◌≡◌, ◌≤◌, ◌++◌, ◌∷◌, ℕ, List, IfOk, IfErr, length, option_map};
ghost use Rattle.adf_base.specs.declared.hash.Letters.TheVariants.{Ascii};
ghost use Rattle.adf_manifest.specs.{Kinds.manifest_kind_number, Kinds.manifest_kind_text, Manifest.without_last_feed};
ghost use Rattle.adf_manifest.specs.Manifest.{AddingLinesGivesTheTree, CanLackMemory, ExplainsFault, IsManifest, IsWell};
ghost use Rattle.adf_manifest.specs.Manifest.{LinesHaveOneFault, Manifest, ManifestsAreFaultless, ManifestsAreOfOneTree};
ghost use Rattle.adf_manifest.specs.Manifest.{manifest_lines, manifest_tree, most_bytes, between_feeds, lines, lines_behind};
ghost use Rattle.adf_manifest.specs.Reader.{ExplainsLines, StateMatches, line_of_fault};

use crate::reader::{State, finish, first_state, next_state};
use crate::tokens::cut_at;
use adf_tree::Tree;
use std::alloc::Global;
use std::error::Error;
use std::fmt;

/// The most bytes of a manifest.
pub const MOST_BYTES: usize = 16_777_216;

/// Why a manifest is refused.
#[derive(Clone, Copy, Debug, PartialEq, Eq)]
pub enum ManifestKind {
    /// The line has no form that is allowed at its place.
    BadLine = 1,
    /// The number of blocks is not allowed: not even, or not 4 to 1,048,576.
    BadSize = 2,
    /// A text is not in the escape form, or is too long.
    BadText = 3,
    /// The directory of the entry does not exist.
    NoParent = 4,
    /// A file is used as a directory.
    ParentIsFile = 5,
    /// An entry with this path exists.
    Exists = 6,
    /// An allocation failed.
    NoMemory = 7,
    /// The manifest is longer than `MOST_BYTES`.
    TooLong = 8,
}

impl ManifestKind {
    /// The number of the kind, 1 to 8.
    pub fn number(self) -> u8
        ensures { result ≡ manifest_kind_number self }
    {
        self as u8
    }

    /// The text of the kind.
    pub fn text(self) -> &'static str
        ensures { result.now ≡ manifest_kind_text self }
    {
        match self {
            ManifestKind::BadLine => "bad line",
            ManifestKind::BadSize => "bad size",
            ManifestKind::BadText => "bad text",
            ManifestKind::NoParent => "no parent",
            ManifestKind::ParentIsFile => "parent is file",
            ManifestKind::Exists => "exists",
            ManifestKind::NoMemory => "no memory",
            ManifestKind::TooLong => "too long",
        }
    }
}

impl fmt::Display for ManifestKind {
    ghost use Rattle.std.specs.Prelude.{Some};
    ghost use Rattle.adf_manifest.specs.Kinds.{manifest_kind_text};

    ghost output = { λ k. Some (manifest_kind_text k) };

    fn fmt<W: fmt::Write>(&self, f: &mut fmt::Formatter<W>) -> fmt::Result {
        f.write_str(self.text())
    }
}

/// The first line with a fault, and its first kind.
#[derive(Clone, Copy, Debug, PartialEq, Eq)]
pub struct ManifestFault {
    /// The line, counted from 1; 0 for `NoMemory` and `TooLong`.
    pub line: usize,
    pub kind: ManifestKind,
}

impl fmt::Display for ManifestFault {
    ghost use Rattle.std.specs.Prelude.{Some};
    ghost use Rattle.adf_manifest.specs.Kinds.{manifest_fault_text};

    ghost output = { λ f. Some (manifest_fault_text f) };

    fn fmt<W: fmt::Write>(&self, f: &mut fmt::Formatter<W>) -> fmt::Result {
        let line = self.line;
        let kind = self.kind;
        write!(f, "line {line}: {kind}")
    }
}

impl Error for ManifestFault {}

// The first line of a text, and the text after its line feed.
fn next_line(text: &[u8]) -> (&[u8], Option<&[u8]>)
    ensures { between_feeds text.now
        ≡ result.0.now ∷ lines_behind (option_map (λ rest. rest.now) result.1) }
{
    match cut_at(text, b'\n') {
        Some((line, rest)) => (line, Some(rest)),
        None => (text, None),
    }
}

// The fault of a line; `NoMemory` has line 0.
fn fault_at(number: usize, kind: ManifestKind) -> ManifestFault
    ensures kind { result.kind ≡ kind }
    ensures line { result.line ≡ line_of_fault kind number }
{
    let line = match kind {
        ManifestKind::NoMemory => 0,
        _ => number,
    };
    ManifestFault { line, kind }
}

// Reads the lines of a text. The last line has no line feed.
fn read_lines(alloc: Global, text: &[u8]) -> Result<State, ManifestFault>
    requires { length text.now ≤ most_bytes }
    ensures lines { IfOk result (λ s. (m : Manifest) × IsWell m × StateMatches s m
        × (between_feeds text.now ≡ manifest_lines m)) }
    ensures fault { IfErr result (λ f. ExplainsLines f.kind f.line (between_feeds text.now)) }
    ensures memory { IfErr result (λ f. f.kind ≡ ManifestKind.NoMemory
        → CanLackMemory (between_feeds text.now)) }
{
    let (line, mut left) = next_line(text);
    let mut state = match first_state(line) {
        Ok(state) => state,
        Err(kind) => return Err(fault_at(1, kind)),
    };
    let mut number = 1usize;
    while let Some(rest) = left {
        let (line, behind) = next_line(rest);
        number += 1;
        match next_state(alloc, &mut state, line) {
            Ok(()) => (),
            Err(kind) => return Err(fault_at(number, kind)),
        }
        left = behind;
    }
    Ok(state)
}

// The bytes without a line feed at the end.
fn without_last_feed(bytes: &[u8]) -> &[u8]
    ensures { result.now ≡ without_last_feed bytes.now }
{
    let count = bytes.len();
    if count > 0 && bytes[count - 1] == b'\n' {
        &bytes[..count - 1]
    } else {
        bytes
    }
}

/// Reads a manifest: returns its tree and its number of blocks. `TooLong` if it is longer than `MOST_BYTES`;
/// `NoMemory` if an allocation fails, which can happen only at an entry, data or fill line that is allowed at its place,
/// or after the last line; otherwise the first line with a fault, and the first kind there.
pub fn read_manifest(alloc: Global, bytes: &[u8]) -> Result<(Tree, u32), ManifestFault>
    ensures manifest { IfOk result (λ r. IsManifest bytes.now r.0 r.1) }
    ensures letters { IfOk result (λ r. r.0.letters ≡ Ascii) }
    ensures fault { IfErr result (λ f. ExplainsFault f bytes.now) }

    // `NoMemory` is answered only for a line that may take memory, or after all lines.
    ensures memory { IfErr result (λ f. f.kind ≡ ManifestKind.NoMemory → CanLackMemory (lines bytes.now)) }
{
    if bytes.len() > MOST_BYTES {
        return Err(ManifestFault {
            line: 0,
            kind: ManifestKind::TooLong,
        });
    }
    let state = match read_lines(alloc, without_last_feed(bytes)) {
        Ok(state) => state,
        Err(fault) => return Err(fault),
    };
    match finish(alloc, state) {
        Ok(told) => Ok(told),
        Err(kind) => Err(fault_at(0, kind)),
    }
}

/// Bytes have one verdict: a manifest has one tree and one number of blocks, and no line with a fault;
/// other lines have at most one first fault. Adding the entry lines one after another gives the tree.
#[tactic(auto, using(crate::proofs::TreesOfLines::adding_lines))]
pub fn one_verdict()
    ensures one_tree { ManifestsAreOfOneTree }
    ensures adding { AddingLinesGivesTheTree }
    ensures faultless { ManifestsAreFaultless }
    ensures one_fault { LinesHaveOneFault }
{}

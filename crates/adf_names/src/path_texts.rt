// The texts of paths.

ghost use Rattle.std.specs.Prelude.{IsOk, ◌≡◌, ◌==◌, position, ◌≢◌, ◌↔◌, ◌<◌, ◌∷◌, [], ℕ, List, Err, IfOk, IfErr, IfSome, IfNone};
ghost use Rattle.std.specs.{Prelude.length, Bool.OnTrue, Bool.OnFalse, String.string_bytes};
ghost use Rattle.adf_names.specs.{Escapes.escaped, PathFaults.path_fault_number, PathTexts.PathTextsDecide};
ghost use Rattle.adf_names.specs.PathTexts.{between_slashes, path_text, with_name, HasPathOrNone, IsName, IsPathText};

use crate::escapes::{push_escaped, read_escaped};
use crate::name::Name;
use adf_base::NoMemory;
use std::alloc::{AllocError, Global};
use std::error::Error;
use std::fmt;

/// Why a text cannot be read as a path.
#[derive(Clone, Copy, Debug, PartialEq, Eq)]
pub enum PathFault {
    /// The text is not that of a list of names.
    BadText = 1,
    /// An allocation failed.
    NoMemory = 2,
}

impl PathFault {
    /// The number of the fault, 1 or 2.
    pub fn number(self) -> u8
        ensures { result ≡ path_fault_number self }
    {
        self as u8
    }
}

impl fmt::Display for PathFault {
    ghost use Rattle.std.specs.Prelude.{Some};
    ghost use Rattle.adf_names.specs.PathFaults.{path_fault_text};

    ghost output = { λ x. Some (path_fault_text x) };

    fn fmt<W: fmt::Write>(&self, f: &mut fmt::Formatter<W>) -> fmt::Result {
        f.write_str(match self {
            PathFault::BadText => "bad path",
            PathFault::NoMemory => "no memory",
        })
    }
}

impl Error for PathFault {}

// The name whose escape form is the text.
#[tactic(auto, using(crate::proofs::PathParts::no_name))]
fn read_name(text: &[u8]) -> Option<Name>
    ensures some { IfSome result (λ n. text.now ≡ escaped n) }
    ensures name { IfSome result IsName }
    ensures none { IfNone result ((name : List ℕ) → IsName name → text.now ≢ escaped name) }
{
    let bytes = read_escaped::<30>(text)?;
    Name::new(bytes.as_slice())
}

// The index of the first `/`.
fn slash(text: &[u8]) -> Option<usize>
    ensures { result ≡ position (λ c. c == 47) text.now }
{
    text.iter().position(|c| *c == b'/')
}

// The part of a text before the first `/`, and the part after it.
#[tactic(auto, using(crate::proofs::Positions::cut_at_position, crate::proofs::Positions::uncut_at_none))]
fn cut(text: &[u8]) -> (&[u8], Option<&[u8]>)
    ensures last { IfNone result.1 (between_slashes text.now ≡ result.0.now ∷ []) }
    ensures more { IfSome result.1 (λ after.
        between_slashes text.now ≡ result.0.now ∷ between_slashes after.now) }
    ensures shorter { IfSome result.1 (λ after. length after.now < length text.now) }
{
    match slash(text) {
        Some(i) => (&text[..i], Some(&text[i + 1..])),
        None => (text, None),
    }
}

// Whether the text is that of a path.
#[tactic(auto, using(crate::proofs::PathParts::name_steps, crate::proofs::PathParts::at_none))]
fn has_names(text: &[u8]) -> bool
    requires { 0 < length text.now }
    ensures yes { OnTrue result ((path : List (List ℕ)) × IsPathText text.now path) }
    ensures no { OnFalse result ((path : List (List ℕ)) → ¬ IsPathText text.now path) }
{
    let mut rest = text;
    loop {
        let (part, after) = cut(rest);
        if read_name(part).is_none() {
            return false;
        }
        match after {
            Some(text) => rest = text,
            None => return true,
        }
    }
}

// The names of the text of a path.
fn names_of(alloc: Global, text: &[u8]) -> Result<Vec<Name>, PathFault>
    requires { 0 < length text.now }
    ensures ok { IfOk result (λ path. IsPathText text.now path.items) }
    ensures err { IfErr result (λ f. f ≡ PathFault.BadText → (path : List (List ℕ))
        → ¬ IsPathText text.now path) }
{
    let mut path = Vec::new(alloc);
    let mut rest = text;
    loop {
        let (part, after) = cut(rest);
        let Some(name) = read_name(part) else {
            return Err(PathFault::BadText);
        };
        if path.push(name).is_err() {
            return Err(PathFault::NoMemory);
        }
        match after {
            Some(text) => rest = text,
            None => return Ok(path),
        }
    }
}

/// Reads the text of a path. `BadText` if and only if it is not the text of a list of names, even if memory is
/// short; `NoMemory` if an allocation fails, never for the empty text.
pub fn read_path(alloc: Global, text: &[u8]) -> Result<Vec<Name>, PathFault>
    ensures ok { IfOk result (λ path. IsPathText text.now path.items) }
    ensures empty { text.now ≡ [] → IsOk result }
    ensures bad_text { (result ≡ Err PathFault.BadText)
        ↔ ((path : List (List ℕ)) → ¬ IsPathText text.now path) }
{
    if text.is_empty() {
        return Ok(Vec::new(alloc));
    }
    match names_of(alloc, text) {
        Err(PathFault::NoMemory) if !has_names(text) => Err(PathFault::BadText),
        answer => answer,
    }
}

// Appends a name to the text of a path, after a `/` unless it is the first.
fn push_name(text: &mut String, name: &Name, is_first: bool) -> Result<(), AllocError>
    ensures { IfOk result (λ _.
        string_bytes text.new ≡ with_name (string_bytes text.old) name.now is_first) }
{
    if !is_first {
        text.push('/')?;
    }
    push_escaped(text, name.bytes())
}

// The text of a path.
fn joined(alloc: Global, path: &[Name]) -> Result<String, AllocError>
    ensures ok { IfOk result (λ text. string_bytes text ≡ path_text path.now) }
    ensures empty { path.now ≡ [] → IsOk result }
{
    let mut text = String::new(alloc);
    for (i, name) in path.iter().enumerate() {
        push_name(&mut text, name, i == 0)?;
    }
    Ok(text)
}

/// The text of a path: its escaped names, joined by `/`. The empty path needs no memory.
pub fn write_path(alloc: Global, path: &[Name]) -> Result<String, NoMemory>
    ensures ok { IfOk result (λ text. string_bytes text ≡ path_text path.now) }
    ensures empty { path.now ≡ [] → IsOk result }
{
    joined(alloc, path).map_err(|_| NoMemory)
}

/// A text is that of at most one path, so `read_path` inverts `write_path`.
#[tactic(auto, using(crate::proofs::PathParts::one_path))]
pub fn path_texts_decide()
    ensures { PathTextsDecide }
{}

/// Each text is that of a path, or of none.
pub fn path_or_none()
    ensures { (text : List ℕ) → HasPathOrNone text }
{}

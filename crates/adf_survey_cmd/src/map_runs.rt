// Runs whose words may name the file of a map.

ghost use Rattle.std.specs.Prelude.{◌≡◌, ◌⊎◌, ◌<◌, ◌+◌, IfErr, IfOk, IfSome, [], false, length, true};
ghost use Rattle.std.specs.Str.{IsUtf8};
ghost use Rattle.adf_file_runs.specs.FileRuns.{known_files};
ghost use Rattle.adf_runs.specs.Streams.{AreFirst, seen};
ghost use Rattle.adf_survey_cmd.specs.MapRuns.{AreReadOf, EndsWithMap, SurveyEnds, TellsNoMap, is_map};
ghost use Rattle.adf_words.specs.CommandLine.{texts_of};

use crate::map_words::{map_word, with_text};
use crate::runner::run_files;
use adf_file_runs::{Files, Invocation, refuse_file};
use adf_maps::{MapFault, read_map};
use adf_names::push_escaped;
use adf_runs::{Outcome, Sink, Source, read_all};
use std::alloc::{AllocError, Global};

/// The most bytes of the text of a map.
pub const MOST_MAP: usize = 16_777_216;

// The bytes of a map's file, up to the limit and one more; where they are not had, that is said on errors.
#[tactic(auto, using(crate::proofs::MapWords::known_first))]
fn map_bytes<F: Files, E: Sink>(
    alloc: Global,
    files: &F,
    name: &str,
    errors: &mut E,
) -> Option<Vec<u8>>
    requires { E.has_failed errors.old ≡ false }
    ensures bytes { IfSome result (λ bytes. AreFirst (MOST_MAP + 1) (F.bytes_of files.now name.now) bytes.items) }
    ensures errors { IfSome result (λ _. errors.new ≡ errors.old) }
{
    let mut source = match files.open(name.as_bytes()) {
        Ok(source) => source,
        Err(why) => {
            refuse_file(alloc, name, why, errors);
            return None;
        }
    };
    match read_all(alloc, &mut source, MOST_MAP) {
        Ok(bytes) => Some(bytes),
        Err(fault) => {
            Outcome::after_reading(fault).finish(errors);
            None
        }
    }
}

// Whether bytes are a map of ddrescue.
#[tactic(auto, unfolding(crate::specs::MapRuns::is_map))]
fn is_map(alloc: Global, bytes: &[u8]) -> Result<bool, AllocError>
    ensures { IfOk result (λ is. is ≡ is_map bytes.now) }
{
    match read_map(alloc, bytes) {
        Ok(_) => Ok(true),
        Err(MapFault::NoMap) => Ok(false),
        Err(MapFault::NoMemory) => Err(AllocError),
    }
}

// The line of a file that is no map.
fn no_map_line(alloc: Global, name: &str) -> Result<Vec<u8>, AllocError> {
    let mut line = Vec::new(alloc);
    push_escaped(&mut line, name.as_bytes())?;
    line.extend_from_slice(b": not a map of ddrescue\n")?;
    Ok(line)
}

// Says on errors that the file of a name is no map, and returns the status: 3 if memory is refused for that.
fn refuse_map<E: Sink>(alloc: Global, name: &str, errors: &mut E) -> u8
    requires { E.has_failed errors.old ≡ false }
    ensures { (result ≡ 3) ⊎ (result ≡ 1) }
{
    match no_map_line(alloc, name) {
        Ok(line) => Outcome::LeftOut(line).finish(errors),
        Err(_) => Outcome::NoMemory.finish(errors),
    }
}

// The bytes of a file that is a map; where it is not had, or is none, that is said on errors, and the status comes back.
fn map_had<F: Files, E: Sink>(
    alloc: Global,
    files: &F,
    name: &str,
    errors: &mut E,
) -> Result<Vec<u8>, u8>
    requires { E.has_failed errors.old ≡ false }
    ensures bytes { IfOk result (λ bytes.
        AreReadOf (known_files F.bytes_of F.may_fail F.may_open files.now) name.now bytes.items) }
    ensures map { IfOk result (λ bytes. is_map bytes.items ≡ true) }
    ensures errors { IfOk result (λ _. errors.new ≡ errors.old) }
    ensures refused { IfErr result (λ status. (status ≡ 3)
        ⊎ TellsNoMap (known_files F.bytes_of F.may_fail F.may_open files.now) name.now status) }
{
    let Some(bytes) = map_bytes(alloc, files, name, errors) else {
        return Err(3);
    };
    match is_map(alloc, &bytes) {
        Ok(true) => Ok(bytes),
        Ok(false) => Err(refuse_map(alloc, name, errors)),
        Err(_) => Err(Outcome::NoMemory.finish(errors)),
    }
}

// The text of bytes; none if they are no text.
fn text_in(bytes: &[u8]) -> &str
    ensures { (IsUtf8 bytes.now × (result.now ≡ bytes.now)) ⊎ ((¬ IsUtf8 bytes.now) × (result.now ≡ [])) }
{
    match str::from_utf8(bytes) {
        Ok(text) => text,
        Err(_) => "",
    }
}

// Does what the words ask for, with the text of the map that one of them names in place of its name.
fn run_with_map<F: Files, R: Source, W: Sink, E: Sink>(
    alloc: Global,
    asked: &Invocation<'_, F>,
    at: usize,
    input: &mut R,
    output: &mut W,
    errors: &mut E,
) -> u8
    requires reads { R.has_failed input.old ≡ false }
    requires writes { W.has_failed output.old ≡ false }
    requires tells { E.has_failed errors.old ≡ false }
    requires within { at < length asked.now.words.now }
    ensures { EndsWithMap (texts_of asked.now.words.now) at
        (known_files F.bytes_of F.may_fail F.may_open asked.now.files.now) (seen R.left R.has_failed input.old input.new) result
        (seen W.held W.has_failed output.old output.new) (seen E.held E.has_failed errors.old errors.new) }
{
    let bytes = match map_had(alloc, asked.files, asked.words[at], errors) {
        Ok(bytes) => bytes,
        Err(status) => return status,
    };
    let Ok(words) = with_text(alloc, asked.words, at, text_in(&bytes)) else {
        Outcome::NoMemory.finish(errors);
        return 3;
    };
    let read = Invocation {
        words: &words,
        files: asked.files,
    };
    run_files(alloc, &read, input, output, errors)
}

/// Does what the words ask for, as `run_files` does; but where `--map` stands before any command, the word behind it names the
/// file of a map, whose text is read in its place. Returns the status, which is also 3 if that file cannot be opened or read, and
/// 1 if it is no map, as errors say.
pub fn run_mapped<F: Files, R: Source, W: Sink, E: Sink>(
    alloc: Global,
    asked: &Invocation<'_, F>,
    input: &mut R,
    output: &mut W,
    errors: &mut E,
) -> u8
    requires reads { R.has_failed input.old ≡ false }
    requires writes { W.has_failed output.old ≡ false }
    requires tells { E.has_failed errors.old ≡ false }
    ensures { SurveyEnds (texts_of asked.now.words.now) (known_files F.bytes_of F.may_fail F.may_open asked.now.files.now)
        (seen R.left R.has_failed input.old input.new) result
        (seen W.held W.has_failed output.old output.new) (seen E.held E.has_failed errors.old errors.new) }
{
    match map_word(asked.words) {
        None => run_files(alloc, asked, input, output, errors),
        Some(at) => run_with_map(alloc, asked, at, input, output, errors),
    }
}

// The files of names.

ghost use Rattle.std.specs.Prelude.{◌≡◌, ◌+◌, IfOk, IfSome, false, take};
ghost use Rattle.adf_merge_cmd.specs.declared.sizes.TheConstants.{MOST_BYTES};
ghost use Rattle.adf_words.specs.CommandLine.{texts_of};
ghost use Rattle.adf_merge_cmd.specs.Answers.{AreReadings, map_bytes};

use crate::read_file::ReadFile;
use crate::sizes::MOST_BYTES;
use adf_file_runs::{Files, Unopened, refuse_file};
use adf_names::push_escaped;
use adf_runs::{Sink, StreamFault, read_all, say};
use std::alloc::{AllocError, Global};

/// Why a reading is not had.
#[derive(Clone, Copy, Debug)]
pub enum Unread<'a> {
    /// The file of this name could not be opened.
    Unopened(&'a str, Unopened),
    /// It failed.
    Failed(&'a str),
    /// Memory was refused.
    NoMemory,
}

// The bytes of the file of a name.
fn read_one<'a, F: Files>(alloc: Global, files: &F, name: &'a str) -> Result<Vec<u8>, Unread<'a>>
    ensures { IfOk result (λ bytes.
        IfSome (F.bytes_of files.now name.entry.now) (λ all. bytes.items ≡ take (MOST_BYTES + 1) all)) }
{
    match files.open(name.as_bytes()) {
        Ok(mut source) => match read_all(alloc, &mut source, MOST_BYTES) {
            Ok(bytes) => Ok(bytes),
            Err(StreamFault::Device) => Err(Unread::Failed(name)),
            Err(StreamFault::NoMemory) => Err(Unread::NoMemory),
        },
        Err(why) => Err(Unread::Unopened(name, why)),
    }
}

/// The readings of names, in their order.
pub fn read_names<'a, F: Files>(
    alloc: Global,
    files: &F,
    names: &[&'a str],
) -> Result<Vec<ReadFile>, Unread<'a>>
    ensures { IfOk result (λ readings. AreReadings (F.bytes_of files.now) (texts_of names.now) readings.items) }
{
    let mut readings = Vec::new(alloc);
    for i in 0..names.len() {
        let bytes = read_one(alloc, files, names[i])?;
        if readings.push(ReadFile::new(bytes)).is_err() {
            return Err(Unread::NoMemory);
        }
    }
    Ok(readings)
}

// The text of the map of a name; of no file, if there is none.
fn read_map_text<'a, F: Files>(
    alloc: Global,
    files: &F,
    name: &'a str,
) -> Result<Vec<u8>, Unread<'a>>
    ensures { IfOk result (λ bytes.
        IfSome (map_bytes (F.bytes_of files.now) name.entry.now) (λ all. bytes.items ≡ take (MOST_BYTES + 1) all)) }
{
    if name == "-" {
        Ok(Vec::new(alloc))
    } else {
        read_one(alloc, files, name)
    }
}

/// The texts of maps, in their order.
pub fn read_map_texts<'a, F: Files>(
    alloc: Global,
    files: &F,
    names: &[&'a str],
) -> Result<Vec<ReadFile>, Unread<'a>>
    ensures { IfOk result (λ texts. AreReadings (map_bytes (F.bytes_of files.now)) (texts_of names.now) texts.items) }
{
    let mut texts = Vec::new(alloc);
    for i in 0..names.len() {
        let bytes = read_map_text(alloc, files, names[i])?;
        if texts.push(ReadFile::new(bytes)).is_err() {
            return Err(Unread::NoMemory);
        }
    }
    Ok(texts)
}

// The line of a file that failed.
fn unread_line(alloc: Global, name: &str) -> Result<Vec<u8>, AllocError> {
    let mut line = Vec::new(alloc);
    push_escaped(&mut line, name.as_bytes())?;
    line.extend_from_slice(b": read fault\n")?;
    Ok(line)
}

impl Unread<'_> {
    /// Says on errors why a reading is not had, and returns the status.
    pub fn refuse<E: Sink>(self, alloc: Global, errors: &mut E) -> u8
        requires { E.has_failed errors.old ≡ false }
        ensures { result ≡ 3 }
    {
        match self {
            Unread::Unopened(name, why) => refuse_file(alloc, name, why, errors),
            Unread::Failed(name) => {
                match unread_line(alloc, name) {
                    Ok(line) => say(errors, &line),
                    Err(_) => say(errors, b"no memory\n"),
                }
                3
            }
            Unread::NoMemory => {
                say(errors, b"no memory\n");
                3
            }
        }
    }
}

// A disk that is changed in its place, or into a new file.

ghost use Rattle.std.specs.Prelude.{◌≡◌, ◌≢◌, ◌≤◌, false, IfOk};
ghost use Rattle.adf_edit_cmd.specs.{Changing.AreRead, Changing.IsNewImage, Changing.OrderEnds, Manifests.is_manifest};
ghost use Rattle.adf_file_runs.specs.FileRuns.{known_files};

use crate::editing::by_script;
use crate::manifests::is_manifest;
use crate::program::MOST_INPUT_BYTES;
use crate::script::script_of;
use crate::stop::Stop;
use crate::words::{Line, Order};
use adf_file_runs::{ChangeFiles, Files, Unopened, refuse_change, refuse_file};
use adf_runs::{Sink, StreamFault, read_all, say};
use std::alloc::{AllocError, Global};

/// Why there is no new image.
#[derive(Drop)]
pub enum NoChange<'a> {
    /// The file of this name was not opened.
    Unopened(&'a str, Unopened),
    /// A file could not be read.
    ReadFault,
    /// An allocation failed.
    NoMemory,
    /// The edits cannot be applied.
    Edits(Stop),
    /// The image is a manifest, and the new one would take its place.
    InPlace,
}

impl<'a> From<AllocError> for NoChange<'a> {
    fn from(_e: AllocError) -> NoChange<'a> {
        NoChange::NoMemory
    }
}

impl<'a> From<Stop> for NoChange<'a> {
    fn from(stop: Stop) -> NoChange<'a> {
        match stop {
            Stop::NoMemory => NoChange::NoMemory,
            _ => NoChange::Edits(stop),
        }
    }
}

/// The lines of edits, each with the size of its host file if it takes one, and the bytes of these files.
#[derive(Drop)]
struct Taken {
    lines: Vec<String>,
    given: Vec<u8>,
}

/// Reads the file of a name.
pub fn read_file<'a, F: Files>(
    alloc: Global,
    files: &F,
    name: &'a str,
) -> Result<Vec<u8>, NoChange<'a>>
    ensures { IfOk result (λ bytes. AreRead (F.bytes_of files.now) name.now bytes.items) }
{
    let mut source = match files.open(name.as_bytes()) {
        Ok(source) => source,
        Err(why) => return Err(NoChange::Unopened(name, why)),
    };
    match read_all(alloc, &mut source, MOST_INPUT_BYTES) {
        Ok(bytes) => Ok(bytes),
        Err(StreamFault::Device) => Err(NoChange::ReadFault),
        Err(StreamFault::NoMemory) => Err(NoChange::NoMemory),
    }
}

// Appends a line, and the bytes of its host file.
fn take_line<'a, F: Files>(
    alloc: Global,
    files: &F,
    line: &Line<'a>,
    taken: &mut Taken,
) -> Result<(), NoChange<'a>> {
    let mut text = String::from_str(alloc, &line.text)?;
    if let Some(host) = line.host {
        let bytes = read_file(alloc, files, host)?;
        let size = bytes.len();
        text.push_str(&format!(in alloc; "{size}")?)?;
        taken.given.extend_from_slice(&bytes)?;
    }
    match taken.lines.push(text) {
        Ok(()) => Ok(()),
        Err(_) => Err(NoChange::NoMemory),
    }
}

// The lines of an order, and the bytes of their host files.
fn take_lines<'a, F: Files>(
    alloc: Global,
    files: &F,
    lines: &[Line<'a>],
) -> Result<Taken, NoChange<'a>> {
    let mut taken = Taken {
        lines: Vec::new(alloc),
        given: Vec::new(alloc),
    };
    for line in lines {
        take_line(alloc, files, line, &mut taken)?;
    }
    Ok(taken)
}

// Whether an order would put the new image in the place of a manifest.
fn replaces_manifest(order: &Order<'_>, image: &[u8]) -> bool
    ensures { result ≡ false → order.now.target.now ≡ order.now.image.now → is_manifest image.now ≡ false }
{
    order.target == order.image && is_manifest(image)
}

// The new image.
fn changed_image<'a, F: Files>(
    alloc: Global,
    files: &F,
    order: &Order<'a>,
) -> Result<Vec<u8>, NoChange<'a>>
    ensures { IfOk result (λ new. IsNewImage (F.bytes_of files.now) order.now.image.now order.now.target.now new.items) }
{
    let taken = take_lines(alloc, files, &order.lines)?;
    let image = read_file(alloc, files, order.image)?;
    if replaces_manifest(order, &image) {
        return Err(NoChange::InPlace);
    }
    let script = script_of(alloc, &taken.lines)?;
    Ok(by_script(alloc, script, &taken.given, &image)?)
}

// The line of why the edits cannot be applied.
fn change_stop_line(alloc: Global, stop: Stop) -> Result<String, AllocError> {
    match stop {
        Stop::Image(fault) => format!(in alloc; "image: {fault}\n"),
        Stop::TooDeep => format!(in alloc; "image: too deep: 255 names at most\n"),
        _ => format!(in alloc; "{stop}\n"),
    }
}

// Says why the edits cannot be applied, and returns the status.
fn tell_stop<E: Sink>(alloc: Global, stop: Stop, errors: &mut E) -> u8
    requires { E.has_failed errors.old ≡ false }
    ensures { (result ≢ 0) × (result ≤ 3) }
{
    match change_stop_line(alloc, stop) {
        Ok(line) => {
            say(errors, line.as_bytes());
            1
        }
        Err(_) => {
            say(errors, b"no memory\n");
            3
        }
    }
}

/// Says why there is no new image, and returns the status.
pub fn tell_no_change<E: Sink>(alloc: Global, why: NoChange<'_>, errors: &mut E) -> u8
    requires { E.has_failed errors.old ≡ false }
    ensures { (result ≢ 0) × (result ≤ 3) }
{
    match why {
        NoChange::Unopened(name, why) => refuse_file(alloc, name, why, errors),
        NoChange::ReadFault => {
            say(errors, b"read fault\n");
            3
        }
        NoChange::NoMemory => {
            say(errors, b"no memory\n");
            3
        }
        NoChange::Edits(stop) => tell_stop(alloc, stop, errors),
        NoChange::InPlace => {
            say(
                errors,
                b"a manifest is not replaced: name the new disk with -o\n",
            );
            1
        }
    }
}

/// Replaces the target of an order by the image that its edits make, and returns the status: 0 if that is done, 1 if the edits
/// cannot be applied, 3 if a file or an allocation failed. If it is not 0, each file is as it was, and errors say why.
pub fn change_disk<F: ChangeFiles, E: Sink>(
    alloc: Global,
    order: &Order<'_>,
    files: &mut F,
    errors: &mut E,
) -> u8
    requires { E.has_failed errors.old ≡ false }
    ensures { OrderEnds (known_files F.Files.bytes_of F.Files.may_fail F.Files.may_open files.old) (F.Files.bytes_of files.new)
        order.now.image.now order.now.target.now result }
{
    let image = match changed_image(alloc, files, order) {
        Ok(image) => image,
        Err(why) => return tell_no_change(alloc, why, errors),
    };
    match files.replace(alloc, order.target.as_bytes(), &image) {
        Ok(()) => 0,
        Err(why) => refuse_change(alloc, order.target, why, errors),
    }
}

// Files of the system that are replaced: a new file beside the old one takes its name.

ghost use Rattle.std.specs.Prelude.{◌≡◌, IfOk, None, false, true};
ghost use Rattle.adf_file_runs.specs.Files.{SystemOpens};

use crate::changes::{ChangeFiles, Unwritten};
use crate::files::{Files, SystemFiles, Unopened};
use adf_runs::{Failed, Sink};
use std::alloc::Global;
use std::fs::{self, File, OpenFile, OpenOptions, Permissions};
use std::io::{self, ErrorKind, Seek, SeekFrom, Write};
use std::{rt, str};

/// The bytes of a file that are looked at together.
const PIECE: usize = 65536;

/// The most names that are tried for a new file beside the old one.
const MOST_NAMES: u32 = 100;

/// The files of the system, which may be replaced. Nothing is known of them, and each may fail.
#[derive(Drop)]
pub struct SystemChanges<'a, R: rt::Files> {
    system: &'a R,
}

impl<'a, R: rt::Files> SystemChanges<'a, R> {
    /// The files of this system.
    pub fn new(system: &'a R) -> SystemChanges<'a, R> {
        SystemChanges { system }
    }
}

// Why the system wrote no file.
fn reason(error: &io::Error) -> Unwritten {
    match error.kind() {
        ErrorKind::NotFound | ErrorKind::NotADirectory => Unwritten::NoFolder,
        ErrorKind::PermissionDenied | ErrorKind::ReadOnlyFilesystem => Unwritten::Forbidden,
        ErrorKind::StorageFull | ErrorKind::QuotaExceeded => Unwritten::NoSpace,
        ErrorKind::OutOfMemory => Unwritten::NoMemory,
        _ => Unwritten::Other,
    }
}

/// Where a new file is to stand: its path over all links, and the permissions of the old file there.
#[derive(Drop)]
struct Target {
    path: String,
    permissions: Option<Permissions>,
}

// The target of the path of a file that is there, which may be written and is a plain one.
fn old_target<R: rt::Files>(system: &R, alloc: Global, path: &str) -> Result<Target, Unwritten> {
    let Ok(about) = fs::metadata(system, path) else {
        return Err(Unwritten::NotPlain);
    };
    if !about.is_file() {
        return Err(Unwritten::NotPlain);
    }
    if let Err(error) = OpenOptions::new().write(true).open(system, path) {
        return Err(reason(&error));
    }
    match system.canonicalize(alloc, path) {
        Ok(real) => Ok(Target {
            path: real.into_string(),
            permissions: Some(about.permissions()),
        }),
        Err(error) => Err(reason(&error)),
    }
}

// The target of a path.
fn target_of<R: rt::Files>(system: &R, alloc: Global, path: &str) -> Result<Target, Unwritten> {
    if fs::symlink_metadata(system, path).is_ok() {
        return old_target(system, alloc, path);
    }
    match String::from_str(alloc, path) {
        Ok(path) => Ok(Target {
            path,
            permissions: None,
        }),
        Err(_) => Err(Unwritten::NoMemory),
    }
}

// Writes bytes to a new file; zeros are passed over.
fn write_piece<H: Write + Seek>(file: &mut H, piece: &[u8]) -> io::Result<()> {
    if piece.iter().all(|byte| *byte == 0) {
        file.seek(SeekFrom::Current(piece.len() as i64))?;
        return Ok(());
    }
    file.write_all(piece)
}

/// A new file beside the one that it is to replace. Pieces of zeros become holes.
#[derive(Drop)]
pub struct NewFile<H> {
    file: H,
    /// Its path until it gets its name.
    beside: String,
    target: Target,
    /// How many bytes it has.
    len: u64,
    failed: bool,
}

impl<H: Write + Seek> Sink for NewFile<H> {
    ghost held = { λ _. None };

    ghost has_failed = { λ new. new.failed };

    fn write(&mut self, bytes: &[u8]) -> Result<usize, Failed> {
        let room = PIECE - (self.len % PIECE as u64) as usize;
        let count = bytes.len().min(room);
        match write_piece(&mut self.file, &bytes[..count]) {
            Ok(()) => {
                self.len = self.len.saturating_add(count as u64);
                Ok(count)
            }
            Err(_) => {
                self.failed = true;
                Err(Failed)
            }
        }
    }

    fn failed(&self) -> bool {
        self.failed
    }
}

// Writes all bytes of a new file.
fn fill<H: Write + Seek>(new: &mut NewFile<H>, bytes: &[u8]) -> io::Result<()> {
    for piece in bytes.chunks(PIECE) {
        write_piece(&mut new.file, piece)?;
    }
    new.len = bytes.len() as u64;
    Ok(())
}

// Gives a new file the permissions of the old one.
fn permit<H: OpenFile>(file: &mut H, target: &Target) -> io::Result<()> {
    if let Some(permissions) = &target.permissions {
        file.set_permissions(permissions.clone()?)?;
    }
    Ok(())
}

// A new file beside its target, which has no bytes yet.
fn begun<R: rt::Files>(
    system: &R,
    file: R::File,
    beside: String,
    target: Target,
) -> Result<NewFile<R::File>, Unwritten>
    ensures { IfOk result (λ new. new.failed ≡ false) }
{
    let mut file = file;
    if let Err(error) = permit(&mut file, &target) {
        let _ = fs::remove_file(system, &beside);
        return Err(reason(&error));
    }
    Ok(NewFile {
        file,
        beside,
        target,
        len: 0,
        failed: false,
    })
}

// Begins a new file beside a target.
fn begin_beside<R: rt::Files>(
    system: &R,
    alloc: Global,
    target: Target,
) -> Result<NewFile<R::File>, Unwritten>
    ensures { IfOk result (λ new. new.failed ≡ false) }
{
    for number in 0..MOST_NAMES {
        let path = &target.path;
        let Ok(beside) = format!(in alloc; "{path}.new-{number}") else {
            return Err(Unwritten::NoMemory);
        };
        match File::create_new(system, &beside) {
            Ok(file) => return begun(system, file, beside, target),
            Err(error) => match error.kind() {
                ErrorKind::AlreadyExists => {}
                _ => return Err(reason(&error)),
            },
        }
    }
    Err(Unwritten::Other)
}

// Gives a new file its length, and brings it to the disk itself.
fn seal<H: OpenFile + Drop>(file: H, len: u64) -> io::Result<()> {
    let mut file = file;
    file.set_len(len)?;
    file.sync_all()
}

// Gives a new file the name of its target; if that cannot be done there is no new file.
fn put<R: rt::Files>(system: &R, new: NewFile<R::File>) -> Result<(), Unwritten> {
    let beside = new.beside;
    let done = match seal(new.file, new.len) {
        Ok(()) => fs::rename(system, &beside, &new.target.path),
        Err(error) => Err(error),
    };
    match done {
        Ok(()) => Ok(()),
        Err(error) => {
            let _ = fs::remove_file(system, &beside);
            Err(reason(&error))
        }
    }
}

impl<'a, R: rt::Files> Files for SystemChanges<'a, R> {
    type Opened = <SystemFiles<'a, R> as Files>::Opened;

    ghost bytes_of = { λ _ _. None };

    ghost may_fail = { λ _ _. true };

    ghost may_open = { λ _ name why. SystemOpens name why };

    fn open(&self, name: &[u8]) -> Result<<SystemFiles<'a, R> as Files>::Opened, Unopened> {
        SystemFiles::new(self.system).open(name)
    }
}

impl<R: rt::Files> ChangeFiles for SystemChanges<'_, R> {
    type New = NewFile<R::File>;

    fn begin(&self, alloc: Global, name: &[u8]) -> Result<NewFile<R::File>, Unwritten> {
        let Ok(path) = str::from_utf8(name) else {
            return Err(Unwritten::Other);
        };
        let target = target_of(self.system, alloc, path)?;
        begin_beside(self.system, alloc, target)
    }

    fn put(&mut self, _name: &[u8], new: NewFile<R::File>) -> Result<(), Unwritten> {
        put(self.system, new)
    }

    fn abandon(&self, new: NewFile<R::File>) {
        let _ = fs::remove_file(self.system, &new.beside);
    }

    fn replace(&mut self, alloc: Global, name: &[u8], bytes: &[u8]) -> Result<(), Unwritten> {
        let mut new = self.begin(alloc, name)?;
        match fill(&mut new, bytes) {
            Ok(()) => put(self.system, new),
            Err(error) => {
                self.abandon(new);
                Err(reason(&error))
            }
        }
    }
}

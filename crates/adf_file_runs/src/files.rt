// What opens files by their names.

ghost use Rattle.std.specs.Prelude.{◌≡◌, ◌≢◌, Bool, ℕ, false, IfErr, IfOk, IfSome, List, None, OnErr, OnOk, Option, Some, true};
ghost use Rattle.adf_file_runs.specs.declared.files.Unopened.{Unopened, TheVariants.NotText};
ghost use Rattle.adf_file_runs.specs.Files.{SystemOpens};

use adf_runs::{SeekingDevice, Source};
use std::fs::File;
use std::io::{Error, ErrorKind};
use std::path::Path;
use std::{rt, str};

/// Why a file could not be opened.
#[derive(Clone, Copy, Debug, PartialEq, Eq)]
pub enum Unopened {
    /// There is no file of this name.
    Missing,
    /// It may not be read.
    Forbidden,
    /// It is a directory.
    Directory,
    /// The name is not UTF-8.
    NotText,
    /// The system does not say why.
    Other,
}

impl Unopened {
    /// The text on errors after the name, with its line feed; empty for `Other`.
    pub fn text(self) -> &'static str {
        match self {
            Unopened::Missing => ": no such file\n",
            Unopened::Forbidden => ": no permission\n",
            Unopened::Directory => ": a directory\n",
            Unopened::NotText => ": not UTF-8\n",
            Unopened::Other => "",
        }
    }
}

/// What opens files by their names.
pub trait Files {
    type Opened: Source + Drop;

    /// The bytes of the file of a name, if they are known.
    ghost bytes_of: { Self → List ℕ → Option (List ℕ) };

    /// Whether opening or reading the file of a name may fail.
    ghost may_fail: { Self → List ℕ → Bool };

    /// What may come of opening the file of a name: `None` that it is opened, else why not.
    ghost may_open: { Self → List ℕ → Option Unopened → Type 0 };

    /// Opens the file of a name to be read from its start, or returns why that cannot be done.
    fn open(&self, name: &[u8]) -> Result<Self::Opened, Unopened>
        ensures works { IfOk result (λ source. Self.Opened.has_failed source ≡ false) }
        ensures bytes { IfOk result (λ source. IfSome (bytes_of self.now name.now)
            (λ bytes. Self.Opened.left source ≡ Some bytes)) }
        ensures reads { IfOk result (λ source.
            may_fail self.now name.now ≡ false → Self.Opened.may_fail source ≡ false) }
        ensures opens { OnErr result (may_fail self.now name.now ≡ true) }
        ensures opened { OnOk result (may_open self.now name.now None) }
        ensures unopened { IfErr result (λ why. may_open self.now name.now (Some why)) };
}

// Why the system opened no file.
fn reason(error: &Error) -> Unopened
    ensures { result ≢ NotText }
{
    match error.kind() {
        ErrorKind::NotFound => Unopened::Missing,
        ErrorKind::PermissionDenied => Unopened::Forbidden,
        _ => Unopened::Other,
    }
}

/// The files of the system. Nothing is known of them, and each may fail. One whose name is not UTF-8
/// cannot be opened.
#[derive(Drop)]
pub struct SystemFiles<'a, R: rt::Files> {
    system: &'a R,
}

impl<'a, R: rt::Files> SystemFiles<'a, R> {
    /// The files of this system.
    pub fn new(system: &'a R) -> SystemFiles<'a, R>
        ensures { result.system.now ≡ system.entry.now }
    {
        SystemFiles { system }
    }
}

impl<R: rt::Files> Files for SystemFiles<'_, R> {
    type Opened = SeekingDevice<R::File>;

    ghost bytes_of = { λ _ _. None };

    ghost may_fail = { λ _ _. true };

    ghost may_open = { λ _ name why. SystemOpens name why };

    fn open(&self, name: &[u8]) -> Result<SeekingDevice<R::File>, Unopened> {
        let Ok(path) = str::from_utf8(name) else {
            return Err(Unopened::NotText);
        };
        match File::open(self.system, path) {
            Ok(_) if Path::new(path).is_dir(self.system) => Err(Unopened::Directory),
            Ok(file) => Ok(SeekingDevice::new(file)),
            Err(error) => Err(reason(&error)),
        }
    }
}

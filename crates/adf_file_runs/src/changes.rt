// What makes and replaces files.

ghost use Rattle.std.specs.Prelude.{◌≡◌, [], IfOk, IfSome, OnErr, OnOk, false, true};
ghost use Rattle.adf_file_runs.specs.FileChanges.{IsReplaced};

use crate::files::Files;
use adf_runs::Sink;
use std::alloc::Global;

/// Why a file was not replaced. It is as it was.
#[derive(Clone, Copy, Debug, PartialEq, Eq)]
pub enum Unwritten {
    /// There is no such folder.
    NoFolder,
    /// The file or its folder may not be written.
    Forbidden,
    /// The name is that of a folder, a device or a link that leads nowhere.
    NotPlain,
    /// There is no room left for it.
    NoSpace,
    /// An allocation failed.
    NoMemory,
    /// The system does not say why.
    Other,
}

impl Unwritten {
    /// The text on errors behind the name, with its line feed.
    pub fn text(self) -> &'static str {
        match self {
            Unwritten::NoFolder => ": no such folder\n",
            Unwritten::Forbidden => ": no permission\n",
            Unwritten::NotPlain => ": not a plain file\n",
            Unwritten::NoSpace => ": no space left\n",
            Unwritten::NoMemory => ": no memory\n",
            Unwritten::Other => ": cannot be written\n",
        }
    }
}

/// Files that can be replaced, and among which new ones can be put.
pub trait ChangeFiles: Files {
    /// A new file while it is written from its front: it is none of the files yet.
    type New: Sink + Drop;

    /// Begins a new file that is to get this name.
    fn begin(&self, alloc: Global, name: &[u8]) -> Result<Self::New, Unwritten>
        ensures works { IfOk result (λ new. Self.New.has_failed new ≡ false) }
        ensures empty { IfOk result (λ new. IfSome (Self.New.held new) (λ bytes. bytes ≡ [])) }
        ensures fails { OnErr result (Self.Files.may_fail self.now name.now ≡ true) };

    /// Gives a new file its name, all at once. If that cannot be done, each file is as it was.
    fn put(&mut self, name: &[u8], new: Self::New) -> Result<(), Unwritten>
        ensures replaced { OnOk result (IfSome (Self.New.held new)
            (IsReplaced (Self.Files.bytes_of self.old) (Self.Files.bytes_of self.new) name.now)) }
        ensures kept { OnErr result (Self.Files.bytes_of self.new ≡ Self.Files.bytes_of self.old) }
        ensures fails { OnErr result (Self.Files.may_fail self.old name.now ≡ true) };

    /// Lets go a new file that gets no name.
    fn abandon(&self, new: Self::New);

    /// Gives the file of a name these bytes, all at once; a new file if there is none. If that cannot be done, each file is as it
    /// was.
    fn replace(&mut self, alloc: Global, name: &[u8], bytes: &[u8]) -> Result<(), Unwritten>
        ensures replaced { OnOk result (IsReplaced (Self.Files.bytes_of self.old) (Self.Files.bytes_of self.new)
            name.now bytes.now) }
        ensures kept { OnErr result (Self.Files.bytes_of self.new ≡ Self.Files.bytes_of self.old) }
        ensures fails { OnErr result (Self.Files.may_fail self.old name.now ≡ true) };
}

/// The words of a command line, and the files that they may change.
#[derive(Drop)]
pub struct Changing<'a, F> {
    pub words: &'a [&'a str],
    pub files: F,
}

// The file systems of planned partitions.

ghost use Rattle.std.specs.Prelude.{◌≡◌, ℕ, List, Some};
ghost use Rattle.adf_partitions.specs.FileSystems.{kind_of_system, letters_of_system, planned_type, system_named, system_text};
ghost use Rattle.adf_partitions.specs.declared.file_system.FileSystem.{FileSystem as System};

use adf_base::Letters;
use adf_names::{Kind, kind_named_by, kind_text_by, type_number};

/// The file system of a planned partition: its type is 0 to 5.
#[derive(Clone, Copy, Debug)]
pub enum FileSystem {
    /// Of type 0 to 3: the kind, and the letters of which case is ignored in names.
    WithoutCaches(Kind, Letters),
    /// Of type 4 or 5, with directory caches and international letters: the kind.
    WithCaches(Kind),
}

impl FileSystem {
    /// Whether files have data blocks of OFS or of FFS.
    pub fn kind(self) -> Kind
        ensures { result ≡ kind_of_system self }
    {
        match self {
            FileSystem::WithoutCaches(kind, _) => kind,
            FileSystem::WithCaches(kind) => kind,
        }
    }

    /// The letters of which case is ignored in names.
    pub fn letters(self) -> Letters
        ensures { result ≡ letters_of_system self }
    {
        match self {
            FileSystem::WithoutCaches(_, letters) => letters,
            FileSystem::WithCaches(_) => Letters::International,
        }
    }

    /// The type as a partition block has it: `DOS` and 0 to 5.
    pub fn planned_type(self) -> u32
        ensures { result ≡ planned_type self }
    {
        match self {
            FileSystem::WithoutCaches(kind, letters) => {
                0x444F_5300 + u32::from(type_number(letters, kind))
            }
            FileSystem::WithCaches(kind) => {
                0x444F_5302 + u32::from(type_number(Letters::International, kind))
            }
        }
    }

    /// `ofs` or `ffs`, and `-international` or `-cached` behind it.
    pub fn text(self) -> &'static str
        ensures { result.now ≡ system_text self }
    {
        match self {
            FileSystem::WithoutCaches(kind, letters) => kind_text_by(letters, kind),
            FileSystem::WithCaches(Kind::Ofs) => "ofs-cached",
            FileSystem::WithCaches(Kind::Ffs) => "ffs-cached",
        }
    }

    /// The file system that a word names; `None` for any other text.
    pub fn named(text: &[u8]) -> Option<FileSystem>
        ensures { result ≡ system_named text.now }
    {
        if text == b"ofs-cached".as_slice() {
            return Some(FileSystem::WithCaches(Kind::Ofs));
        }
        if text == b"ffs-cached".as_slice() {
            return Some(FileSystem::WithCaches(Kind::Ffs));
        }
        let (kind, letters) = kind_named_by(text)?;
        Some(FileSystem::WithoutCaches(kind, letters))
    }
}

/// A word names the file system that it is the word for, and no other; and a type is that of one file system.
pub fn system_words_decide()
    ensures word { (text : List ℕ) (system : System) → system_named text ≡ Some system → text ≡ system_text system }
    ensures named { (system : System) → system_named (system_text system) ≡ Some system }
    ensures types { (a b : System) → planned_type a ≡ planned_type b → a ≡ b }
{}

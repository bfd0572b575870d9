// The types of file systems.

ghost use Rattle.std.specs.Prelude.{◌≡◌};
ghost use Rattle.adf_disk_cmd.specs.Checks.{has_checked_type};

use adf_base::Letters;
use adf_names::kind_text_by;
use adf_partitions::FileSystem;
use adf_tree::{Kind, ShortText};
use std::alloc::{AllocError, Global};

/// The first of the types `DOS\0` to `DOS\5`: that of an OFS volume. The next one is that of FFS.
pub const DOS: u32 = 0x444F_5300;

/// Whether a volume of this type is checked: of `DOS\0` to `DOS\5`, and of 0, which says nothing of the volume.
pub fn is_checked(dos_type: u32) -> bool
    ensures { result ≡ has_checked_type dos_type }
{
    dos_type == 0 || DOS <= dos_type && dos_type <= DOS + 5
}

/// The four bytes of a type, in the escape form.
pub fn bytes_text(alloc: Global, dos_type: u32) -> Result<String, AllocError> {
    let bytes = ShortText::<4>::new(&dos_type.to_be_bytes()).unwrap();
    let mut text = String::new(alloc);
    match bytes.write(&mut text) {
        Ok(()) => Ok(text),
        Err(_) => Err(AllocError),
    }
}

// The word for the file system of a type.
fn word_of_type(dos_type: u32) -> Option<&'static str> {
    if dos_type == DOS {
        Some(kind_text_by(Letters::Ascii, Kind::Ofs))
    } else if dos_type == DOS + 1 {
        Some(kind_text_by(Letters::Ascii, Kind::Ffs))
    } else if dos_type == DOS + 2 {
        Some(kind_text_by(Letters::International, Kind::Ofs))
    } else if dos_type == DOS + 3 {
        Some(kind_text_by(Letters::International, Kind::Ffs))
    } else if dos_type == DOS + 4 {
        Some(FileSystem::WithCaches(Kind::Ofs).text())
    } else if dos_type == DOS + 5 {
        Some(FileSystem::WithCaches(Kind::Ffs).text())
    } else {
        None
    }
}

/// A type: of `DOS\0` to `DOS\5` the word for its file system, as `ffs-international`, else its four bytes in the escape form.
pub fn type_text(alloc: Global, dos_type: u32) -> Result<String, AllocError> {
    match word_of_type(dos_type) {
        Some(word) => format!(in alloc; "{word}"),
        None => bytes_text(alloc, dos_type),
    }
}

/// A type: of `DOS\0` to `DOS\5` the word for its file system, else its four bytes.
pub fn type_bytes(alloc: Global, dos_type: u32) -> Result<Vec<u8>, AllocError> {
    match word_of_type(dos_type) {
        Some(word) => Vec::from_slice(alloc, word.as_bytes()),
        None => Vec::from_slice(alloc, &dos_type.to_be_bytes()),
    }
}

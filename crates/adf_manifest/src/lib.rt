//! Manifests: texts that volumes are built from.
#![tactic(auto)]

mod digits;
mod lines;
mod manifest;
mod reader;
mod tokens;

pub use crate::digits::read_word;
pub use crate::manifest::{MOST_BYTES, ManifestFault, ManifestKind, one_verdict, read_manifest};
pub use crate::tokens::{read_number, read_stamp};

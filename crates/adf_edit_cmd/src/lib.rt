//! The command `adf-edit`: a script changes the tree of an image, which is laid anew.
#![tactic(auto)]

mod changing;
mod dates;
mod editing;
mod lines;
mod manifests;
mod old_disk;
mod program;
mod script;
mod script_file;
mod stop;
mod words;

pub use crate::editing::new_image;
pub use crate::program::{MOST_INPUT_BYTES, Work, run};
pub use crate::stop::Stop;

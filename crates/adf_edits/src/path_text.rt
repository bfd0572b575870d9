// The texts of paths.

use adf_base::NoMemory;
use adf_names::{Name, write_path};
use std::alloc::Global;

/// The text of a path: its escaped names, joined by `/`.
#[derive(Debug, Drop)]
pub struct PathText {
    text: String,
}

impl PathText {
    /// The text of this path.
    pub fn of(alloc: Global, path: &[Name]) -> Result<PathText, NoMemory> {
        let text = write_path(alloc, path)?;
        Ok(PathText { text })
    }

    /// The text.
    pub fn as_str(&self) -> &str {
        self.text.as_str()
    }
}

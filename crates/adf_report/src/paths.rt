// The paths of claims, and of the entries that a survey finds.

use crate::path_text::{PathEnd, most_names};
use crate::reports::Report;
use adf_findings::Survey;
use adf_tree::Node;
use std::alloc::{AllocError, Global};

impl<'j> Report<'j, '_> {
    // Adds the names of the directories from one up, at most so many.
    fn climb(&self, number: usize, most: u32, path: &mut PathEnd<'j>) -> Result<(), AllocError> {
        let mut at = number;
        for _i in 0..most {
            let Some(claim) = self.claim(at) else {
                return Ok(());
            };
            at = claim.directory;
            path.add(claim.name.as_slice(), self.header_of(at))?;
        }
        Ok(())
    }

    /// The path of a claim as lines have it, empty for the root; or with `json` as objects have it. It looks at a bounded number
    /// of directories, whatever the depth.
    pub fn path(&self, alloc: Global, number: usize, json: bool) -> Result<Vec<u8>, AllocError> {
        let mut path = PathEnd::new(alloc);
        self.climb(number, most_names(json), &mut path)?;
        path.into_text(alloc, json)
    }

    /// The path of a claim with the name that its header states.
    pub fn stated_path(&self, alloc: Global, number: usize) -> Result<Vec<u8>, AllocError> {
        let mut path = PathEnd::new(alloc);
        if let Some(claim) = self.claim(number) {
            path.add(
                claim.stated_name.as_slice(),
                self.header_of(claim.directory),
            )?;
            self.climb(claim.directory, most_names(false), &mut path)?;
        }
        path.into_text(alloc, false)
    }

    /// Appends the path of a claim as lines have it.
    pub fn push_path(
        &self,
        alloc: Global,
        number: usize,
        text: &mut Vec<u8>,
    ) -> Result<(), AllocError> {
        let path = self.path(alloc, number, false)?;
        text.extend_from_slice(&path)
    }
}

/// The path of an entry that a survey finds, as lines have it, empty for the root; or with `json` as objects have it.
pub fn entry_path(
    alloc: Global,
    survey: &Survey<'_>,
    n: Node,
    json: bool,
) -> Result<Vec<u8>, AllocError> {
    let mut path = PathEnd::new(alloc);
    let mut node = n;
    for _i in 0..most_names(json) {
        let Some(name) = survey.name(node) else {
            return path.into_text(alloc, json);
        };
        node = survey.directory_of(node);
        path.add(name, survey.block_of(node).unwrap_or(0))?;
    }
    path.into_text(alloc, json)
}

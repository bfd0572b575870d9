// The claim that a path leads to.

use crate::reports::Report;
use adf_judge::Claim;
use adf_names::Name;

impl Report<'_, '_> {
    // Whether a claim is in this directory and has this name.
    fn is_named(&self, claim: &Claim, directory: usize, name: &Name) -> bool {
        claim.directory == directory && name.matches_by(self.judgement.reading.letters, &claim.name)
    }

    // The number of the first claim in a directory with this name. It is greater than that of the directory.
    fn child(&self, directory: usize, name: &Name) -> Option<usize> {
        for i in directory..self.judgement.claims.len() {
            if self.is_named(&self.judgement.claims[i], directory, name) {
                return Some(i + 1);
            }
        }
        None
    }

    /// The number of the claim that a path leads to, ignoring case; 0 for the empty path. If several claims of a directory have the
    /// same name, the first one is used.
    pub fn find(&self, path: &[Name]) -> Option<usize> {
        let mut number = 0;
        for name in path {
            number = self.child(number, name)?;
        }
        Some(number)
    }
}

// Look-up of paths among the entries found, and the paths of entries.

ghost use Rattle.std.specs.Prelude.{◌≡◌, ◌↔◌, ℕ, [], IsOk, IsTrue, IfNone, IfOk, IfSome, map};
ghost use Rattle.adf_findings.specs.{Lookup.IsNamedChild, Lookup.IsFirstChild, Lookup.LeadsTo, Lookup.path_to, Survey.OnSurvey};

use crate::survey_result::Survey;
use adf_base::NoMemory;
use adf_tree::{Name, Node};
use std::alloc::Global;

// Whether an entry has this parent and this name, ignoring case.
fn is_child(survey: &Survey<'_>, parent: Node, name: &Name, n: Node) -> bool
    ensures { OnSurvey survey.now.image (λ w _.
        IsTrue result ↔ IsNamedChild survey.now.image w parent name.now n) }
{
    let Some(up) = survey.parent_of(n) else {
        return false;
    };
    let Some(text) = survey.name(n) else {
        return false;
    };
    up.0 == parent.0 && name.matches_by(survey.letters(), text)
}

// The first entry with this parent and this name. Its number is greater than the parent's.
fn child(survey: &Survey<'_>, parent: Node, name: &Name) -> Option<Node>
    ensures first { OnSurvey survey.now.image (λ w _.
        IfSome result (λ n. IsFirstChild survey.now.image w parent name.now n)) }
    ensures none { OnSurvey survey.now.image (λ w _.
        IfNone result ((n : ℕ) → IsNamedChild survey.now.image w parent name.now n → ⊥)) }
{
    for before in parent.0..survey.len() {
        let n = Node(before + 1);
        if is_child(survey, parent, name, n) {
            return Some(n);
        }
    }
    None
}

impl Survey<'_> {
    /// The entry that the path leads to, ignoring case; 0 for the empty path. If several entries of a directory have
    /// the same name, the first one is used.
    pub fn find(&self, path: &[Name]) -> Option<Node>
        ensures found { OnSurvey self.now.image (λ w _.
            IfSome result (λ n. LeadsTo self.now.image w 0 path.now n)) }
        ensures none { OnSurvey self.now.image (λ w _.
            IfNone result ((n : ℕ) → LeadsTo self.now.image w 0 path.now n → ⊥)) }
    {
        let mut node = Node(0);
        for name in path {
            match child(self, node, name) {
                None => return None,
                Some(n) => node = n,
            }
        }
        Some(node)
    }

    /// The names from the root to an entry, each at most 79 bytes and not necessarily valid; empty for the root and
    /// past the last entry, which needs no memory. `NoMemory` if an allocation fails.
    pub fn path(&self, alloc: Global, n: Node) -> Result<Vec<&[u8]>, NoMemory>
        ensures names { OnSurvey self.now.image (λ w _.
            IfOk result (λ v. map (λ x. x.now) v.items ≡ path_to self.now.image w n)) }
        ensures empty { OnSurvey self.now.image (λ w _. path_to self.now.image w n ≡ [] → IsOk result) }
    {
        let mut path = Vec::new(alloc);
        let mut node = n;
        while let Some(name) = self.name(node) {
            path.push(name)?;
            node = self.directory_of(node);
        }
        path.reverse();
        Ok(path)
    }
}

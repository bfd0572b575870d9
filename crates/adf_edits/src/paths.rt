// Paths, compared without regard to case.

ghost use Rattle.std.specs.Prelude.{◌≡◌, ◌++◌, OnOk};
ghost use Rattle.adf_tree.specs.Additions.{same_path};
ghost use Rattle.adf_edits.specs.Paths.{is_at_or_under, is_under};

use adf_base::NoMemory;
use adf_names::Name;

/// The most names in a path of an outline: AmigaDOS takes no path of more characters.
pub const MOST_DEPTH: usize = 255;

/// Whether the paths are equal, ignoring the case of `a` to `z`.
#[tactic(auto, using(crate::proofs::SamePaths::same_all, crate::proofs::SamePaths::same_short, crate::proofs::SamePaths::same_not))]
pub fn same_path(a: &[Name], b: &[Name]) -> bool
    ensures { result ≡ same_path a.now b.now }
{
    if a.len() != b.len() {
        return false;
    }
    for i in 0..a.len() {
        if !a[i].same(&b[i]) {
            return false;
        }
    }
    true
}

/// Whether a path has more than `MOST_DEPTH` names.
pub fn is_deep(path: &[Name]) -> bool {
    MOST_DEPTH < path.len()
}

/// Whether a path is that of the directory, or leads to something in it.
pub fn is_at_or_under(directory: &[Name], path: &[Name]) -> bool
    ensures { result ≡ is_at_or_under directory.now path.now }
{
    directory.len() <= path.len() && same_path(&path[..directory.len()], directory)
}

/// Whether a path leads to something in the directory.
pub fn is_under(directory: &[Name], path: &[Name]) -> bool
    ensures { result ≡ is_under directory.now path.now }
{
    directory.len() < path.len() && same_path(&path[..directory.len()], directory)
}

/// Appends names to a path.
pub fn push_names(path: &mut Vec<Name>, names: &[Name]) -> Result<(), NoMemory>
    ensures { OnOk result (path.new.items ≡ path.old.items ++ names.now) }
{
    for name in names {
        path.push(name.copy())?;
    }
    Ok(())
}

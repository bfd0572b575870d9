// The command `cat`.

ghost use Rattle.std.specs.Prelude.{◌≡◌, ℕ, List, false};
ghost use Rattle.adf_names.specs.PathTexts.{IsPathText};
ghost use Rattle.adf_tree.specs.Tree.{Tree};
ghost use Rattle.adf_volume.specs.{Fits.Fits, Layout.Layout};
ghost use Rattle.adf_cmd.specs.Answers.{Answer, Copies, contents_at};
ghost use Rattle.adf_words.specs.CommandLine.{cat};
ghost use Rattle.adf_runs.specs.Outcomes.{Blames, EndsBy};

use crate::images::volume_of;
use adf_check::Checked;
use adf_runs::{Outcome, Sink};
use adf_texts::{ROOM, write_through};
use adf_tree::Name;
use std::alloc::Global;

// Writes the bytes of the file under a path.
fn copy_file<W: Sink>(volume: &Checked<'_>, names: &[Name], output: &mut W) -> Outcome
    requires { W.has_failed output.old ≡ false }
    ensures ends { (t : Tree) (l : Layout) → Fits volume.now t l
        → EndsBy (Copies (contents_at t names.now)) result
        (W.held output.old) (W.held output.new) }
    ensures blames { Blames result false (W.has_failed output.new) }
{
    let Some(node) = volume.find(names) else {
        return Outcome::NoSuchPath;
    };
    let Some(pieces) = volume.pieces(node) else {
        return Outcome::NotAFile;
    };
    match write_through::<ROOM, W>(pieces, output) {
        Ok(()) => Outcome::Done,
        Err(_) => Outcome::WriteFault,
    }
}

/// Checks an image, and writes the bytes of the file under a path.
pub fn cat_image<W: Sink>(alloc: Global, image: &[u8], names: &[Name], output: &mut W) -> Outcome
    requires { W.has_failed output.old ≡ false }
    ensures ends { (path : List ℕ) → IsPathText path names.now
        → EndsBy (Answer (cat path) image.now) result (W.held output.old) (W.held output.new) }
    ensures blames { Blames result false (W.has_failed output.new) }
{
    match volume_of(alloc, image) {
        Ok(volume) => copy_file(&volume, names, output),
        Err(outcome) => outcome,
    }
}

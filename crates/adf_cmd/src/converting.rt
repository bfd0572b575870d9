// The command `convert`.

ghost use Rattle.std.specs.Prelude.{◌≡◌, true, false, IfErr, IfOk};
ghost use Rattle.adf_base.specs.declared.hash.Letters.TheVariants.{Ascii};
ghost use Rattle.adf_tree.specs.Tree.{with_kind};
ghost use Rattle.adf_blocks.specs.Sizes.{blocks, is_plain_size};
ghost use Rattle.adf_volume.specs.{Fits.Fits, Layout.Layout};
ghost use Rattle.adf_cmd.specs.{Answers.Answer, Answers.BuildsOrIsFull, Refusals.IsRefusedImage};
ghost use Rattle.adf_words.specs.CommandLine.{convert};
ghost use Rattle.adf_runs.specs.{Outcomes.Blames, Outcomes.Does, Streams.seen};

use crate::building::build_tree;
use crate::images::volume_of;
use adf_runs::{Outcome, Sink};
use adf_tree::{Kind, Tree};
use std::alloc::Global;

// The tree of an image and the number of its blocks; of a refused image, how the work ends.
fn tree_of(alloc: Global, image: &[u8]) -> Result<(Tree, u32), Outcome>
    ensures tree { IfOk result (λ r. (l : Layout) × Fits image.now r.0 l) }
    ensures size { IfOk result (λ r. r.1 ≡ blocks image.now) }
    ensures refused { IfErr result (IsRefusedImage image.now) }
    ensures blames { IfErr result (λ w. Blames w false false) }
{
    let volume = volume_of(alloc, image)?;
    let count = volume.counts().blocks;
    let tree = volume.to_tree(alloc)?;
    Ok((tree, count))
}

// The same, and the image is let go.
fn tree_in(alloc: Global, image: Vec<u8>) -> Result<(Tree, u32), Outcome>
    ensures tree { IfOk result (λ r. (l : Layout) × Fits image.items r.0 l) }
    ensures size { IfOk result (λ r. r.1 ≡ blocks image.items) }
    ensures refused { IfErr result (IsRefusedImage image.items) }
    ensures blames { IfErr result (λ w. Blames w false false) }
{
    tree_of(alloc, &image)
}

// Builds a tree again, as one of another kind.
fn convert_tree<W: Sink>(
    alloc: Global,
    mut tree: Tree,
    blocks: u32,
    kind: Kind,
    output: &mut W,
) -> Outcome
    requires works { W.has_failed output.old ≡ false }
    requires size { is_plain_size blocks ≡ true }
    requires letters { tree.letters ≡ Ascii }
    ensures { Does (BuildsOrIsFull false (with_kind tree kind) blocks) result (seen W.held W.has_failed output.old output.new) }
{
    tree.set_kind(kind);
    build_tree(alloc, &tree, blocks, false, output)
}

/// Checks an image, and builds its tree again, as one of another kind.
pub fn convert_image<W: Sink>(alloc: Global, image: &[u8], kind: Kind, output: &mut W) -> Outcome
    requires { W.has_failed output.old ≡ false }
    ensures { Does (Answer (convert kind) image.now) result (seen W.held W.has_failed output.old output.new) }
{
    match tree_of(alloc, image) {
        Ok((tree, blocks)) => convert_tree(alloc, tree, blocks, kind, output),
        Err(outcome) => outcome,
    }
}

/// Does so too, and lets the image go before the new one is built.
pub fn convert_read<W: Sink>(alloc: Global, image: Vec<u8>, kind: Kind, output: &mut W) -> Outcome
    requires { W.has_failed output.old ≡ false }
    ensures { Does (Answer (convert kind) image.items) result (seen W.held W.has_failed output.old output.new) }
{
    match tree_in(alloc, image) {
        Ok((tree, blocks)) => convert_tree(alloc, tree, blocks, kind, output),
        Err(outcome) => outcome,
    }
}

// The command `build`.

ghost use Rattle.std.specs.Prelude.{◌≡◌, ◌<◌, ◌^◌, true, false, length, OnOk, OnErr};
ghost use Rattle.std.specs.Io.KnownBytes.{Appends};
ghost use Rattle.adf_base.specs.declared.hash.Letters.TheVariants.{Ascii};
ghost use Rattle.adf_blocks.specs.Sizes.{is_plain_size};
ghost use Rattle.adf_cmd.specs.{Answers.Answer, Answers.BuildsOrIsFull, Listing.image_or_lines};
ghost use Rattle.adf_words.specs.CommandLine.{build};
ghost use Rattle.adf_cmd.specs.Refusals.{IsFaultOutcome, IsFullOutcome};
ghost use Rattle.adf_runs.specs.{Streams.AppendsPart, Streams.is_device, Streams.seen, Outcomes.Does};

use crate::build_lines::{push_full, push_manifest_fault};
use crate::listing::write_listing;
use adf_build::{BuildFault, build};
use adf_manifest::{ManifestFault, ManifestKind, read_manifest};
use adf_runs::{Outcome, Sink, StreamFault, write_all};
use adf_tree::Tree;
use std::alloc::Global;

// Writes an image, or the lines of its words.
fn write_image<W: Sink>(
    alloc: Global,
    image: &[u8],
    lines: bool,
    output: &mut W,
) -> Result<(), StreamFault>
    requires works { W.has_failed output.old ≡ false }
    requires small { length image.now < 2 ^ 41 }
    ensures ok { OnOk result
        (Appends (W.held output.old) (W.held output.new) (image_or_lines lines image.now)) }
    ensures err { OnErr result (AppendsPart (W.has_failed output.new)
        (W.held output.old) (W.held output.new) (image_or_lines lines image.now)) }
    ensures failed { W.has_failed output.new ≡ is_device result }
{
    if lines {
        return write_listing(alloc, image, output);
    }
    write_all(output, image)?;
    Ok(())
}

// Says that a tree does not fit in.
fn refuse_full(alloc: Global, need: u64, have: u64) -> Outcome
    ensures { IsFullOutcome need have result }
{
    let mut line = String::new(alloc);
    match push_full(&mut line, need, have) {
        Ok(()) => Outcome::Refused(line),
        Err(_) => Outcome::NoMemory,
    }
}

/// Builds a tree, and writes its image or the lines of the image's words.
pub fn build_tree<W: Sink>(
    alloc: Global,
    tree: &Tree,
    blocks: u32,
    lines: bool,
    output: &mut W,
) -> Outcome
    requires works { W.has_failed output.old ≡ false }
    requires size { is_plain_size blocks ≡ true }
    requires letters { tree.now.letters ≡ Ascii }
    ensures { Does (BuildsOrIsFull lines tree.now blocks) result (seen W.held W.has_failed output.old output.new) }
{
    match build(alloc, tree, blocks) {
        Ok(image) => match write_image(alloc, &image, lines, output) {
            Ok(()) => Outcome::Done,
            Err(fault) => Outcome::after_writing(fault),
        },
        Err(BuildFault::BadSize) => unreachable!(),
        Err(BuildFault::Full { need, have }) => refuse_full(alloc, need, have),
        Err(BuildFault::NoMemory) => Outcome::NoMemory,
    }
}

// Says why a manifest is refused.
fn refuse_manifest(alloc: Global, fault: ManifestFault) -> Outcome
    ensures { IsFaultOutcome fault result }
{
    if let ManifestKind::NoMemory = fault.kind {
        return Outcome::NoMemory;
    }
    let mut line = String::new(alloc);
    match push_manifest_fault(&mut line, fault) {
        Ok(()) => Outcome::Refused(line),
        Err(_) => Outcome::NoMemory,
    }
}

/// Builds the tree of a manifest, and writes the image or the lines of its words.
pub fn build_manifest<W: Sink>(alloc: Global, bytes: &[u8], lines: bool, output: &mut W) -> Outcome
    requires { W.has_failed output.old ≡ false }
    ensures { Does (Answer (build lines) bytes.now) result (seen W.held W.has_failed output.old output.new) }
{
    match read_manifest(alloc, bytes) {
        Ok((tree, blocks)) => build_tree(alloc, &tree, blocks, lines, output),
        Err(fault) => refuse_manifest(alloc, fault),
    }
}

// The command `list`.

ghost use Rattle.std.specs.Prelude.{◌≡◌, ◌++◌, ◌+◌, false, IfOk, OnOk, OnErr, length};
ghost use Rattle.std.specs.Io.KnownBytes.{Appends};
ghost use Rattle.adf_tree.specs.{Paths.names_of, Tree.Tree};
ghost use Rattle.adf_blocks.specs.Sizes.{blocks};
ghost use Rattle.adf_volume.specs.{Fits.Fits, Layout.Layout};
ghost use Rattle.adf_texts.specs.VolumeLines.{lines_of_entries, lines_of_entry, opening_lines, volume_lines};
ghost use Rattle.adf_cmd.specs.{Answers.Answer, VolumeListing.InAnyDates};
ghost use Rattle.adf_words.specs.CommandLine.{list};
ghost use Rattle.adf_runs.specs.{Streams.AppendsPart, Streams.KeepsPending, Streams.is_device, Streams.seen, Outcomes.Does};

use crate::images::volume_of;
use adf_check::Checked;
use adf_runs::{Outcome, Sink, StreamFault, flush_long, write_all};
use adf_texts::{push_entry_lines, push_opening_lines};
use adf_tree::{Name, Node};
use std::alloc::{AllocError, Global};

// The names of a node from the root on.
fn path_of(alloc: Global, volume: &Checked<'_>, n: Node) -> Result<Vec<Name>, AllocError>
    requires { (t : Tree) × (l : Layout) × Fits volume.now t l }
    ensures { (t : Tree) (l : Layout) → Fits volume.now t l
        → IfOk result (λ path. path.items ≡ names_of t.entries n) }
{
    let mut path = Vec::new(alloc);
    let mut node = n;
    while let Some(row) = volume.row(node) {
        path.push(row.name)?;
        node = row.parent;
    }
    path.reverse();
    Ok(path)
}

// Appends the lines before those of the entries.
fn push_opening(volume: &Checked<'_>, text: &mut Vec<u8>) -> Result<(), AllocError>
    ensures { InAnyDates volume.now (λ date t. OnOk result (text.new.items ≡ text.old.items
        ++ opening_lines date t.kind t.label t.stamps (blocks volume.now))) }
{
    let counts = volume.counts();
    push_opening_lines(
        text,
        counts.kind,
        volume.label(),
        volume.stamps(),
        counts.blocks,
    )
}

// Appends the lines of an entry.
fn push_entry(
    alloc: Global,
    volume: &Checked<'_>,
    n: Node,
    text: &mut Vec<u8>,
) -> Result<(), AllocError>
    requires { (t : Tree) × (l : Layout) × Fits volume.now t l }
    ensures { InAnyDates volume.now (λ date t. OnOk result
        (text.new.items ≡ text.old.items ++ lines_of_entry date t.entries n)) }
{
    let Some(row) = volume.row(n) else {
        return Ok(());
    };
    let path = path_of(alloc, volume, n)?;
    push_entry_lines(text, &row, &path)
}

// Appends the lines of an entry, and writes what is long.
fn list_entry<W: Sink>(
    alloc: Global,
    volume: &Checked<'_>,
    n: Node,
    text: &mut Vec<u8>,
    output: &mut W,
) -> Result<(), StreamFault>
    requires works { W.has_failed output.old ≡ false }
    requires fits { (t : Tree) × (l : Layout) × Fits volume.now t l }
    ensures ok { InAnyDates volume.now (λ date t. OnOk result (KeepsPending
        (W.held output.old) (text.old.items ++ lines_of_entry date t.entries n)
        (W.held output.new) text.new.items)) }
    ensures err { InAnyDates volume.now (λ date t. OnErr result (AppendsPart
        (W.has_failed output.new) (W.held output.old) (W.held output.new)
        (text.old.items ++ lines_of_entry date t.entries n))) }
    ensures failed { W.has_failed output.new ≡ is_device result }
{
    push_entry(alloc, volume, n, text)?;
    flush_long(output, text)?;
    Ok(())
}

// Writes the text that waits, and the lines of the entries behind it.
fn write_entries<W: Sink>(
    alloc: Global,
    volume: &Checked<'_>,
    mut text: Vec<u8>,
    output: &mut W,
) -> Result<(), StreamFault>
    requires works { W.has_failed output.old ≡ false }
    requires fits { (t : Tree) × (l : Layout) × Fits volume.now t l }
    ensures ok { InAnyDates volume.now (λ date t. OnOk result (Appends
        (W.held output.old) (W.held output.new)
        (text.items ++ lines_of_entries date t.entries (length t.entries)))) }
    ensures err { InAnyDates volume.now (λ date t. OnErr result (AppendsPart
        (W.has_failed output.new) (W.held output.old) (W.held output.new)
        (text.items ++ lines_of_entries date t.entries (length t.entries)))) }
    ensures failed { W.has_failed output.new ≡ is_device result }
{
    for i in 0..volume.len() {
        list_entry(alloc, volume, Node(i + 1), &mut text, output)?;
    }
    write_all(output, &text)?;
    Ok(())
}

// Writes the lines of a volume.
fn write_volume<W: Sink>(
    alloc: Global,
    volume: &Checked<'_>,
    output: &mut W,
) -> Result<(), StreamFault>
    requires works { W.has_failed output.old ≡ false }
    requires fits { (t : Tree) × (l : Layout) × Fits volume.now t l }
    ensures ok { InAnyDates volume.now (λ date t. OnOk result (Appends
        (W.held output.old) (W.held output.new) (volume_lines date t (blocks volume.now)))) }
    ensures err { InAnyDates volume.now (λ date t. OnErr result (AppendsPart
        (W.has_failed output.new) (W.held output.old) (W.held output.new)
        (volume_lines date t (blocks volume.now)))) }
    ensures failed { W.has_failed output.new ≡ is_device result }
{
    let mut text = Vec::new(alloc);
    push_opening(volume, &mut text)?;
    write_entries(alloc, volume, text, output)
}

// Writes the lines of a volume, and tells how that went.
fn list_volume<W: Sink>(alloc: Global, volume: &Checked<'_>, output: &mut W) -> Outcome
    requires works { W.has_failed output.old ≡ false }
    requires fits { (t : Tree) × (l : Layout) × Fits volume.now t l }
    ensures { Does (Answer list volume.now) result (seen W.held W.has_failed output.old output.new) }
{
    match write_volume(alloc, volume, output) {
        Ok(()) => Outcome::Done,
        Err(fault) => Outcome::after_writing(fault),
    }
}

/// Checks an image, and writes the lines of its volume.
pub fn list_image<W: Sink>(alloc: Global, image: &[u8], output: &mut W) -> Outcome
    requires { W.has_failed output.old ≡ false }
    ensures { Does (Answer list image.now) result (seen W.held W.has_failed output.old output.new) }
{
    match volume_of(alloc, image) {
        Ok(volume) => list_volume(alloc, &volume, output),
        Err(outcome) => outcome,
    }
}

// An image by a script.

ghost use Rattle.std.specs.Prelude.{◌≡◌, ◌≤◌, IfOk, Some, length, map, true};
ghost use Rattle.adf_blocks.specs.Sizes.{is_allowed};
ghost use Rattle.adf_boot_blocks.specs.{BootBlocks.IsOtherBoot, BootBlocks.begins_with_dos, BootBlocks.is_bootable};
ghost use Rattle.adf_boot_blocks.specs.declared.boot.TheConstants.{BOOT_LEN};
ghost use Rattle.adf_edits.specs.{Edits.edit_value, Edits.edited, Outline.outline_of};
ghost use Rattle.adf_edit_cmd.specs.Edited.{AreApplied, IsByDisk, IsByScript, IsByTree, IsCachedIf, IsEdited, IsLaidOver};
ghost use Rattle.adf_edit_cmd.specs.Edited.{boot_kept, booted, disk_of};
ghost use Rattle.adf_edit_cmd.specs.declared.script.BootEdit.TheVariants.{Install};

use crate::old_disk::{Old, old_disk};
use crate::script::{
    BootEdit, Script, behind_file, caches_after, files_len, letters_after, read_script,
};
use crate::stop::Stop;
use adf_boot_blocks::{STANDARD_CODE, clear, install, restore};
use adf_build::{BuildFault, build_types};
use adf_cache_laying::lay_caches;
use adf_edits::{Edit, EditFault, IndexedOutline, Outline, OutlineFault, TreeFault};
use adf_tree::Tree;
use adf_volume::Types;
use std::alloc::Global;

// The fewest edits that an index is made for.
const FEWEST_INDEXED: usize = 32;

// Applies the edit of a line.
fn edit_line(
    alloc: Global,
    outline: Outline,
    edit: Edit,
    given: &[u8],
    line: usize,
) -> Result<Outline, Stop>
    ensures { IfOk result (λ o. edited (edit_value edit) given.now outline ≡ Some o) }
{
    match outline.edited(alloc, edit, given) {
        Ok(outline) => Ok(outline),
        Err(EditFault::NoMemory) => Err(Stop::NoMemory),
        Err(fault) => Err(Stop::Line(line, fault)),
    }
}

// Applies edits, one after the other; the first one is that of line 1.
fn edit_all(
    alloc: Global,
    outline: Outline,
    edits: Vec<Edit>,
    given: &[u8],
) -> Result<Outline, Stop>
    ensures { IfOk result (AreApplied (map edit_value edits.items) given.now outline) }
{
    let mut outline = outline;
    let mut given = given;
    let mut line = 0usize;
    for edit in edits {
        line += 1;
        let rest = behind_file(&edit, given);
        outline = edit_line(alloc, outline, edit, given, line)?;
        given = rest;
    }
    Ok(outline)
}

// Applies the edit of a line by an index.
fn edit_line_indexed(
    alloc: Global,
    outline: IndexedOutline,
    edit: Edit,
    given: &[u8],
    line: usize,
) -> Result<IndexedOutline, Stop>
    ensures { IfOk result (λ o. edited (edit_value edit) given.now outline ≡ Some o) }
{
    match outline.edited(alloc, edit, given) {
        Ok(outline) => Ok(outline),
        Err(EditFault::NoMemory) => Err(Stop::NoMemory),
        Err(fault) => Err(Stop::Line(line, fault)),
    }
}

// Applies edits by an index, one after the other; the first one is that of line 1.
fn edit_all_indexed(
    alloc: Global,
    outline: IndexedOutline,
    edits: Vec<Edit>,
    given: &[u8],
) -> Result<IndexedOutline, Stop>
    ensures { IfOk result (AreApplied (map edit_value edits.items) given.now outline) }
{
    let mut outline = outline;
    let mut given = given;
    let mut line = 0usize;
    for edit in edits {
        line += 1;
        let rest = behind_file(&edit, given);
        outline = edit_line_indexed(alloc, outline, edit, given, line)?;
        given = rest;
    }
    Ok(outline)
}

// Whether edits are applied by an index: many of them.
fn pays_index(edits: &[Edit]) -> bool {
    FEWEST_INDEXED <= edits.len()
}

// Applies edits; many of them by an index, which takes the time of some.
fn edit_outline(
    alloc: Global,
    outline: Outline,
    edits: Vec<Edit>,
    given: &[u8],
) -> Result<Outline, Stop>
    ensures { IfOk result (AreApplied (map edit_value edits.items) given.now outline) }
{
    if !pays_index(&edits) {
        return edit_all(alloc, outline, edits, given);
    }
    let Ok(outline) = IndexedOutline::of(alloc, outline) else {
        return Err(Stop::NoMemory);
    };
    let outline = edit_all_indexed(alloc, outline, edits, given)?;
    match outline.outline(alloc) {
        Ok(outline) => Ok(outline),
        Err(_) => Err(Stop::NoMemory),
    }
}

// Writes the boot blocks of a volume of so many blocks: those that are asked for, or else those of the old image behind the type.
fn put_boot(volume: &mut [u8], boot: Option<BootEdit>, blocks: u32, image: &[u8])
    requires whole { BOOT_LEN ≤ length volume.old }
    requires boot { BOOT_LEN ≤ length image.now }
    ensures exact { volume.new ≡ booted boot blocks image.now volume.old }
    ensures starts { begins_with_dos volume.old ≡ true → boot ≡ Some Install → is_bootable volume.new ≡ true }
    ensures other { IsOtherBoot volume.old volume.new }
{
    match boot {
        None => restore(volume, image),
        Some(BootEdit::Install) => install(volume, blocks / 2, &STANDARD_CODE),
        Some(BootEdit::Clear) => clear(volume),
    }
}

// Lays a tree in so many blocks, with the boot blocks that are asked for, or else those of an image behind the type.
fn lay(
    alloc: Global,
    tree: &Tree,
    blocks: u32,
    image: &[u8],
    boot: Option<BootEdit>,
) -> Result<Vec<u8>, Stop>
    requires allowed { is_allowed blocks ≡ true }
    requires boot { BOOT_LEN ≤ length image.now }
    ensures { IfOk result (λ new. IsLaidOver boot tree.now blocks image.now new.items) }
{
    match build_types(alloc, Types::WithInternational, tree, blocks) {
        Ok(mut new) => {
            put_boot(&mut new, boot, blocks, image);
            Ok(new)
        }
        Err(BuildFault::BadSize) => unreachable!(),
        Err(BuildFault::Full { need, have }) => Err(Stop::Full { need, have }),
        Err(BuildFault::NoMemory) => Err(Stop::NoMemory),
    }
}

// The outline of a tree.
fn outline_of(alloc: Global, tree: &Tree) -> Result<Outline, Stop>
    ensures { IfOk result (λ o. o ≡ outline_of tree.now) }
{
    match Outline::of(alloc, tree) {
        Ok(outline) => Ok(outline),
        Err(OutlineFault::TooDeep) => Err(Stop::TooDeep),
        Err(OutlineFault::NoMemory) => Err(Stop::NoMemory),
    }
}

// The image of an old disk after a script, without directory caches.
fn by_old(alloc: Global, old: &Old<'_>, script: Script, given: &[u8]) -> Result<Vec<u8>, Stop>
    requires allowed { is_allowed old.now.blocks ≡ true }
    requires boot { BOOT_LEN ≤ length old.now.boot.now }
    ensures { IfOk result (λ new. IsByTree script given.now (disk_of old.now) new.items) }
{
    let line = script.edits.len() + 1;
    let settings = script.settings;
    let letters = letters_after(settings.letters, old.letters);
    let outline = outline_of(alloc, &old.tree)?;
    let outline = edit_outline(alloc, outline, script.edits, given)?;
    match outline.finish_by(alloc, letters) {
        Ok(tree) => lay(alloc, &tree, old.blocks, old.boot, settings.boot),
        Err(TreeFault::NoMemory) => Err(Stop::NoMemory),
        Err(fault) => Err(Stop::NoRoom(line, fault)),
    }
}

// The bytes that begin with the boot blocks of a volume with directory caches: those of the old image, or those asked for.
fn boot_kept<'a>(boot: Option<BootEdit>, image: &'a [u8], volume: &'a [u8]) -> &'a [u8]
    ensures { result.now ≡ boot_kept boot image.now volume.now }
{
    match boot {
        None => image,
        Some(_) => volume,
    }
}

// A volume, with a cache for each directory if it is to have them. It then has the boot blocks that are asked for, or else those of
// an image behind the type.
fn with_caches(
    alloc: Global,
    volume: Vec<u8>,
    has_caches: bool,
    boot: Option<BootEdit>,
    image: &[u8],
) -> Result<Vec<u8>, Stop>
    ensures { IfOk result (λ new.
        IsCachedIf has_caches (boot_kept boot image.now volume.items) volume.items new.items) }
{
    if !has_caches {
        return Ok(volume);
    }
    match lay_caches(alloc, &volume, boot_kept(boot, image, &volume)) {
        Ok(Some(image)) => Ok(image),
        Ok(None) => Err(Stop::NoCacheRoom),
        Err(_) => Err(Stop::NoMemory),
    }
}

// The image of an old disk after a script.
fn by_disk(alloc: Global, old: &Old<'_>, script: Script, given: &[u8]) -> Result<Vec<u8>, Stop>
    requires allowed { is_allowed old.now.blocks ≡ true }
    requires boot { BOOT_LEN ≤ length old.now.boot.now }
    ensures { IfOk result (λ new. IsByDisk script given.now (disk_of old.now) new.items) }
{
    let has_caches = caches_after(script.settings.letters, old.caches);
    let boot = script.settings.boot;
    let plain = by_old(alloc, old, script, given)?;
    let new = with_caches(alloc, plain, has_caches, boot, old.boot)?;
    Ok(new)
}

/// The image after a script, where these bytes are given for its files.
pub fn by_script(alloc: Global, script: Script, given: &[u8], image: &[u8]) -> Result<Vec<u8>, Stop>
    ensures { IfOk result (λ new. IsByScript script given.now image.now new.items) }
{
    let old = old_disk(alloc, image)?;
    let new = by_disk(alloc, &old, script, given)?;
    Ok(new)
}

/// The image that a script makes of another. The input is the script, behind it the bytes of its files in their order, and behind
/// them the image. Why there is none: the first line that is none; else files that end early; else the first fault of the image;
/// else an entry that is too deep; else the first line that cannot be applied, which may be the one behind the edits, where
/// names of one directory are one by them; else a tree that does not fit.
pub fn new_image(alloc: Global, input: &[u8]) -> Result<Vec<u8>, Stop>
    ensures { IfOk result (λ new. IsEdited input.now new.items) }
{
    let (script, given) = read_script(alloc, input)?;
    let need = files_len(&script.edits);
    if given.len() < need {
        return Err(Stop::Short {
            need: need as u64,
            have: given.len() as u64,
        });
    }
    let image = &given[need..];
    let new = by_script(alloc, script, given, image)?;
    Ok(new)
}

// Manifests in place of images.

ghost use Rattle.std.specs.Prelude.{◌≡◌, IfOk, option_map, true};
ghost use Rattle.adf_manifest.specs.Manifest.{IsManifest};
ghost use Rattle.adf_blocks.specs.Sizes.{is_allowed};
ghost use Rattle.adf_edit_cmd.specs.Manifests.{IsManifestBy, international_plain, is_manifest, with_front};

use crate::stop::Stop;
use adf_base::Letters;
use adf_manifest::{ManifestKind, read_manifest};
use adf_tree::Tree;
use std::alloc::{AllocError, Global};

/// Whether an input is a manifest: it begins with the first word of one.
pub fn is_manifest(text: &[u8]) -> bool
    ensures { result ≡ is_manifest text.now }
{
    text.strip_prefix(b"volume ").is_some()
}

// A text with other first bytes, if it begins with these.
fn with_front(
    alloc: Global,
    front: &[u8],
    new: &[u8],
    text: &[u8],
) -> Result<Option<Vec<u8>>, AllocError>
    ensures { IfOk result (λ plain. option_map (λ v. v.items) plain ≡ with_front front.now new.now text.now) }
{
    let Some(rest) = text.strip_prefix(front) else {
        return Ok(None);
    };
    let mut plain = Vec::new(alloc);
    plain.extend_from_slice(new)?;
    plain.extend_from_slice(rest)?;
    Ok(Some(plain))
}

// The plain manifest of one whose volume has international letters.
fn international_plain(alloc: Global, text: &[u8]) -> Result<Option<Vec<u8>>, AllocError>
    ensures { IfOk result (λ plain. option_map (λ v. v.items) plain ≡ international_plain text.now) }
{
    match with_front(alloc, b"volume ofs-international ", b"volume ofs ", text)? {
        Some(plain) => Ok(Some(plain)),
        None => with_front(alloc, b"volume ffs-international ", b"volume ffs ", text),
    }
}

// The tree and the number of blocks of a plain manifest.
fn plain_tree(alloc: Global, plain: &[u8]) -> Result<(Tree, u32), Stop>
    ensures { IfOk result (λ r. IsManifest plain.now r.0 r.1) }
{
    match read_manifest(alloc, plain) {
        Ok(told) => Ok(told),
        Err(fault) => match fault.kind {
            ManifestKind::NoMemory => Err(Stop::NoMemory),
            _ => Err(Stop::Manifest(fault)),
        },
    }
}

/// A tree, the letters by which it is meant, and a number of blocks.
#[derive(Drop)]
pub struct ManifestTree {
    pub tree: Tree,
    pub letters: Letters,
    pub blocks: u32,
}

// The tree of a plain manifest, by these letters.
fn tree_by(alloc: Global, letters: Letters, plain: &[u8]) -> Result<ManifestTree, Stop>
    ensures tree { IfOk result (λ m. IsManifest plain.now m.tree m.blocks) }
    ensures letters { IfOk result (λ m. m.letters ≡ letters) }
{
    let (tree, blocks) = plain_tree(alloc, plain)?;
    Ok(ManifestTree {
        tree,
        letters,
        blocks,
    })
}

/// The tree of a manifest, by the letters of its volume.
pub fn manifest_tree(alloc: Global, text: &[u8]) -> Result<ManifestTree, Stop>
    ensures tree { IfOk result (λ m. IsManifestBy text.now (record m.tree { letters = m.letters }) m.blocks) }
    ensures size { IfOk result (λ m. is_allowed m.blocks ≡ true) }
{
    let Ok(plain) = international_plain(alloc, text) else {
        return Err(Stop::NoMemory);
    };
    match plain {
        Some(plain) => tree_by(alloc, Letters::International, &plain),
        None => tree_by(alloc, Letters::Ascii, text),
    }
}

// The sound files of a survey.

ghost use Rattle.std.specs.Prelude.{◌≡◌, [], IsOk, IfOk};
ghost use Rattle.std.specs.List.{concat};
ghost use Rattle.adf_blocks.specs.declared.layout.TheConstants.{SIZE};
ghost use Rattle.adf_volume.specs.Image.{kind_of, pieces, word_in};
ghost use Rattle.adf_findings.specs.Files.{HasItsBlocks, file_content, file_from, names_from};

use crate::image::SizedImage;
use adf_base::NoMemory;
use adf_blocks::{EXTENSION, FIRST_POINTER, POINTERS, SIZE};
use adf_tree::Kind;
use adf_volume::{Pieces, count_of, joined};
use std::alloc::Global;
use std::marker::Model;

/// A file that no finding concerns: its size, and its data blocks in file order.
#[derive(Drop)]
pub struct SoundFile<'i> {
    image: &'i [u8],
    kind: Kind,
    head: u32,
    size: u32,
    blocks: Vec<u32>,
}

impl<'i> Model for SoundFile<'i> {
    ghost use Rattle.std.specs.Prelude.{◌≡◌};
    ghost use Rattle.adf_blocks.specs.declared.layout.TheConstants.{SIZE};
    ghost use Rattle.adf_volume.specs.Image.{kind_of, word_in};
    ghost use Rattle.adf_findings.specs.Files.{FileValue, HasItsBlocks};

    ghost Value = { FileValue };

    ghost view = { λ f. record { image = f.image.now; head = f.head; blocks = f.blocks.items } };

    ghost invariant = { λ f. (f.kind ≡ kind_of f.image.now) × (f.size ≡ word_in f.image.now f.head SIZE)
        × HasItsBlocks (record { image = f.image.now; head = f.head; blocks = f.blocks.items }) };
}

// The first `count` pointers to data blocks in the table of the file with its header at block `head`.
fn named_blocks(
    alloc: Global,
    image: &SizedImage<'_>,
    head: u32,
    count: u32,
) -> Result<Vec<u32>, NoMemory>
    ensures names { IfOk result (λ v. v.items ≡ names_from image.now head count) }
    ensures empty { count ≡ 0 → IsOk result }
{
    if count == 0 {
        return Ok(Vec::new(alloc));
    }
    let mut blocks = Vec::with_capacity(alloc, count as usize)?;
    let mut member = head;
    for k in 0..count as usize {
        let named = image.word(member, FIRST_POINTER - k % POINTERS);
        blocks.push(named)?;
        if (k + 1) % POINTERS == 0 {
            member = image.word(member, EXTENSION);
        }
    }
    Ok(blocks)
}

impl<'i> SoundFile<'i> {
    // The file with its header at a block.
    #[tactic(auto, using(crate::proofs::SoundFiles::names_none))]
    pub(crate) fn at(
        alloc: Global,
        image: &SizedImage<'i>,
        head: u32,
    ) -> Result<SoundFile<'i>, NoMemory>
        requires { HasItsBlocks (file_from image.now head) }
        ensures file { IfOk result (λ f. f ≡ file_from image.now head) }
        ensures empty { (file_from image.now head).blocks ≡ [] → IsOk result }
    {
        let kind = image.kind();
        let size = image.word(head, SIZE);
        let blocks = named_blocks(alloc, image, head, count_of(kind, size))?;
        Ok(SoundFile {
            image: image.bytes(),
            kind,
            head,
            size,
            blocks,
        })
    }
}

impl SoundFile<'_> {
    /// The size of the file in bytes.
    pub fn size(&self) -> u32
        ensures { result ≡ word_in self.now.image self.now.head SIZE }
    {
        self.size
    }

    /// The data blocks of the file, in file order.
    pub fn blocks(&self) -> &[u32]
        ensures blocks { result.now ≡ self.now.blocks }
        ensures whole { HasItsBlocks self.now }
    {
        self.blocks.as_slice()
    }

    /// The bytes of the file as slices of the image, one for each data block.
    #[tactic(auto, using(crate::proofs::SoundFiles::joined_content))]
    pub fn pieces(&self) -> Pieces<'_>
        ensures exact { result
            ≡ pieces self.now.image (kind_of self.now.image)
            (word_in self.now.image self.now.head SIZE)
            1 self.now.blocks }
        ensures joined { concat result ≡ file_content self.now }
    {
        Pieces::new(self.image, self.kind, self.size, &self.blocks)
    }

    /// The bytes of the file; `NoMemory` if the allocation fails. An empty file needs no memory.
    pub fn read(&self, alloc: Global) -> Result<Vec<u8>, NoMemory>
        ensures bytes { IfOk result (λ v. v.items ≡ file_content self.now) }
        ensures empty { self.now.blocks ≡ [] → IsOk result }
    {
        joined(alloc, self.pieces())
    }
}

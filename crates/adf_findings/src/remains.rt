// What is left of files that may be damaged.

ghost use Rattle.std.specs.Prelude.{◌≡◌, ◌≤◌, ◌<◌, ◌^◌, ◌+◌, ◌++◌, ◌↔◌, ℕ, IfOk, IsOk, IfSome, IsSome, OnOk, replicate};
ghost use Rattle.std.specs.Prelude.{slice_index};
ghost use Rattle.adf_blocks.specs.Sizes.{blocks, count};
ghost use Rattle.adf_base.specs.Words.{block};
ghost use Rattle.adf_volume.specs.{Image.kind_of, Image.piece, Walk.FileAt, Walk.node_block};
ghost use Rattle.adf_findings.specs.{Files.named_from, Survey.OnSurvey};
ghost use Rattle.adf_findings.specs.Remains.{below, blocks_stated, bytes_in, bytes_left, data_at, gap_at, gaps_left, gaps_of};
ghost use Rattle.adf_findings.specs.Remains.{joined_gaps, left_of, named_below, own_data, size_stated, with_gap, with_lost};

use crate::image::SizedImage;
use crate::owners::entry_of;
use crate::start::start;
use crate::survey_result::{Survey, number_at};
use adf_base::NoMemory;
use adf_blocks::{DATA_BYTES, EXTENSION, FIRST_POINTER, POINTERS, SIZE, chunk_len};
use adf_tree::{Kind, Node};
use adf_volume::{count_of, held_in};
use std::alloc::{AllocError, Global};

/// A run of bytes of a file that are no data: the first and the last, counted from 0.
#[derive(Clone, Copy, Debug, PartialEq, Eq, Drop)]
pub struct Gap {
    pub first: u32,
    pub last: u32,
}

/// What is left of a file: its bytes, with zeros for each data block that is not left, and the runs of these zeros.
#[derive(Drop)]
pub struct Remains {
    pub bytes: Vec<u8>,
    pub gaps: Vec<Gap>,
}

/// How many bytes of a file its header states, but no more than the image has.
pub fn size_stated(image: &SizedImage<'_>, head: u32) -> u32
    ensures { result ≡ size_stated image.now head }
{
    u64::from(image.word(head, SIZE)).min(image.len()) as u32
}

/// The number of data blocks of so many bytes.
#[tactic(auto, unfolding(adf_blocks::specs::Sizes::count, adf_blocks::specs::Sizes::chunk))]
pub fn count_stated(kind: Kind, size: u32) -> u32
    ensures count { result ≡ count kind size }
    ensures few { result ≤ 2 ^ 24 }
{
    count_of(kind, size)
}

// The bytes of data block `k`, counted from 0, of a file of `size` bytes, in its block.
#[tactic(auto, unfolding(adf_blocks::specs::Sizes::chunk))]
fn data_in<'i>(image: &SizedImage<'i>, b: u32, size: u32, k: u32) -> &'i [u8]
    requires inside { b < blocks image.now }
    requires few { k < 2 ^ 24 }
    ensures { result.now ≡ piece (kind_of image.now) size (k + 1) (block image.now b) }
{
    let kind = image.kind();
    let held = held_in(kind, size, k + 1) as usize;
    match kind {
        Kind::Ofs => image.block(b).bytes(DATA_BYTES, held),
        Kind::Ffs => image.block(b).bytes(0, held),
    }
}

// The bytes of data block `k`, by the first and the last.
#[tactic(auto, using(crate::proofs::Gaps::block_within, crate::proofs::Gaps::blocks_few))]
fn gap_at(image: &SizedImage<'_>, size: u32, k: u32) -> Gap
    requires { k < count (kind_of image.now) size }
    ensures { result ≡ gap_at image.now size k }
{
    let first = chunk_len(image.kind()) as u32 * k;
    let held = held_in(image.kind(), size, k + 1);
    Gap {
        first,
        last: first + held.saturating_sub(1),
    }
}

// Appends a gap and another behind it: one, where that begins right behind the first.
fn push_joined(gaps: &mut Vec<Gap>, last: Gap, gap: Gap) -> Result<(), AllocError>
    ensures { OnOk result (gaps.new.items ≡ gaps.old.items ++ joined_gaps last gap) }
{
    if u64::from(last.last) + 1 == u64::from(gap.first) {
        gaps.push(Gap {
            first: last.first,
            last: gap.last,
        })?;
        return Ok(());
    }
    gaps.push(last)?;
    gaps.push(gap)?;
    Ok(())
}

// Appends a gap, which goes on with the last or not.
#[tactic(auto, using(crate::proofs::Gaps::with_gap_last))]
fn push_gap(gaps: &mut Vec<Gap>, gap: Gap) -> Result<(), AllocError>
    ensures { OnOk result (gaps.new.items ≡ with_gap gaps.old.items gap) }
{
    match gaps.pop() {
        Some(last) => push_joined(gaps, last, gap),
        None => {
            gaps.push(gap)?;
            Ok(())
        }
    }
}

// Appends zeros.
fn push_zeros(bytes: &mut Vec<u8>, count: u32) -> Result<(), AllocError>
    ensures { OnOk result (bytes.new.items ≡ bytes.old.items ++ replicate count 0) }
{
    bytes.resize(bytes.len() + count as usize, 0)
}

impl Remains {
    /// Appends data block `k`, counted from 0, of a file of `size` bytes: the bytes in its block, or zeros and the run of them
    /// if no block is found. `AllocError` if an allocation fails.
    #[tactic(auto, using(crate::proofs::Gaps::blocks_few))]
    pub fn add(
        &mut self,
        image: &SizedImage<'_>,
        size: u32,
        k: u32,
        found: Option<u32>,
    ) -> Result<(), AllocError>
        requires few { k < count (kind_of image.now) size }
        requires inside { IfSome found (λ b. b < blocks image.now) }
        ensures bytes { OnOk result (self.new.bytes.items
            ≡ self.old.bytes.items ++ bytes_in image.now size k found) }
        ensures gaps { OnOk result (self.new.gaps.items
            ≡ with_lost image.now size self.old.gaps.items k found) }
    {
        match found {
            Some(b) => self.bytes.extend_from_slice(data_in(image, b, size, k)),
            None => {
                push_zeros(&mut self.bytes, held_in(image.kind(), size, k + 1))?;
                push_gap(&mut self.gaps, gap_at(image, size, k))
            }
        }
    }
}

// A block, if it is before this one.
fn below(end: u32, found: Option<u32>) -> Option<u32>
    ensures below { result ≡ below end found }
    ensures inside { (n : ℕ) → IfSome found (λ b. b < n) → IfSome result (λ b. b < n) }
{
    match found {
        Some(b) if b < end => Some(b),
        _ => None,
    }
}

impl<'i> Survey<'i> {
    // A block, if it is taken as data block `k`, counted from 0, of an entry, and no other part asks for it.
    fn data_at(&self, image: &SizedImage<'_>, n: Node, k: u32, b: u32) -> Option<u32>
        requires { k < 2 ^ 24 }
        ensures data { result ≡ data_at image.now self.now n k b }
        ensures inside { IfSome result (λ b. b < blocks image.now) }
    {
        let owner = self.owners.at(b);
        let is_own = entry_of(&owner) == n.0 && self.alone_at(b) == k + 1;
        if b < image.blocks() && is_own {
            Some(b)
        } else {
            None
        }
    }

    // The block of data block `k`, counted from 0, of a file that is left, where its table names a block as this one.
    fn own_at(&self, image: &SizedImage<'_>, n: Node, k: u32, b: u32) -> Option<u32>
        requires small { k < 2 ^ 24 }
        requires named { b ≡ named_from image.now (slice_index self.now.nodes n) k }
        ensures own { result ≡ own_data (kind_of image.now) image.now (slice_index self.now.nodes n) k
            (data_at image.now self.now n k b) }
        ensures inside { IfSome result (λ b. b < blocks image.now) }
    {
        match image.kind() {
            Kind::Ofs if image.says_data_of(number_at(&self.nodes, n.0), k + 1, b) => Some(b),
            Kind::Ofs => None,
            Kind::Ffs => self.data_at(image, n, k, b),
        }
    }

    // What is left of a file before block `end`.
    fn left_of(
        &self,
        alloc: Global,
        image: &SizedImage<'_>,
        n: Node,
        end: u32,
    ) -> Result<Remains, AllocError>
        ensures bytes { let head = slice_index self.now.nodes n in IfOk result (λ r. r.bytes.items
            ≡ bytes_left image.now (size_stated image.now head) (named_below end image.now self.now n head)
            (blocks_stated image.now head)) }
        ensures gaps { let head = slice_index self.now.nodes n in IfOk result (λ r. r.gaps.items
            ≡ gaps_left image.now (size_stated image.now head) (named_below end image.now self.now n head)
            (blocks_stated image.now head)) }
        ensures empty { blocks_stated image.now (slice_index self.now.nodes n) ≡ 0 → IsOk result }
    {
        let head = number_at(&self.nodes, n.0);
        let mut remains = Remains {
            bytes: Vec::new(alloc),
            gaps: Vec::new(alloc),
        };
        let size = size_stated(image, head);
        let mut member = head;
        for k in 0..count_stated(image.kind(), size) {
            let b = image.word(member, FIRST_POINTER - k as usize % POINTERS);
            let left = below(end, self.own_at(image, n, k, b));
            remains.add(image, size, k, left)?;
            if (k as usize + 1) % POINTERS == 0 {
                member = image.word(member, EXTENSION);
            }
        }
        Ok(remains)
    }

    /// What is left of a file, whether sound or not: the bytes of each data block before block `end` that is its own, and zeros
    /// for the others; as many as its header says, but no more than the image has. On OFS a block is its own that says so and
    /// has a right sum; on FFS one that no other part asks for. `None` for what is no file. `NoMemory` if an allocation fails;
    /// never if there is no file, or it is empty.
    #[tactic(auto, using(crate::proofs::Keeping::tells_each))]
    pub fn remains(&self, alloc: Global, n: Node, end: u32) -> Result<Option<Remains>, NoMemory>
        ensures some { OnSurvey self.now.image (λ w _.
            IfOk result (λ x. IsSome x ↔ ((h : ℕ) × FileAt self.now.image w n h))) }
        ensures bytes { OnSurvey self.now.image (λ w fs.
            IfOk result (λ x. IfSome x (λ r. r.bytes.items ≡ left_of self.now.image w fs end n))) }
        ensures gaps { OnSurvey self.now.image (λ w fs.
            IfOk result (λ x. IfSome x (λ r. r.gaps.items ≡ gaps_of self.now.image w fs end n))) }
        ensures none { OnSurvey self.now.image (λ w _.
            ((h : ℕ) → FileAt self.now.image w n h → ⊥) → IsOk result) }
        ensures empty { OnSurvey self.now.image (λ w _.
            blocks_stated self.now.image (node_block w n) ≡ 0 → IsOk result) }
    {
        if !self.is_file(n) {
            return Ok(None);
        }
        let Ok(started) = start(self.image) else {
            return Ok(None);
        };
        Ok(Some(self.left_of(alloc, &started.image, n, end)?))
    }
}

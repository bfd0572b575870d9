// The results of a survey.

ghost use Rattle.std.specs.Prelude.{◌≡◌, ◌≤◌, ◌<◌, ◌↔◌, ℕ, [], map, slice_index, true, slice_get, IsTrue, IsNone, IsOk, IsSome};
ghost use Rattle.std.specs.Prelude.{◌*◌, IfOk, IfSome, length};
ghost use Rattle.std.specs.Option.{option_flatten};
ghost use Rattle.adf_blocks.specs.{HeadBlock.body_at, HeadBlock.meta_stated, Sizes.blocks, Sizes.is_allowed};
ghost use Rattle.adf_base.specs.Words.{block};
ghost use Rattle.adf_volume.specs.Image.{letters_of, name_of};
ghost use Rattle.adf_volume.specs.Walk.{FileAt, Has, heads, node_block, Role.Head};
ghost use Rattle.adf_findings.specs.Concerned.{concern_of_nth, number_alone, taker_of_nth};
ghost use Rattle.adf_findings.specs.Files.{IsSoundFile, counting, file_in, grave};
ghost use Rattle.adf_findings.specs.Members.{number_at as number_of, owning_entry, owns, parent_node, has_mark};
ghost use Rattle.adf_findings.specs.{SoundMarks.AreMarks, SoundMarks.mark_in, SoundMarks.whole_in, SurveyResult.alone_in};
ghost use Rattle.adf_findings.specs.{Opening.opening_in, Parts.finding_value, Sound.IsSound, Survey.OnSurvey};

use crate::concern::Concern;
use crate::file::SoundFile;
use crate::finding::Finding;
use crate::found::ChainPlace;
use crate::header_name::name_in;
use crate::opening::Opening;
use crate::owners::{data_number_of, entry_at, owner_nth};
use crate::start::start;
use crate::walk_owners::WalkOwners;
use adf_base::{Block, Letters, NoMemory};
use adf_blocks::{HeadBody, SECONDARY_TYPE, ST_FILE, meta_stated};
use adf_tree::{Meta, Name, Node};
use adf_volume::letters_in;
use std::alloc::Global;
use std::collections::BTreeMap;
use std::marker::Model;

/// The result of a survey: all findings, and the entries that are found.
#[derive(Drop)]
pub struct Survey<'i> {
    pub(crate) image: &'i [u8],
    pub(crate) findings: Vec<Finding>,
    pub(crate) concerned: Vec<Option<Concern>>,
    pub(crate) owners: WalkOwners,
    pub(crate) contested: Vec<bool>,
    pub(crate) pages: BTreeMap<u32, u32>,
    pub(crate) nodes: Vec<u32>,
    pub(crate) parents: Vec<u32>,
    pub(crate) places: Vec<ChainPlace>,
    pub(crate) sound: Vec<bool>,
    pub(crate) whole: Vec<bool>,
}

impl<'i> Model for Survey<'i> {
    ghost use Rattle.adf_findings.specs.SurveyResult.{IsOfSurvey, SurveyValue};

    ghost Value = { SurveyValue };

    ghost view = { λ v. record {
      image = v.image.now;
      findings = v.findings.items;
      concerned = v.concerned.items;
      owners = v.owners.owners;
      contested = v.contested.items;
      pages = v.pages.entries;
      nodes = v.nodes.items;
      parents = v.parents.items;
      places = v.places.items;
      sound = v.sound.items;
      whole = v.whole.items;
    } };

    ghost invariant = { λ v. IsOfSurvey (record {
      image = v.image.now;
      findings = v.findings.items;
      concerned = v.concerned.items;
      owners = v.owners.owners;
      contested = v.contested.items;
      pages = v.pages.entries;
      nodes = v.nodes.items;
      parents = v.parents.items;
      places = v.places.items;
      sound = v.sound.items;
      whole = v.whole.items;
    }) };
}

/// Whether something has a mark; not past the last.
pub fn has_mark(marks: &Vec<bool>, n: usize) -> bool
    ensures { result ≡ has_mark marks.now.items n }
{
    marks.get(n).copied().unwrap_or(false)
}

// The number at an index; 0 past the last.
pub fn number_at(numbers: &Vec<u32>, n: usize) -> u32
    ensures { result ≡ slice_index numbers.now.items n }
{
    numbers.get(n).copied().unwrap_or(0)
}

// What stands at an index; `None` past the last.
fn concern_at(concerns: &Vec<Option<Concern>>, k: usize) -> Option<Concern>
    ensures { result ≡ option_flatten (slice_get concerns.now.items k) }
{
    concerns.get(k).copied().flatten()
}

impl Survey<'_> {
    // The letters of the volume.
    pub(crate) fn letters(&self) -> Letters
        ensures { result ≡ letters_of self.now.image }
    {
        letters_in(self.image)
    }

    /// The bytes of the image.
    pub fn image(&self) -> &[u8]
        ensures { result.now ≡ self.now.image }
    {
        self.image
    }

    /// The findings, in the order of the survey.
    #[tactic(auto, using(crate::proofs::Keeping::tells_each))]
    pub fn findings(&self) -> &[Finding]
        ensures { OnSurvey self.now.image (λ _ fs. map finding_value result.now ≡ fs) }
    {
        &self.findings
    }

    /// What finding `k`, counted from 0, concerns: the entry of a header that is found, or the file of an extension or
    /// data block; of a header that was skipped, its directory. `None` for other parts, and past the last finding.
    #[tactic(auto, using(crate::proofs::Keeping::tells_each))]
    pub fn concern_of(&self, k: usize) -> Option<Concern>
        ensures { OnSurvey self.now.image (λ w fs. result ≡ concern_of_nth w fs k) }
    {
        concern_at(&self.concerned, k)
    }

    /// The entry that holds the block of finding `k`, counted from 0, if its cause is `taken`: that of a header, or the
    /// file of an extension or data block. `None` for a block of the root or the bitmap, for other causes, and past the
    /// last finding.
    #[tactic(auto, using(crate::proofs::Keeping::tells_each, crate::proofs::BlockOwners::owner_nth_is))]
    pub fn owner_of(&self, k: usize) -> Option<Node>
        ensures { OnSurvey self.now.image (λ w fs. result ≡ taker_of_nth w fs k) }
    {
        owner_nth(&self.owners, &self.findings, k)
    }

    /// The entry that has a block: the one whose header, extension block or data block it is. `None` for a block of the root
    /// or the bitmap, for one that is not taken, and past the last block.
    #[tactic(auto, using(crate::proofs::Keeping::tells_each))]
    pub fn entry_at(&self, b: u32) -> Option<Node>
        ensures { OnSurvey self.now.image (λ w _. result ≡ owning_entry w b) }
    {
        entry_at(&self.owners, b)
    }

    /// The number of the data block of a file that a block is, from 1; 0 for a block that is none, and past the last block.
    #[tactic(auto, using(crate::proofs::Keeping::tells_each))]
    pub fn data_number(&self, b: u32) -> u32
        ensures { OnSurvey self.now.image (λ w _. result ≡ number_of w b) }
    {
        data_number_of(&self.owners.at(b))
    }

    // The number of the data block of a file that a block is, from 1, where no other part asks for it; otherwise 0.
    pub(crate) fn alone_at(&self, b: u32) -> u32
        ensures { result ≡ alone_in self.now b }
    {
        if has_mark(&self.contested, b as usize) {
            return 0;
        }
        data_number_of(&self.owners.at(b))
    }

    /// The number of the data block of a file that a block is, from 1, where no finding is that it is taken: no other part
    /// asks for it. 0 for other blocks, and past the last one.
    pub fn number_alone(&self, b: u32) -> u32
        ensures { OnSurvey self.now.image (λ w fs. result ≡ number_alone w fs b) }
    {
        let _contested = &self.contested;
        self.alone_at(b)
    }

    /// Whether a block is a part of what is found: the root, a block of the bitmap, or a block of an entry.
    #[tactic(auto, using(crate::proofs::Keeping::tells_each))]
    pub fn has_part(&self, b: u32) -> bool
        ensures { OnSurvey self.now.image (λ w _. result ≡ owns w b) }
    {
        self.owners.is_part(b)
    }

    /// The number of entries found.
    #[tactic(auto, using(crate::proofs::Keeping::tells_each))]
    pub fn len(&self) -> usize
        ensures { OnSurvey self.now.image (λ w _. result ≡ heads w) }
    {
        self.nodes.len().saturating_sub(1)
    }

    // Whether there is an entry with this number.
    #[tactic(auto, using(std::proofs::lemmas::Bool::Decides::nat_tests))]
    fn has_entry(&self, n: Node) -> bool
        ensures { OnSurvey self.now.image (λ w _. IsTrue result ↔ ((1 ≤ n) × (n ≤ heads w))) }
    {
        n.0 != 0 && n.0 <= self.len()
    }

    /// The header's block of an entry; `None` for the root and past the last entry.
    #[tactic(auto, using(crate::proofs::Keeping::tells_each))]
    pub fn block_of(&self, n: Node) -> Option<u32>
        ensures some { OnSurvey self.now.image (λ w _. IsSome result ↔ ((1 ≤ n) × (n ≤ heads w))) }
        ensures block { OnSurvey self.now.image (λ w _. IfSome result (λ b. b ≡ node_block w n)) }
    {
        if !self.has_entry(n) {
            return None;
        }
        Some(number_at(&self.nodes, n.0))
    }

    /// The header of an entry; `None` for the root and past the last entry.
    pub fn header(&self, n: Node) -> Option<Block<'_>>
        ensures some { OnSurvey self.now.image (λ w _. IsSome result ↔ ((1 ≤ n) × (n ≤ heads w))) }
        ensures block { OnSurvey self.now.image (λ w _.
            IfSome result (λ x. x ≡ block self.now.image (node_block w n))) }
    {
        match self.block_of(n) {
            Some(b) => Block::at(self.image, b),
            None => None,
        }
    }

    /// The name in the header of an entry, at most 79 bytes and not necessarily valid; `None` for the root and past
    /// the last entry.
    pub fn name(&self, n: Node) -> Option<&[u8]>
        ensures some { OnSurvey self.now.image (λ w _. IsSome result ↔ ((1 ≤ n) × (n ≤ heads w))) }
        ensures name { OnSurvey self.now.image (λ w _.
            IfSome result (λ x. x.now ≡ name_of self.now.image (node_block w n))) }
    {
        match self.header(n) {
            Some(head) => Some(name_in(&head)),
            None => None,
        }
    }

    /// The body in the header of an entry: a directory, or a file with its size in bytes and first extension block;
    /// a link counts as a file. `None` for the root and past the last entry.
    pub fn body(&self, n: Node) -> Option<HeadBody>
        ensures some { OnSurvey self.now.image (λ w _. IsSome result ↔ ((1 ≤ n) × (n ≤ heads w))) }
        ensures body { OnSurvey self.now.image (λ w _.
            IfSome result (λ x. x ≡ body_at (block self.now.image (node_block w n)))) }
    {
        match self.header(n) {
            Some(head) => Some(HeadBody::of(&head)),
            None => None,
        }
    }

    /// Whether an entry is a file, sound or not.
    pub fn is_file(&self, n: Node) -> bool
        ensures { OnSurvey self.now.image (λ w _. IsTrue result ↔ ((h : ℕ) × FileAt self.now.image w n h)) }
    {
        match self.header(n) {
            Some(head) => head.word(SECONDARY_TYPE) == ST_FILE,
            None => false,
        }
    }

    /// The metadata in the header of an entry: its comment, cut to 79 bytes, its protection bits and its date. `None`
    /// for the root and past the last entry.
    pub fn meta(&self, n: Node) -> Option<Meta>
        ensures some { OnSurvey self.now.image (λ w _. IsSome result ↔ ((1 ≤ n) × (n ≤ heads w))) }
        ensures meta { OnSurvey self.now.image (λ w _.
            IfSome result (λ x. x ≡ meta_stated (block self.now.image (node_block w n)))) }
    {
        match self.header(n) {
            Some(head) => Some(meta_stated(&head)),
            None => None,
        }
    }

    /// The facts in the boot bytes and the root, even if the root has a finding; `None` if the root is not taken, and
    /// so nothing is surveyed.
    #[tactic(auto, using(crate::proofs::Openings::begun_walk, crate::proofs::Openings::unbegun_walk))]
    pub fn opening(&self) -> Option<Opening>
        ensures some { OnSurvey self.now.image (λ w _. IsNone result ↔ (w ≡ [])) }
        ensures opening { IfSome result (λ o. o ≡ opening_in self.now.image) }
        ensures size { IfSome result (λ o. is_allowed o.blocks ≡ true) }
    {
        match start(self.image) {
            Ok(started) => Some(Opening::of(&started.image)),
            Err(_) => None,
        }
    }

    /// The parent of an entry, as a function: 0 if it is in the root, and if there is no such entry.
    #[tactic(auto, using(crate::proofs::Keeping::tells_each))]
    pub fn directory_of(&self, n: Node) -> Node
        ensures { OnSurvey self.now.image (λ w _. result ≡ parent_node w n) }
    {
        Node(number_at(&self.parents, n.0) as usize)
    }

    /// The parent of an entry, 0 if it is in the root; `None` for the root and past the last entry.
    #[tactic(auto, using(crate::proofs::Keeping::parent_is))]
    pub fn parent_of(&self, n: Node) -> Option<Node>
        ensures some { OnSurvey self.now.image (λ w _. IsSome result ↔ ((1 ≤ n) × (n ≤ heads w))) }
        ensures parent { OnSurvey self.now.image (λ w _.
            IfSome result (λ m. (p s j b : ℕ) → Has w (Head n p s j) b → m ≡ p)) }
    {
        if !self.has_entry(n) {
            return None;
        }
        Some(self.directory_of(n))
    }

    // Whether an entry is sound; by the grave findings alone, if these count.
    pub(crate) fn is_clear(&self, n: Node, grave: bool) -> bool
        ensures { OnSurvey self.now.image (λ w fs.
            IsTrue result ↔ IsSound self.now.image w (counting grave fs) n (node_block w n)) }
    {
        if n.0 == 0 {
            return false;
        }
        if grave {
            return has_mark(&self.whole, n.0);
        }
        has_mark(&self.sound, n.0)
    }

    /// Whether an entry is sound: no finding concerns its parts, and of a directory, no header within it was skipped.
    pub fn is_sound(&self, n: Node) -> bool
        ensures { OnSurvey self.now.image (λ w fs.
            IsTrue result ↔ IsSound self.now.image w fs n (node_block w n)) }
    {
        self.is_clear(n, false)
    }

    /// States that the kept marks of whole entries are those of the entries that are sound by the grave findings; does
    /// nothing at run time.
    pub fn whole_marks(&self)
        ensures { OnSurvey self.now.image (λ w fs. AreMarks self.now.image w (grave fs) (whole_in self.now)) }
    {
        let _whole = &self.whole;
    }

    /// States that the kept marks are those of the sound entries; does nothing at run time.
    pub fn marks(&self)
        ensures { OnSurvey self.now.image (λ w fs. AreMarks self.now.image w fs (mark_in self.now)) }
    {
        let _sound = &self.sound;
    }
}

impl<'i> Survey<'i> {
    // A file that is sound, or is by the grave findings alone, if these count.
    #[tactic(auto, using(crate::proofs::SoundFiles::type_is, crate::proofs::SoundFiles::file_is))]
    fn file_by(
        &self,
        alloc: Global,
        n: Node,
        grave: bool,
    ) -> Result<Option<SoundFile<'i>>, NoMemory>
        ensures some { OnSurvey self.now.image (λ w fs.
            IfOk result (λ x. IsSome x ↔ IsSoundFile self.now.image w (counting grave fs) n)) }
        ensures file { OnSurvey self.now.image (λ w _.
            IfOk result (λ x. IfSome x (λ f. f ≡ file_in self.now.image w n))) }
        ensures none { OnSurvey self.now.image (λ w fs.
            (IsSoundFile self.now.image w (counting grave fs) n → ⊥) → IsOk result) }
        ensures empty { OnSurvey self.now.image (λ w _.
            (file_in self.now.image w n).blocks ≡ [] → IsOk result) }
    {
        if !self.is_clear(n, grave) {
            return Ok(None);
        }
        let Ok(started) = start(self.image) else {
            return Ok(None);
        };
        let head = number_at(&self.nodes, n.0);
        if started.image.word(head, SECONDARY_TYPE) != ST_FILE {
            return Ok(None);
        }
        Ok(Some(SoundFile::at(alloc, &started.image, head)?))
    }

    /// A sound file; `None` for anything else. `NoMemory` if an allocation fails; never if there is no sound file,
    /// or it is empty.
    pub fn file(&self, alloc: Global, n: Node) -> Result<Option<SoundFile<'i>>, NoMemory>
        ensures some { OnSurvey self.now.image (λ w fs.
            IfOk result (λ x. IsSome x ↔ IsSoundFile self.now.image w fs n)) }
        ensures file { OnSurvey self.now.image (λ w _.
            IfOk result (λ x. IfSome x (λ f. f ≡ file_in self.now.image w n))) }
        ensures none { OnSurvey self.now.image (λ w fs.
            (IsSoundFile self.now.image w fs n → ⊥) → IsOk result) }
        ensures empty { OnSurvey self.now.image (λ w _.
            (file_in self.now.image w n).blocks ≡ [] → IsOk result) }
    {
        self.file_by(alloc, n, false)
    }

    /// A file with all of its blocks: one that is sound but for causes of its header that leave it itself (`bad name`,
    /// `bad comment`, `wrong slot`, `bad first`, `same name`); `None` for anything else. `NoMemory` if an allocation
    /// fails; never if there is no such file, or it is empty.
    pub fn whole_file(&self, alloc: Global, n: Node) -> Result<Option<SoundFile<'i>>, NoMemory>
        ensures some { OnSurvey self.now.image (λ w fs.
            IfOk result (λ x. IsSome x ↔ IsSoundFile self.now.image w (grave fs) n)) }
        ensures file { OnSurvey self.now.image (λ w _.
            IfOk result (λ x. IfSome x (λ f. f ≡ file_in self.now.image w n))) }
        ensures none { OnSurvey self.now.image (λ w fs.
            (IsSoundFile self.now.image w (grave fs) n → ⊥) → IsOk result) }
        ensures empty { OnSurvey self.now.image (λ w _.
            (file_in self.now.image w n).blocks ≡ [] → IsOk result) }
    {
        self.file_by(alloc, n, true)
    }
}

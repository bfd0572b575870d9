// The state of a survey.

ghost use Rattle.std.specs.Prelude.{◌≡◌, ◌≤◌, ◌<◌, ◌+◌, ℕ, List, [], IfOk, OnOk, Some, not, slice_index};
ghost use Rattle.std.specs.{BTreeMap.Updates, Ordering.nat_cmp};
ghost use Rattle.adf_blocks.specs.Sizes.{blocks};
ghost use Rattle.adf_tree.specs.NameSet.{has};
ghost use Rattle.adf_volume.specs.{Positions.position_of, Walk.Walk, Parts.role_of};
ghost use Rattle.adf_findings.specs.Found.{AreNamed, AreSame, Stands, IsChain, IsKept, IsOwned, IsBlockSkipped, HasValidName};
ghost use Rattle.adf_findings.specs.Found.{IsPut, IsTaken, IsNextPart, KeepsName, KeepsParts, begun_marks, is_owned, known_at};
ghost use Rattle.adf_findings.specs.{Found.new_in, Survey.begun};

use crate::header_name::valid_name;
use crate::image::SizedImage;
use crate::walk_owners::WalkOwners;
use adf_base::NoMemory;
use adf_tree::NameSet;
use adf_volume::Part;
use std::alloc::Global;
use std::collections::BTreeMap;

/// The position of a header in its directory: the slot, and the index in the slot's chain.
#[derive(Clone, Copy, PartialEq, Eq, Drop)]
pub struct ChainPlace {
    pub slot: u8,
    pub place: u32,
}

/// The state of a survey: the blocks of the taken pages of the bitmap, by number; the owner of each block; for each
/// block, once any was skipped, whether it was; the number of blocks not taken; the blocks of nodes; the valid names in
/// the current chain; the parents of nodes; and the positions of headers, from node 1 on.
#[derive(Drop)]
pub struct Found {
    pub pages: BTreeMap<u32, u32>,
    pub owners: WalkOwners,
    pub skipped: Vec<bool>,
    pub left: u32,
    pub nodes: Vec<u32>,
    pub names: NameSet,
    pub parents: Vec<u32>,
    pub places: Vec<ChainPlace>,
}

// Adds the block of page `i`.
fn put(pages: &mut BTreeMap<u32, u32>, i: u32, block: u32) -> Result<(), NoMemory>
    ensures { OnOk result (Updates nat_cmp pages.old pages.new i (Some block)) }
{
    pages.insert(i, block)?;
    Ok(())
}

// Begins the marks of so many blocks, if there are none yet.
fn begin_marks(marks: &mut Vec<bool>, count: usize) -> Result<(), NoMemory>
    ensures { OnOk result (marks.new.items ≡ begun_marks count marks.old.items) }
{
    if !marks.is_empty() {
        return Ok(());
    }
    marks.resize(count, false)?;
    Ok(())
}

impl Found {
    /// The state with nothing but the root.
    #[tactic(auto, using(crate::proofs::Begun::stands_begun))]
    pub fn begin(alloc: Global, image: &SizedImage<'_>) -> Result<Found, NoMemory>
        ensures stands { IfOk result (λ f. Stands image.now f (begun image.now [])) }
        ensures few { blocks image.now ≤ 8388608 }
        ensures left { IfOk result (λ f. f.left + 1 ≡ blocks image.now) }
    {
        let root = image.root();
        let blocks = image.blocks();
        let owners = WalkOwners::new(alloc, blocks)?;
        let parents = vec![in alloc; 0u32; 1]?;
        let mut found = Found {
            pages: BTreeMap::new(alloc),
            owners,
            skipped: Vec::new(alloc),
            left: blocks,
            nodes: Vec::new(alloc),
            names: NameSet::new(alloc),
            parents,
            places: Vec::new(alloc),
        };
        found.own(Part::Root, root)?;
        found.nodes.push(root)?;
        Ok(found)
    }

    // The block of a node; 0 if there is none.
    pub fn node_block(&self, node: u32) -> u32
        ensures { result ≡ slice_index self.now.nodes.items node }
    {
        self.nodes.get(node as usize).copied().unwrap_or(0)
    }

    // Whether block `b` has no owner.
    pub fn is_absent(&self, b: u32) -> bool
        ensures { result ≡ not (is_owned self.now b) }
    {
        !self.owners.is_part(b)
    }

    // Keeps the block of a page of the bitmap.
    #[inline(always)]
    fn keep_page(&mut self, part: Part, b: u32) -> Result<(), NoMemory>
        ensures pages { OnOk result (IsPut part b self.old.pages self.new.pages) }
        ensures rest { OnOk result (self.new ≡ record self.old { pages = self.new.pages }) }
    {
        match part {
            Part::Page(i) => put(&mut self.pages, i, b),
            _ => Ok(()),
        }
    }

    // Makes a part the owner of block `b`.
    #[tactic(auto, using(crate::proofs::WalkOwners::part_owns))]
    #[inline(always)]
    fn own(&mut self, part: Part, b: u32) -> Result<(), NoMemory>
        requires next { IsNextPart part b self.old }
        ensures owned { OnOk result (IsOwned part b self.old self.new) }
        ensures rest { OnOk result (AreSame self.old self.new) }
    {
        self.keep_page(part, b)?;
        self.owners.claim(b, part.owner())?;
        self.left -= 1;
        Ok(())
    }

    // Clears the names at the first position of a chain.
    fn begin_names(&mut self, place: u32)
        ensures names { (x : List ℕ) → has self.new.names x ≡ known_at place (has self.old.names x) }
        ensures rest { self.new ≡ record self.old { names = self.new.names } }
    {
        if place == 0 {
            self.names.clear();
        }
    }

    // Keeps the name of a header.
    #[inline(never)]
    #[tactic(auto, using(crate::proofs::Known::kept_none, std::proofs::lemmas::Bool::false_from_ne_true))]
    fn keep_header_name(
        &mut self,
        image: &SizedImage<'_>,
        part: Part,
        b: u32,
    ) -> Result<bool, NoMemory>
        requires { b < blocks image.now }
        ensures new { IfOk result (λ t. (w : Walk)
            → AreNamed image.now w (position_of (role_of part)) self.old.names → IsChain w part
            → HasValidName image.now part b → t ≡ new_in image.now w part b) }
        ensures names { OnOk result (KeepsName image.now part b self.old.names self.new.names) }
        ensures rest { self.new ≡ record self.old { names = self.new.names } }
    {
        let Part::Head { place, .. } = part else {
            return Ok(true);
        };
        self.begin_names(place);
        match valid_name(image, b) {
            Some(name) => self.names.put_by(image.letters(), &name),
            None => Ok(true),
        }
    }

    /// Keeps the name of a header that is to be taken, if it is valid. Returns whether it is new in its chain.
    #[inline(always)]
    pub fn keep_name(
        &mut self,
        image: &SizedImage<'_>,
        part: Part,
        b: u32,
    ) -> Result<bool, NoMemory>
        requires { b < blocks image.now }
        ensures new { IfOk result (λ t. (w : Walk)
            → AreNamed image.now w (position_of (role_of part)) self.old.names → IsChain w part
            → HasValidName image.now part b → t ≡ new_in image.now w part b) }
        ensures names { OnOk result (KeepsName image.now part b self.old.names self.new.names) }
        ensures rest { self.new ≡ record self.old { names = self.new.names } }
    {
        match part {
            Part::Head { .. } => self.keep_header_name(image, part, b),
            _ => Ok(true),
        }
    }

    // Keeps the facts of a header that later parts need.
    #[inline(always)]
    fn keep(&mut self, part: Part, b: u32) -> Result<(), NoMemory>
        ensures kept { OnOk result (IsKept part b self.old self.new) }
        ensures rest { OnOk result (KeepsParts self.old self.new) }
    {
        let Part::Head {
            parent,
            slot,
            place,
            ..
        } = part
        else {
            return Ok(());
        };
        self.nodes.push(b)?;
        self.parents.push(parent)?;
        self.places.push(ChainPlace { slot, place })?;
        Ok(())
    }

    /// Takes a part, in block `b`.
    #[tactic(auto, using(crate::proofs::Taking::taken_last))]
    #[inline(always)]
    pub fn take(&mut self, part: Part, b: u32) -> Result<(), NoMemory>
        requires next { IsNextPart part b self.old }
        ensures { OnOk result (IsTaken part b self.old self.new) }
    {
        self.keep(part, b)?;
        self.own(part, b)
    }

    /// Marks block `b` as skipped.
    pub fn skip(&mut self, b: u32) -> Result<(), NoMemory>
        ensures { OnOk result (IsBlockSkipped b self.old self.new) }
    {
        begin_marks(&mut self.skipped, self.owners.len() as usize)?;
        if (b as usize) < self.skipped.len() {
            self.skipped[b as usize] = true;
        }
        Ok(())
    }
}

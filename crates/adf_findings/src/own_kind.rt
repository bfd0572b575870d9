// What the entries of a survey tell of the type of their volume.

ghost use Rattle.std.specs.Prelude.{◌≡◌, ◌≤◌, ◌<◌, ◌+◌, ◌-◌, ◌==◌, ℕ, List, IsTrue, slice_get, slice_index};
ghost use Rattle.adf_blocks.specs.Sizes.{blocks};
ghost use Rattle.adf_volume.specs.Walk.{Role, heads, node_block};
ghost use Rattle.adf_findings.specs.{Files.grave, Sound.IsSound, Survey.OnSurvey};
ghost use Rattle.adf_findings.specs.OwnKind.{claims_file, has_other_kind, has_other_letters, is_full_file, is_in_slot, is_mistyped};
ghost use Rattle.adf_findings.specs.OwnKind.{is_filled, is_other_kind, kind_said, other_kind, other_letters, passing, retyped, said_in, claims_data};
ghost use Rattle.adf_findings.specs.OwnKind.{slot_of_place, tallied, tally, told_type, type_with};

use crate::found::ChainPlace;
use crate::image::SizedImage;
use crate::owners::{data_number_of, entry_of};
use crate::start::start;
use crate::survey_result::{Survey, number_at};
use adf_base::{Letters, slot_by};
use adf_blocks::{DATA_HEAD, OWN_KEY, SECONDARY_TYPE, SIZE, ST_FILE, T_DATA, T_SHORT, TYPE};
use adf_names::type_number;
use adf_tree::{Kind, Name, Node};

/// How many files that are not empty show, without a data block, that an OFS volume is one of FFS.
pub const FILES_THAT_TELL: usize = 4;

/// How many data blocks say that they are OFS ones of their files, and how many tell against it.
#[derive(Clone, Copy, PartialEq, Eq, Drop)]
pub struct Tally {
    pub says: u32,
    pub others: u32,
}

impl Tally {
    // A tally with one more block.
    fn with(self, said: Option<bool>) -> Tally
        requires says { self.says < 8388608 }
        requires others { self.others < 8388608 }
        ensures { result ≡ tallied self said }
    {
        match said {
            None => self,
            Some(true) => Tally {
                says: self.says + 1,
                others: self.others,
            },
            Some(false) => Tally {
                says: self.says,
                others: self.others + 1,
            },
        }
    }
}

// The other kind.
fn other_kind(kind: Kind) -> Kind
    ensures { result ≡ other_kind kind }
{
    match kind {
        Kind::Ofs => Kind::Ffs,
        Kind::Ffs => Kind::Ofs,
    }
}

// The other letters.
fn other_letters(letters: Letters) -> Letters
    ensures { result ≡ other_letters letters }
{
    match letters {
        Letters::Ascii => Letters::International,
        Letters::International => Letters::Ascii,
    }
}

// The byte of an image behind `DOS`; 0 if it has none.
fn type_byte(image: &[u8]) -> u8
    ensures { result ≡ slice_index image.now 3 }
{
    image.get(3).copied().unwrap_or(0)
}

// The type of an image; if its kind or its letters are others, the one of 0 to 3 that has these.
fn type_with(image: &SizedImage<'_>, has_other_kind: bool, has_other_letters: bool) -> u8
    ensures { result ≡ type_with image.now has_other_kind has_other_letters }
{
    if !has_other_kind && !has_other_letters {
        return type_byte(image.bytes());
    }
    let mut kind = image.kind();
    if has_other_kind {
        kind = other_kind(kind);
    }
    let mut letters = image.letters();
    if has_other_letters {
        letters = other_letters(letters);
    }
    type_number(letters, kind)
}

// The slot of an entry, by the positions of headers from entry 1 on; 0 past the last.
fn slot_at(places: &Vec<ChainPlace>, n: usize) -> u8
    ensures { result ≡ slot_of_place (slice_get places.now.items (n - 1)) }
{
    match places.get(n.saturating_sub(1)) {
        Some(place) => place.slot,
        None => 0,
    }
}

// Whether a block is filled with a pattern: its second half repeats its first.
fn is_filled(image: &SizedImage<'_>, b: u32) -> bool
    ensures { result ≡ is_filled image.now b }
{
    if image.blocks() <= b {
        return false;
    }
    let block = image.block(b);
    block.bytes(0, 256) == block.bytes(256, 256)
}

// Whether a block claims to be a file's header.
fn claims_file(image: &SizedImage<'_>, head: u32) -> bool
    ensures { result ≡ claims_file image.now head }
{
    image.word(head, TYPE) == T_SHORT
        && image.word(head, OWN_KEY) == head
        && image.word(head, SECONDARY_TYPE) == ST_FILE
}

// Whether a block says that it is an OFS data block of a file.
fn claims_data(image: &SizedImage<'_>, b: u32) -> bool
    ensures { result ≡ claims_data image.now b }
{
    b < image.blocks()
        && image.word(b, TYPE) == T_DATA
        && claims_file(image, image.word(b, DATA_HEAD))
        && image.block(b).long_sum() == 0
}

// Whether a block says that it is such an OFS data block; `None` of one that does not, and is filled or another one.
fn kind_said(image: &SizedImage<'_>, head: u32, number: u32, b: u32) -> Option<bool>
    ensures { result ≡ kind_said image.now head number b }
{
    let says = image.says_data_of(head, number, b);
    if !says && (is_filled(image, b) || claims_data(image, b)) {
        None
    } else {
        Some(says)
    }
}

impl Survey<'_> {
    // Whether the data block at a block says that it is an OFS one of its file; `None` where no data block is found, or one that
    // is filled.
    fn said_at(&self, image: &SizedImage<'_>, b: u32) -> Option<bool>
        ensures { result ≡ said_in image.now self.now b }
    {
        let owner = self.owners.at(b);
        let number = data_number_of(&owner);
        if number == 0 {
            return None;
        }
        let head = number_at(&self.nodes, entry_of(&owner));
        kind_said(image, head, number, b)
    }

    // How many data blocks say so, and how many tell against it.
    fn tally(&self, image: &SizedImage<'_>) -> Tally
        ensures { OnSurvey self.now.image (λ w _. result ≡ tally image.now w (blocks image.now)) }
    {
        let _owners = &self.owners;
        let mut tally = Tally { says: 0, others: 0 };
        for b in 0..image.blocks() {
            tally = tally.with(self.said_at(image, b));
        }
        tally
    }

    // Whether no data block is found that tells its kind.
    fn has_no_data(&self, image: &SizedImage<'_>) -> bool
        ensures { OnSurvey self.now.image (λ w _. result ≡ ((tally image.now w (blocks image.now)).says
            + (tally image.now w (blocks image.now)).others == 0)) }
    {
        let _owners = &self.owners;
        for b in 0..image.blocks() {
            if self.said_at(image, b).is_some() {
                return false;
            }
        }
        true
    }

    // Whether an entry is a file whose size is not 0.
    #[tactic(auto, using(crate::proofs::Keeping::tells_each))]
    fn is_full_file(&self, image: &SizedImage<'_>, n: Node) -> bool
        ensures { OnSurvey self.now.image (λ w _. result ≡ is_full_file image.now w n) }
    {
        let head = number_at(&self.nodes, n.0);
        image.word(head, SECONDARY_TYPE) == ST_FILE && image.word(head, SIZE) != 0
    }

    // How many files are found whose size is not 0.
    #[tactic(auto, using(crate::proofs::OwnKinds::passing_none, crate::proofs::OwnKinds::passing_more))]
    fn full_files(&self, image: &SizedImage<'_>) -> usize
        ensures { OnSurvey self.now.image (λ w _. result ≡ passing (is_full_file image.now w) (heads w)) }
    {
        let mut count = 0;
        for n in 0..self.len() {
            if self.is_full_file(image, Node(n + 1)) {
                count += 1;
            }
        }
        count
    }

    // Whether the name of an entry is valid, and by these letters its slot is the one that its header is in.
    #[tactic(auto, using(crate::proofs::Keeping::tells_each))]
    fn is_in_slot(&self, letters: Letters, n: Node) -> bool
        ensures { OnSurvey self.now.image (λ w _. 1 ≤ n → n ≤ heads w
            → result ≡ is_in_slot letters self.now.image w n) }
    {
        let Some(name) = self.name(n) else {
            return false;
        };
        Name::is_name(name) && slot_by(letters, name) == slot_at(&self.places, n.0)
    }

    // How many headers are in the slots of their names by these letters.
    #[tactic(auto, using(crate::proofs::OwnKinds::passing_none, crate::proofs::OwnKinds::passing_more))]
    fn in_slots(&self, letters: Letters) -> usize
        ensures { OnSurvey self.now.image (λ w _. result ≡ passing (is_in_slot letters self.now.image w) (heads w)) }
    {
        let mut count = 0;
        for n in 0..self.len() {
            if self.is_in_slot(letters, Node(n + 1)) {
                count += 1;
            }
        }
        count
    }

    // Whether each entry is sound by the grave findings.
    fn are_whole(&self) -> bool
        ensures { OnSurvey self.now.image (λ w fs. IsTrue result
            → (n : ℕ) → 1 ≤ n → n ≤ heads w → IsSound self.now.image w (grave fs) n (node_block w n)) }
    {
        for n in 0..self.len() {
            if !self.is_clear(Node(n + 1), true) {
                return false;
            }
        }
        true
    }

    // Whether the entries are of the other kind.
    #[tactic(auto, using(crate::proofs::OwnKinds::sound_kind))]
    fn has_other_kind(&self, image: &SizedImage<'_>) -> bool
        requires { image.now ≡ self.now.image }
        ensures { OnSurvey self.now.image (λ w _. result ≡ has_other_kind self.now.image w) }
    {
        match image.kind() {
            Kind::Ofs => self.full_files(image) >= FILES_THAT_TELL && self.has_no_data(image),
            Kind::Ffs => {
                if self.are_whole() {
                    return false;
                }
                let tally = self.tally(image);
                tally.others < tally.says
            }
        }
    }

    // Whether more headers are in the slots of their names by the other letters than by those of the type.
    #[tactic(auto, using(crate::proofs::OwnKinds::few_pass))]
    fn has_other_letters(&self) -> bool
        ensures { OnSurvey self.now.image (λ w _. result ≡ has_other_letters self.now.image w) }
    {
        let letters = self.letters();
        let count = self.in_slots(letters);
        count < self.len() && count < self.in_slots(other_letters(letters))
    }

    /// The type that the entries tell, 0 to 5: the one stated, unless their kind or their letters are others. Of FFS they are
    /// OFS, if more of the data blocks that are found say that they are OFS ones of their files than do not; of OFS they are
    /// FFS, if no data block is found, but `FILES_THAT_TELL` files that are not empty, or more. A block whose second half repeats
    /// its first says nothing. The letters are others, if by these more headers are in the slots of their names.
    #[tactic(auto, using(crate::proofs::OwnKinds::none_told, crate::proofs::Openings::unbegun_walk))]
    pub fn told_type(&self) -> u8
        ensures { OnSurvey self.now.image (λ w _. result ≡ told_type self.now.image w) }
    {
        match start(self.image) {
            Ok(started) => {
                let has_other_kind = self.has_other_kind(&started.image);
                type_with(&started.image, has_other_kind, self.has_other_letters())
            }
            Err(_) => type_byte(self.image),
        }
    }

    /// Whether the type is not the one that the entries tell.
    pub fn is_mistyped(&self) -> bool
        ensures { OnSurvey self.now.image (λ w _. result ≡ is_mistyped self.now.image w) }
    {
        self.told_type() != type_byte(self.image)
    }
}

/// Makes `type_told` the type of an image.
#[tactic(auto, using(std::proofs::lemmas::List::set_past))]
pub fn retype(image: &mut [u8], type_told: u8)
    ensures { image.new ≡ retyped image.old type_told }
{
    if image.len() > 3 {
        image[3] = type_told;
    }
}

// The keeper: what is kept so far.

ghost use Rattle.std.specs.Prelude.{◌≡◌, ◌≤◌, ◌∷◌, ◌++◌, ◌^◌, ◌-◌, ◌+◌, ℕ, Bool, false, true, List, [], Some, None, cond, min, IfOk, OnOk, length, slice_index_or};
ghost use Rattle.adf_drafts.specs.Draft.{IsRoomFor};
ghost use Rattle.adf_blocks.specs.Sizes.{blocks, is_allowed};
ghost use Rattle.adf_build.specs.Plan.{reserved};
ghost use Rattle.adf_tree.specs.{Additions.Addition, Tree.is_dir_body};
ghost use Rattle.adf_keep.specs.{Marks.AreClaimed, State.TakesOne, State.IsKeeper, State.IsState, State.body_cost};
ghost use Rattle.adf_keep.specs.Verdicts.{Setting, LacksRoom, EntryVerdict, kept_blocks};
ghost use Rattle.adf_keep.specs.Verdicts.EntryVerdict.{keeps, leaves};
ghost use Rattle.adf_keep.specs.declared.proposal.Why.TheVariants.{NoRoom};

use crate::claims::{no_claims, release};
use crate::entries::read_entry;
use crate::files::Found;
use crate::held::Held;
use crate::proposal::{LeftOut, Proposed, Why};
use adf_base::NoMemory;
use adf_build::{data_blocks, ext_count, free_blocks};
use adf_drafts::{Draft, Room};
use adf_names::Kind;
use adf_tree::{Body, Node};
use std::alloc::Global;

/// What is kept so far: the blocks that the input holds; the draft of the new tree; for the root and each entry of the proposal
/// so far its directory in the draft, if it is one that is kept; the number of blocks that are left in the new volume; which
/// blocks are of entries that are kept; and the entries that are left out.
#[derive(Drop)]
pub struct Keeper<'i> {
    pub image: Held<'i>,
    pub kind: Kind,
    pub draft: Draft,
    pub places: Vec<Option<Node>>,
    pub left: u32,
    pub marks: Vec<bool>,
    pub left_out: Vec<LeftOut>,
}

// The number of blocks of an entry with this body; `u64::MAX` on overflow.
fn cost_of(kind: Kind, body: &Body) -> u64
    ensures { result ≡ min (body_cost kind body.now) (2 ^ 64 - 1) }
{
    let datas = data_blocks(kind, body);
    1u64.saturating_add(ext_count(datas) as u64)
        .saturating_add(datas as u64)
}

// Whether a body is that of a directory.
fn is_directory(body: &Body) -> bool
    ensures { result ≡ is_dir_body body.now }
{
    match body {
        Body::Dir => true,
        Body::File(_) => false,
    }
}

// The place of an addition, if it is a directory.
fn place_if(is_directory: bool, addition: Node) -> Option<Node>
    ensures { result ≡ cond is_directory (Some addition) None }
{
    if is_directory { Some(addition) } else { None }
}

impl<'i> Keeper<'i> {
    /// The keeper before the first entry of a proposal, on a volume of so many blocks.
    pub fn begin(
        alloc: Global,
        image: Held<'i>,
        draft: Draft,
        kind: Kind,
        blocks: u32,
    ) -> Result<Keeper<'i>, NoMemory>
        requires allowed { is_allowed blocks ≡ true }
        requires none { draft.tree.entries ≡ [] }
        requires kind { kind ≡ draft.tree.kind }
        ensures state { IfOk result (IsState (record { image = image.entry; tree = draft.tree; blocks = blocks }) []) }
        ensures room { IfOk result (λ _. 1 + reserved blocks ≤ blocks - 2) }
    {
        let marks = no_claims(alloc, image.blocks())?;
        let mut places = Vec::new(alloc);
        places.push(Some(Node(0)))?;
        Ok(Keeper {
            image,
            kind,
            draft,
            places,
            left: free_blocks(blocks),
            marks,
            left_out: Vec::new(alloc),
        })
    }

    // The directory in the draft of the root or an entry, if it is kept.
    fn place_of(&self, directory: usize) -> Option<Node>
        ensures { result ≡ slice_index_or self.now.places.items directory None }
    {
        self.places.get(directory).copied().flatten()
    }

    // Leaves out the next entry.
    fn leave(&mut self, why: Why) -> Result<(), NoMemory>
        requires { 1 ≤ length self.old.places.items }
        ensures { (g : Setting) (vs : List EntryVerdict) → IsState g vs self.old
            → OnOk result (IsState g (vs ++ leaves why ∷ []) self.new) }
    {
        let index = self.places.len() - 1;
        self.places.push(None)?;
        Ok(self.left_out.push(LeftOut { index, why })?)
    }

    // Puts the next entry, whose blocks are claimed, in a room, if the blocks suffice; else leaves it out.
    fn put(&mut self, room: &Room, found: Found) -> Result<(), NoMemory>
        requires room { (path : List (List ℕ)) × IsRoomFor self.old.draft path room.now }
        requires begun { 1 ≤ length self.old.places.items }
        ensures { (g : Setting) (vs : List EntryVerdict) (path : List (List ℕ)) → IsKeeper g vs self.old
            → AreClaimed (blocks g.image) self.old.marks.items (kept_blocks vs ++ found.claimed.items)
            → IsRoomFor self.old.draft path room.now
            → OnOk result ((b : Bool)
            × (b ≡ false → LacksRoom g vs (record { path = path; meta = found.meta; body = found.body })) × IsState g
            (vs ++ cond b (keeps (record { path = path; meta = found.meta; body = found.body }) found.claimed.items) (leaves NoRoom) ∷ [])
            self.new) }
    {
        let cost = cost_of(self.kind, &found.body);
        if cost > u64::from(self.left) {
            release(&mut self.marks, found.claimed);
            return self.leave(Why::NoRoom);
        }
        let adds_directory = is_directory(&found.body);
        self.draft.put(room, found.meta, found.body)?;
        self.left -= cost as u32;
        let place = place_if(adds_directory, Node(self.draft.len()));
        Ok(self.places.push(place)?)
    }

    /// Keeps the next entry of a proposal, or leaves it out. `NoMemory` if an allocation fails; then the keeper is of no use.
    pub fn take(&mut self, alloc: Global, p: &Proposed) -> Result<(), NoMemory>
        requires { (g : Setting) × (vs : List EntryVerdict) × IsState g vs self.old }
        ensures { (g : Setting) (vs : List EntryVerdict) → IsState g vs self.old → OnOk result (TakesOne g vs p.now self.new) }
    {
        let Some(directory) = self.place_of(p.directory) else {
            return self.leave(Why::NoDirectory);
        };
        let Some(room) = self.draft.room_in(directory, &p.name) else {
            return self.leave(Why::NameTaken);
        };
        match read_entry(alloc, &self.image, self.kind, p.head, &mut self.marks)? {
            Ok(found) => self.put(&room, found),
            Err(why) => self.leave(why),
        }
    }
}

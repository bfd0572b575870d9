// The places that are given to the extension blocks and the data blocks of a walk.

ghost use Rattle.std.specs.Prelude.{◌≡◌, ◌≤◌, ◌<◌, ◌+◌, ◌-◌, ◌^◌, ◌++◌, IfOk, OnOk, length, replicate, true};
ghost use Rattle.adf_volume.specs.{declared.owner.Owner.Owner, Parts.entry_of};
ghost use Rattle.adf_volume.specs.Owners.{is_part};
ghost use Rattle.adf_findings.specs.WalkOwners.{AreFit, AreGrown, HasNumber, IsKeptBy, node_after};

use adf_base::NoMemory;
use adf_tree::Node;
use adf_volume::{KeptOwner, NodeStart, Owner, OwnerClass};
use std::alloc::Global;

/// The number of places for which four bytes of an owner have room.
const MOST_PLACES: u64 = 1 << 29;

/// Where the blocks of nodes begin, up to the last node of which a block has a place; and how many places are given to
/// extension blocks and to data blocks.
#[derive(Drop)]
pub struct GivenPlaces {
    pub starts: Vec<NodeStart>,
    pub exts: u32,
    pub datas: u32,
}

// A number, if there is room for it beside the class of an owner.
#[inline(always)]
fn in_room(number: u64) -> Result<u32, NoMemory>
    ensures number { IfOk result (λ n. n ≡ number) }
    ensures short { IfOk result (λ n. n < 2 ^ 29) }
{
    if number >= MOST_PLACES {
        return Err(NoMemory);
    }
    Ok(number as u32)
}

// The owner of a class at a place, if there is room for the place beside the class.
#[inline(always)]
fn kept_at(class: OwnerClass, place: u64) -> Result<KeptOwner, NoMemory>
    ensures kept { IfOk result (λ o. o ≡ record { class = class; place = place }) }
    ensures short { IfOk result (λ o. o.place < 2 ^ 29) }
{
    Ok(KeptOwner {
        class,
        place: in_room(place)?,
    })
}

// The place of block `k` of a node, counted from 1, whose first is at `start`.
#[inline(always)]
fn place_of(start: u32, k: u32) -> Result<u32, NoMemory>
    requires { 1 ≤ k }
    ensures place { IfOk result (λ i. i ≡ start + (k - 1)) }
    ensures short { IfOk result (λ i. i < 2 ^ 29) }
{
    in_room(u64::from(start) + u64::from(k - 1))
}

impl GivenPlaces {
    // No places but those of the root, which has no blocks.
    pub fn new(alloc: Global) -> Result<GivenPlaces, NoMemory>
        ensures fit { IfOk result (λ p. AreFit p) }
        ensures one { IfOk result (λ p. length p.starts.items ≡ 1) }
    {
        let start = NodeStart { exts: 0, datas: 0 };
        let starts = vec![in alloc; start; 1]?;
        Ok(GivenPlaces {
            starts,
            exts: 0,
            datas: 0,
        })
    }

    // Begins the nodes up to this one, of which the last ones are not begun.
    #[inline(never)]
    fn begin_more(&mut self, node: usize) -> Result<(), NoMemory>
        requires fit { AreFit self.old }
        requires small { node < 2 ^ 32 }
        requires order { length self.old.starts.items ≤ node }
        ensures grown { AreGrown self.old self.new }
        ensures len { OnOk result (length self.new.starts.items ≡ node + 1) }
    {
        let start = NodeStart {
            exts: self.exts,
            datas: self.datas,
        };
        self.starts.resize(node + 1, start)?;
        Ok(())
    }

    // Begins the nodes up to this one.
    #[inline(always)]
    fn begin(&mut self, node: usize) -> Result<(), NoMemory>
        requires fit { AreFit self.old }
        requires small { node < 2 ^ 32 }
        requires order { length self.old.starts.items ≤ node + 1 }
        ensures grown { AreGrown self.old self.new }
        ensures len { OnOk result (length self.new.starts.items ≡ node + 1) }
    {
        if node < self.starts.len() {
            return Ok(());
        }
        self.begin_more(node)
    }

    // How extension block `k` of a node is kept.
    fn ext(&mut self, node: usize, k: u32) -> Result<KeptOwner, NoMemory>
        requires fit { AreFit self.old }
        requires small { node < 2 ^ 32 }
        requires order { length self.old.starts.items ≤ node + 1 }
        requires number { 1 ≤ k }
        ensures grown { AreGrown self.old self.new }
        ensures len { OnOk result (length self.new.starts.items ≡ node + 1) }
        ensures kept { IfOk result (λ o. IsKeptBy self.new (Owner.Ext node k) o) }
    {
        self.begin(node)?;
        let place = place_of(self.starts[node].exts, k)?;
        self.exts = self.exts.max(place + 1);
        Ok(KeptOwner {
            class: OwnerClass::Ext,
            place,
        })
    }

    // How data block `k` of a node is kept.
    #[inline(always)]
    fn data(&mut self, node: usize, k: u32) -> Result<KeptOwner, NoMemory>
        requires fit { AreFit self.old }
        requires small { node < 2 ^ 32 }
        requires order { length self.old.starts.items ≤ node + 1 }
        requires number { 1 ≤ k }
        ensures grown { AreGrown self.old self.new }
        ensures len { OnOk result (length self.new.starts.items ≡ node + 1) }
        ensures kept { IfOk result (λ o. IsKeptBy self.new (Owner.Data node k) o) }
    {
        self.begin(node)?;
        let place = place_of(self.starts[node].datas, k)?;
        self.datas = self.datas.max(place + 1);
        Ok(KeptOwner {
            class: OwnerClass::Data,
            place,
        })
    }

    // How an owner is kept. `NoMemory` also if its number or its place has no room beside its class.
    #[inline(always)]
    pub fn kept(&mut self, owner: Owner) -> Result<KeptOwner, NoMemory>
        requires fit { AreFit self.old }
        requires small { entry_of owner < 2 ^ 32 }
        requires order { length self.old.starts.items ≤ node_after owner (length self.old.starts.items - 1) + 1 }
        requires number { HasNumber owner }
        ensures grown { AreGrown self.old self.new }
        ensures len { OnOk result (length self.new.starts.items
            ≡ node_after owner (length self.old.starts.items - 1) + 1) }
        ensures kept { IfOk result (λ o. IsKeptBy self.new owner o) }
    {
        match owner {
            Owner::Free => kept_at(OwnerClass::Free, 0),
            Owner::Boot => kept_at(OwnerClass::Boot, 0),
            Owner::Root => kept_at(OwnerClass::Root, 0),
            Owner::Page(number) => kept_at(OwnerClass::Page, u64::from(number)),
            Owner::MapExt(number) => kept_at(OwnerClass::MapExt, u64::from(number)),
            Owner::Head(Node(node)) => kept_at(OwnerClass::Head, node as u64),
            Owner::Ext(Node(node), k) => self.ext(node, k),
            Owner::Data(Node(node), k) => self.data(node, k),
        }
    }
}

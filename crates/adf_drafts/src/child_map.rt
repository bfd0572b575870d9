// A map from parent and name to the number of the entry.

ghost use Rattle.std.specs.Prelude.{◌≡◌, ◌≤◌, ◌<◌, ℕ, List, None, OnOk, OnErr, length, true};
ghost use Rattle.std.specs.BTreeMap.{get};
ghost use Rattle.adf_names.specs.Texts.{uppers_by};
ghost use Rattle.adf_tree.specs.NameKeys.{is_short};
ghost use Rattle.adf_drafts.specs.ChildMap.{bucket_of, by_child, child_key, number_in, AddsNumber};

use adf_base::{Letters, NoMemory};
use adf_names::Name;
use adf_tree::{NameKey, Node};
use std::alloc::Global;
use std::collections::BTreeMap;

const BUCKETS: u64 = 1021;

/// The key of an entry: its name and its parent.
#[derive(Clone, Copy, PartialEq, Eq, PartialOrd, Ord, Drop)]
pub struct ChildKey {
    pub name: NameKey,
    pub parent: usize,
}

impl ChildKey {
    /// The key of a parent and a name in upper case by these letters.
    fn of(letters: Letters, parent: Node, name: &Name) -> ChildKey
        ensures key { result ≡ child_key parent (uppers_by letters name.now) }
        ensures short { is_short (uppers_by letters name.now) ≡ true }
    {
        ChildKey {
            name: NameKey::of_by(letters, name),
            parent: parent.0,
        }
    }

    // The bucket that the key hashes to.
    fn bucket(self) -> usize
        ensures exact { result ≡ bucket_of self }
        ensures below { result < 1021 }
    {
        let name = self.name;
        let sum = name.first.wrapping_add(name.second);
        let sum = sum.wrapping_add(name.third).wrapping_add(name.fourth);
        (sum.wrapping_add(self.parent as u64) % BUCKETS) as usize
    }
}

/// A map from parent and name to the number of the entry. Names are kept in upper case. The key's hash selects a
/// bucket; each bucket is sorted.
#[derive(Drop)]
pub struct ChildMap {
    pub buckets: Vec<BTreeMap<ChildKey, usize>>,
}

// Looks up a key in its bucket.
fn number_in_bucket(bucket: &BTreeMap<ChildKey, usize>, key: &ChildKey) -> Option<Node>
    ensures { result ≡ get by_child bucket.now key.now }
{
    match bucket.get(key) {
        Some(n) => Some(Node(*n)),
        None => None,
    }
}

impl ChildMap {
    /// The empty map.
    #[tactic(auto, unfolding(crate::specs::ChildMap::number_in))]
    pub fn new(alloc: Global) -> ChildMap
        ensures { (p : ℕ) (x : List ℕ) → number_in result.buckets.items p x ≡ None }
    {
        ChildMap {
            buckets: Vec::new(alloc),
        }
    }

    /// The number of the entry with this parent and this name, ignoring the case of these letters.
    pub fn get(&self, letters: Letters, parent: Node, name: &Name) -> Option<Node>
        ensures { result ≡ number_in self.now.buckets.items parent (uppers_by letters name.now) }
    {
        let key = ChildKey::of(letters, parent, name);
        let bucket = key.bucket();
        if self.buckets.len() <= bucket {
            return None;
        }
        number_in_bucket(&self.buckets[bucket], &key)
    }

    // Allocates the buckets that are missing.
    fn make_buckets(&mut self) -> Result<(), NoMemory>
        ensures same { (p : ℕ) (x : List ℕ)
            → number_in self.new.buckets.items p x ≡ number_in self.old.buckets.items p x }
        ensures full { OnOk result (1021 ≤ length self.new.buckets.items) }
    {
        let alloc = *self.buckets.allocator();
        while self.buckets.len() < BUCKETS as usize {
            self.buckets.push(BTreeMap::new(alloc))?;
        }
        Ok(())
    }

    /// Adds an entry. On `NoMemory` the map is unchanged.
    pub fn put(
        &mut self,
        letters: Letters,
        parent: Node,
        name: &Name,
        number: Node,
    ) -> Result<(), NoMemory>
        ensures more { OnOk result
            (AddsNumber self.old.buckets.items self.new.buckets.items parent
            (uppers_by letters name.now) number) }
        ensures same { OnErr result ((p : ℕ) (x : List ℕ)
            → number_in self.new.buckets.items p x ≡ number_in self.old.buckets.items p x) }
    {
        self.make_buckets()?;
        let key = ChildKey::of(letters, parent, name);
        match self.buckets[key.bucket()].insert(key, number.0) {
            Ok(_) => Ok(()),
            Err(_) => Err(NoMemory),
        }
    }
}

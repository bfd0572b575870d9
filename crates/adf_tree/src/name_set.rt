// Sets of names, ignoring the case of `a` to `z`.

ghost use Rattle.std.specs.Prelude.{◌≡◌, ◌<◌, ◌≤◌, ◌^◌, ◌++◌, [], ◌∷◌, ℕ, List, length, false, not, IfOk, OnErr, OnOk};
ghost use Rattle.adf_names.specs.Texts.{uppers, uppers_by};
ghost use Rattle.adf_tree.specs.NameSet.{has, is_among, HasMore, IsUnion, IsWith, Names};
ghost use Rattle.adf_tree.specs.{declared.name_key.NameKey.NameKey, declared.name_set.Probe.TheVariants.Vacant};
ghost use Rattle.adf_tree.specs.NameBuckets.{holder_of, first_bucket_in, probe_of, probe_buckets, AreStored};

use crate::name_key::NameKey;
use adf_base::{Letters, NoMemory};
use adf_names::Name;
use std::alloc::Global;
use std::collections::BTreeSet;
use std::marker::Model;
use std::mem;

const FIRST_BUCKETS: usize = 64;

/// The most names that can have buckets: a bucket holds a number of 32 bits.
const MOST_STORED: usize = 1 << 32;

/// The number of adjacent buckets that a name may take.
const CHOICE: usize = 8;

/// A set of names, ignoring the case of `a` to `z`. The name's hash selects a window of eight buckets; the name takes
/// the first vacant one. Names whose eight buckets are all taken are kept in a sorted set, the overflow.
#[derive(Drop)]
pub struct NameSet {
    stored: Vec<NameKey>,
    buckets: Vec<u32>,
    overflow: BTreeSet<NameKey>,
}

impl Model for NameSet {
    ghost use Rattle.std.specs.Prelude.{◌++◌};
    ghost use Rattle.adf_tree.specs.{NameSet.Names, NameBuckets.AreStored};

    ghost Value = { Names };

    ghost view = { λ s. s.stored.items ++ s.overflow.keys };

    ghost invariant = { λ s. AreStored s.stored.items s.buckets.items s.overflow.keys };
}

/// How a search in the buckets of a name ends.
pub enum Probe {
    /// The name has a bucket.
    Stored,
    /// This is the first vacant bucket.
    Vacant(usize),
    /// Other names have all its buckets.
    Full,
}

// The first bucket of a name in a table of `count` buckets.
#[tactic(auto, unfolding(crate::specs::NameBuckets::first_bucket_in))]
fn first_bucket(name: NameKey, count: usize) -> usize
    ensures exact { result ≡ first_bucket_in count name }
    ensures within { result ≤ count }
    ensures below { 0 < count → result < count }
{
    ((u128::from(name.spread()) * count as u128) >> 64) as usize
}

// The name in a bucket.
fn holder(names: &[NameKey], buckets: &[u32], bucket: usize) -> Option<NameKey>
    ensures { result ≡ holder_of names.now buckets.now bucket }
{
    let place = buckets.get(bucket).copied().unwrap_or(0);
    names.get(place as usize).copied()
}

// Searches the buckets of a name.
#[tactic(auto, using(crate::proofs::NameBuckets::bucket_steps))]
fn probe_buckets(names: &[NameKey], buckets: &[u32], name: NameKey) -> Probe
    ensures exact { result ≡ probe_buckets names.now buckets.now name }
    ensures inside { 8 < length buckets.now → (bucket : ℕ) → result ≡ Vacant bucket
        → bucket < length buckets.now }
{
    let first = first_bucket(name, buckets.len().saturating_sub(CHOICE));
    for bucket in first..first + CHOICE {
        match holder(names, buckets, bucket) {
            None => return Probe::Vacant(bucket),
            Some(held) => {
                if held == name {
                    return Probe::Stored;
                }
            }
        }
    }
    Probe::Full
}

// How the search ends; no bucket counts as vacant once 2^32 names have buckets.
fn probe_of(names: &[NameKey], buckets: &[u32], name: NameKey) -> Probe
    ensures exact { result ≡ probe_of names.now buckets.now name }
    ensures inside { 8 < length buckets.now → (bucket : ℕ) → result ≡ Vacant bucket
        → bucket < length buckets.now }
    ensures few { (bucket : ℕ) → result ≡ Vacant bucket → length names.now < 2 ^ 32 }
{
    match probe_buckets(names, buckets, name) {
        Probe::Vacant(bucket) => {
            if names.len() < MOST_STORED {
                Probe::Vacant(bucket)
            } else {
                Probe::Full
            }
        }
        probe => probe,
    }
}

// Whether a name has a bucket or is in the overflow.
#[tactic(auto, using(crate::proofs::NameBuckets::stored_among))]
fn is_in(names: &[NameKey], buckets: &[u32], overflow: &BTreeSet<NameKey>, name: NameKey) -> bool
    requires { AreStored names.now buckets.now overflow.now.keys }
    ensures { result ≡ is_among (names.now ++ overflow.now.keys) name }
{
    match probe_of(names, buckets, name) {
        Probe::Stored => true,
        Probe::Vacant(_) => false,
        Probe::Full => overflow.contains(&name),
    }
}

// Whether to grow the table: it has no buckets, or half are taken and the overflow is at most 4 times as many.
fn are_few(buckets: usize, stored: usize, overflow: usize) -> bool
    ensures { result ≡ false → 8 < buckets }
{
    buckets <= CHOICE || (buckets / 2 <= stored && overflow / 4 <= stored)
}

// Makes twice as many buckets, all vacant.
fn double_buckets(buckets: &mut Vec<u32>) -> Result<(), NoMemory>
    ensures { OnOk result (8 < length buckets.new.items) }
{
    let count = FIRST_BUCKETS.max(2 * buckets.len());
    buckets.clear();
    Ok(buckets.resize(count, u32::MAX)?)
}

// Puts a new name in its vacant bucket.
fn fill_bucket(
    names: &mut Vec<NameKey>,
    buckets: &mut [u32],
    bucket: usize,
    name: NameKey,
) -> Result<(), NoMemory>
    requires few { length names.old.items < 2 ^ 32 }
    requires inside { bucket < length buckets.old }
    requires vacant { probe_of names.old.items buckets.old name ≡ Vacant bucket }
    ensures stored { (overflow : Names) → AreStored names.old.items buckets.old overflow
        → AreStored names.new.items buckets.new overflow }
    ensures more { OnOk result (names.new.items ≡ names.old.items ++ name ∷ []) }
{
    let place = names.len() as u32;
    names.push(name)?;
    buckets[bucket] = place;
    Ok(())
}

// Adds a name to the overflow; returns whether it is new there.
fn put_in_overflow(overflow: &mut BTreeSet<NameKey>, name: NameKey) -> Result<bool, NoMemory>
    ensures new { IfOk result (λ is_new. is_new ≡ not (is_among overflow.old.keys name)) }
    ensures more { OnOk result (IsWith overflow.old.keys overflow.new.keys name) }
    ensures same { OnErr result (overflow.new.keys ≡ overflow.old.keys) }
{
    Ok(overflow.insert(name)?)
}

// Adds a name; returns whether it is new.
fn place(
    names: &mut Vec<NameKey>,
    buckets: &mut [u32],
    overflow: &mut BTreeSet<NameKey>,
    name: NameKey,
) -> Result<bool, NoMemory>
    requires some { 8 < length buckets.old }
    requires stored { AreStored names.old.items buckets.old overflow.old.keys }
    ensures stored { AreStored names.new.items buckets.new overflow.new.keys }
    ensures new { IfOk result (λ is_new.
        is_new ≡ not (is_among (names.old.items ++ overflow.old.keys) name)) }
    ensures more { OnOk result
        (IsWith (names.old.items ++ overflow.old.keys) (names.new.items ++ overflow.new.keys) name) }
{
    match probe_of(names, buckets, name) {
        Probe::Stored => Ok(false),
        Probe::Vacant(bucket) => {
            fill_bucket(names, buckets, bucket, name)?;
            Ok(true)
        }
        Probe::Full => put_in_overflow(overflow, name),
    }
}

// Adds a list of names.
fn place_all(
    names: &mut Vec<NameKey>,
    buckets: &mut [u32],
    overflow: &mut BTreeSet<NameKey>,
    more: &[NameKey],
) -> Result<(), NoMemory>
    requires some { 8 < length buckets.old }
    requires stored { AreStored names.old.items buckets.old overflow.old.keys }
    ensures stored { AreStored names.new.items buckets.new overflow.new.keys }
    ensures more { OnOk result
        (IsUnion (names.old.items ++ overflow.old.keys) more.now (names.new.items ++ overflow.new.keys)) }
{
    for i in 0..more.len() {
        place(names, buckets, overflow, more[i])?;
    }
    Ok(())
}

// Adds the names of a sorted set.
fn place_overflow(
    names: &mut Vec<NameKey>,
    buckets: &mut [u32],
    overflow: &mut BTreeSet<NameKey>,
    mut more: BTreeSet<NameKey>,
) -> Result<(), NoMemory>
    requires some { 8 < length buckets.old }
    requires stored { AreStored names.old.items buckets.old overflow.old.keys }
    ensures stored { AreStored names.new.items buckets.new overflow.new.keys }
    ensures more { OnOk result
        (IsUnion (names.old.items ++ overflow.old.keys) more.keys (names.new.items ++ overflow.new.keys)) }
{
    while let Some(name) = more.pop_first() {
        place(names, buckets, overflow, name)?;
    }
    Ok(())
}

// If there are too few buckets, makes more and puts all names into them again.
fn make_room(
    names: &mut Vec<NameKey>,
    buckets: &mut Vec<u32>,
    overflow: &mut BTreeSet<NameKey>,
) -> Result<(), NoMemory>
    requires stored { AreStored names.old.items buckets.old.items overflow.old.keys }
    ensures stored { AreStored names.new.items buckets.new.items overflow.new.keys }
    ensures some { OnOk result (8 < length buckets.new.items) }
    ensures same { OnOk result ((k : NameKey)
        → is_among (names.new.items ++ overflow.new.keys) k
        ≡ is_among (names.old.items ++ overflow.old.keys) k) }
{
    if !are_few(buckets.len(), names.len(), overflow.len()) {
        return Ok(());
    }
    let alloc = *names.allocator();
    let room = Vec::with_capacity(alloc, buckets.len())?;
    let stored = mem::replace(names, room);
    let overflowed = mem::replace(overflow, BTreeSet::new(alloc));
    double_buckets(buckets)?;
    place_all(names, buckets, overflow, &stored)?;
    place_overflow(names, buckets, overflow, overflowed)
}

impl NameSet {
    /// The empty set.
    #[tactic(auto, unfolding(crate::specs::NameSet::has))]
    pub fn new(alloc: Global) -> NameSet
        ensures { (x : List ℕ) → has result x ≡ false }
    {
        NameSet {
            stored: Vec::new(alloc),
            buckets: Vec::new(alloc),
            overflow: BTreeSet::new(alloc),
        }
    }

    /// Whether the set has the name, ignoring case.
    pub fn has(&self, name: &Name) -> bool
        ensures { result ≡ has self.now (uppers name.now) }
    {
        self.has_by(Letters::Ascii, name)
    }

    /// Whether the set has the name, in upper case by these letters.
    #[tactic(auto, using(crate::proofs::NameKeys::has_key))]
    pub fn has_by(&self, letters: Letters, name: &Name) -> bool
        ensures { result ≡ has self.now (uppers_by letters name.now) }
    {
        let key = NameKey::of_by(letters, name);
        is_in(&self.stored, &self.buckets, &self.overflow, key)
    }

    /// Adds a name; returns whether it is new. `NoMemory` if an allocation fails.
    pub fn put(&mut self, name: &Name) -> Result<bool, NoMemory>
        ensures new { IfOk result (λ is_new. is_new ≡ not (has self.old (uppers name.now))) }
        ensures more { OnOk result (HasMore self.old self.new (uppers name.now)) }
    {
        self.put_by(Letters::Ascii, name)
    }

    /// Adds a name, in upper case by these letters; returns whether it is new. `NoMemory` if an allocation fails.
    pub fn put_by(&mut self, letters: Letters, name: &Name) -> Result<bool, NoMemory>
        ensures new { IfOk result (λ is_new.
            is_new ≡ not (has self.old (uppers_by letters name.now))) }
        ensures more { OnOk result (HasMore self.old self.new (uppers_by letters name.now)) }
    {
        make_room(&mut self.stored, &mut self.buckets, &mut self.overflow)?;
        let key = NameKey::of_by(letters, name);
        place(&mut self.stored, &mut self.buckets, &mut self.overflow, key)
    }

    /// Removes all names, and shrinks the table to 4 buckets for each name that had one (at least 64).
    #[tactic(auto, unfolding(crate::specs::NameSet::has))]
    pub fn clear(&mut self)
        ensures { (x : List ℕ) → has self.new x ≡ false }
    {
        self.buckets
            .truncate(FIRST_BUCKETS.max(4 * self.stored.len()));
        self.buckets.fill(u32::MAX);
        self.stored.clear();
        self.overflow.clear();
    }
}

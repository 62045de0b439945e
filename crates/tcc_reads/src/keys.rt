//! The keys of a snapshot's operations, each by its index in byte order. Each name is looked up once, however many operations
//! it has. A look-up asks a cache of indices and compares one name or two. If they are others, it searches the names by
//! halving, in as many steps as the logarithm of their count.
ghost use Rattle.std.specs.Prelude.{All, ◌≡◌, ◌<◌, ◌≤◌, true, List, ℕ, length, map, slice_index_or, IfOk, IfSome};
ghost use Rattle.std.specs.FinMap.{entries};
ghost use Rattle.std.specs.List.Sorted.{IsStrictlySortedBy};
ghost use Rattle.tcc_txn.specs.{KeyNumbers.AreNumbers, KeyNumbers.keys_in, Symbols.IsNumber};
ghost use Rattle.tcc_reads.specs.Sources.{name_cmp};
ghost use Rattle.tcc_reads.specs.private.KeyIndices.{has_key, index_of, key_index};

use crate::sorting::sorted_once;
use std::alloc::Global;
use std::marker::Model;
use tcc_txn::{Bounds, KeyNumbers, Name, Nearby, NoMemory, SnapshotWithin};

/// Names of keys in byte order, each once.
#[derive(Drop)]
pub(crate) struct Keys {
    names: Vec<Name>,
    /// The index of most keys, found without a binary search.
    nearby: Nearby,
}

impl Model for Keys {
    ghost use Rattle.std.specs.Prelude.{◌≤◌, ℕ, List, length};
    ghost use Rattle.std.specs.List.Sorted.{IsStrictlySortedBy};
    ghost use Rattle.std.below.core.specs.declared.int.u32.TheConstants.{MAX};
    ghost use Rattle.tcc_reads.specs.Sources.{name_cmp};

    ghost Value = { List (List ℕ) };

    ghost view = { λ k. k.names.items };

    ghost invariant = { λ k. IsStrictlySortedBy name_cmp k.names.items × (length k.names.items ≤ MAX) };
}

/// A copy of these names.
fn copied(alloc: Global, names: &[Name]) -> Result<Vec<Name>, NoMemory>
    ensures { IfOk result (λ copy. copy.items ≡ names.now) }
{
    Ok(names.iter().copied().collect(alloc)?)
}

/// The names in order, each once.
fn in_order(alloc: Global, names: &[Name]) -> Result<Vec<Name>, NoMemory>
    ensures same { IfOk result (λ keys. (x : List ℕ) → has_key keys.items x ≡ has_key names.now x) }
    ensures sorted { IfOk result (λ keys. IsStrictlySortedBy name_cmp keys.items) }
{
    let names = copied(alloc, names)?;
    Ok(sorted_once(names))
}

impl Keys {
    /// The keys with these names. If there are more than 32 bits count, the error is `NoMemory`.
    fn of(alloc: Global, names: &[Name]) -> Result<Keys, NoMemory>
        ensures { IfOk result (λ keys. (x : List ℕ) → has_key keys x ≡ has_key names.now x) }
    {
        let names = in_order(alloc, names)?;
        if names.len() > u32::MAX as usize {
            return Err(NoMemory);
        }
        let nearby = Nearby::of(alloc, &names)?;
        Ok(Keys { names, nearby })
    }

    /// They are in byte order, each once.
    pub fn are_sorted(&self)
        ensures { IsStrictlySortedBy name_cmp self.now }
    {
        // This read shows the proof that the names are in order.
        let _ = &self.names;
    }

    /// How many there are.
    pub fn len(&self) -> usize
        ensures value { result ≡ length self.now }
        ensures few { result ≤ u32.MAX }
    {
        self.names.len()
    }

    /// The names, in byte order, each once, by value.
    pub fn into_names(self) -> Vec<Name>
        ensures names { result.items ≡ self }
        ensures sorted { IsStrictlySortedBy name_cmp self }
        ensures few { length self ≤ u32.MAX }
    {
        self.names
    }

    /// The index, if the key is at it. `None` says nothing about the key.
    fn checked(&self, key: &Name, index: u32) -> Option<u32>
        ensures { IfSome result (λ k. IsNumber self.now key.now k) }
    {
        match self.names.get(index as usize) {
            Some(name) => { if *name == *key { Some(index) } else { None } }
            None => None,
        }
    }

    /// The index of a key that the cache knows. `None` says nothing about the key.
    fn near(&self, key: &Name) -> Option<u32>
        ensures { IfSome result (λ k. IsNumber self.now key.now k) }
    {
        let (last, before) = self.nearby.numbers(key);
        match self.checked(key, last) {
            Some(index) => Some(index),
            None => self.checked(key, before),
        }
    }

    /// The index of a key; none if it isn't there.
    fn find(&self, key: &Name) -> Option<u32>
        ensures value { result ≡ index_of self.now key.now }
        ensures within { IfSome result (λ k. k < length self.now) }
    {
        // This read shows the proof that the names are in order.
        let _ = &self.names;
        if let Some(index) = self.near(key) {
            return Some(index);
        }
        match self.names.binary_search(key) {
            Ok(index) => Some(index as u32),
            Err(_) => None,
        }
    }

    /// The index of a key that is there.
    fn index(&self, key: &Name) -> u32
        requires { has_key self.now key.now ≡ true }
        ensures { result ≡ key_index self.now key.now }
    {
        self.find(key).unwrap()
    }
}

/// The index of each of these names.
fn ranks(alloc: Global, keys: &Keys, names: &[Name]) -> Result<Vec<u32>, NoMemory>
    requires { (x : List ℕ) → has_key keys.now x ≡ has_key names.now x }
    ensures { IfOk result (λ ranks. AreNumbers keys.now ranks.items names.now) }
{
    let mut ranks = Vec::with_capacity(alloc, names.len())?;
    for name in names {
        ranks.push(keys.index(name))?;
    }
    Ok(ranks)
}

/// The ranks at these numbers.
fn ranks_at(alloc: Global, ranks: &[u32], numbers: &[u32]) -> Result<Vec<u32>, NoMemory>
    requires { All (λ n. n < length ranks.now) numbers.now }
    ensures { IfOk result (λ found. found.items ≡ map (λ n. slice_index_or ranks.now n 0) numbers.now) }
{
    let mut found = Vec::with_capacity(alloc, numbers.len())?;
    for number in numbers {
        found.push(ranks[*number as usize])?;
    }
    Ok(found)
}

/// The keys of operations.
#[derive(Drop)]
pub(crate) struct KeyIndices {
    pub keys: Keys,
    /// The index of the key of each operation, in order.
    pub indices: Vec<u32>,
}

/// The keys of the operations of a snapshot.
pub(crate) fn key_indices<B: Bounds>(
    alloc: Global,
    snapshot: &SnapshotWithin<B>,
) -> Result<KeyIndices, NoMemory>
    ensures { IfOk result (λ found. AreNumbers found.keys found.indices.items (keys_in (entries snapshot.now))) }
{
    let KeyNumbers { names, numbers } = snapshot.key_numbers(alloc)?;
    let keys = Keys::of(alloc, &names)?;
    let ranks = ranks(alloc, &keys, &names)?;
    let indices = ranks_at(alloc, &ranks, &numbers)?;
    Ok(KeyIndices { keys, indices })
}

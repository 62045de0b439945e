//! The transactions of a resolved history by the indices of their keys. What they write is in one list, and what they read in
//! another, transaction by transaction. So a transaction takes no list of its own.
ghost use Rattle.std.specs.Prelude.{◌≡◌, ◌<◌, ◌∷◌, ◌++◌, [], length, map, IfOk};
ghost use Rattle.tcc_reads.specs.Indexed.{indexed_of};

use crate::flat_rows::FlatRows;
use std::alloc::{AllocError, Global};
use std::marker::Model;

/// The committed transactions and the initial one, by number: of each its session and place, and the indices of the keys that
/// it writes and reads. Each read has its source too.
#[derive(Drop)]
pub struct Transactions {
    places: Vec<(u32, u32)>,
    writes: FlatRows<u32>,
    reads: FlatRows<(u32, u32)>,
}

impl Model for Transactions {
    ghost use Rattle.std.specs.Prelude.{◌≡◌, List, length};
    ghost use Rattle.tcc_reads.specs.{Indexed.Indexed, private.Lists.transactions_of};

    ghost Value = { List Indexed };

    ghost view = { λ t. transactions_of t.places.items t.writes t.reads };

    ghost invariant = { λ t. (length t.writes ≡ length t.places.items) × (length t.reads ≡ length t.places.items) };
}

impl Transactions {
    /// No transactions yet.
    pub fn new(alloc: Global) -> Transactions
        ensures { result ≡ [] }
    {
        Transactions {
            places: Vec::new(alloc),
            writes: FlatRows::new(alloc),
            reads: FlatRows::new(alloc),
        }
    }

    /// How many there are.
    pub fn len(&self) -> usize
        ensures { result ≡ length self.now }
    {
        self.places.len()
    }

    /// The index of the session of each, and its place there, from 1; both are 0 for the initial one.
    pub fn places(&self) -> &[(u32, u32)]
        ensures { result.now ≡ map (λ p. (p.owner, p.place)) self.now }
    {
        &self.places
    }

    /// The index of the session of one, and its place there.
    pub fn place(&self, number: usize) -> (u32, u32)
        requires { number < length self.now }
        ensures owner { result.0 ≡ (indexed_of self.now number).owner }
        ensures place { result.1 ≡ (indexed_of self.now number).place }
    {
        self.places[number]
    }

    /// The indices of the keys that one writes visibly; none for the initial one, which writes every key.
    pub fn writes(&self, number: usize) -> &[u32]
        requires { number < length self.now }
        ensures { result.now ≡ (indexed_of self.now number).writes }
    {
        self.writes.row(number)
    }

    /// The index of the key and the source of each external read of one.
    pub fn reads(&self, number: usize) -> &[(u32, u32)]
        requires { number < length self.now }
        ensures { result.now ≡ (indexed_of self.now number).reads }
    {
        self.reads.row(number)
    }

    /// These, and the transaction at this place of this session, which writes and reads the keys of these indices. They are
    /// taken by value, so that none is left with half of its lists if memory is out.
    pub fn with(
        mut self,
        place: (u32, u32),
        writes: &[u32],
        reads: &[(u32, u32)],
    ) -> Result<Transactions, AllocError>
        ensures { IfOk result (λ more. more ≡ self
            ++ record { owner = place.0; place = place.1; writes = writes.now; reads = reads.now } ∷ []) }
    {
        self.places.push(place)?;
        self.writes.push(writes)?;
        self.reads.push(reads)?;
        Ok(self)
    }
}

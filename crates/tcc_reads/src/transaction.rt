//! Transactions of a resolved history by the names of their keys.
ghost use Rattle.std.specs.Prelude.{◌≡◌, ◌<◌, All, IfOk, length, map};
ghost use Rattle.tcc_txn.specs.KeyNumbers.{name_at};
ghost use Rattle.tcc_reads.specs.Indexed.{IsWithin, entry_of, indexed_of, named};

use crate::Transactions;
use std::alloc::Global;
use std::marker::Model;
use tcc_txn::{Name, NoMemory};

/// A committed transaction, or the initial one.
#[derive(Drop)]
pub struct Transaction {
    owner: u32,
    place: u32,
    writes: Vec<Name>,
    reads: Vec<(Name, u32)>,
}

impl Model for Transaction {
    ghost use Rattle.tcc_reads.specs.History.{Entry};

    ghost Value = { Entry };

    ghost view = { λ t. record { owner = t.owner; place = t.place; writes = t.writes.items; reads = t.reads.items } };
}

/// The keys at these indices.
fn names_at(alloc: Global, keys: &[Name], indices: &[u32]) -> Result<Vec<Name>, NoMemory>
    requires { All (λ k. k < length keys.now) indices.now }
    ensures { IfOk result (λ names. names.items ≡ map (name_at keys.now) indices.now) }
{
    let mut names = Vec::with_capacity(alloc, indices.len())?;
    for index in indices {
        names.push(keys[*index as usize])?;
    }
    Ok(names)
}

/// Reads by the names of the keys, each with its source.
fn named_reads(
    alloc: Global,
    keys: &[Name],
    reads: &[(u32, u32)],
) -> Result<Vec<(Name, u32)>, NoMemory>
    requires { All (λ read. read.0 < length keys.now) reads.now }
    ensures { IfOk result (λ names. names.items ≡ named keys.now reads.now) }
{
    let mut names = Vec::with_capacity(alloc, reads.len())?;
    for (index, source) in reads {
        names.push((keys[*index as usize], *source))?;
    }
    Ok(names)
}

impl Transaction {
    /// The transaction of this number by the names of these keys.
    pub(crate) fn of(
        alloc: Global,
        keys: &[Name],
        transactions: &Transactions,
        number: usize,
    ) -> Result<Transaction, NoMemory>
        requires below { number < length transactions.now }
        requires within { IsWithin (length keys.now) (indexed_of transactions.now number) }
        ensures { IfOk result (λ transaction. transaction ≡ entry_of keys.now (indexed_of transactions.now number)) }
    {
        let (owner, place) = transactions.place(number);
        Ok(Transaction {
            owner,
            place,
            writes: names_at(alloc, keys, transactions.writes(number))?,
            reads: named_reads(alloc, keys, transactions.reads(number))?,
        })
    }

    /// The index of its session.
    pub fn owner(&self) -> u32
        ensures { result ≡ self.now.owner }
    {
        self.owner
    }

    /// Its place in its session, from 1; 0 for the initial one.
    pub fn place(&self) -> u32
        ensures { result ≡ self.now.place }
    {
        self.place
    }

    /// The keys that it writes visibly, in byte order; none for the initial one, which writes every key.
    pub fn writes(&self) -> &[Name]
        ensures { result.now ≡ self.now.writes }
    {
        &self.writes
    }

    /// Key and source of its external reads, by key in byte order, then by number, each pair once.
    pub fn reads(&self) -> &[(Name, u32)]
        ensures { result.now ≡ self.now.reads }
    {
        &self.reads
    }
}

//! What is kept of the transactions that were delivered: their history, the values that they wrote, and what is decided.
ghost use Rattle.std.specs.Prelude.{◌≡◌, ◌+◌, ◌++◌, ◌∷◌, [], length, IfOk, IfSome, OnOk};
ghost use Rattle.std.specs.FinMap as sessions;
ghost use Rattle.tcc_watch.specs.private.Tables.{Arriving, after};
ghost use Rattle.tcc_watch.specs.private.Deciding.{CanDecide, IsDecided};
ghost use Rattle.tcc_watch.specs.private.Keeping.{ComesNext, Growth, IsKept, IsReady, nothing};

use crate::at::At;
use crate::decided::Decided;
use crate::operations::written_keys;
use crate::values::{WrittenValues, are_unwritten, note_values, sources};
use std::alloc::Global;
use tcc_txn::{Name, NoMemory, Txn};

/// A transaction that was delivered: its session and place, the keys that it writes, and key and source of its external reads.
#[derive(Drop)]
pub(crate) struct Entered {
    pub at: At,
    pub writes: Vec<Name>,
    pub reads: Vec<(Name, u32)>,
}

/// What was delivered, by number from 1 on; aborted transactions have no number.
#[derive(Drop)]
pub(crate) struct Kept {
    pub entries: Vec<Entered>,
    pub values: WrittenValues,
    pub decided: Decided,
}

/// The sources of a transaction, if it may be delivered: all of them have come, and it writes no value that was written. An aborted one
/// needs no sources.
pub(crate) fn ready_sources(
    alloc: Global,
    values: &WrittenValues,
    txn: &Txn,
) -> Result<Option<Vec<(Name, u32)>>, NoMemory>
    ensures { IfOk result (λ found. IfSome found (λ reads. IsReady values.now txn.now reads.items)) }
{
    if !are_unwritten(values, txn.ops()) {
        return Ok(None);
    }
    if !txn.committed() {
        return Ok(Some(Vec::new(alloc)));
    }
    match sources(alloc, values, txn.ops())? {
        Some(reads) => Ok(Some(reads)),
        None => Ok(None),
    }
}

impl Kept {
    /// Nothing was delivered.
    pub(crate) fn new(alloc: Global) -> Result<Kept, NoMemory>
        ensures { IfOk result (IsKept nothing []) }
    {
        let decided = Decided::new(alloc)?;
        Ok(Kept {
            entries: Vec::new(alloc),
            values: WrittenValues::new(alloc),
            decided,
        })
    }

    /// The number of the next committed transaction.
    fn next_number(&self) -> Result<u32, NoMemory>
        ensures { IfOk result (λ number. number ≡ length self.now.entries.items + 1) }
    {
        let Ok(count) = u32::try_from(self.entries.len()) else {
            return Err(NoMemory);
        };
        match count.checked_add(1) {
            Some(number) => Ok(number),
            None => Err(NoMemory),
        }
    }

    /// Takes in a committed transaction with its session and place, its keys and its sources; its values are not noted yet.
    fn enter(
        &mut self,
        alloc: Global,
        at: At,
        writes: Vec<Name>,
        reads: Vec<(Name, u32)>,
    ) -> Result<(), NoMemory>
        ghost arriving: { Arriving }
        requires { CanDecide arriving self.old.decided at writes.items reads.items }
        ensures decided { OnOk result (IsDecided (after arriving) self.new.decided) }
        ensures entries { OnOk result (self.new.entries.items ≡ self.old.entries.items ++ record { at = at; writes = writes; reads = reads } ∷ []) }
        ensures values { self.new.values ≡ self.old.values }
    {
        self.decided.take(alloc, at, &writes, &reads)?;
        self.entries.push(Entered { at, writes, reads })?;
        Ok(())
    }

    /// Takes in the next transaction of a session, which may be delivered.
    pub(crate) fn take(
        &mut self,
        alloc: Global,
        at: At,
        txn: &Txn,
        reads: Vec<(Name, u32)>,
    ) -> Result<(), NoMemory>
        requires { (growth : Growth) × ComesNext growth self.old at txn.now reads.items }
        ensures { (growth : Growth) → ComesNext growth self.old at txn.now reads.items → OnOk result (IsKept growth.new growth.names self.new) }
    {
        if !txn.committed() {
            note_values(&mut self.values, txn.ops(), None)?;
            return Ok(());
        }
        let number = self.next_number()?;
        let writes = written_keys(alloc, txn.ops())?;
        self.enter(alloc, at, writes, reads)?;
        note_values(&mut self.values, txn.ops(), Some(number))?;
        Ok(())
    }
}

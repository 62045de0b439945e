//! Books: what sessions in threads of their own record, under one lock.
ghost use Rattle.std.specs.Prelude.{◌≡◌, MatchResult, Ok, Err};
ghost use Rattle.tcc_book.specs.Passes.{GivesPass, IsWhole, Receives, Seals};

use crate::agreement::{sealed_copy, whole_copy};
use crate::fault::{OpenFault, RecordFault, SealFault, WholeFault};
use crate::pass::{Pass, Receipt};
use crate::state::BookState;
use std::alloc::Global;
use std::sync::{Mutex, Wait};
use tcc_txn::{Name, NoMemory, Snapshot, Txn};

/// What sessions record, each by its pass. Threads share it by reference.
///
/// ```rust
/// let book = Book::new(alloc)?;
/// let mut pass = book.open(rt, alloc, Name::read(b"a")?)?;
/// if let Err((fault, _txn)) = book.record(rt, alloc, &mut pass, txn) {
///     return Err(fault.into());
/// }
/// let passes = vec![in alloc; pass]?;
/// Ok((book, passes))
/// ```
#[derive(Drop)]
pub struct Book {
    state: Mutex<BookState>,
}

impl Book {
    /// A book with no session.
    pub fn new(alloc: Global) -> Result<Book, NoMemory> {
        Ok(Book {
            state: Mutex::new(BookState::new(alloc)?),
        })
    }

    /// Opens a session, and returns its pass.
    pub fn open(&self, rt: &impl Wait, alloc: Global, session: Name) -> Result<Pass, OpenFault>
        ensures { GivesPass session result }
    {
        self.state.lock(rt).open(alloc, session)?;
        Ok(Pass::new(alloc, session))
    }

    /// Records a transaction by its session's pass. A refused one is returned.
    pub fn record(
        &self,
        rt: &impl Wait,
        alloc: Global,
        pass: &mut Pass,
        txn: Txn,
    ) -> Result<Receipt, (RecordFault, Txn)>
        ensures { Receives pass.old txn result pass.new }
    {
        let Ok(copy) = txn.copy(alloc) else {
            return Err((RecordFault::NoMemory, txn));
        };
        let mut state = self.state.lock(rt);
        pass.record(&mut *state, txn, copy)
    }

    /// What all sessions have recorded at one moment; for the pass's session that is exactly what the pass recorded. It holds
    /// the lock for a time in proportion to all that the book has.
    pub fn seal(&self, rt: &impl Wait, alloc: Global, pass: &Pass) -> Result<Snapshot, SealFault>
        ensures { Seals pass.now result }
    {
        let Ok(copy) = self.state.lock(rt).copy(alloc) else {
            return Err(SealFault::NoMemory);
        };
        sealed_copy(copy, pass)
    }

    /// Exactly what the passes recorded, if they are those of all sessions. It holds the lock for a time in proportion to all
    /// that the book has.
    pub fn whole(
        &self,
        rt: &impl Wait,
        alloc: Global,
        passes: &[Pass],
    ) -> Result<Snapshot, WholeFault>
        ensures { IsWhole passes.now result }
    {
        let Ok(copy) = self.state.lock(rt).copy(alloc) else {
            return Err(WholeFault::NoMemory);
        };
        whole_copy(copy, passes)
    }

    /// Returns what `whole` does, and ends the book and its passes. If it is refused, they are returned.
    pub fn close(
        self,
        rt: &impl Wait,
        alloc: Global,
        passes: Vec<Pass>,
    ) -> Result<Snapshot, (WholeFault, Book, Vec<Pass>)>
        ensures { MatchResult result
            (λ snapshot. IsWhole passes.items (Ok snapshot))
            (λ refused. IsWhole passes.items (Err refused.0) × (refused.2 ≡ passes)) }
    {
        match self.whole(rt, alloc, &passes) {
            Ok(snapshot) => Ok(snapshot),
            Err(fault) => Err((fault, self, passes)),
        }
    }
}

//! What the lock guards: the sessions that were opened, and the journal of all that was recorded.
ghost use Rattle.std.specs.Prelude.{◌≡◌, ◌<◌, All, IfOk, length, map};
ghost use Rattle.indexmap.specs.IndexMap.{IsUnique};
ghost use Rattle.tcc_txn.specs.{Bytes.same, Snapshots.parts_of};
ghost use Rattle.tcc_book.specs.Books.{IsBook, Opens, Records, copy_of, no_book};
ghost use Rattle.tcc_book.specs.private.BookStorage.{AddsPosition, AreWithin, part_at, txn_at};

use crate::entry::Entry;
use crate::fault::{OpenFault, RecordFault};
use indexmap::IndexMap;
use std::alloc::Global;
use std::marker::Model;
use tcc_txn::{MAX_SESSIONS, MAX_TRANSACTIONS, Name, NoMemory, Snapshot, Txn};

/// The sessions in the order in which they were opened, and the journal of all records in the order of the lock. Each
/// session's list is kept as the positions of its records in the journal.
#[derive(Drop)]
pub struct BookState {
    positions: IndexMap<Name, Vec<usize>>,
    journal: Vec<Entry>,
}

impl Model for BookState {
    ghost use Rattle.tcc_book.specs.{Books.Book, private.BookStorage.IsStored};
    ghost use Rattle.indexmap.specs.IndexMap.{keys};

    ghost Value = { Book };

    ghost view = { λ s. record { names = keys s.positions; journal = s.journal.items } };

    ghost invariant = { λ s. IsStored s.positions s.journal.items };
}

/// Adds a position to the list of a session that has `held` of them.
fn add_position(
    positions: &mut IndexMap<Name, Vec<usize>>,
    session: &Name,
    held: u32,
    position: usize,
) -> Result<(), RecordFault>
    requires unique { IsUnique same positions.old }
    ensures { AddsPosition positions.old session.now held position result positions.new }
{
    let Some(list) = positions.get_mut(session) else {
        return Err(RecordFault::Torn { session: *session });
    };
    if list.len() != held as usize {
        return Err(RecordFault::Torn { session: *session });
    }
    match list.push(position) {
        Ok(()) => Ok(()),
        Err(_) => Err(RecordFault::NoMemory),
    }
}

/// The transactions at these positions of the journal.
fn listed(alloc: Global, journal: &[Entry], positions: &[usize]) -> Result<Vec<Txn>, NoMemory>
    requires { All (λ position. position < length journal.now) positions.now }
    ensures { IfOk result (λ txns. txns.items ≡ map (txn_at journal.now) positions.now) }
{
    let mut txns = Vec::new(alloc);
    for position in positions {
        txns.push(journal[*position].txn.copy(alloc)?)?;
    }
    Ok(txns)
}

/// Each session with what it recorded, in the order of opening.
fn parts(
    alloc: Global,
    positions: &IndexMap<Name, Vec<usize>>,
    journal: &[Entry],
) -> Result<Vec<(Name, Vec<Txn>)>, NoMemory>
    requires { AreWithin journal.now positions.now.entries }
    ensures { IfOk result (λ parts. parts_of parts.items ≡ map (part_at journal.now) positions.now.entries) }
{
    let mut parts = Vec::new(alloc);
    for (session, list) in positions.iter() {
        parts.push((*session, listed(alloc, journal, list)?))?;
    }
    Ok(parts)
}

impl BookState {
    /// A book with no session.
    pub fn new(alloc: Global) -> Result<BookState, NoMemory>
        ensures { IfOk result (λ state. state ≡ no_book) }
    {
        Ok(BookState {
            positions: IndexMap::new(alloc),
            journal: Vec::new(alloc),
        })
    }

    /// Opens a session.
    pub fn open(&mut self, alloc: Global, session: Name) -> Result<(), OpenFault>
        ensures opens { Opens self.old session result self.new }
        ensures lawful { IsBook self.old }
    {
        if let Some(positions) = self.positions.get(&session) {
            return Err(OpenFault::Taken {
                held: positions.len() as u32,
            });
        }
        if self.positions.len() >= MAX_SESSIONS {
            return Err(OpenFault::TooManySessions {
                held: self.positions.len() as u32,
            });
        }
        if self.positions.insert(session, Vec::new(alloc)).is_err() {
            return Err(OpenFault::NoMemory);
        }
        Ok(())
    }

    /// Adds a transaction to the journal and to the list of its session, whose pass has recorded `held` of them. A refused one
    /// is returned.
    pub fn record(&mut self, session: &Name, held: u32, txn: Txn) -> Result<(), (RecordFault, Txn)>
        ensures records { Records self.old session.now held txn result self.new }
        ensures lawful { IsBook self.old }
    {
        let position = self.journal.len();
        if position >= MAX_TRANSACTIONS {
            return Err((
                RecordFault::Full {
                    held: position as u32,
                },
                txn,
            ));
        }
        if self.journal.reserve(1).is_err() {
            return Err((RecordFault::NoMemory, txn));
        }
        if let Err(fault) = add_position(&mut self.positions, session, held, position) {
            return Err((fault, txn));
        }
        let entry = Entry {
            session: *session,
            txn,
        };
        let Ok(()) = self.journal.push(entry) else {
            unreachable!()
        };
        Ok(())
    }

    /// The map of all sessions to what each recorded. It takes time in proportion to all that is recorded.
    pub fn copy(&self, alloc: Global) -> Result<Snapshot, NoMemory>
        ensures copy { IfOk result (λ copy. copy ≡ copy_of self.now) }
        ensures lawful { IsBook self.now }
    {
        let Ok(copy) = Snapshot::new(parts(alloc, &self.positions, &self.journal)?) else {
            unreachable!()
        };
        Ok(copy)
    }
}

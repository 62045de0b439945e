//! The sessions so far, each with the operations of the transaction that it has begun. A session has its number in a symbol
//! table. So finding it usually takes one comparison of names, and at most as many as the logarithm of their count.
ghost use Rattle.std.specs.Prelude.{◌≡◌, ◌≢◌, ◌<◌, ◌+◌, ℕ, List, [], false, All, IfErr, MatchOption, None, OnOk, Some, if◌then◌else◌, is_some, length};
ghost use Rattle.tcc_rows.specs.Seats.{seat_at};
ghost use Rattle.tcc_rows.specs.private.Seating.{IsBegunAt, IsSeat, PutsOp, PutsSeat};
ghost use Rattle.tcc_txn.specs.Transactions.{writes_zero};

use super::draft::{Draft, add_operation, note_number};
use crate::RowFaultKind;
use std::alloc::Global;
use std::marker::Model;
use std::mem;
use tcc_txn::{Name, NoMemory, Op, SymbolTable};

/// The sessions so far, each with the transaction that it has begun.
#[derive(Drop)]
pub(crate) struct SeatTable {
    names: SymbolTable,
    /// The session of each number.
    seats: Vec<(Name, Option<Draft>)>,
}

impl Model for SeatTable {
    ghost use Rattle.tcc_rows.specs.{Seats.Seats, private.Seating.AreNumbered};

    ghost Value = { Seats };

    ghost view = { λ t. t.seats.items };

    ghost invariant = { λ t. AreNumbered t.names t.seats.items };
}

impl SeatTable {
    /// No sessions.
    pub(crate) fn new(alloc: Global) -> SeatTable
        ensures { result ≡ [] }
    {
        SeatTable {
            names: SymbolTable::new(alloc),
            seats: Vec::new(alloc),
        }
    }

    /// How many sessions there are.
    pub(crate) fn len(&self) -> usize
        ensures { result ≡ length self.now }
    {
        self.seats.len()
    }

    /// The sessions, each once, with their seats.
    pub(crate) fn all(&self) -> &[(Name, Option<Draft>)]
        ensures value { result.now ≡ self.now }
        ensures found { All (λ seat. seat_at self.now seat.0 ≡ Some seat.1) self.now }
    {
        &self.seats
    }

    /// The number of the session; none if there is no such session.
    pub(crate) fn find(&self, session: &Name) -> Option<u32>
        ensures { MatchOption result (seat_at self.now session.now ≡ None) (IsSeat self.now session.now) }
    {
        match self.names.find(session) {
            Some(number) => Some(number),
            None => None,
        }
    }

    /// Whether the session with the number has begun a transaction.
    pub(crate) fn has_begun(&self, number: u32) -> bool
        requires { number < length self.now }
        ensures { (session : List ℕ) → IsSeat self.now session number → IsBegunAt self.now session result }
    {
        self.seats[number as usize].1.is_some()
    }

    /// Replaces the seat of the session with the number, and returns the old one.
    fn put(&mut self, number: u32, begun: Option<Draft>) -> Option<Draft>
        requires { number < length self.old }
        ensures given { (session : List ℕ) → IsSeat self.old session number → seat_at self.old session ≡ Some result }
        ensures put { (session : List ℕ) → IsSeat self.old session number → PutsSeat self.old session begun self.new }
        ensures count { length self.new ≡ length self.old }
    {
        mem::replace(&mut self.seats[number as usize].1, begun)
    }

    /// One more session, after the others.
    fn push(&mut self, session: Name, draft: Draft) -> Result<(), NoMemory>
        requires { seat_at self.old session ≡ None }
        ensures put { OnOk result (PutsSeat self.old session (Some draft) self.new) }
        ensures count { OnOk result (length self.new ≡ length self.old + 1) }
    {
        let count = self.seats.len();
        self.seats.push((session, Some(draft)))?;
        match self.names.number(session) {
            Ok(_) => Ok(()),
            Err(NoMemory) => {
                self.seats.truncate(count);
                Err(NoMemory)
            }
        }
    }

    /// The session begins a transaction, with this draft.
    pub(crate) fn begin(&mut self, session: Name, draft: Draft) -> Result<(), NoMemory>
        ensures put { OnOk result (PutsSeat self.old session (Some draft) self.new) }
        ensures count { OnOk result (length self.new ≡ length self.old + (if is_some (seat_at self.old session) then 0 else 1)) }
    {
        match self.find(&session) {
            Some(number) => {
                let _before = self.put(number, Some(draft));
                Ok(())
            }
            None => self.push(session, draft),
        }
    }

    /// The transaction of the session with the number ends, if one is begun, and its operations are returned.
    pub(crate) fn end(&mut self, number: u32) -> Option<Draft>
        requires { number < length self.old }
        ensures given { (session : List ℕ) → IsSeat self.old session number → seat_at self.old session ≡ Some result }
        ensures put { (session : List ℕ) → IsSeat self.old session number → PutsSeat self.old session None self.new }
        ensures count { length self.new ≡ length self.old }
    {
        self.put(number, None)
    }

    /// One more operation of the session with the number, if it has begun a transaction.
    pub(crate) fn operate(&mut self, number: u32, op: Op) -> Result<(), RowFaultKind>
        requires within { number < length self.old }
        requires lawful { writes_zero op ≡ false }
        ensures added { (session : List ℕ) → IsSeat self.old session number → PutsOp self.old session op result self.new }
        ensures count { length self.new ≡ length self.old }
        ensures other { IfErr result (λ kind. kind ≢ RowFaultKind.Read) }
    {
        add_operation(&mut self.seats[number as usize].1, op)
    }

    /// The key of the last operation of the session with the number has this number among the keys.
    pub(crate) fn note(&mut self, number: u32, key: u32) -> Result<(), RowFaultKind>
        requires { number < length self.old }
        ensures kept { self.new ≡ self.old }
        ensures memory { IfErr result (λ kind. kind ≡ RowFaultKind.NoMemory) }
    {
        note_number(&mut self.seats[number as usize].1, key)
    }
}

//! Passes: what a recorder has of its session.
ghost use Rattle.std.specs.Prelude.{◌≡◌, [], IfOk, length};
ghost use Rattle.tcc_book.specs.{Books.Records, Passes.Receives};

use crate::fault::RecordFault;
use crate::state::BookState;
use std::alloc::Global;
use std::marker::Model;
use tcc_txn::{Name, Txn};

/// The right to record for one session, with a copy of all that was recorded by it.
#[derive(Drop)]
pub struct Pass {
    session: Name,
    recorded: Vec<Txn>,
}

impl Model for Pass {
    ghost use Rattle.std.specs.Prelude.{◌≤◌, length};
    ghost use Rattle.tcc_txn.specs.declared.limits.TheConstants.{MAX_TRANSACTIONS};
    ghost use Rattle.tcc_book.specs.Passes.{Passed};

    ghost Value = { Passed };

    ghost view = { λ p. record { session = p.session; recorded = p.recorded.items } };

    ghost invariant = { λ p. length p.recorded.items ≤ MAX_TRANSACTIONS };
}

/// Says that a transaction was recorded, and as which one of its session.
#[derive(Clone, Copy, Debug, PartialEq, Eq)]
pub struct Receipt {
    /// Its place among those of the session, counted from 1.
    pub place: u32,
}

impl Pass {
    /// The pass of a session for which nothing is recorded yet.
    pub(crate) fn new(alloc: Global, session: Name) -> Pass
        ensures { result ≡ record { session = session; recorded = [] } }
    {
        Pass {
            session,
            recorded: Vec::new(alloc),
        }
    }

    /// Records a transaction in the book, and its copy here. A refused one is returned.
    pub(crate) fn record(
        &mut self,
        book: &mut BookState,
        txn: Txn,
        copy: Txn,
    ) -> Result<Receipt, (RecordFault, Txn)>
        requires { copy ≡ txn }
        ensures book { Records book.old self.old.session (length self.old.recorded) txn result book.new }
        ensures pass { Receives self.old txn result self.new }
    {
        if self.recorded.reserve(1).is_err() {
            return Err((RecordFault::NoMemory, txn));
        }
        let held = self.recorded.len() as u32;
        book.record(&self.session, held, txn)?;
        let Ok(()) = self.recorded.push(copy) else {
            unreachable!()
        };
        Ok(Receipt { place: held + 1 })
    }

    /// The name of the session.
    pub fn session(&self) -> &Name
        ensures { result.now ≡ self.now.session }
    {
        &self.session
    }

    /// What was recorded by the pass, in order.
    pub fn recorded(&self) -> &[Txn]
        ensures { result.now ≡ self.now.recorded }
    {
        &self.recorded
    }
}

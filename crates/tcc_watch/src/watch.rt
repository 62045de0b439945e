//! Answers while a test runs: the verdict of a history as it grows. Where nothing waits an answer costs no more than what is new.
ghost use Rattle.std.specs.Prelude.{◌≡◌, IfErr, IfOk, IfSome, OnErr, OnOk};
ghost use Rattle.std.specs.FinMap as sessions;
ghost use Rattle.tcc_txn.specs.Finished.{IsWithinLimits, with_transaction};
ghost use Rattle.tcc_txn.specs.declared.limits.Limits.TheVariants.{Large};
ghost use Rattle.tcc_watch.specs.Verdicts.{IsVerdict};

use crate::arrivals::{Arrivals, with_arrival};
use crate::verdict::{WatchVerdict, decide};
use std::alloc::Global;
use std::marker::Model;
use tcc_graph::Level;
use tcc_txn::{GrowFault, LargeSnapshot, Name, NoMemory, Txn};

/// All that was taken so far, and what is known of it. Contracts see it as the snapshot of what was taken.
///
/// A session's transactions come in its order; sessions come in any order among each other. A transaction of unknown outcome
/// comes as a committed one once a value of it was read, and not at all before that.
#[derive(Drop)]
pub struct Watch {
    taken: LargeSnapshot,
    /// None once memory was refused to it.
    arrivals: Option<Arrivals>,
}

impl Model for Watch {
    ghost use Rattle.std.specs.Prelude.{IfSome};
    ghost use Rattle.tcc_txn.specs.{Snapshots.Sessions, private.SnapshotStorage.sessions_code};
    ghost use Rattle.tcc_watch.specs.private.Arrivals.{AreArrivals};

    ghost Value = { Sessions };

    ghost coded = { sessions_code };

    ghost view = { λ w. w.taken };

    ghost invariant = { λ w. IfSome w.arrivals (AreArrivals w.taken) };
}

impl Watch {
    /// Nothing was taken.
    pub fn new(alloc: Global) -> Result<Watch, NoMemory>
        ensures { IfOk result (λ watch. watch ≡ sessions.empty) }
    {
        let arrivals = Arrivals::new(alloc)?;
        Ok(Watch {
            taken: LargeSnapshot::empty(alloc),
            arrivals: Some(arrivals),
        })
    }

    /// Takes a session's next transaction, where there is room. Refused, all is as it was.
    pub fn advance(&mut self, alloc: Global, session: Name, txn: Txn) -> Result<(), GrowFault>
        ensures taken { OnOk result (self.new ≡ with_transaction self.old session txn) }
        ensures kept { OnErr result (self.new ≡ self.old) }
        ensures refused { IsWithinLimits Large (with_transaction self.old session txn) → IfErr result (λ k. k ≡ GrowFault.NoMemory) }
    {
        let Ok(copy) = txn.copy(alloc) else {
            return Err(GrowFault::NoMemory);
        };
        self.taken.add(alloc, session, txn)?;
        self.arrivals = with_arrival(alloc, self.arrivals.take(), session, copy);
        Ok(())
    }

    /// The verdict of all that was taken. It is known already where nothing waits, at `Atomic` as long as there is no anomaly at
    /// `Causal`. It is known too where a committed transaction waits for a value that nobody has written. Else all is decided anew.
    pub fn answer(&self, alloc: Global, level: Level) -> Result<WatchVerdict, NoMemory>
        ensures { IfOk result (IsVerdict self.now level) }
    {
        match self.known(level) {
            Some(verdict) => Ok(verdict),
            None => decide(alloc, &self.taken, level),
        }
    }

    /// The verdict, where it is known with nothing more decided.
    fn known(&self, level: Level) -> Option<WatchVerdict>
        ensures { IfSome result (IsVerdict self.now level) }
    {
        match &self.arrivals {
            Some(arrivals) => arrivals.verdict(level),
            None => None,
        }
    }
}

//! Whether the history so far has a cycle at `Causal`. Once it has one it keeps it, and nothing more has to be known.
ghost use Rattle.std.specs.Prelude.{◌≡◌, List, ℕ, IfOk, OnOk};
ghost use Rattle.tcc_watch.specs.private.Tables.{Arriving, after};
ghost use Rattle.tcc_watch.specs.private.Delivering.{before_all};
ghost use Rattle.tcc_watch.specs.private.Deciding.{CanDecide, IsDecided};

use crate::at::At;
use crate::delivered::Delivered;
use std::alloc::Global;
use tcc_txn::{Name, NoMemory};

/// What is known of the history so far: that it has a cycle, or all of it, and that it has none.
#[derive(Drop)]
pub(crate) struct Decided {
    pub delivered: Delivered,
    pub has_cycle: bool,
}

impl Decided {
    /// The history with `init` alone.
    pub(crate) fn new(alloc: Global) -> Result<Decided, NoMemory>
        ensures { (sessions : List (List ℕ)) → IfOk result (IsDecided (before_all sessions)) }
    {
        let delivered = Delivered::new(alloc)?;
        Ok(Decided {
            delivered,
            has_cycle: false,
        })
    }

    /// Takes in a transaction that comes after all that it needs.
    pub(crate) fn take(
        &mut self,
        alloc: Global,
        at: At,
        writes: &[Name],
        reads: &[(Name, u32)],
    ) -> Result<(), NoMemory>
        ghost arriving: { Arriving }
        requires { CanDecide arriving self.old at writes.now reads.now }
        ensures { OnOk result (IsDecided (after arriving) self.new) }
    {
        if self.has_cycle {
            return Ok(());
        }
        let in_order = self.delivered.deliver(alloc, at, writes, reads)?;
        self.has_cycle = !in_order;
        Ok(())
    }
}

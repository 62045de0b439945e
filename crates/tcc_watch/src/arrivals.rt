//! The transactions of all sessions as they come: each waits until the one before it in its session and its sources were delivered.
//! A transaction that comes costs a look at the first that waits in its session, and one that is delivered a look in each session. Where
//! one is known to wait for a value that hasn't come, the look is for that value alone.
ghost use Rattle.std.specs.Prelude.{◌≡◌, ℕ, false, [], IfOk, IfSome, OnOk};
ghost use Rattle.std.specs.FinMap as sessions;
ghost use Rattle.tcc_txn.specs.{Finished.with_transaction, Snapshots.Sessions};
ghost use Rattle.tcc_graph.specs.declared.level.Level.{Level};
ghost use Rattle.tcc_watch.specs.Verdicts.{IsVerdict};
ghost use Rattle.tcc_watch.specs.private.Arrivals.{AreArrivals, GoesOnAs, IsFirstReady, IsFirstWaiting, IsOpen, NoneWaits};

use crate::at::At;
use crate::gaps::are_gaps;
use crate::hints::{Hints, missing};
use crate::kept::{Kept, ready_sources};
use crate::lines::{Line, add_waiting, next_of};
use crate::verdict::WatchVerdict;
use std::alloc::Global;
use tcc_graph::Level;
use tcc_txn::{Name, NoMemory, Txn};

/// The sessions with what waits in each, and what was delivered.
#[derive(Drop)]
pub(crate) struct Arrivals {
    pub lines: Vec<Line>,
    pub kept: Kept,
    pub hints: Hints,
}

/// Whether a transaction waits in one of the sessions.
fn is_waiting(lines: &[Line]) -> bool
    ensures { result ≡ false → NoneWaits lines.now }
{
    for index in 0..lines.len() {
        if !lines[index].waiting.is_empty() {
            return true;
        }
    }
    false
}

/// The first transaction that waits in the session at an index.
fn first_waiting(lines: &[Line], index: usize) -> Option<&Txn>
    ensures { IfSome result (λ txn. IsFirstWaiting lines.now index txn.now) }
{
    if index >= lines.len() {
        return None;
    }
    lines[index].waiting.front()
}

impl Arrivals {
    /// Nothing has come.
    pub(crate) fn new(alloc: Global) -> Result<Arrivals, NoMemory>
        ensures { IfOk result (AreArrivals sessions.empty) }
    {
        let kept = Kept::new(alloc)?;
        Ok(Arrivals {
            lines: Vec::new(alloc),
            kept,
            hints: Hints::new(alloc),
        })
    }

    /// A session's transaction comes, and waits; the index of the session.
    fn wait(&mut self, alloc: Global, session: Name, txn: Txn) -> Result<usize, NoMemory>
        ensures { (s : Sessions) → AreArrivals s self.old → OnOk result (AreArrivals (with_transaction s session txn) self.new) }
    {
        let index = add_waiting(alloc, &mut self.lines, self.hints.latest(), session, txn)?;
        self.hints.come(index)?;
        Ok(index)
    }

    /// Delivers the first transaction that waits in the session at an index, which may be delivered.
    fn deliver(
        &mut self,
        alloc: Global,
        index: usize,
        reads: Vec<(Name, u32)>,
    ) -> Result<(), NoMemory>
        requires open { IsOpen self.old }
        requires ready { IsFirstReady self.old index reads.items }
        ensures { OnOk result (GoesOnAs self.old self.new) }
    {
        let Ok(session) = u32::try_from(index) else {
            return Err(NoMemory);
        };
        let Some((place, txn)) = next_of(&mut self.lines[index]) else {
            return Err(NoMemory);
        };
        self.kept.take(alloc, At { session, place }, &txn, reads)?;
        self.hints.go();
        Ok(())
    }

    /// Delivers the first transaction that waits in the session at an index, if there is one and it may be delivered; whether it was.
    fn deliver_next(&mut self, alloc: Global, index: usize) -> Result<bool, NoMemory>
        requires { IsOpen self.old }
        ensures { OnOk result (GoesOnAs self.old self.new) }
    {
        let Some(txn) = first_waiting(&self.lines, index) else {
            return Ok(false);
        };
        if self.hints.still_waits(&self.kept.values, index) {
            return Ok(false);
        }
        let Some(reads) = ready_sources(alloc, &self.kept.values, txn)? else {
            self.hints.put(index, missing(&self.kept.values, txn.ops()));
            return Ok(false);
        };
        self.deliver(alloc, index, reads)?;
        Ok(true)
    }

    /// Delivers in each session the first transaction that waits, if it may be delivered; whether any was.
    fn deliver_first(&mut self, alloc: Global) -> Result<bool, NoMemory>
        requires { IsOpen self.old }
        ensures { OnOk result (GoesOnAs self.old self.new) }
    {
        let mut any = false;
        for index in 0..self.lines.len() {
            let delivered = self.deliver_next(alloc, index)?;
            any |= delivered;
        }
        Ok(any)
    }

    /// Delivers all that may be delivered.
    fn deliver_all(&mut self, alloc: Global) -> Result<(), NoMemory>
        requires { IsOpen self.old }
        ensures { OnOk result (GoesOnAs self.old self.new) }
    {
        for _round in 0..self.hints.waiting() {
            let any = self.deliver_first(alloc)?;
            if !any {
                return Ok(());
            }
        }
        Ok(())
    }

    /// A session's transaction comes. If its session has one that may be delivered now, that is delivered, and so is all that may be
    /// after it.
    fn arrive(&mut self, alloc: Global, session: Name, txn: Txn) -> Result<(), NoMemory>
        requires { IsOpen self.old }
        ensures { (s : Sessions) → AreArrivals s self.old → OnOk result (AreArrivals (with_transaction s session txn) self.new) }
    {
        let index = self.wait(alloc, session, txn)?;
        if self.deliver_next(alloc, index)? {
            self.deliver_all(alloc)?;
        }
        Ok(())
    }

    /// The verdict while a transaction waits: unresolved, where it reads what nobody has written; else it isn't known.
    fn waiting_verdict(&self) -> Option<WatchVerdict>
        ensures { (s : Sessions) (level : Level) → AreArrivals s self.now → IfSome result (IsVerdict s level) }
    {
        if are_gaps(&self.lines, &self.kept.values) {
            return Some(WatchVerdict::Unresolved);
        }
        None
    }

    /// The verdict, where it is known with nothing more decided. It isn't where a transaction waits, unless
    /// for a value that nobody has written; nor at `Atomic` where there is a cycle at `Causal`.
    pub(crate) fn verdict(&self, level: Level) -> Option<WatchVerdict>
        ensures { (s : Sessions) → AreArrivals s self.now → IfSome result (IsVerdict s level) }
    {
        if is_waiting(&self.lines) {
            return self.waiting_verdict();
        }
        if !self.kept.decided.has_cycle {
            return Some(WatchVerdict::Consistent);
        }
        match level {
            Level::Causal => Some(WatchVerdict::Anomaly),
            Level::Atomic => None,
        }
    }
}

/// What has come, with one more transaction of a session; none where memory is refused.
pub(crate) fn with_arrival(
    alloc: Global,
    arrivals: Option<Arrivals>,
    session: Name,
    txn: Txn,
) -> Option<Arrivals>
    requires { IfSome arrivals IsOpen }
    ensures { (s : Sessions) → IfSome arrivals (AreArrivals s) → IfSome result (AreArrivals (with_transaction s session txn)) }
{
    let Some(mut arrivals) = arrivals else {
        return None;
    };
    match arrivals.arrive(alloc, session, txn) {
        Ok(()) => Some(arrivals),
        Err(_) => None,
    }
}

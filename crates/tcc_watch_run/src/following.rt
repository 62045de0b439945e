//! A watch that takes what is new in a snapshot that grows.
ghost use Rattle.std.specs.Prelude.{◌≡◌, ◌<◌, IfOk, OnOk, Some, unwrap_or};
ghost use Rattle.std.specs.BTreeMap.{Updates, get};
ghost use Rattle.std.specs.Cmp.Lexicographic.{slice_cmp};
ghost use Rattle.std.specs.FinMap as sessions;
ghost use Rattle.std.specs.Ordering.{nat_cmp};
ghost use Rattle.tcc_txn.specs.{Finished.IsWithinLimits, Finished.with_transaction, Nested.IsNested, declared.limits.Limits.TheVariants.Large};
ghost use Rattle.tcc_watch.specs.Verdicts.{IsVerdict};
ghost use Rattle.tcc_watch_run.specs.private.Following.{IsFollowing, CanTakeFrom, HasCaughtUp, HasTaken, TakesRest, TakesSession, IsAtStart};

use crate::counting::with_one;
use std::alloc::Global;
use std::collections::BTreeMap;
use tcc_graph::Level;
use tcc_print::RunContext;
use tcc_run::{RunStage, Watcher};
use tcc_txn::{GrowFault, LargeSnapshot, Name, NoMemory, Txn};
use tcc_watch::{Watch, WatchVerdict};

/// A watch of a snapshot that grows, and how many transactions it has taken.
#[derive(Drop)]
pub(crate) struct Follower {
    pub watch: Watch,
    /// Of each session.
    pub taken: BTreeMap<Name, usize>,
    /// Of all sessions, the committed ones.
    pub committed: usize,
}

/// The count of a session from now on.
fn put(taken: &mut BTreeMap<Name, usize>, name: Name, count: usize) -> Result<(), NoMemory>
    ensures { OnOk result (Updates (slice_cmp nat_cmp) taken.old taken.new name (Some count)) }
{
    match taken.insert(name, count) {
        Ok(_) => Ok(()),
        Err(_) => Err(NoMemory),
    }
}

impl Follower {
    /// Nothing was taken.
    pub(crate) fn new(alloc: Global) -> Result<Follower, NoMemory>
        ensures { IfOk result (λ f. IsFollowing f × IsAtStart f) }
    {
        let watch = Watch::new(alloc)?;
        Ok(Follower {
            watch,
            taken: BTreeMap::new(alloc),
            committed: 0,
        })
    }

    /// How many transactions of a session were taken.
    fn taken_of(&self, name: &Name) -> usize
        ensures { result ≡ unwrap_or (get (slice_cmp nat_cmp) self.now.taken name.now) 0 }
    {
        match self.taken.get(name) {
            Some(count) => *count,
            None => 0,
        }
    }

    /// Takes a session's next transaction, for which there is room.
    fn take(&mut self, alloc: Global, name: Name, txn: Txn) -> Result<(), NoMemory>
        requires following { IsFollowing self.old }
        requires fits { IsWithinLimits Large (with_transaction self.old.watch name txn) }
        ensures { OnOk result (HasTaken self.old self.new name txn) }
    {
        let more = with_one(self.taken_of(&name), true)?;
        let committed = with_one(self.committed, txn.committed())?;
        put(&mut self.taken, name, more)?;
        self.committed = committed;
        match self.watch.advance(alloc, name, txn) {
            Ok(()) => Ok(()),
            Err(fault) => match fault {
                GrowFault::NoMemory => Err(NoMemory),
                GrowFault::TooManySessions | GrowFault::TooManyTransactions => unreachable!(),
            },
        }
    }

    /// Takes the transactions of the session at an index in the snapshot that come after the first `known`, which were taken.
    fn take_from(
        &mut self,
        alloc: Global,
        snapshot: &LargeSnapshot,
        i: u32,
        name: Name,
        known: usize,
    ) -> Result<(), NoMemory>
        requires { CanTakeFrom self.old snapshot.now i name known }
        ensures { OnOk result (TakesRest self.old self.new snapshot.now i name) }
    {
        for index in known..snapshot.finished(i) {
            let Some(recorded) = snapshot.recorded(i, index) else {
                unreachable!()
            };
            self.take(alloc, name, recorded.to_txn(alloc)?)?;
        }
        Ok(())
    }

    /// Takes what is new in the session at an index in the snapshot.
    fn take_session(
        &mut self,
        alloc: Global,
        snapshot: &LargeSnapshot,
        i: u32,
    ) -> Result<(), NoMemory>
        requires following { IsFollowing self.old }
        requires nested { IsNested self.old.watch snapshot.now }
        requires fits { IsWithinLimits Large snapshot.now }
        requires within { i < sessions.len snapshot.now }
        ensures { OnOk result (TakesSession self.old self.new snapshot.now i) }
    {
        let Some(name) = snapshot.name(i) else {
            unreachable!()
        };
        // Each session of a snapshot has finished something.
        if snapshot.finished(i) == 0 {
            return Err(NoMemory);
        }
        let known = self.taken_of(name);
        self.take_from(alloc, snapshot, i, *name, known)
    }

    /// Takes what is new in the snapshot. What it has taken is how the sessions of the snapshot begin.
    pub(crate) fn catch_up(
        &mut self,
        alloc: Global,
        snapshot: &LargeSnapshot,
    ) -> Result<(), NoMemory>
        requires following { IsFollowing self.old }
        requires nested { IsNested self.old.watch snapshot.now }
        ensures { OnOk result (HasCaughtUp self.new snapshot.now) }
    {
        for i in 0..snapshot.sessions() {
            self.take_session(alloc, snapshot, i)?;
        }
        Ok(())
    }
    /// Takes what is new in the snapshot, and returns the verdict of all that it has.
    fn verdict(
        &mut self,
        alloc: Global,
        snapshot: &LargeSnapshot,
        level: Level,
    ) -> Result<WatchVerdict, NoMemory>
        requires following { IsFollowing self.old }
        requires nested { IsNested self.old.watch snapshot.now }
        ensures caught { OnOk result (HasCaughtUp self.new snapshot.now) }
        ensures verdict { IfOk result (IsVerdict snapshot.now level) }
    {
        self.catch_up(alloc, snapshot)?;
        self.watch.answer(alloc, level)
    }

    /// The same at the level of the run, whose watcher is called when this begins and when it ends.
    pub(crate) fn decide<T, G: Watcher>(
        &mut self,
        run: &RunContext<T, G>,
        snapshot: &LargeSnapshot,
    ) -> Result<WatchVerdict, NoMemory>
        requires following { IsFollowing self.old }
        requires nested { IsNested self.old.watch snapshot.now }
        ensures caught { OnOk result (HasCaughtUp self.new snapshot.now) }
        ensures verdict { IfOk result (IsVerdict snapshot.now run.now.options.now.level) }
    {
        run.gate.begin(RunStage::Deciding);
        let verdict = self.verdict(run.alloc, snapshot, run.options.level);
        run.gate.end();
        verdict
    }
}

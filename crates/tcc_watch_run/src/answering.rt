//! What answers the snapshots of a run.
ghost use Rattle.std.specs.Prelude.{◌≡◌, Bool, IfOk, List, OnOk, false};
ghost use Rattle.tcc_txn.specs.{Nested.IsNested, Snapshots.Sessions};
ghost use Rattle.tcc_print.specs.{Courses.AreSaidFaults, Saying.IsTold};
ghost use Rattle.tcc_watch_run.specs.private.Following.{IsFollowing};
ghost use Rattle.tcc_watch_run.specs.private.Stages.{Knows, course, follower_of, is_quiet, told_said};

use crate::following::Follower;
use crate::quiet::Quietly;
use crate::told::SnapshotAnswer;
use std::thread::Threads;
use tcc_print::RunContext;
use tcc_run::Watcher;
use tcc_txn::{LargeSnapshot, NoMemory};

/// What answers the snapshots of a run, each of which goes on from the one before.
#[derive(Drop)]
pub(crate) enum Answerer {
    /// That of `tcc watch`: a watch, by which the first anomaly is said in full.
    Watch(Follower),
    /// That of `tcc explain --large --quiet`, which says each in full.
    Quiet(Quietly),
}

/// What `tcc watch` says of the snapshot, of which the watch takes what is new.
fn follow<T: Threads + Sync, G: Watcher>(
    run: &RunContext<T, G>,
    follower: &mut Follower,
    snapshot: &LargeSnapshot,
    has_told: bool,
) -> Result<SnapshotAnswer, NoMemory>
    requires following { IsFollowing follower.old }
    requires nested { IsNested follower.old.watch snapshot.now }
    ensures told { (checkpoints : List Sessions) → Knows run.now.options.now checkpoints snapshot.now has_told
        → IfOk result (IsTold (course false run.now.options.now checkpoints) snapshot.now) }
    ensures faults { IfOk result (λ told. AreSaidFaults run.now.options.now (told_said told) told.faults.items) }
    ensures follows { OnOk result (IsFollowing follower.new) }
    ensures nests { OnOk result (IsNested follower.new.watch snapshot.now) }
{
    let verdict = follower.decide(run, snapshot)?;
    SnapshotAnswer::of(run, verdict, follower.committed, snapshot, has_told)
}

impl Answerer {
    /// What is to be said of the snapshot, where an anomaly was reported before or not.
    pub(crate) fn answer<T: Threads + Sync, G: Watcher>(
        &mut self,
        run: &RunContext<T, G>,
        snapshot: &LargeSnapshot,
        has_told: bool,
    ) -> Result<SnapshotAnswer, NoMemory>
        requires following { IsFollowing (follower_of self.old) }
        requires nested { IsNested (follower_of self.old).watch snapshot.now }
        ensures told { (quiet : Bool) (checkpoints : List Sessions) → is_quiet self.old ≡ quiet → Knows run.now.options.now checkpoints snapshot.now has_told
            → IfOk result (IsTold (course quiet run.now.options.now checkpoints) snapshot.now) }
        ensures faults { IfOk result (λ told. AreSaidFaults run.now.options.now (told_said told) told.faults.items) }
        ensures quiet { is_quiet self.new ≡ is_quiet self.old }
        ensures follows { OnOk result (IsFollowing (follower_of self.new)) }
        ensures nests { OnOk result (IsNested (follower_of self.new).watch snapshot.now) }
    {
        match self {
            Answerer::Watch(follower) => follow(run, follower, snapshot, has_told),
            Answerer::Quiet(quietly) => quietly.answer(run, snapshot, has_told),
        }
    }
}

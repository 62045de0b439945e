//! What a watch says of a snapshot.
ghost use Rattle.std.specs.Prelude.{◌≡◌, ◌+◌, false, true, IfOk, List};
ghost use Rattle.tcc_print.specs.{Courses.AreSaidFaults, Saying.IsTold, Statuses.order_status};
ghost use Rattle.tcc_reads.specs.{History.count, Sources.history};
ghost use Rattle.tcc_txn.specs.Snapshots.{Sessions};
ghost use Rattle.tcc_watch.specs.Verdicts.{IsVerdict};
ghost use Rattle.tcc_watch_run.specs.private.Stages.{IsAsExplained, Knows, course, told_said};
ghost use Rattle.tcc_watch_run.specs.Watching.{consistent_said, still_said};

use crate::counting::committed_of;
use crate::lines::{consistent_line, still_line};
use std::alloc::Global;
use std::thread::Threads;
use tcc_print::{Options, RunContext, Status};
use tcc_reads::ReadFault;
use tcc_run::{Explained, Watcher, explain_large_snapshot};
use tcc_txn::{LargeSnapshot, NoMemory};
use tcc_watch::WatchVerdict;

/// What is said of a snapshot: a text, and how a run ends whose last text it is.
#[derive(Drop)]
pub(crate) struct SnapshotAnswer {
    pub text: Vec<u8>,
    pub status: Status,
    /// The read faults that the text reports.
    pub faults: Vec<ReadFault>,
    /// Whether an anomaly was reported by this text, or by one before it.
    pub has_told: bool,
}

/// How a run ends that found this number of committed transactions to be consistent.
fn consistent_status(transactions: usize, required: u32) -> Status
    ensures { result ≡ order_status required (transactions + 1) }
{
    if transactions < required as usize {
        Status::TooFew
    } else {
        Status::Success
    }
}

/// What is said of a consistent snapshot.
fn consistent(
    alloc: Global,
    options: &Options,
    committed: usize,
    snapshot: &LargeSnapshot,
    has_told: bool,
) -> Result<SnapshotAnswer, NoMemory>
    requires { committed + 1 ≡ count (history snapshot.now) }
    ensures { IfOk result (λ told. (told_said told ≡ consistent_said options.now (history snapshot.now)) × (told.has_told ≡ has_told)
        × AreSaidFaults options.now (told_said told) told.faults.items) }
{
    Ok(SnapshotAnswer {
        text: consistent_line(alloc, options.json, committed, snapshot.sessions())?,
        status: consistent_status(committed, options.required),
        faults: Vec::new(alloc),
        has_told,
    })
}

/// What is said of an anomaly where one was reported before.
fn still(
    alloc: Global,
    options: &Options,
    committed: usize,
    snapshot: &LargeSnapshot,
) -> Result<SnapshotAnswer, NoMemory>
    requires { committed + 1 ≡ count (history snapshot.now) }
    ensures { IfOk result (λ told. (told_said told ≡ still_said options.now (history snapshot.now)) × (told.has_told ≡ true)
        × AreSaidFaults options.now (told_said told) told.faults.items) }
{
    Ok(SnapshotAnswer {
        text: still_line(alloc, options.json, committed, snapshot.sessions())?,
        status: Status::Anomaly,
        faults: Vec::new(alloc),
        has_told: true,
    })
}

/// What is said of any other snapshot, where with it an anomaly was reported or not.
fn explained<T: Threads + Sync, G: Watcher>(
    run: &RunContext<T, G>,
    snapshot: &LargeSnapshot,
    has_told: bool,
) -> Result<SnapshotAnswer, NoMemory>
    ensures { IfOk result (λ told. IsAsExplained run.now.options.now snapshot.now told × (told.has_told ≡ has_told)
        × AreSaidFaults run.now.options.now (told_said told) told.faults.items) }
{
    let Explained {
        text,
        status,
        faults,
    } = explain_large_snapshot(run, snapshot)?;
    Ok(SnapshotAnswer {
        text,
        status,
        faults,
        has_told,
    })
}

impl SnapshotAnswer {
    /// What is to be said of the snapshot, of which the verdict is known, and how many transactions are committed; where an anomaly was
    /// reported before or not. A consistent history has one line, and so has an anomaly that is still there. Else all of it is explained.
    pub(crate) fn of<T: Threads + Sync, G: Watcher>(
        run: &RunContext<T, G>,
        verdict: WatchVerdict,
        committed: usize,
        snapshot: &LargeSnapshot,
        has_told: bool,
    ) -> Result<SnapshotAnswer, NoMemory>
        requires verdict { IsVerdict snapshot.now run.now.options.now.level verdict }
        requires counted { committed + 1 ≡ count (history snapshot.now) }
        ensures told { (checkpoints : List Sessions) → Knows run.now.options.now checkpoints snapshot.now has_told
            → IfOk result (IsTold (course false run.now.options.now checkpoints) snapshot.now) }
        ensures faults { IfOk result (λ told. AreSaidFaults run.now.options.now (told_said told) told.faults.items) }
    {
        match verdict {
            WatchVerdict::Consistent => {
                consistent(run.alloc, run.options, committed, snapshot, has_told)
            }
            WatchVerdict::Anomaly => {
                if has_told {
                    still(run.alloc, run.options, committed, snapshot)
                } else {
                    explained(run, snapshot, true)
                }
            }
            WatchVerdict::Unresolved => explained(run, snapshot, has_told),
        }
    }

    /// What is to be said quietly of the snapshot, of which the verdict is known, and how many transactions are committed; where an
    /// anomaly was reported before or not. A consistent history has one line. Else all of it is explained.
    pub(crate) fn quietly<T: Threads + Sync, G: Watcher>(
        run: &RunContext<T, G>,
        verdict: WatchVerdict,
        committed: usize,
        snapshot: &LargeSnapshot,
        was_told: bool,
    ) -> Result<SnapshotAnswer, NoMemory>
        requires verdict { IsVerdict snapshot.now run.now.options.now.level verdict }
        requires counted { committed + 1 ≡ count (history snapshot.now) }
        ensures told { (checkpoints : List Sessions) → Knows run.now.options.now checkpoints snapshot.now was_told
            → IfOk result (IsTold (course true run.now.options.now checkpoints) snapshot.now) }
        ensures faults { IfOk result (λ told. AreSaidFaults run.now.options.now (told_said told) told.faults.items) }
    {
        match verdict {
            WatchVerdict::Consistent => {
                consistent(run.alloc, run.options, committed, snapshot, was_told)
            }
            WatchVerdict::Anomaly => explained(run, snapshot, true),
            WatchVerdict::Unresolved => explained(run, snapshot, was_told),
        }
    }

    /// The same, where no verdict is known: all of it is explained, and says whether it is consistent.
    pub(crate) fn anew<T: Threads + Sync, G: Watcher>(
        run: &RunContext<T, G>,
        snapshot: &LargeSnapshot,
        was_told: bool,
    ) -> Result<SnapshotAnswer, NoMemory>
        ensures told { (checkpoints : List Sessions) → Knows run.now.options.now checkpoints snapshot.now was_told
            → IfOk result (IsTold (course true run.now.options.now checkpoints) snapshot.now) }
        ensures faults { IfOk result (λ told. AreSaidFaults run.now.options.now (told_said told) told.faults.items) }
    {
        let told = explained(run, snapshot, was_told)?;
        match told.status {
            Status::Success | Status::TooFew => {
                drop(told);
                let committed = committed_of(snapshot)?;
                consistent(run.alloc, run.options, committed, snapshot, was_told)
            }
            Status::Anomaly => Ok(SnapshotAnswer {
                has_told: true,
                ..told
            }),
            _ => Ok(told),
        }
    }
}

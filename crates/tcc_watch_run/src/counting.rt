//! How many transactions of a snapshot are committed.
ghost use Rattle.std.specs.Prelude.{◌≡◌, ◌≤◌, ◌<◌, ◌+◌, ◌^◌, IfOk, OnErr, filter, length, if◌then◌else◌};
ghost use Rattle.std.specs.FinMap as sessions;
ghost use Rattle.tcc_txn.specs.Snapshots.{finished_at};
ghost use Rattle.tcc_reads.specs.{History.count, Sources.history};

use tcc_txn::{LargeSnapshot, NoMemory};

/// One more, if this holds. It is out of memory only where one more is more than 64 bits count.
pub(crate) fn with_one(count: usize, holds: bool) -> Result<usize, NoMemory>
    ensures more { IfOk result (λ more. more ≡ count + (if holds then 1 else 0)) }
    ensures many { OnErr result (2 ^ 64 ≤ count + 1) }
{
    if holds {
        count.checked_add(1).ok_or(NoMemory)
    } else {
        Ok(count)
    }
}

/// This many more, and as many as are committed in the session at an index in the snapshot.
fn with_session(snapshot: &LargeSnapshot, i: u32, before: usize) -> Result<usize, NoMemory>
    requires { i < sessions.len snapshot.now }
    ensures { IfOk result (λ all. all ≡ before + length (filter (λ txn. txn.committed) (finished_at snapshot.now i))) }
{
    let mut all = before;
    for index in 0..snapshot.finished(i) {
        let Some(recorded) = snapshot.recorded(i, index) else {
            unreachable!()
        };
        all = with_one(all, recorded.committed())?;
    }
    Ok(all)
}

/// How many transactions of the snapshot are committed.
pub(crate) fn committed_of(snapshot: &LargeSnapshot) -> Result<usize, NoMemory>
    ensures { IfOk result (λ all. all + 1 ≡ count (history snapshot.now)) }
{
    let mut all = 0;
    for i in 0..snapshot.sessions() {
        all = with_session(snapshot, i, all)?;
    }
    Ok(all)
}

//! The verdict of a snapshot at a level, and the decision of a whole snapshot.
ghost use Rattle.std.specs.Prelude.{◌≡◌, [], IfOk};
ghost use Rattle.tcc_txn.specs.Snapshots.{Sessions};
ghost use Rattle.tcc_reads.specs.{Faults.read_faults, Refusals.IsRefusal, Sources.history};
ghost use Rattle.tcc_graph.specs.declared.level.Level.{Level};
ghost use Rattle.tcc_watch.specs.Verdicts.{IsVerdict};

use std::alloc::Global;
use tcc_graph::{LargeGraph, Level};
use tcc_order::order;
use tcc_reads::{ResolveFault, resolve_large};
use tcc_txn::{LargeSnapshot, NoMemory};

/// The verdict of a snapshot at a level.
#[derive(Clone, Copy, Debug, PartialEq, Eq)]
pub enum WatchVerdict {
    /// Each read has its source, and there is a commit order.
    Consistent,
    /// Each read has its source, and there is none: some links lead in a circle.
    Anomaly,
    /// Some operations read or write what no source explains, so that there is no history to judge.
    Unresolved,
}

/// The verdict where some operations have no source.
fn unresolved(fault: ResolveFault) -> Result<WatchVerdict, NoMemory>
    ensures { (s : Sessions) (level : Level) → IsRefusal s fault → IfOk result (IsVerdict s level) }
{
    match fault {
        ResolveFault::Reads(_) => Ok(WatchVerdict::Unresolved),
        ResolveFault::NoMemory => Err(NoMemory),
    }
}

/// The verdict where each read has its source.
fn judge(alloc: Global, graph: &LargeGraph, level: Level) -> Result<WatchVerdict, NoMemory>
    ensures { (s : Sessions) → read_faults s ≡ [] → graph.now ≡ history s → IfOk result (IsVerdict s level) }
{
    match order(alloc, graph, level)? {
        Some(_first) => Ok(WatchVerdict::Consistent),
        None => Ok(WatchVerdict::Anomaly),
    }
}

/// The verdict of all that a snapshot has, decided from nothing.
pub(crate) fn decide(
    alloc: Global,
    snapshot: &LargeSnapshot,
    level: Level,
) -> Result<WatchVerdict, NoMemory>
    ensures { IfOk result (IsVerdict snapshot.now level) }
{
    match resolve_large(alloc, snapshot) {
        Ok(resolved) => {
            let graph = LargeGraph::build(alloc, resolved)?;
            judge(alloc, &graph, level)
        }
        Err(fault) => unresolved(fault),
    }
}

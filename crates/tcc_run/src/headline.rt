//! The main theorem, as the contract of one call, and of the same after an earlier anomaly.
ghost use Rattle.std.specs.Prelude.{IfOk, MatchResult};
ghost use Rattle.tcc_reads.specs.Refusals.{IsRefusal};
ghost use Rattle.tcc_explain.specs.{Explained.IsAnswerOfHistory, Next.IsNextRefusal};
ghost use Rattle.tcc_graph.specs.Levels.{judged};
ghost use Rattle.tcc_reads.specs.Sources.{history};
ghost use Rattle.tcc_run.specs.Headline.{IsExplained};

use crate::laws::explained;
use std::alloc::Global;
use std::thread::Threads;
use tcc_explain::{Anomaly, Answer, ExplainFault, Gate, NextFault, Workers, explain, explain_next};
use tcc_graph::Level;
use tcc_txn::Snapshot;

/// Explains a snapshot at a level by this many workers. Whatever their number and the order in which they search, the answer is either a
/// commit order that satisfies the axiom of the level, or a cycle. Of the cycle each derived link has its reason, and no cycle has fewer
/// steps. The certificate given with the answer is accepted by the checker, whose yes alone implies this. Or the result is all read faults
/// of the snapshot. `tcc_explain::laws::one_answer` says that there is one such first answer.
pub fn explain_snapshot<G: Gate>(
    rt: &(impl Threads + Sync),
    alloc: Global,
    snapshot: &Snapshot,
    level: Level,
    workers: Workers,
    gate: &G,
) -> Result<Answer, ExplainFault>
    ensures headline { MatchResult result (IsExplained snapshot.now level) (IsRefusal snapshot.now) }
    ensures first { IfOk result (IsAnswerOfHistory (judged (history snapshot.now) level)) }
{
    explained();
    explain(rt, alloc, snapshot, level, workers, gate)
}

/// Explains a snapshot after an earlier anomaly, at its level. What `explain_snapshot` says about an answer holds for this one, whose
/// search begins with what the earlier cycle costs now. Where there are no read faults it may report the first link of that cycle that this
/// history doesn't have. `tcc_explain::laws::grown` says that it reports none where the snapshot continues the one of the anomaly.
pub fn explain_snapshot_next<G: Gate>(
    rt: &(impl Threads + Sync),
    alloc: Global,
    snapshot: &Snapshot,
    earlier: &Anomaly,
    workers: Workers,
    gate: &G,
) -> Result<Answer, NextFault>
    ensures headline { MatchResult result (IsExplained snapshot.now earlier.now.level) (IsNextRefusal snapshot.now earlier.now) }
    ensures first { IfOk result (IsAnswerOfHistory (judged (history snapshot.now) earlier.now.level)) }
{
    explained();
    explain_next(rt, alloc, snapshot, earlier, workers, gate)
}

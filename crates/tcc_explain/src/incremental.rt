//! The answer for a snapshot that may continue one that had an anomaly.
ghost use Rattle.std.specs.Prelude.{MatchResult};
ghost use Rattle.tcc_explain.specs.Next.{IsNextAnswer, IsNextRefusal};

use crate::explaining::{history_answer, labelled_history};
use crate::fault::NextFault;
use std::alloc::Global;
use std::thread::Threads;
use tcc_answer::{Anomaly, Answer};
use tcc_base::Workers;
use tcc_slices::{carried, first_missing};
use tcc_steal::Gate;
use tcc_txn::Snapshot;

/// The answer that `explain` gives for the history of a snapshot at the level of an earlier anomaly. Each link of that
/// anomaly, found by the labels of its transactions, has to be a link of this history. Else the result is all read faults of
/// the snapshot, where there are some, or the first link that isn't one, counted from 1.
pub fn explain_next<G: Gate>(
    rt: &(impl Threads + Sync),
    alloc: Global,
    snapshot: &Snapshot,
    earlier: &Anomaly,
    workers: Workers,
    gate: &G,
) -> Result<Answer, NextFault>
    ensures { MatchResult result (IsNextAnswer snapshot.now earlier.now) (IsNextRefusal snapshot.now earlier.now) }
{
    let level = earlier.level();
    let (graph, labels) = labelled_history(alloc, snapshot)?;
    let links = carried(alloc, &graph, earlier.labels(), &labels, earlier.links())?;
    if let Some(link) = first_missing(&graph, level, &links) {
        return Err(NextFault::NotNested { link });
    }
    let answer = history_answer(rt, alloc, &graph, level, labels, workers, gate)?;
    Ok(answer)
}

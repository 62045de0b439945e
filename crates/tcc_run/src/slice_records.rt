//! The slice of an anomaly: the records of a small history that has it. They are read back before they are written.
ghost use Rattle.std.specs.Prelude.{◌≡◌, ◌↔◌, [], IfOk, IsTrue, Some, option_map};
ghost use Rattle.tcc_reads.specs.{Faults.read_faults, Sources.history};
ghost use Rattle.tcc_graph.specs.{Levels.judged, Routes.AreCycle};
ghost use Rattle.tcc_run.specs.{LargeRuns.Finishes, private.Stages.IsOutcome, private.Stages.IsSliceMade, private.Stages.outcome_links};

use crate::outcome::Outcome;
use std::alloc::Global;
use tcc_graph::{LargeGraph, Level, Link};
use tcc_rows::{RowFaultKind, snapshot_of};
use tcc_slices::{records, slice};
use tcc_txn::{Bounds, NoMemory, Snapshot, SnapshotWithin};

/// Whether these records have no fault, and finish what the snapshot has.
fn is_read_back(alloc: Global, text: &[u8], snapshot: &Snapshot) -> Result<bool, NoMemory>
    ensures { IfOk result (λ found. IsTrue found ↔ Finishes text.now snapshot.now) }
{
    match snapshot_of(alloc, text) {
        Ok(read) => Ok(read.is_same(snapshot)),
        // Bytes in memory are no device: reading them fails only for want of memory.
        Err(fault) if matches!(fault.kind, RowFaultKind::NoMemory | RowFaultKind::Read) => {
            Err(NoMemory)
        }
        Err(_) => Ok(false),
    }
}

/// The records of the slice of a snapshot by the links of a cycle at the level, with the snapshot's graph; none where it would break
/// the small limits, or isn't read back.
fn text_of<B: Bounds>(
    alloc: Global,
    snapshot: &SnapshotWithin<B>,
    graph: &LargeGraph,
    level: Level,
    links: &[Link],
) -> Result<Option<Vec<u8>>, NoMemory>
    ensures { graph.now ≡ history snapshot.now → read_faults snapshot.now ≡ [] → AreCycle (judged (history snapshot.now) level) links.now
        → IfOk result (λ made. IsSliceMade level snapshot.now links.now (option_map (λ text. text.items) made)) }
{
    let Some(small) = slice(alloc, snapshot, graph, level, links)? else {
        return Ok(None);
    };
    let text = records(alloc, &small)?;
    let is_whole = is_read_back(alloc, &text, &small)?;
    if is_whole { Ok(Some(text)) } else { Ok(None) }
}

/// The records of the slice of a snapshot by the links of what was said about it, cut from the graph by which that was found.
pub(crate) fn slice_text<B: Bounds>(
    alloc: Global,
    snapshot: &SnapshotWithin<B>,
    level: Level,
    outcome: &Outcome,
    links: &[Link],
) -> Result<Option<Vec<u8>>, NoMemory>
    ensures { IsOutcome level snapshot.now outcome.now → outcome_links outcome.now ≡ Some links.now
        → IfOk result (λ made. IsSliceMade level snapshot.now links.now (option_map (λ text. text.items) made)) }
{
    match outcome {
        Outcome::Tabled { graph, .. } => text_of(alloc, snapshot, graph.get(), level, links),
        Outcome::Bare { graph, .. } => text_of(alloc, snapshot, graph.get(), level, links),
        Outcome::Large { graph, .. } => text_of(alloc, snapshot, graph.get(), level, links),
        // There are no links.
        Outcome::Unresolved(_) => Ok(None),
    }
}

//! A slice: a small snapshot with what the links of a cycle need, and nothing else.
ghost use Rattle.std.specs.Prelude.{◌≡◌, ◌≢◌, [], None, IfOk, IfSome, IsTrue, MatchOption, map};
ghost use Rattle.tcc_reads.specs.{Faults.read_faults, Sources.history};
ghost use Rattle.tcc_graph.specs.{Levels.judged, Renumbered.link_by, Routes.AreCycle};
ghost use Rattle.tcc_slices.specs.{Cuts.IsCutOf, Limits.NeedTooMuch, Slices.IsCarried, Slices.IsSliceOf, private.Fitting.IsPassing};
ghost use Rattle.tcc_slices.specs.private.Carrying.{carry, IsRising, place};

use crate::carrying::{fits, is_carried};
use crate::cutting::cut;
use crate::needs::Needs;
use crate::numbering::{in_slice, numbers_of};
use std::alloc::Global;
use tcc_graph::{Graph, LargeGraph, Level, Link, is_cycle};
use tcc_reads::{ResolveFault, resolve};
use tcc_txn::{Bounds, NoMemory, Snapshot, SnapshotWithin};

/// The graph of a snapshot; none where some reads have faults.
fn graph_of(alloc: Global, snapshot: &Snapshot) -> Result<Option<Graph>, NoMemory>
    ensures { IfOk result (λ found. MatchOption found (read_faults snapshot.now ≢ [])
        (λ graph. (read_faults snapshot.now ≡ []) × (graph ≡ history snapshot.now))) }
{
    match resolve(alloc, snapshot) {
        Ok(resolved) => Ok(Some(Graph::build(alloc, resolved)?)),
        Err(ResolveFault::NoMemory) => Err(NoMemory),
        Err(ResolveFault::Reads(_)) => Ok(None),
    }
}

/// Whether the slice's reads are resolved, each of its links is one of the whole, and these links of the whole are a cycle in it.
fn is_slice(
    alloc: Global,
    slice: &Snapshot,
    whole: &LargeGraph,
    level: Level,
    numbers: &[u32],
    links: &[Link],
) -> Result<bool, NoMemory>
    requires { IsRising numbers.now }
    ensures resolved { IfOk result (λ found. IsTrue found → read_faults slice.now ≡ []) }
    ensures carried { IfOk result (λ found. IsTrue found → IsCarried (carry numbers.now) (history slice.now) whole.now) }
    ensures cycle { IfOk result (λ found. IsTrue found
        → AreCycle (judged (history slice.now) level) (map (link_by (place numbers.now)) links.now)) }
    ensures passes { IfOk result (λ found. IsPassing slice.now whole.now level numbers.now links.now → IsTrue found) }
{
    let Some(graph) = graph_of(alloc, slice)? else {
        return Ok(false);
    };
    if !fits(&graph, whole, numbers) {
        return Ok(false);
    }
    let own = in_slice(alloc, numbers, links)?;
    Ok(is_cycle(&graph, level, &own) && is_carried(&graph, whole, numbers))
}

/// The slice of a snapshot of any size by the links of a cycle: of their transactions the operations that the links need, each once, and no others, in
/// the order of the whole. Its reads are resolved. By a map of numbers each of its links is one of the whole, so each of its anomalies is
/// one too, of the same cost. By this map these links are a cycle of it at the level. Each session's transactions are some of its
/// transactions in the whole, each with some of its operations, in their order. Say the graph is the snapshot's, all of whose reads
/// are resolved, and the links are a cycle of it. Then there is none only where they need more transactions, or those of more
/// sessions, than a snapshot may have.
pub fn slice<B: Bounds>(
    alloc: Global,
    snapshot: &SnapshotWithin<B>,
    graph: &LargeGraph,
    level: Level,
    links: &[Link],
) -> Result<Option<Snapshot>, NoMemory>
    ensures links { IfOk result (λ found. IfSome found (λ slice. IsSliceOf level snapshot.now graph.now links.now slice)) }
    ensures records { IfOk result (λ found. IfSome found (λ slice. IsCutOf slice snapshot.now)) }
    ensures none { IfOk result (λ found. found ≡ None → graph.now ≡ history snapshot.now → read_faults snapshot.now ≡ []
        → AreCycle (judged graph.now level) links.now → NeedTooMuch graph.now links.now) }
{
    let needs = Needs::of(alloc, links)?;
    let numbers = numbers_of(alloc, needs.each())?;
    let Some(slice) = cut(alloc, snapshot, graph, needs.each(), &numbers)? else {
        return Ok(None);
    };
    if is_slice(alloc, &slice, graph, level, &numbers, links)? {
        Ok(Some(slice))
    } else {
        Ok(None)
    }
}

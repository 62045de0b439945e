//! The axiom at `Atomic`, where a transaction reaches a reader by a single pair. Of the reader's session the last writer
//! before it is checked, and of the reader's sources what else they write.
ghost use Rattle.std.specs.Prelude.{ℕ, ◌≡◌, ◌<◌, List, IfOk, IsTrue, length};
ghost use Rattle.tcc_reads.specs.History.{count};
ghost use Rattle.tcc_graph.specs.{Keys.keys, declared.level.Level.TheVariants.Atomic};
ghost use Rattle.tcc_check.specs.private.Latest.{AreApart, AreReadsKept, AreRising, KeepsSessions};
ghost use Rattle.tcc_check.specs.private.SinglePairs.{AreSourcePositions, DoSessionsStand, DoSourcesStand, DoesSessionStand, DoesWriterStand};

use crate::latest::stands_before;
use std::alloc::Global;
use tcc_graph::LargeGraph;
use tcc_txn::NoMemory;

/// The position of a key that is not read. No position in an order is above it.
const UNREAD: u32 = u32::MAX;

/// For each key the position in the order of the source that `c` reads it from, or `UNREAD`.
fn source_positions(
    alloc: Global,
    graph: &LargeGraph,
    positions: &[u32],
    c: u32,
) -> Result<Vec<u32>, NoMemory>
    requires positions { length positions.now ≡ count graph.now }
    requires reader { c < count graph.now }
    ensures long { IfOk result (λ sources. length sources.items ≡ length (keys graph.now)) }
    ensures low { IfOk result (λ sources. AreSourcePositions graph.now positions.now c sources.items) }
{
    let mut sources = vec![in alloc; UNREAD; graph.keys().len()]?;
    for (key, source) in graph.reads_at(c) {
        let position = positions[*source as usize];
        sources[*key as usize] = sources[*key as usize].min(position);
    }
    Ok(sources)
}

/// Whether `b` comes after none of these sources whose key it writes too.
fn writer_stands(graph: &LargeGraph, positions: &[u32], sources: &[u32], b: u32) -> bool
    requires positions { length positions.now ≡ count graph.now }
    requires sources { length sources.now ≡ length (keys graph.now) }
    requires writer { b < count graph.now }
    ensures { IsTrue result → DoesWriterStand graph.now positions.now sources.now b }
{
    for key in graph.writes_at(b) {
        if sources[*key as usize] < positions[b as usize] {
            return false;
        }
    }
    true
}

/// Whether no source of `c` comes after another one whose key it writes too.
fn sources_stand(
    alloc: Global,
    graph: &LargeGraph,
    positions: &[u32],
    c: u32,
) -> Result<bool, NoMemory>
    requires positions { length positions.now ≡ count graph.now }
    requires reader { c < count graph.now }
    ensures { IfOk result (λ stand. IsTrue stand → DoSourcesStand graph.now positions.now c) }
{
    let sources = source_positions(alloc, graph, positions, c)?;
    for (_key, source) in graph.reads_at(c) {
        if !writer_stands(graph, positions, &sources, *source) {
            return Ok(false);
        }
    }
    Ok(true)
}

/// Whether none of these writers that come before `c` in its session comes after the source.
fn session_stands(
    graph: &LargeGraph,
    positions: &[u32],
    writers: &[u32],
    source: u32,
    c: u32,
) -> bool
    requires positions { KeepsSessions graph.now positions.now }
    requires writers { AreRising graph.now writers.now }
    requires source { source < count graph.now }
    ensures { IsTrue result → DoesSessionStand graph.now positions.now writers.now source c }
{
    let Some((session, place)) = graph.at(c) else {
        return true;
    };
    if place == 0 {
        return true;
    }
    stands_before(graph, positions, writers, (session, place - 1), source)
}

/// Whether none of its session comes after what `c` reads, at a key that it writes too.
fn sessions_stand(graph: &LargeGraph, positions: &[u32], c: u32) -> bool
    requires positions { KeepsSessions graph.now positions.now }
    requires reader { c < count graph.now }
    ensures { IsTrue result → DoSessionsStand graph.now positions.now c }
{
    for (key, source) in graph.reads_at(c) {
        if !session_stands(graph, positions, graph.writers_at(*key), *source, c) {
            return false;
        }
    }
    true
}

/// Whether the axiom is kept by all reads of `c`.
pub(crate) fn are_reads_kept_by_pairs(
    alloc: Global,
    graph: &LargeGraph,
    positions: &[u32],
    c: u32,
) -> Result<bool, NoMemory>
    requires positions { KeepsSessions graph.now positions.now }
    requires apart { AreApart positions.now }
    requires reader { c < count graph.now }
    ensures { (clocks : List (List ℕ)) → IfOk result (λ kept. IsTrue kept → AreReadsKept graph.now Atomic positions.now clocks c) }
{
    if !sessions_stand(graph, positions, c) {
        return Ok(false);
    }
    let stand = sources_stand(alloc, graph, positions, c)?;
    Ok(stand)
}

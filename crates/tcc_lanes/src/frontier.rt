//! The frontier of the search: walks from where lanes start, longer by one pair each time.
ghost use Rattle.std.specs.Prelude.{◌≡◌, ◌<◌, ◌↔◌, ℕ, false, length, slice_index, IfOk};
ghost use Rattle.tcc_reads.specs.History.{IsBySession, count};
ghost use Rattle.tcc_graph.specs.Levels.{judged};
ghost use Rattle.tcc_clocks.specs.Parents.{ArePrevious};
ghost use Rattle.tcc_lanes.specs.{declared.words.TheConstants.LANES, private.Marks.IsAt, private.Walking.IsWalkedOn, private.Walking.underway_at, private.Walks.AreWalked};

use crate::expand::spread;
use crate::marking::Marking;
use std::alloc::Global;
use tcc_graph::{LargeGraph, Level};

/// The lanes that start at a transaction and, where the level allows longer walks, those that have come to it.
fn underway_at(level: Level, starts: u64, reached: u64) -> u64
    ensures { result ≡ underway_at level starts reached }
{
    match level {
        Level::Causal => starts | reached,
        Level::Atomic => starts,
    }
}

/// Replaces each word by the lanes that go on from that transaction.
fn put_underway(level: Level, starts: &[u64], reached: &[u64], underway: &mut [u64])
    requires starts { length starts.now ≡ length underway.old }
    requires reached { length reached.now ≡ length underway.old }
    ensures same { length underway.new ≡ length underway.old }
    ensures each { (v : ℕ) → v < length underway.old
        → slice_index underway.new v ≡ underway_at level (slice_index starts.now v) (slice_index reached.now v) }
{
    for (v, word) in underway.iter_mut().enumerate() {
        *word = underway_at(level, starts[v], reached[v]);
    }
}

/// Goes on by one pair from where the lanes start and from where they have come. It returns whether any lane has come to anything new.
pub(crate) fn walk_on(
    graph: &LargeGraph,
    level: Level,
    parent_of: &[u32],
    starts: &[u64],
    reached: &mut [u64],
    underway: &mut [u64],
) -> bool
    requires numbered { IsBySession graph.now.entries }
    requires parents { ArePrevious graph.now parent_of.now }
    requires starts { length starts.now ≡ count graph.now }
    requires reached { length reached.old ≡ count graph.now }
    requires underway { length underway.old ≡ count graph.now }
    ensures same { length reached.new ≡ count graph.now }
    ensures room { length underway.new ≡ count graph.now }
    ensures each { (v : ℕ) (i : ℕ) → v < count graph.now → i < LANES
        → IsAt reached.new v i ↔ IsWalkedOn graph.now level starts.now reached.old v i }
    ensures still { result ≡ false → (v : ℕ) → v < count graph.now → slice_index reached.new v ≡ slice_index reached.old v }
{
    put_underway(level, starts, reached, underway);
    spread(graph, parent_of, underway, reached)
}

/// The lanes that have come to each transaction, by walks of at most `most` pairs.
pub(crate) fn walked(
    alloc: Global,
    graph: &LargeGraph,
    level: Level,
    parent_of: &[u32],
    begun: &[u64],
    most: u32,
) -> Marking
    requires numbered { IsBySession graph.now.entries }
    requires parents { ArePrevious graph.now parent_of.now }
    requires begun { length begun.now ≡ count graph.now }
    ensures long { IfOk result (λ reached. length reached.items ≡ count graph.now) }
    ensures each { IfOk result (λ reached. AreWalked (judged graph.now level) begun.now most reached.items) }
{
    let count = graph.count() as usize;
    let mut reached = vec![in alloc; 0; count]?;
    let mut underway = vec![in alloc; 0; count]?;
    for _ in 0..most {
        if !walk_on(graph, level, parent_of, begun, &mut reached, &mut underway) {
            return Ok(reached);
        }
    }
    Ok(reached)
}

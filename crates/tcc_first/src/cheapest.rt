//! The cheapest link from one transaction to another, and of those the first by the rule of ties. It is that of a pair, or else the derived
//! one by the shortest walk, found from the lengths of all walks (`first_walks`). For N transactions and R reads this takes as many sweeps
//! of N + R as these lengths do, and some N + R steps more.
ghost use Rattle.std.specs.Prelude.{◌≡◌, ◌<◌, ◌≤◌, ◌+◌, ◌-◌, ◌⊎◌, ◌↔◌, ℕ, List, length, IsTrue, IfOk, MatchOption};
ghost use Rattle.tcc_reads.specs.History.{count};
ghost use Rattle.tcc_graph.specs.{Relations.IsReadsPair, Keys.keys, Keys.key_at, Levels.judged, Links.MayContradict, Links.link_cost, declared.link.Link.Link};
ghost use Rattle.tcc_lanes.specs.declared.lengths.TheConstants.{NO_WALK};
ghost use Rattle.tcc_first.specs.{Cheapest.IsFirstCheapest, Cheapest.IsLinkFrom};
ghost use Rattle.tcc_first.specs.private.Picks.{IsContradictedAt, IsFirstContradictedAt, NoneContradictedUpTo};

use crate::cheapest_links::{lesser, pair_link};
use crate::first_walks::first_walk;
use crate::ranges::has_number;
use std::alloc::Global;
use tcc_graph::{LargeGraph, Level, Link};
use tcc_lanes::{NO_WALK, walk_lengths};
use tcc_txn::{Name, NoMemory};

/// Whether another transaction than the source writes the key at an index, which the reader reads from the source.
fn may_contradict(graph: &LargeGraph, from: u32, source: u32, reader: u32, key_index: u32) -> bool
    requires reader { reader < count graph.now }
    requires key { key_index < length (keys graph.now) }
    requires read { IsReadsPair graph.now source reader (key_at graph.now key_index) }
    ensures { IsTrue result ↔ MayContradict graph.now from source (key_at graph.now key_index) reader }
{
    from != source && has_number(graph.writers_at(key_index), from)
}

/// Whether one transaction contradicts a reading from another by a shortest walk of this many steps.
fn is_contradicted(
    graph: &LargeGraph,
    lengths: &[u32],
    from: u32,
    source: u32,
    steps: u32,
    reader: u32,
    key_index: u32,
) -> bool
    requires long { length lengths.now ≡ count graph.now }
    requires reader { reader < count graph.now }
    requires key { key_index < length (keys graph.now) }
    requires read { IsReadsPair graph.now source reader (key_at graph.now key_index) }
    ensures { IsTrue result ↔ IsContradictedAt graph.now lengths.now steps from source (key_at graph.now key_index) reader }
{
    lengths[reader as usize] == steps && may_contradict(graph, from, source, reader, key_index)
}

/// The first reading from one transaction, by key and by reader, that the other contradicts by a shortest walk of this many steps; none
/// where there is none.
fn first_contradicted(
    graph: &LargeGraph,
    lengths: &[u32],
    from: u32,
    source: u32,
    steps: u32,
) -> Option<(Name, u32)>
    requires long { length lengths.now ≡ count graph.now }
    requires source { source < count graph.now }
    ensures { MatchOption result ((x : List ℕ) (c : ℕ) → IsContradictedAt graph.now lengths.now steps from source x c → ⊥)
        (λ first. (first.1 < count graph.now) × IsFirstContradictedAt graph.now lengths.now steps from source first.0 first.1) }
{
    let (readers, key_indices) = graph.readings_at(source);
    let mut first = None;
    for index in 0..readers.len() {
        if is_contradicted(
            graph,
            lengths,
            from,
            source,
            steps,
            readers[index],
            key_indices[index],
        ) {
            first = lesser(first, key_indices[index], readers[index]);
        }
    }
    let Some((key_index, reader)) = first else {
        return None;
    };
    Some((graph.keys()[key_index as usize], reader))
}

/// Whether one transaction contradicts a reading from another by a walk of this many steps, which are fewer than the fewest so far.
fn is_nearer(
    graph: &LargeGraph,
    from: u32,
    source: u32,
    reader: u32,
    key_index: u32,
    steps: u32,
    fewest: u32,
) -> bool
    requires reader { reader < count graph.now }
    requires key { key_index < length (keys graph.now) }
    requires read { IsReadsPair graph.now source reader (key_at graph.now key_index) }
    ensures { IsTrue result ↔ ((0 < steps) × (steps < fewest) × MayContradict graph.now from source (key_at graph.now key_index) reader) }
{
    0 < steps && steps < fewest && may_contradict(graph, from, source, reader, key_index)
}

/// How many steps the shortest walk has by which one transaction contradicts a reading from another; `NO_WALK` where none does.
fn fewest_steps(graph: &LargeGraph, lengths: &[u32], from: u32, source: u32) -> u32
    requires long { length lengths.now ≡ count graph.now }
    requires source { source < count graph.now }
    ensures none { NoneContradictedUpTo graph.now lengths.now (result - 1) from source }
    ensures some { (result ≡ NO_WALK) ⊎ ((0 < result) × ((x : List ℕ) × (c : ℕ) × IsContradictedAt graph.now lengths.now result from source x c)) }
{
    let (readers, key_indices) = graph.readings_at(source);
    let mut fewest = NO_WALK;
    for index in 0..readers.len() {
        let reader = readers[index];
        let steps = lengths[reader as usize];
        if is_nearer(
            graph,
            from,
            source,
            reader,
            key_indices[index],
            steps,
            fewest,
        ) {
            fewest = steps;
        }
    }
    fewest
}

/// The first reading from one transaction, by key and by reader, that the other contradicts by the shortest walk; none where no walk of at
/// most `most` steps contradicts one.
fn nearest_contradicted(
    graph: &LargeGraph,
    lengths: &[u32],
    most: u32,
    from: u32,
    source: u32,
) -> Option<(Name, u32)>
    requires few { most < NO_WALK }
    requires long { length lengths.now ≡ count graph.now }
    requires source { source < count graph.now }
    ensures { MatchOption result (NoneContradictedUpTo graph.now lengths.now most from source)
        (λ first. (first.1 < count graph.now) × ((n : ℕ) × (0 < n) × (n ≤ most) × IsFirstContradictedAt graph.now lengths.now n from source first.0 first.1
        × NoneContradictedUpTo graph.now lengths.now (n - 1) from source)) }
{
    let steps = fewest_steps(graph, lengths, from, source);
    if most < steps {
        return None;
    }
    first_contradicted(graph, lengths, from, source, steps)
}

/// The cheapest link from one transaction to another, and of those the first by the rule of ties; none where each has more than `most + 1`
/// steps.
pub fn cheapest_link(
    alloc: Global,
    graph: &LargeGraph,
    level: Level,
    from: u32,
    to: u32,
    most: u32,
) -> Result<Option<Link>, NoMemory>
    requires few { most < NO_WALK }
    requires from { from < count graph.now }
    requires to { to < count graph.now }
    ensures { IfOk result (λ found. MatchOption found
        ((l : Link) → IsLinkFrom (judged graph.now level) from to l → most + 1 < link_cost l)
        (IsFirstCheapest (judged graph.now level) from to)) }
{
    if graph.causal(from, to) {
        return Ok(Some(pair_link(graph, from, to)));
    }
    let lengths = walk_lengths(alloc, graph, level, from, most)?;
    let Some((key, reader)) = nearest_contradicted(graph, &lengths, most, from, to) else {
        return Ok(None);
    };
    let walk = first_walk(alloc, graph, &lengths, from, reader)?;
    Ok(Some(Link::Derived {
        from,
        to,
        key,
        reader,
        walk,
    }))
}

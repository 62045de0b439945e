//! A circle of causal pairs, where no order keeps them: back along the pairs over transactions that have no place in an order, until
//! one comes again (rho walk). For N transactions and R reads that takes at most 2 N + R steps.
ghost use Rattle.std.specs.Prelude.{◌≡◌, ◌<◌, ℕ, true, false, length, drop, replicate, slice_index, Contains, IfOk, MatchOption};
ghost use Rattle.tcc_reads.specs.History.{count};
ghost use Rattle.tcc_graph.specs.Relations.{IsCausalPair};
ghost use Rattle.tcc_bits.specs.Bits.{is_marked};
ghost use Rattle.tcc_clocks.specs.Parents.{previous, sources};
ghost use Rattle.tcc_order.specs.Placements.{ArePairsStuck};
ghost use Rattle.tcc_survey.specs.Circles.{IsCircle};

use std::alloc::{AllocError, Global};
use tcc_bits::is_marked;
use tcc_graph::LargeGraph;
use tcc_txn::NoMemory;

/// Of those that a transaction reads from the first that was not placed.
fn source_left(graph: &LargeGraph, placed: &[u64], c: u32) -> Option<u32>
    requires { c < count graph.now }
    ensures { MatchOption result
        ((b : ℕ) → Contains (sources graph.now c) b → is_marked placed.now b ≡ false → ⊥)
        (λ b. (b < count graph.now) × (is_marked placed.now b ≡ false) × IsCausalPair graph.now b c) }
{
    for read in graph.reads_at(c) {
        if !is_marked(placed, read.1 as usize) {
            return Some(read.1);
        }
    }
    None
}

/// Who stands right before a transaction in session order, where that was not placed.
fn previous_left(graph: &LargeGraph, placed: &[u64], c: u32) -> Option<u32>
    requires { c < count graph.now }
    ensures { MatchOption result
        (0 < c → is_marked placed.now (previous graph.now c) ≡ true)
        (λ b. (b < count graph.now) × (is_marked placed.now b ≡ false) × IsCausalPair graph.now b c) }
{
    if c == 0 {
        return None;
    }
    let previous = graph.previous(c);
    if is_marked(placed, previous as usize) {
        None
    } else {
        Some(previous)
    }
}

/// One that a transaction reads from and that was not placed either, where the one before it in its session was.
fn source_before(graph: &LargeGraph, placed: &[u64], c: u32) -> u32
    requires stuck { ArePairsStuck graph.now placed.now }
    requires below { c < count graph.now }
    requires left { is_marked placed.now c ≡ false }
    requires known { 0 < c → is_marked placed.now (previous graph.now c) ≡ true }
    ensures { (result < count graph.now) × (is_marked placed.now result ≡ false) × IsCausalPair graph.now result c }
{
    match source_left(graph, placed, c) {
        Some(source) => source,
        // Never reached: what was not placed is held back by one that wasn't either.
        None => c,
    }
}

/// One that stands right before a transaction by its session or a read, and was not placed either.
fn left_before(graph: &LargeGraph, placed: &[u64], c: u32) -> u32
    requires stuck { ArePairsStuck graph.now placed.now }
    requires below { c < count graph.now }
    requires left { is_marked placed.now c ≡ false }
    ensures { (result < count graph.now) × (is_marked placed.now result ≡ false) × IsCausalPair graph.now result c }
{
    match previous_left(graph, placed, c) {
        Some(previous) => previous,
        None => source_before(graph, placed, c),
    }
}

/// The first transaction that was not placed.
fn first_left(graph: &LargeGraph, placed: &[u64]) -> u32
    requires { ArePairsStuck graph.now placed.now }
    ensures { (result < count graph.now) × (is_marked placed.now result ≡ false) }
{
    for c in 0..graph.count() {
        if !is_marked(placed, c as usize) {
            return c;
        }
    }
    // Never reached: some were not placed.
    0
}

/// What is in a trail from a transaction of it on.
fn trail_from(alloc: Global, trail: &[u32], at: u32) -> Result<Vec<u32>, AllocError>
    requires { Contains trail.now at }
    ensures { IfOk result (λ found. (start : ℕ) × (start < length trail.now) × (slice_index trail.now start ≡ at) × (found.items ≡ drop start trail.now)) }
{
    for start in 0..trail.len() {
        if trail[start] == at {
            return Vec::from_slice(alloc, &trail[start..]);
        }
    }
    // Never reached: it is in the trail.
    Ok(Vec::new(alloc))
}

/// Of so many transactions that none is seen.
fn none_seen(alloc: Global, count: u32) -> Result<Vec<bool>, AllocError>
    ensures { IfOk result (λ seen. seen.items ≡ replicate count false) }
{
    let mut seen = Vec::new(alloc);
    for _ in 0..count {
        seen.push(false)?;
    }
    Ok(seen)
}

/// A circle of causal pairs of a history whose pairs leave transactions over.
pub(crate) fn circle_of(
    alloc: Global,
    graph: &LargeGraph,
    placed: &[u64],
) -> Result<Vec<u32>, NoMemory>
    requires { ArePairsStuck graph.now placed.now }
    ensures { IfOk result (λ circle. IsCircle graph.now circle.items) }
{
    let mut seen = none_seen(alloc, graph.count())?;
    let mut trail = Vec::new(alloc);
    let mut at = first_left(graph, placed);
    while !seen[at as usize] {
        seen[at as usize] = true;
        trail.push(at)?;
        at = left_before(graph, placed, at);
    }
    Ok(trail_from(alloc, &trail, at)?)
}

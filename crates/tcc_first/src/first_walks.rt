//! The first of the shortest walks from one transaction to another, traced back from its end by the lengths of walks. Each step is the
//! first that comes from a transaction whose length is one less. Each step looks at the transactions before its end in session order, and
//! at those that its end reads from.
ghost use Rattle.std.specs.Prelude.{◌≡◌, ◌<◌, ℕ, true, length, slice_index, min, Some, IfOk, MatchOption};
ghost use Rattle.tcc_reads.specs.History.{count};
ghost use Rattle.tcc_graph.specs.{declared.level.Level.Level, declared.step.Step.Step, Levels.judged, Relations.IsSessionPair, Relations.IsCausalPair};
ghost use Rattle.tcc_graph.specs.Walks.{step_from, step_to, IsStep};
ghost use Rattle.tcc_derive.specs.{Backwards.IsFirstWalk, private.LeadingBack.IsLastStep, private.LeadingBack.stands_at};
ghost use Rattle.tcc_lanes.specs.{Lengths.AreWalkLengths, declared.lengths.TheConstants.NO_WALK};
ghost use Rattle.tcc_first.specs.private.Picks.{IsLowestOf};

use crate::cheapest_links::first_step;
use std::alloc::Global;
use tcc_graph::{LargeGraph, Step, Walk};
use tcc_txn::NoMemory;

/// Whether `left` steps lead to the transaction, and no fewer; only where the walk begins, 0 steps lead.
fn stands_at(lengths: &[u32], from: u32, transaction: u32, left: u32) -> bool
    requires { transaction < length lengths.now }
    ensures { result ≡ stands_at lengths.now from transaction left }
{
    if left == 0 {
        transaction == from
    } else {
        lengths[transaction as usize] == left
    }
}

/// The lower of the lowest number so far and another one.
fn lower(lowest: Option<u32>, number: u32) -> Option<u32>
    ensures { MatchOption lowest (result ≡ Some number) (λ other. result ≡ Some (min other number)) }
{
    match lowest {
        Some(other) => Some(other.min(number)),
        None => Some(number),
    }
}

/// The lowest number before `end` in session order to which `left` steps lead.
fn lowest_before(graph: &LargeGraph, lengths: &[u32], from: u32, end: u32, left: u32) -> Option<u32>
    requires end { end < count graph.now }
    requires long { length lengths.now ≡ count graph.now }
    ensures { IsLowestOf (λ u. IsSessionPair graph.now u end × (stands_at lengths.now from u left ≡ true)) result }
{
    let mut lowest = None;
    let mut at = end;
    while at > 0 {
        at = graph.previous(at);
        if stands_at(lengths, from, at, left) {
            lowest = Some(at);
        }
    }
    lowest
}

/// The lowest number from which a pair leads to `end`, and to which `left` steps lead.
fn lowest_start(graph: &LargeGraph, lengths: &[u32], from: u32, end: u32, left: u32) -> Option<u32>
    requires end { end < count graph.now }
    requires long { length lengths.now ≡ count graph.now }
    ensures { IsLowestOf (λ u. IsCausalPair graph.now u end × (stands_at lengths.now from u left ≡ true)) result }
{
    let mut lowest = lowest_before(graph, lengths, from, end, left);
    for read in graph.reads_at(end) {
        if stands_at(lengths, from, read.1, left) {
            lowest = lower(lowest, read.1);
        }
    }
    lowest
}

/// The first step to `end` from where `left` steps lead.
fn last_step(graph: &LargeGraph, lengths: &[u32], from: u32, end: u32, left: u32) -> Option<Step>
    requires end { end < count graph.now }
    requires long { length lengths.now ≡ count graph.now }
    ensures { MatchOption result ((o : Step) → IsStep graph.now o → step_to o ≡ end → stands_at lengths.now from (step_from o) left ≡ true → ⊥)
        (IsLastStep graph.now lengths.now from end left) }
{
    let Some(start) = lowest_start(graph, lengths, from, end, left) else {
        return None;
    };
    Some(first_step(graph, start, end))
}

/// The first of the shortest walks from one transaction to another, picked from the last step backwards, by the lengths of walks.
pub(crate) fn first_walk(
    alloc: Global,
    graph: &LargeGraph,
    lengths: &[u32],
    from: u32,
    to: u32,
) -> Result<Walk, NoMemory>
    requires lengths { (level : Level) × (most : ℕ) × (most < NO_WALK) × AreWalkLengths (judged graph.now level) from most lengths.now }
    requires from { from < count graph.now }
    requires to { to < count graph.now }
    requires reached { slice_index lengths.now to < NO_WALK }
    ensures { IfOk result (λ walk. (level : Level) (most : ℕ) → most < NO_WALK → AreWalkLengths (judged graph.now level) from most lengths.now
        → IsFirstWalk (judged graph.now level) from to walk) }
{
    let total = lengths[to as usize];
    let mut end = to;
    let mut taken = Vec::new(alloc);
    for done in 0..total {
        let Some(step) = last_step(graph, lengths, from, end, total - done - 1) else {
            unreachable!()
        };
        end = step.from();
        taken.push(step)?;
    }
    taken.reverse();
    Ok(Walk::new(taken))
}

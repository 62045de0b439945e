//! How many steps the shortest walks from a transaction have. Lengths are lowered along the pairs until none changes any more (Bellman,
//! Quarterly of Applied Mathematics 16(1), 1958). The sweeps go along the numbers, and use what they have lowered. For N transactions and R
//! reads this takes a sweep of N + R for each time that shortest walks lead to a lower number, and two more.
ghost use Rattle.std.specs.Prelude.{◌≡◌, ◌<◌, ◌+◌, ℕ, false, length, slice_index, IfOk};
ghost use Rattle.tcc_reads.specs.History.{IsBySession, count};
ghost use Rattle.tcc_clocks.specs.Parents.{ArePrevious};
ghost use Rattle.tcc_graph.specs.Levels.{judged};
ghost use Rattle.tcc_least.specs.Shapes.{IsRead};
ghost use Rattle.tcc_lanes.specs.{Lengths.AreWalkLengths, private.Lowering.AreLowered, private.Lowering.IsLeastOver, private.Lowering.least_on, private.Lowering.steps_at, private.Pricing.IsLowered};

use std::alloc::Global;
use tcc_clocks::previous_of_each;
use tcc_graph::{LargeGraph, Level};
use tcc_txn::NoMemory;

/// The length where there is no walk.
pub const NO_WALK: u32 = u32::MAX;

/// How many steps lead to a transaction when a walk goes on from there: 0 where walks begin. Where all walks have one step, none goes on
/// from any other transaction.
fn steps_at(level: Level, from: u32, lengths: &[u32], v: u32) -> u32
    requires { v < length lengths.now }
    ensures { result ≡ steps_at level from lengths.now v }
{
    if v == from {
        return 0;
    }
    match level {
        Level::Causal => lengths[v as usize],
        Level::Atomic => NO_WALK,
    }
}

/// The fewest steps to a source of a transaction.
fn least_at_sources(graph: &LargeGraph, level: Level, from: u32, lengths: &[u32], v: u32) -> u32
    requires below { v < count graph.now }
    requires long { length lengths.now ≡ count graph.now }
    ensures { IsLeastOver (λ u. IsRead graph.now u v) (steps_at level from lengths.now) result }
{
    let mut least = NO_WALK;
    for read in graph.reads_at(v) {
        least = steps_at(level, from, lengths, read.1).min(least);
    }
    least
}

/// The fewest steps to a transaction before this one in session order, from those of the previous index.
fn least_before(
    level: Level,
    from: u32,
    parent_of: &[u32],
    lengths: &[u32],
    run: u32,
    v: u32,
) -> u32
    requires v { v < length parent_of.now }
    requires parents { (p : ℕ) → p < length parent_of.now → slice_index parent_of.now p < length lengths.now }
    ensures { result ≡ least_on level from parent_of.now lengths.now run v }
{
    if v == 0 {
        return NO_WALK;
    }
    let parent = parent_of[v as usize];
    let last = steps_at(level, from, lengths, parent);
    if parent == 0 { last } else { run.min(last) }
}

/// A length, lowered to one more than the steps to where a pair begins, if these are fewer than `most`.
fn lowered(length: u32, steps: u32, most: u32) -> u32
    ensures { IsLowered (steps < most) (steps + 1) length result }
{
    if steps < most {
        length.min(steps + 1)
    } else {
        length
    }
}

/// Whether any length is new: one was before, or this one has changed.
fn is_new_by(is_new: bool, old: u32, length: u32) -> bool
    ensures { result ≡ false → (is_new ≡ false) × (length ≡ old) }
{
    is_new || length != old
}

/// Lowers each length along the pairs that lead there, for walks of at most `most` steps. It returns whether any is new.
fn lower_lengths(
    graph: &LargeGraph,
    level: Level,
    parent_of: &[u32],
    from: u32,
    most: u32,
    lengths: &mut [u32],
) -> bool
    requires numbered { IsBySession graph.now.entries }
    requires parents { ArePrevious graph.now parent_of.now }
    requires from { from < count graph.now }
    requires long { length lengths.old ≡ count graph.now }
    ensures lowered { AreLowered (judged graph.now level) from most lengths.old lengths.new }
    ensures still { result ≡ false → (v : ℕ) → v < count graph.now → slice_index lengths.new v ≡ slice_index lengths.old v }
{
    let mut run = NO_WALK;
    let mut is_new = false;
    for v in 0..graph.count() {
        run = least_before(level, from, parent_of, lengths, run, v);
        let steps = least_at_sources(graph, level, from, lengths, v).min(run);
        let length = lowered(lengths[v as usize], steps, most);
        is_new = is_new_by(is_new, lengths[v as usize], length);
        lengths[v as usize] = length;
    }
    is_new
}

/// For each transaction the number of steps of a shortest walk from this one to it that the level allows, if that is at most `most`; else
/// `NO_WALK`.
pub fn walk_lengths(
    alloc: Global,
    graph: &LargeGraph,
    level: Level,
    from: u32,
    most: u32,
) -> Result<Vec<u32>, NoMemory>
    requires from { from < count graph.now }
    ensures { IfOk result (λ lengths. AreWalkLengths (judged graph.now level) from most lengths.items) }
{
    // this call ensures that transactions are ordered by session and place
    graph.sessions();
    let parent_of = previous_of_each(alloc, graph)?;
    let mut lengths = vec![in alloc; NO_WALK; graph.count() as usize]?;
    for _sweep in 0..most {
        if !lower_lengths(graph, level, &parent_of, from, most, &mut lengths) {
            return Ok(lengths);
        }
    }
    Ok(lengths)
}

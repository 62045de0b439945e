//! Where the first of the least cycles goes, where it costs more than the shapes of short cycles show. The searches of rule 7 look for it,
//! at one cost after another, until none costs less and one costs as much. From 8 steps on the cost is doubled, and what a least cycle
//! costs is asked first. The cycle is picked by the rule of ties, from the last link backwards.
//!
//! It is looked for near to what an order of all transactions contradicts; where there is no order that keeps all pairs, at all
//! transactions. No limit refuses a history. A search at L steps takes what `near` and `cheapest_among` of `tcc_lanes` do. Say there are S
//! sources and T targets of links back, M transactions near to them, N in all, and R reads. That is some L (S + M) (N + R) / 64 + S T + M M
//! steps, where L counts for no more than the longest of shortest walks. Each member of a feedback vertex set of the M then takes as many
//! steps as there are links among the M. What `cheaper_among` takes is added once.
ghost use Rattle.std.specs.Prelude.{◌<◌, ◌≤◌, ◌≡◌, ◌+◌, ◌^◌, ℕ, [], ◌∷◌, IfOk, IfSome, MatchOption};
ghost use Rattle.tcc_graph.specs.Levels.{judged};
ghost use Rattle.tcc_least.specs.Shapes.{NoneBelow};
ghost use Rattle.tcc_judge.specs.{Picking.IsFirstAround, private.Onward.HasAllBelow, private.Picking.IsCircleBelow, private.Picking.IsLeastBelow, private.Picking.IsOrderKept};

use crate::contradicted::{ContradictedReads, contradicted_along};
use crate::decoding::{decode_runs, push_all};
use crate::first_backward_read::kept_positions;
use crate::least_by_order::{Narrowed, narrow_on};
use std::alloc::Global;
use tcc_base::Unwatched;
use tcc_cert::Run;
use tcc_graph::{LargeGraph, Level};
use tcc_lanes::{cheaper_among, cheapest_among, cheapest_into_init, lowest_into_init};
use tcc_txn::NoMemory;

/// The first of the least cycles by the rule of ties.
#[derive(Drop)]
pub struct FirstAround {
    /// How many steps it costs.
    pub steps: u32,
    /// The transactions at which its links begin, in its order.
    pub circle: Vec<u32>,
}

/// An order that keeps all pairs.
#[derive(Drop)]
pub(crate) struct OrderKept {
    /// The transactions in this order.
    pub(crate) order: Vec<u32>,
    /// The position of each of them.
    pub(crate) positions: Vec<u32>,
    /// What the order contradicts.
    pub(crate) found: ContradictedReads,
}

/// The order that runs encode, where it keeps all pairs.
fn order_kept(
    alloc: Global,
    graph: &LargeGraph,
    runs: &[Run],
) -> Result<Option<OrderKept>, NoMemory>
    ensures { IfOk result (λ kept. IfSome kept (IsOrderKept graph.now)) }
{
    let Some(order) = decode_runs(alloc, graph, runs)? else {
        return Ok(None);
    };
    let Ok(positions) = kept_positions(alloc, graph, &order)? else {
        return Ok(None);
    };
    let found = contradicted_along(alloc, graph, &order, &positions, &Unwatched)?;
    Ok(Some(OrderKept {
        order,
        positions,
        found,
    }))
}

/// All transactions but `init`, and all keys.
fn everything(alloc: Global, graph: &LargeGraph) -> Result<Narrowed, NoMemory>
    ensures { (level : Level) (most : ℕ) → NoneBelow (judged graph.now level) 4
        → IfOk result (λ all. HasAllBelow (judged graph.now level) most all.members.items all.key_indices.items) }
{
    // Memory cannot hold this many keys.
    let Ok(key_count) = u32::try_from(graph.keys().len()) else {
        return Err(NoMemory);
    };
    let mut members = Vec::new(alloc);
    push_all(&mut members, 1, graph.count())?;
    let mut key_indices = Vec::new(alloc);
    push_all(&mut key_indices, 0, key_count)?;
    Ok(Narrowed {
        members,
        key_indices,
    })
}

/// Where a cycle of fewer than `most` steps can be: near to what an order contradicts, if there is one, and else anywhere.
fn where_below(
    alloc: Global,
    graph: &LargeGraph,
    level: Level,
    by: &Option<OrderKept>,
    most: u32,
) -> Result<Narrowed, NoMemory>
    requires by { IfSome by.now (IsOrderKept graph.now) }
    requires none { NoneBelow (judged graph.now level) 4 }
    ensures { IfOk result (λ there. HasAllBelow (judged graph.now level) most there.members.items there.key_indices.items) }
{
    match by {
        Some(kept) => narrow_on(
            alloc,
            graph,
            level,
            &kept.order,
            &kept.positions,
            &kept.found,
            most,
        ),
        None => everything(alloc, graph),
    }
}

/// The transactions of the cycle from `init` to this one and back.
fn around_init(alloc: Global, writer: u32) -> Result<Vec<u32>, NoMemory>
    ensures { IfOk result (λ circle. circle.items ≡ 0 ∷ writer ∷ []) }
{
    let mut circle = Vec::new(alloc);
    circle.push(0)?;
    circle.push(writer)?;
    Ok(circle)
}

/// The transactions of a cycle of fewer than `most` steps; of the first one, where none has fewer than `most - 1`.
fn circle_below(
    alloc: Global,
    graph: &LargeGraph,
    level: Level,
    there: &Narrowed,
    most: u32,
) -> Result<Option<Vec<u32>>, NoMemory>
    requires all { HasAllBelow (judged graph.now level) most there.now.members.items there.now.key_indices.items }
    requires none { NoneBelow (judged graph.now level) 4 }
    ensures { IfOk result (IsCircleBelow (judged graph.now level) most) }
{
    if let Some(writer) = lowest_into_init(alloc, graph, level, &there.key_indices, most)? {
        return Ok(Some(around_init(alloc, writer)?));
    }
    match cheaper_among(alloc, graph, level, &there.members, most)? {
        Some(circle) => Ok(Some(circle)),
        None => Ok(None),
    }
}

/// What a least cycle costs, if that is less than `most`.
fn least_below(
    alloc: Global,
    graph: &LargeGraph,
    level: Level,
    there: &Narrowed,
    most: u32,
) -> Result<Option<u32>, NoMemory>
    requires { HasAllBelow (judged graph.now level) most there.now.members.items there.now.key_indices.items }
    ensures { IfOk result (IsLeastBelow (judged graph.now level) most) }
{
    let into = cheapest_into_init(alloc, graph, level, &there.key_indices, most)?;
    let limit = into.unwrap_or(most);
    match cheapest_among(alloc, graph, level, &there.members, limit)? {
        Some(cost) => Ok(Some(cost)),
        None => Ok(into),
    }
}

/// The first of the cycles of `steps` steps, where none has fewer.
fn first_of(
    alloc: Global,
    graph: &LargeGraph,
    level: Level,
    there: &Narrowed,
    steps: u32,
) -> Result<Option<FirstAround>, NoMemory>
    requires few { steps + 1 < 2 ^ 32 }
    requires low { 4 ≤ steps }
    requires all { HasAllBelow (judged graph.now level) (steps + 1) there.now.members.items there.now.key_indices.items }
    requires short { NoneBelow (judged graph.now level) 4 }
    requires none { NoneBelow (judged graph.now level) steps }
    ensures { IfOk result (λ found. MatchOption found (NoneBelow (judged graph.now level) (steps + 1)) (IsFirstAround (judged graph.now level))) }
{
    match circle_below(alloc, graph, level, there, steps + 1)? {
        Some(circle) => Ok(Some(FirstAround { steps, circle })),
        None => Ok(None),
    }
}

/// The first of the least cycles, if it costs at most `steps`, where none costs less than `none`. If the two are equal, it is looked for at
/// once; else its cost is asked first.
fn first_between(
    alloc: Global,
    graph: &LargeGraph,
    level: Level,
    by: &Option<OrderKept>,
    none: u32,
    steps: u32,
) -> Result<Option<FirstAround>, NoMemory>
    requires few { steps + 1 < 2 ^ 32 }
    requires low { 4 ≤ none }
    requires from { none ≤ steps }
    requires by { IfSome by.now (IsOrderKept graph.now) }
    requires short { NoneBelow (judged graph.now level) 4 }
    requires none { NoneBelow (judged graph.now level) none }
    ensures { IfOk result (λ found. MatchOption found (NoneBelow (judged graph.now level) (steps + 1)) (IsFirstAround (judged graph.now level))) }
{
    let there = where_below(alloc, graph, level, by, steps + 1)?;
    if steps == none {
        return first_of(alloc, graph, level, &there, steps);
    }
    let Some(least) = least_below(alloc, graph, level, &there, steps + 1)? else {
        return Ok(None);
    };
    let nearer = where_below(alloc, graph, level, by, least + 1)?;
    let first = first_of(alloc, graph, level, &nearer, least)?;
    Ok(first)
}

/// The cost up to which cycles are looked for next, below `end`, where none costs less than `none`. A shortest walk comes to no transaction
/// twice. So above as many steps as there are transactions all costs are looked for at once.
fn next_cost(none: u32, end: u32, count: u32) -> u32
    requires { none < end }
    ensures from { none ≤ result }
    ensures to { result < end }
{
    if none < 8 {
        none
    } else if none < count {
        none.saturating_mul(2).min(end - 1)
    } else {
        end - 1
    }
}

/// The first of the least cycles, if it costs less than `most`.
fn first_below(
    alloc: Global,
    graph: &LargeGraph,
    level: Level,
    by: &Option<OrderKept>,
    most: u32,
) -> Result<Option<FirstAround>, NoMemory>
    requires by { IfSome by.now (IsOrderKept graph.now) }
    requires none { NoneBelow (judged graph.now level) 4 }
    ensures { IfOk result (λ found. MatchOption found (NoneBelow (judged graph.now level) most) (IsFirstAround (judged graph.now level))) }
{
    let mut none = 4;
    for _turn in 4..most {
        if none >= most {
            return Ok(None);
        }
        let steps = next_cost(none, most, graph.count());
        match first_between(alloc, graph, level, by, none, steps)? {
            Some(first) => return Ok(Some(first)),
            None => none = steps + 1,
        }
    }
    Ok(None)
}

/// The first of the least cycles, if it costs at most `most` steps; none only where each costs more. The runs are those of an order that
/// keeps all pairs, and need not be trusted. With other runs, or none, the cycle is looked for at all transactions, and that takes longer.
pub fn first_around(
    alloc: Global,
    graph: &LargeGraph,
    level: Level,
    runs: &[Run],
    most: u32,
) -> Result<Option<FirstAround>, NoMemory>
    requires none { NoneBelow (judged graph.now level) 4 }
    ensures { IfOk result (λ found. MatchOption found (NoneBelow (judged graph.now level) (most + 1)) (IsFirstAround (judged graph.now level))) }
{
    // Memory cannot hold this many links.
    let Some(end) = most.checked_add(1) else {
        return Err(NoMemory);
    };
    let by = order_kept(alloc, graph, runs)?;
    first_below(alloc, graph, level, &by, end)
}

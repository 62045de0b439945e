//! The answer for a history of any size, from what was decided about it: the first commit order, or the first of the least cycles. Up to
//! three steps the decision has this cycle already. Above that the searches of the judge look for it, by an order that need not be trusted.
ghost use Rattle.std.specs.Prelude.{◌<◌, ◌+◌, ℕ, IfOk};
ghost use Rattle.tcc_graph.specs.{Levels.judged, Links.cost, Routes.AreCycle, Ties.IsFirstCycle};
ghost use Rattle.tcc_least.specs.Shapes.{NoneBelow};
ghost use Rattle.tcc_large.specs.Decisions.{IsDecision, IsFirstIfShort};
ghost use Rattle.tcc_answering.specs.Firsts.{IsFirst};

use crate::claims::steps_of;
use std::alloc::Global;
use tcc_cert::runs_of;
use tcc_first::first_along;
use tcc_graph::{LargeGraph, Level, Link};
use tcc_judge::first_around;
use tcc_large::Decision;
use tcc_txn::NoMemory;

/// The answer for a history of any size.
#[derive(Drop)]
pub enum First {
    /// The numbers of all transactions in the first commit order.
    Order(Vec<u32>),
    /// The links of the first of the least cycles, by the rule of ties.
    Cycle(Vec<Link>),
}

/// The links of the first of the least cycles, where some cycle costs at most `most` steps, and none fewer than four.
fn first_links(
    alloc: Global,
    graph: &LargeGraph,
    level: Level,
    order: &Option<Vec<u32>>,
    most: u32,
) -> Result<Vec<Link>, NoMemory>
    requires none { NoneBelow (judged graph.now level) 4 }
    requires some { NoneBelow (judged graph.now level) (most + 1) → ⊥ }
    ensures { IfOk result (λ links. (s : ℕ) × IsFirstCycle (judged graph.now level) s links.items) }
{
    let order: &[u32] = match order {
        Some(order) => order,
        None => &[],
    };
    let runs = runs_of(alloc, graph, order)?;
    let Some(first) = first_around(alloc, graph, level, runs.as_slice(), most)? else {
        unreachable!()
    };
    let links = first_along(alloc, graph, level, &first.circle, first.steps)?;
    Ok(links)
}

/// The links of the first of the least cycles, in place of those of a cycle that was decided.
fn first_cycle(
    alloc: Global,
    graph: &LargeGraph,
    level: Level,
    links: Vec<Link>,
    order: &Option<Vec<u32>>,
) -> Result<Vec<Link>, NoMemory>
    requires cycle { AreCycle (judged graph.now level) links.items }
    requires short { IsFirstIfShort (judged graph.now level) links.items }
    requires none { 3 < cost links.items → NoneBelow (judged graph.now level) 4 }
    ensures { IfOk result (λ first. (s : ℕ) × IsFirstCycle (judged graph.now level) s first.items) }
{
    let steps = steps_of(&links)?;
    if steps < 4 {
        return Ok(links);
    }
    let first = first_links(alloc, graph, level, order, steps)?;
    Ok(first)
}

/// The answer for a history: its first commit order, or the first of its least cycles by the rule of ties, whatever was decided about it.
/// With an order of all transactions that keeps all pairs, the cycle is looked for near to what the order contradicts. With another order,
/// or with none, it is looked for at all transactions, which takes longer. The order need not be trusted.
pub fn first_of(
    alloc: Global,
    graph: &LargeGraph,
    level: Level,
    decision: Decision,
    order: &Option<Vec<u32>>,
) -> Result<First, NoMemory>
    requires decided { IsDecision (judged graph.now level) decision }
    ensures { IfOk result (IsFirst (judged graph.now level)) }
{
    match decision {
        Decision::Order(order) => Ok(First::Order(order)),
        Decision::Least(links) => Ok(First::Cycle(first_cycle(alloc, graph, level, links, order)?)),
        Decision::Cycle(links) => Ok(First::Cycle(first_cycle(alloc, graph, level, links, order)?)),
    }
}

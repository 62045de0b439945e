//! The decision of a history at a level.
ghost use Rattle.std.specs.Prelude.{◌≡◌, IfOk};
ghost use Rattle.tcc_graph.specs.{declared.level.Level.Level, Routes.AreCycle, Levels.judged};
ghost use Rattle.tcc_large.specs.{Decisions.IsDecision, private.Retracing.IsStuckAt, private.Retracing.judged_at};
ghost use Rattle.tcc_order.specs.Placements.{IsPlacement};

use crate::decision::Decision;
use crate::finder::component_order::order_to_judge;
use crate::finder::cycle_search::found_cycle;
use crate::predecessor_cycle::StuckOrder;
use crate::simple_cycle::simple_cycle;
use std::alloc::Global;
use std::thread::Threads;
use tcc_base::Workers;
use tcc_first::first_short;
use tcc_graph::{LargeGraph, Level, Link, is_cycle, steps_of};
use tcc_order::{Placement, place, place_by};
use tcc_txn::NoMemory;

/// The links of a cycle of a history at a level in which an order stops. The finder is asked first, and what it finds is judged.
fn any_cycle(alloc: Global, at: &StuckOrder<'_>) -> Result<Vec<Link>, NoMemory>
    requires { IsStuckAt at.now }
    ensures { IfOk result (λ links. AreCycle (judged_at at.now) links.items) }
{
    if let Some(links) = found_cycle(alloc, at.graph, at.level, at.stuck)? {
        if is_cycle(at.graph, at.level, &links) {
            return Ok(links);
        }
    }
    at.cycle(alloc)
}

/// What is decided about a history in which an order stops: the first of the least cycles where one costs at most three steps. Else it is
/// another that passes no transaction twice, which is a least one where it costs four steps.
fn by_cycle(alloc: Global, at: &StuckOrder<'_>) -> Result<Decision, NoMemory>
    requires { IsStuckAt at.now }
    ensures { IfOk result (IsDecision (judged_at at.now)) }
{
    if let Some((_start, links)) = first_short(alloc, at.graph)? {
        return Ok(Decision::Least(links));
    }
    let any = any_cycle(alloc, at)?;
    let links = simple_cycle(alloc, at.graph.count(), any)?;
    if steps_of(&links)? <= 4 {
        Ok(Decision::Least(links))
    } else {
        Ok(Decision::Cycle(links))
    }
}

/// Whether an order to judge by can tell more about what is decided. For a cycle of four steps that is which one is the first of the least
/// ones; for a longer one, whether it is a least one too.
fn wants_order(decision: &Decision) -> Result<bool, NoMemory> {
    match decision.links() {
        Some(links) => Ok(steps_of(links)? >= 4),
        None => Ok(false),
    }
}

/// What is decided about a history by its placement: with a cycle of at least four steps comes an order of all transactions to judge by.
fn decided(
    alloc: Global,
    graph: &LargeGraph,
    level: Level,
    placement: Placement,
) -> Result<(Decision, Option<Vec<u32>>), NoMemory>
    requires { IsPlacement (judged graph.now level) placement }
    ensures { IfOk result (λ found. IsDecision (judged graph.now level) found.0) }
{
    match placement {
        Placement::Order(order) => Ok((Decision::Order(order), None)),
        Placement::Stuck(stuck) => {
            let at = StuckOrder {
                graph,
                level,
                stuck: &stuck,
            };
            let decision = by_cycle(alloc, &at)?;
            let order = if wants_order(&decision)? {
                order_to_judge(alloc, graph, &stuck)?
            } else {
                None
            };
            Ok((decision, order))
        }
    }
}

/// The first commit order of a history at a level; or the links of a cycle. This is a least one where it costs at most four steps, and the
/// first by the rule of ties wherever some cycle costs at most three. It passes no transaction twice. With a cycle of at least four steps
/// comes an order of all transactions to judge by.
pub fn decide(
    alloc: Global,
    graph: &LargeGraph,
    level: Level,
) -> Result<(Decision, Option<Vec<u32>>), NoMemory>
    ensures { IfOk result (λ found. IsDecision (judged graph.now level) found.0) }
{
    decided(alloc, graph, level, place(alloc, graph, level)?)
}

/// What `decide` returns, with an order by at most this many workers. Whatever their number, the order is the first one.
pub fn decide_by(
    rt: &(impl Threads + Sync),
    alloc: Global,
    graph: &LargeGraph,
    level: Level,
    workers: Workers,
) -> Result<(Decision, Option<Vec<u32>>), NoMemory>
    ensures { IfOk result (λ found. IsDecision (judged graph.now level) found.0) }
{
    let placement = place_by(rt, alloc, graph, level, workers)?;
    decided(alloc, graph, level, placement)
}

//! The link between two transactions of which one is known to come before the other.
ghost use Rattle.std.specs.Prelude.{◌≢◌, ◌<◌, List, ℕ, IfOk, MatchOption};
ghost use Rattle.tcc_reads.specs.History.{count};
ghost use Rattle.tcc_graph.specs.{Levels.causally, Levels.judged, Links.MayContradict};
ghost use Rattle.tcc_order.specs.Placements.{IsDerivedPair};
ghost use Rattle.tcc_large.specs.private.Retracing.{IsHeldBack, IsLinkBetween};

use crate::reachability::Reach;
use std::alloc::Global;
use tcc_graph::{LargeGraph, Level, Link};
use tcc_least::two_step_link;
use tcc_txn::{Name, NoMemory};

/// A key that the reader reads from `to`, and that `from`, another transaction, writes too.
fn contradicted(graph: &LargeGraph, from: u32, to: u32, reader: u32) -> Option<Name>
    requires apart { from ≢ to }
    requires to { to < count graph.now }
    requires reader { reader < count graph.now }
    ensures { MatchOption result ((x : List ℕ) → MayContradict graph.now from to x reader → ⊥)
        (λ key. MayContradict graph.now from to key reader) }
{
    let keys = graph.keys();
    for key_index in graph.reads_from_at(to, reader) {
        let key = keys[*key_index as usize];
        if graph.is_writer(from, &key) {
            return Some(key);
        }
    }
    None
}

/// At `Causal` the derived link from one transaction to another, with a shortest walk: breadth first from where it begins.
fn derived_by_walk(alloc: Global, graph: &LargeGraph, from: u32, to: u32) -> Result<Link, NoMemory>
    requires { IsDerivedPair (causally graph.now) from to }
    ensures { IfOk result (IsLinkBetween (causally graph.now) from to) }
{
    let mut reach = Reach::new(alloc, graph, from)?;
    for position in 0..graph.count() + 1 {
        reach.spread(graph, position)?;
        let Some(reader) = reach.number(position + 1) else {
            break;
        };
        if let Some(key) = contradicted(graph, from, to, reader) {
            let walk = reach.walk(alloc, graph, position as usize + 1)?;
            return Ok(Link::Derived {
                from,
                to,
                key,
                reader,
                walk,
            });
        }
    }
    unreachable!()
}

/// The link from one transaction to another that it holds back: by a pair where there is one, and else a derived link.
pub(crate) fn link_between(
    alloc: Global,
    graph: &LargeGraph,
    level: Level,
    from: u32,
    to: u32,
) -> Result<Link, NoMemory>
    requires from { from < count graph.now }
    requires to { to < count graph.now }
    requires held { IsHeldBack (judged graph.now level) from to }
    ensures { IfOk result (IsLinkBetween (judged graph.now level) from to) }
{
    if graph.causal(from, to) {
        return Ok(Link::of(graph.step(from, to)));
    }
    match level {
        Level::Causal => derived_by_walk(alloc, graph, from, to),
        Level::Atomic => two_step_link(alloc, graph, from, to),
    }
}

//! The first of the least cycles where one costs at most three steps. From where it starts its links are picked from the last backwards,
//! each the first from the lowest number from which the rest can be completed. Among N transactions this takes N tests of pairs for each
//! link.
ghost use Rattle.std.specs.Prelude.{◌≡◌, ◌≤◌, ◌<◌, ◌-◌, ◌↔◌, ℕ, IsTrue, IfOk, MatchOption};
ghost use Rattle.tcc_reads.specs.History.{count};
ghost use Rattle.tcc_graph.specs.{Relations.IsCausalPair, Levels.judged, Links.cost, Ties.IsFirstCycle, declared.level.Level.Level};
ghost use Rattle.tcc_least.specs.Shapes.{NoneBelow};
ghost use Rattle.tcc_first.specs.{private.Starts.IsFirstStart, private.Ways.IsTwoStep, private.Ways.IsWay, private.Ways.IsLastFrom};

use crate::cheapest_links::first_link;
use crate::starts::first_start;
use crate::two_steps::is_two_step;
use crate::ways::is_way;
use std::alloc::Global;
use tcc_graph::{LargeGraph, Link};
use tcc_txn::NoMemory;

/// Whether a pair leads from a transaction to the end, and a way there from the start takes the rest of what is left.
fn ends_by_pair(graph: &LargeGraph, start: u32, end: u32, left: u32, from: u32) -> bool
    requires some { 0 < left }
    requires few { left ≤ 3 }
    requires start { start < count graph.now }
    requires end { end < count graph.now }
    requires from { from < count graph.now }
    ensures { IsTrue result ↔ (IsCausalPair graph.now from end × IsWay graph.now (left - 1) start from) }
{
    graph.causal(from, end) && is_way(graph, left - 1, start, from)
}

/// Whether a derived link of two steps leads from a transaction to the end, and a way there from the start takes the rest of what is
/// left.
fn ends_by_two_steps(graph: &LargeGraph, start: u32, end: u32, left: u32, from: u32) -> bool
    requires some { 1 < left }
    requires few { left ≤ 3 }
    requires start { start < count graph.now }
    requires end { end < count graph.now }
    requires from { from < count graph.now }
    ensures { IsTrue result ↔ (IsWay graph.now (left - 2) start from × IsTwoStep graph.now from end) }
{
    is_way(graph, left - 2, start, from) && is_two_step(graph, from, end)
}

/// What a link costs from a transaction to the end, if a way there from the start takes the rest of what is left.
fn last_cost(graph: &LargeGraph, start: u32, end: u32, left: u32, from: u32) -> Option<u32>
    requires some { 0 < left }
    requires few { left ≤ 3 }
    requires start { start < count graph.now }
    requires end { end < count graph.now }
    requires from { from < count graph.now }
    ensures { MatchOption result ((q : ℕ) → IsLastFrom graph.now start end left from q → ⊥) (IsLastFrom graph.now start end left from) }
{
    if ends_by_pair(graph, start, end, left, from) {
        return Some(1);
    }
    if left == 1 {
        return None;
    }
    if ends_by_two_steps(graph, start, end, left, from) {
        return Some(2);
    }
    None
}

/// The lowest number, from the start upward, from which a link to the end and a way from the start to it take what is left; and what that
/// link costs.
fn last_start(graph: &LargeGraph, start: u32, end: u32, left: u32) -> Option<(u32, u32)>
    requires some { 0 < left }
    requires few { left ≤ 3 }
    requires start { start < count graph.now }
    requires end { end < count graph.now }
    ensures { MatchOption result ((u : ℕ) (q : ℕ) → start ≤ u → IsLastFrom graph.now start end left u q → ⊥)
        (λ last. (last.0 < count graph.now) × IsLastFrom graph.now start end left last.0 last.1
        × ((u : ℕ) (q : ℕ) → start ≤ u → IsLastFrom graph.now start end left u q → last.0 ≤ u)) }
{
    for from in start..graph.count() {
        if let Some(cost) = last_cost(graph, start, end, left, from) {
            return Some((from, cost));
        }
    }
    None
}

/// The links of the first of the least cycles, which starts here and costs at most three steps.
fn links_from(
    alloc: Global,
    graph: &LargeGraph,
    start: u32,
    cost: u32,
) -> Result<Vec<Link>, NoMemory>
    requires start { start < count graph.now }
    requires few { cost ≤ 3 }
    requires first { (level : Level) → IsFirstStart (judged graph.now level) start cost }
    ensures { IfOk result (λ links. (level : Level) → IsFirstCycle (judged graph.now level) start links.items
        × (Rattle.tcc_graph.specs.Links.cost links.items ≡ cost)) }
{
    let mut end = start;
    let mut left = cost;
    let mut picked = Vec::new(alloc);
    while left != 0 {
        let Some((from, steps)) = last_start(graph, start, end, left) else {
            unreachable!()
        };
        let link = first_link(alloc, graph, from, end, steps)?;
        picked.push(link)?;
        end = from;
        left -= steps;
    }
    picked.reverse();
    Ok(picked)
}

/// The first of the least cycles by the rule of ties, with the number at which it starts, where a least cycle costs at most three steps;
/// none exactly where no cycle costs so little. It is the first at each level.
pub fn first_short(alloc: Global, graph: &LargeGraph) -> Result<Option<(u32, Vec<Link>)>, NoMemory>
    ensures { IfOk result (λ found. (level : Level) → MatchOption found (NoneBelow (judged graph.now level) 4)
        (λ first. IsFirstCycle (judged graph.now level) first.0 first.1.items × (cost first.1.items ≤ 3))) }
{
    let Some((start, steps)) = first_start(graph) else {
        return Ok(None);
    };
    Ok(Some((start, links_from(alloc, graph, start, steps)?)))
}

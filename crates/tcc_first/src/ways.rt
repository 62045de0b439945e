//! Ways of at most two steps from one transaction to another.
ghost use Rattle.std.specs.Prelude.{◌≡◌, ◌≤◌, ◌<◌, ◌↔◌, ℕ, IsTrue};
ghost use Rattle.tcc_reads.specs.History.{count};
ghost use Rattle.tcc_graph.specs.{Relations.IsSessionPair, Relations.IsCausalPair};
ghost use Rattle.tcc_first.specs.private.Ways.{HasBetween, HasPairs, IsWay};

use crate::ranges::last_below;
use crate::two_steps::is_two_step;
use tcc_graph::LargeGraph;

/// Whether a pair leads from one transaction to some that comes before the other in session order.
fn leads_before(graph: &LargeGraph, from: u32, to: u32) -> bool
    requires from { from < count graph.now }
    requires to { to < count graph.now }
    ensures { IsTrue result ↔ ((w : ℕ) × IsCausalPair graph.now from w × IsSessionPair graph.now w to) }
{
    if to == 0 {
        return false;
    }
    graph.numbered();
    let previous = graph.previous(to);
    if graph.session(from, previous) {
        return true;
    }
    if graph.causal(from, 0) {
        return true;
    }
    match last_below(graph.readings_at(from).0, to) {
        Some(reader) => graph.session(reader, to),
        None => false,
    }
}

/// Whether two pairs lead from one transaction to the other.
fn has_between(graph: &LargeGraph, from: u32, to: u32) -> bool
    requires from { from < count graph.now }
    requires to { to < count graph.now }
    ensures { IsTrue result ↔ HasBetween graph.now from to }
{
    for read in graph.reads_at(to) {
        if graph.causal(from, read.1) {
            return true;
        }
    }
    leads_before(graph, from, to)
}

/// Whether links lead from one transaction to the other that cost `steps` steps, at most two.
pub(crate) fn is_way(graph: &LargeGraph, steps: u32, from: u32, to: u32) -> bool
    requires few { steps ≤ 2 }
    requires from { from < count graph.now }
    requires to { to < count graph.now }
    ensures { IsTrue result ↔ IsWay graph.now steps from to }
{
    match steps {
        0 => from == to,
        1 => graph.causal(from, to),
        _ => has_between(graph, from, to) || is_two_step(graph, from, to),
    }
}

/// Whether `steps` pairs lead from one transaction to the other, at most two.
pub(crate) fn has_pairs(graph: &LargeGraph, steps: u32, from: u32, to: u32) -> bool
    requires few { steps ≤ 2 }
    requires from { from < count graph.now }
    requires to { to < count graph.now }
    ensures { IsTrue result ↔ HasPairs graph.now steps from to }
{
    match steps {
        0 => from == to,
        1 => graph.causal(from, to),
        _ => has_between(graph, from, to),
    }
}

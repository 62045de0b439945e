//! Where the first of the least cycles starts, if it costs at most three steps. It is the first transaction around which a cycle of one
//! step leads that passes none below it, else of two, else of three. For R reads, each of a transaction with at most D reads and writes,
//! this takes R * D look-ups by halving.
ghost use Rattle.std.specs.Prelude.{◌≡◌, ◌≤◌, ◌<◌, ◌↔◌, ℕ, IsTrue, MatchOption};
ghost use Rattle.tcc_reads.specs.History.{count};
ghost use Rattle.tcc_graph.specs.{Levels.judged, declared.level.Level.Level};
ghost use Rattle.tcc_least.specs.Shapes.{NoneBelow};
ghost use Rattle.tcc_first.specs.{private.Starts.IsFirstStart, private.Ways.IsAround, private.Ways.IsAroundByPairs};

use crate::returns::has_return;
use crate::stale_sources::has_stale_source;
use crate::ways::has_pairs;
use tcc_graph::LargeGraph;

/// Whether `steps` pairs lead around a transaction, the last from one that it reads from and that isn't below it.
fn is_around_by_pairs(graph: &LargeGraph, steps: u32, start: u32) -> bool
    requires some { 1 ≤ steps }
    requires few { steps ≤ 3 }
    requires start { start < count graph.now }
    ensures { IsTrue result ↔ IsAroundByPairs graph.now steps start }
{
    for read in graph.reads_at(start) {
        if start <= read.1 && has_pairs(graph, steps - 1, start, read.1) {
            return true;
        }
    }
    false
}

/// Whether a cycle of `steps` steps leads around a transaction and passes none below it: over one that it reads from, or over a derived
/// link of two steps into it.
fn is_around(graph: &LargeGraph, steps: u32, start: u32) -> bool
    requires some { 1 ≤ steps }
    requires few { steps ≤ 3 }
    requires start { start < count graph.now }
    ensures { IsTrue result ↔ IsAround graph.now steps start }
{
    if is_around_by_pairs(graph, steps, start) {
        return true;
    }
    steps == 3 && (has_stale_source(graph, start) || has_return(graph, start))
}

/// The first transaction around which a cycle of `steps` steps leads.
fn first_around(graph: &LargeGraph, steps: u32) -> Option<u32>
    requires some { 1 ≤ steps }
    requires few { steps ≤ 3 }
    ensures { MatchOption result ((s : ℕ) → IsAround graph.now steps s → ⊥)
        (λ s. (s < count graph.now) × IsAround graph.now steps s × ((t : ℕ) → t < s → IsAround graph.now steps t → ⊥)) }
{
    for start in 0..graph.count() {
        if is_around(graph, steps, start) {
            return Some(start);
        }
    }
    None
}

/// Where the first of the least cycles starts, and what it costs, if that is at most three steps. There is none exactly where no cycle
/// costs so little, at each level.
pub(crate) fn first_start(graph: &LargeGraph) -> Option<(u32, u32)>
    ensures { (level : Level) → MatchOption result (NoneBelow (judged graph.now level) 4)
        (λ first. (first.0 < count graph.now) × IsFirstStart (judged graph.now level) first.0 first.1 × (first.1 ≤ 3)) }
{
    graph.numbered();
    for steps in 1..4 {
        if let Some(start) = first_around(graph, steps) {
            return Some((start, steps));
        }
    }
    None
}

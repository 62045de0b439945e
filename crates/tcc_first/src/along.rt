//! The first of the least cycles, by the transactions at which its links begin (as `tcc_lanes::cheaper_among` gives them). From the last
//! one backwards, each link is the first of the cheapest between two of them (`cheapest`).
ghost use Rattle.std.specs.Prelude.{◌≡◌, ◌<◌, ℕ, length, slice_index, All, IfOk};
ghost use Rattle.tcc_reads.specs.History.{count};
ghost use Rattle.tcc_graph.specs.{Levels.judged, Links.cost, Ties.IsFirstCycle};
ghost use Rattle.tcc_least.specs.Shapes.{NoneBelow};
ghost use Rattle.tcc_lanes.specs.Picked.{IsPickedAround};

use crate::cheapest::cheapest_link;
use std::alloc::Global;
use tcc_graph::{LargeGraph, Level, Link};
use tcc_txn::NoMemory;

/// The first of the least cycles, each of which has `steps` steps, by the transactions at which its links begin.
pub fn first_along(
    alloc: Global,
    graph: &LargeGraph,
    level: Level,
    circle: &[u32],
    steps: u32,
) -> Result<Vec<Link>, NoMemory>
    requires some { 0 < steps }
    requires inside { All (λ v. v < count graph.now) circle.now }
    requires none { NoneBelow (judged graph.now level) steps }
    requires picked { IsPickedAround (judged graph.now level) steps circle.now }
    ensures { IfOk result (λ links. IsFirstCycle (judged graph.now level) (slice_index circle.now 0) links.items × (cost links.items ≡ steps)) }
{
    let mut end = circle[0];
    let mut picked = Vec::new(alloc);
    for left in (0..circle.len()).rev() {
        let from = circle[left];
        let Some(link) = cheapest_link(alloc, graph, level, from, end, steps - 1)? else {
            unreachable!()
        };
        picked.push(link)?;
        end = from;
    }
    picked.reverse();
    Ok(picked)
}

//! What becomes of the links of an earlier cycle in a later history.
ghost use Rattle.std.specs.Prelude.{◌≡◌, All, IfOk, MatchOption, map};
ghost use Rattle.tcc_graph.specs.{Links.IsLink, Levels.judged, Renumbered.link_by};
ghost use Rattle.tcc_graph.specs.Labels.{labels_of};
ghost use Rattle.tcc_slices.specs.{Growth.IsFirstMissing, Moved.moved};

use crate::by_label::ByLabel;
use std::alloc::Global;
use tcc_graph::{Graph, Labels, Level, Link};
use tcc_txn::NoMemory;

/// The links of an earlier cycle in the numbers of the graph's history: each transaction is found by its label, which it has
/// by its number among the labels of the earlier history.
pub fn carried(
    alloc: Global,
    graph: &Graph,
    earlier: &Labels,
    later: &Labels,
    links: &[Link],
) -> Result<Vec<Link>, NoMemory>
    requires { later.now ≡ labels_of graph.now }
    ensures { IfOk result (λ found. found.items ≡ map (link_by (moved earlier.now later.now)) links.now) }
{
    let numbers = ByLabel {
        earlier: earlier.names(),
        later: later.names(),
        count: graph.count(),
    };
    let mut found = Vec::new(alloc);
    for link in links {
        found.push(link.renumbered(alloc, &numbers)?)?;
    }
    Ok(found)
}

/// The first of the links, counted from 1, that is none of the graph's history at the level.
pub fn first_missing(graph: &Graph, level: Level, links: &[Link]) -> Option<usize>
    ensures { MatchOption result
        (All (IsLink (judged graph.now level)) links.now)
        (IsFirstMissing (judged graph.now level) links.now) }
{
    for index in 0..links.len() {
        if !graph.is_link(level, &links[index]) {
            return Some(index + 1);
        }
    }
    None
}

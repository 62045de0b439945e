//! Whether links are a cycle of a history.
ghost use Rattle.std.specs.Prelude.{◌≡◌, ◌↔◌, IsTrue};
ghost use Rattle.tcc_graph.specs.{Levels.judged, Routes.AreCycle, Routes.LinksLead};

use crate::{LargeGraph, Level, Link};

/// Whether the links, each one of the history at the level, lead from one transaction to the other.
fn lead(graph: &LargeGraph, level: Level, start: u32, end: u32, links: &[Link]) -> bool
    ensures { IsTrue result ↔ LinksLead (judged graph.now level) start end links.now }
{
    let mut at = start;
    for link in links {
        if link.from() != at || !graph.is_link(level, link) {
            return false;
        }
        at = link.to();
    }
    at == end
}

/// Whether the links are a cycle of the history at the level. Each of them is a link with its reason, and each begins where
/// the one before it ends. The last ends where the first begins.
pub fn is_cycle(graph: &LargeGraph, level: Level, links: &[Link]) -> bool
    ensures { IsTrue result ↔ AreCycle (judged graph.now level) links.now }
{
    match links.first() {
        Some(first) => lead(graph, level, first.from(), first.from(), links),
        None => false,
    }
}

//! The stages of a history within the large limits.
use crate::TimedStage;
use crate::surveying::contradicted;
use std::alloc::Global;
use std::io::Read;
use tcc_graph::{LargeGraph, Level, Link};
use tcc_large::{Decision, LargeAnswer, decide, explain_large};
use tcc_order::order;
use tcc_reads::resolve_large;
use tcc_rows::large_snapshot_of;
use tcc_slices::slice;
use tcc_txn::LargeSnapshot;

/// How many transactions are resolved.
fn resolved(alloc: Global, snapshot: &LargeSnapshot) -> Option<u32> {
    let resolved = resolve_large(alloc, snapshot).ok()?;
    u32::try_from(resolved.places().len()).ok()
}

/// The graph of a snapshot.
fn graph_of(alloc: Global, snapshot: &LargeSnapshot) -> Option<LargeGraph> {
    let resolved = resolve_large(alloc, snapshot).ok()?;
    LargeGraph::build(alloc, resolved).ok()
}

/// How many transactions are ordered, 0 where there is a cycle.
fn ordered(alloc: Global, graph: &LargeGraph, level: Level) -> Option<u32> {
    let ordered = order(alloc, graph, level).ok()?;
    u32::try_from(ordered.map_or(0, |numbers| numbers.len())).ok()
}

/// How many steps links have.
fn steps(links: &[Link]) -> u32 {
    let mut steps = 0u32;
    for link in links {
        steps = steps.saturating_add(1);
        if let Link::Derived { walk, .. } = link {
            steps = steps.saturating_add(walk.as_slice().len().min(1 << 20) as u32);
        }
    }
    steps
}

/// How many steps the cycle that is found has, 0 where there is none; or how many sessions its slice has.
fn decided(
    alloc: Global,
    snapshot: &LargeSnapshot,
    level: Level,
    stage: TimedStage,
) -> Option<u32> {
    let graph = graph_of(alloc, snapshot)?;
    let (decision, _order) = decide(alloc, &graph, level).ok()?;
    let Some(links) = decision.links() else {
        return Some(0);
    };
    if stage == TimedStage::LargeSlice {
        let found = slice(alloc, snapshot, &graph, level, links).ok()?;
        return Some(found.map_or(0, |slice| slice.sessions()));
    }
    Some(steps(links))
}

/// Goes as far as asked, and returns how many sessions, transactions or steps there are at the end.
pub fn run_large<R: Read + Drop>(
    alloc: Global,
    reader: R,
    level: Level,
    stage: TimedStage,
) -> Option<u32> {
    let snapshot = large_snapshot_of(alloc, reader).ok()?;
    match stage {
        TimedStage::LargeSnapshot => Some(snapshot.sessions()),
        TimedStage::LargeResolve => resolved(alloc, &snapshot),
        TimedStage::LargeGraph => Some(graph_of(alloc, &snapshot)?.count()),
        TimedStage::LargeOrder => ordered(alloc, &graph_of(alloc, &snapshot)?, level),
        TimedStage::LargeSurvey => contradicted(alloc, &graph_of(alloc, &snapshot)?, level),
        _ => decided(alloc, &snapshot, level, stage),
    }
}

/// The word `order` and the numbers of an order.
fn numbers(alloc: Global, order: &[u32]) -> Option<String> {
    let mut text = format!(in alloc; "order").ok()?;
    for number in order {
        text.push_str(&format!(in alloc; " {number}").ok()?).ok()?;
    }
    Some(text)
}

/// What is decided of a history within the large limits. That is the numbers of its first commit order, or the word
/// `least`, or `cycle` where that isn't known, and how many steps the cycle has.
pub fn large_answer<R: Read + Drop>(alloc: Global, reader: R, level: Level) -> Option<String> {
    let snapshot = large_snapshot_of(alloc, reader).ok()?;
    let (answer, _order) = explain_large(alloc, &snapshot, level).ok()?;
    let LargeAnswer { decision, .. } = answer;
    match decision {
        Decision::Order(order) => numbers(alloc, &order),
        Decision::Least(links) => {
            let steps = steps(&links);
            format!(in alloc; "least {steps}").ok()
        }
        Decision::Cycle(links) => {
            let steps = steps(&links);
            format!(in alloc; "cycle {steps}").ok()
        }
    }
}

//! First answers without the tables of their certificates.
ghost use Rattle.std.specs.Prelude.{◌≡◌, IfOk};
ghost use Rattle.tcc_reads.specs.History.{History};
ghost use Rattle.tcc_graph.specs.{Labels.labels_of, Levels.judged};
ghost use Rattle.tcc_answer.specs.declared.answer.Answer.TheVariants as answer;
ghost use Rattle.tcc_explain.specs.Explained.{IsBareAnswer};
ghost use Rattle.tcc_answering.specs.Firsts.{IsFirst};
ghost use Rattle.tcc_run.specs.LargeRuns.{bare_cycle, bare_order};

use std::alloc::Global;
use tcc_answer::{Anomaly, Answer, CappedRows, Commit, Labels};
use tcc_answering::{First, steps_of};
use tcc_cert::{Links, Numbers, Table};
use tcc_graph::{LargeGraph, Level, Link};
use tcc_order::laws::order_or_cycle;
use tcc_txn::NoMemory;

/// The order of a history as an answer without clocks.
pub(crate) fn order_answer(
    alloc: Global,
    graph: &LargeGraph,
    level: Level,
    order: Vec<u32>,
    labels: Labels,
) -> Answer
    ensures { labels ≡ labels_of graph.now → result ≡ answer.Commit (bare_order level graph.now order.items) }
{
    let sessions = graph.sessions().len() as u32;
    let clocks = Table::new(Vec::new(alloc));
    Answer::Commit(Commit::new(level, Numbers::new(order), sessions, clocks, labels))
}

/// A cycle of a history as an answer without distances.
pub(crate) fn cycle_answer(
    alloc: Global,
    level: Level,
    links: Vec<Link>,
    labels: Labels,
) -> Result<Answer, NoMemory>
    ensures { (h : History) → labels ≡ labels_of h → IfOk result (λ a. a ≡ answer.Anomaly (bare_cycle level h links.items)) }
{
    let steps = steps_of(&links)?;
    Ok(Answer::Anomaly(Anomaly::new(
        level,
        Links::new(links),
        steps,
        CappedRows::empty(alloc),
        CappedRows::empty(alloc),
        labels,
    )))
}

/// The first answer of a history, without tables.
pub(crate) fn bare_answer(
    alloc: Global,
    graph: &LargeGraph,
    level: Level,
    first: First,
) -> Result<Answer, NoMemory>
    ensures { IsFirst (judged graph.now level) first → IfOk result (IsBareAnswer (judged graph.now level)) }
{
    // This call ensures that where there is an order there is no cycle.
    order_or_cycle();
    let labels = Labels::of_large(alloc, graph)?;
    match first {
        First::Order(order) => Ok(order_answer(alloc, graph, level, order, labels)),
        First::Cycle(links) => cycle_answer(alloc, level, links, labels),
    }
}

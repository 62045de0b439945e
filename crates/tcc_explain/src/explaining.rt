//! The answer for a snapshot: the first one for its history, with the tables of its certificate.
ghost use Rattle.std.specs.Prelude.{◌≡◌, ℕ, IfOk, MatchResult};
ghost use Rattle.tcc_graph.specs.{Labels.labels_of, Levels.judged, Orders.IsFirstOrder, Ties.IsFirstCycle};
ghost use Rattle.tcc_reads.specs.Refusals.{IsRefusal};
ghost use Rattle.tcc_explain.specs.Explained.{IsAnswerOfHistory, IsAnswerOfSnapshot, IsExplanation};
ghost use Rattle.tcc_explain.specs.private.Stages.{IsLabelledHistory};

use crate::distances::distance_tables;
use crate::tables::clocks_at;
use std::alloc::Global;
use std::thread::Threads;
use tcc_answer::{Anomaly, Answer, Commit, Labels};
use tcc_answering::{First, first_of_graph, steps_of};
use tcc_base::Workers;
use tcc_cert::{Links, Numbers};
use tcc_derive::derive;
use tcc_graph::{Graph, Level, Link};
use tcc_near::near;
use tcc_order::laws::order_or_cycle;
use tcc_reads::{ResolveFault, resolve};
use tcc_steal::Gate;
use tcc_txn::{NoMemory, Snapshot};

/// The answer for a snapshot, with the graph of its history.
#[derive(Drop)]
pub struct Explanation {
    pub graph: Graph,
    pub answer: Answer,
}

/// The answer where this is the first commit order, with its clocks.
fn order_answer(
    alloc: Global,
    graph: &Graph,
    level: Level,
    order: Vec<u32>,
    labels: Labels,
) -> Result<Answer, NoMemory>
    requires labels { labels ≡ labels_of graph.now }
    requires order { IsFirstOrder (judged graph.now level) order.items }
    ensures { IfOk result (IsAnswerOfHistory (judged graph.now level)) }
{
    order_or_cycle();
    let sessions = graph.sessions().len() as u32;
    let clocks = clocks_at(alloc, graph, level, &order)?;
    let order = Numbers::new(order);
    Ok(Answer::Commit(Commit::new(level, order, sessions, clocks, labels)))
}

/// The answer where these links are the first of the least cycles, with the tables of its certificate.
fn cycle_answer<G: Gate>(
    rt: &(impl Threads + Sync),
    alloc: Global,
    graph: &Graph,
    level: Level,
    links: Vec<Link>,
    labels: Labels,
    workers: Workers,
    gate: &G,
) -> Result<Answer, NoMemory>
    requires labels { labels ≡ labels_of graph.now }
    requires cycle { (s : ℕ) × IsFirstCycle (judged graph.now level) s links.items }
    ensures { IfOk result (IsAnswerOfHistory (judged graph.now level)) }
{
    let cost = steps_of(&links)?;
    let near = near(rt, alloc, graph, level)?;
    let prices = derive(rt, alloc, graph, &near)?;
    let tables = distance_tables(rt, alloc, graph, near, prices, cost, workers, gate)?;
    let links = Links::new(links);
    Ok(Answer::Anomaly(Anomaly::new(level, links, cost, tables.near, tables.far, labels)))
}

/// The first answer for a history at a level: a commit order, or a cycle where there is none.
pub(crate) fn history_answer<G: Gate>(
    rt: &(impl Threads + Sync),
    alloc: Global,
    graph: &Graph,
    level: Level,
    labels: Labels,
    workers: Workers,
    gate: &G,
) -> Result<Answer, NoMemory>
    requires labels { labels ≡ labels_of graph.now }
    ensures { IfOk result (IsAnswerOfHistory (judged graph.now level)) }
{
    let (first, _order) = first_of_graph(rt, alloc, graph, level, workers)?;
    match first {
        First::Order(order) => order_answer(alloc, graph, level, order, labels),
        First::Cycle(links) => cycle_answer(rt, alloc, graph, level, links, labels, workers, gate),
    }
}

/// The history of a snapshot whose reads all have sources, with its labels; or all its read faults.
pub(crate) fn labelled_history(
    alloc: Global,
    snapshot: &Snapshot,
) -> Result<(Graph, Labels), ResolveFault>
    ensures { MatchResult result (λ found. IsLabelledHistory snapshot.now found.0 found.1) (IsRefusal snapshot.now) }
{
    let resolved = resolve(alloc, snapshot)?;
    let graph = Graph::build(alloc, resolved)?;
    let labels = Labels::of(alloc, &graph)?;
    Ok((graph, labels))
}

/// The answer that `explain` gives, with the graph of the history.
pub fn explain_with_graph<G: Gate>(
    rt: &(impl Threads + Sync),
    alloc: Global,
    snapshot: &Snapshot,
    level: Level,
    workers: Workers,
    gate: &G,
) -> Result<Explanation, ResolveFault>
    ensures { MatchResult result (IsExplanation snapshot.now level) (IsRefusal snapshot.now) }
{
    let (graph, labels) = labelled_history(alloc, snapshot)?;
    let answer = history_answer(rt, alloc, &graph, level, labels, workers, gate)?;
    Ok(Explanation { graph, answer })
}

/// The first answer for the history of a snapshot at a level, with its certificate. That is its first commit order, or the
/// first of its least cycles where there is no commit order. Where there are read faults, the result is all of them. The
/// answer is the same for every number of workers, and whatever the order in which they search. They search only where
/// there is a cycle, and the gate is called before each start that they take.
///
/// ```rust
/// let answer = explain(rt, alloc, snapshot, Level::Causal, workers, &OpenGate)?;
/// match &answer {
///     Answer::Commit(commit) => writeln!(out, "{} in order", commit.order().len())?,
///     Answer::Anomaly(anomaly) => writeln!(out, "a cycle of {} steps", anomaly.cost())?,
/// }
/// Ok(answer)
/// ```
pub fn explain<G: Gate>(
    rt: &(impl Threads + Sync),
    alloc: Global,
    snapshot: &Snapshot,
    level: Level,
    workers: Workers,
    gate: &G,
) -> Result<Answer, ResolveFault>
    ensures { MatchResult result (IsAnswerOfSnapshot snapshot.now level) (IsRefusal snapshot.now) }
{
    let explanation = explain_with_graph(rt, alloc, snapshot, level, workers, gate)?;
    Ok(explanation.answer)
}

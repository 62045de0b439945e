//! Runs only the first stages of an explanation, so that a script can time each of them. `csv` counts the records of
//! standard input by csv alone, and `rows` reads them and keeps nothing. `snapshot` makes a snapshot of what they finish,
//! `resolve` resolves it too, and `graph` builds its graph too. From there two ways lead on. `order` looks for the first
//! commit order; `near` works out the distances, and `derive` the prices too.
//!
//! `large-snapshot`, `large-resolve`, `large-graph` and `large-order` do the same within the large limits. `large-cycle`
//! looks for a cycle where there is no order, and `large-slice` cuts a small history out by it. `large-answer` prints what
//! is decided. `large-survey` counts the contradicted reads, and `survey-answer` prints them. A second argument `atomic`
//! asks for that level of these.
#![tactic(auto)]

ghost use Rattle.std.specs.Prelude.{◌≡◌, ◌≢◌, IfNone, IfSome};
ghost use Rattle.tcc_bench_stages.specs.Stages.{word_of};

mod counting;
mod large;
mod surveying;

use crate::counting::count_records;
use crate::large::{large_answer, run_large};
use crate::surveying::survey_answer;
use std::alloc::Global;
use std::env;
use std::io::Read;
use std::process::ExitCode;
use std::thread::Threads;
use tcc_derive::derive;
use tcc_graph::{Graph, Level};
use tcc_near::near;
use tcc_order::order;
use tcc_reads::resolve;
use tcc_rows::{Item, Rows, snapshot_of};

/// How far a run goes.
#[derive(Clone, Copy, PartialEq, Eq)]
pub enum TimedStage {
    Csv,
    Rows,
    Snapshot,
    Resolve,
    Graph,
    Order,
    Near,
    Derive,
    LargeSnapshot,
    LargeResolve,
    LargeGraph,
    LargeOrder,
    LargeCycle,
    LargeSlice,
    LargeAnswer,
    LargeSurvey,
    SurveyAnswer,
}

/// Whether a stage is one of a history within the large limits.
fn is_large(stage: TimedStage) -> bool {
    matches!(
        stage,
        TimedStage::LargeSnapshot
            | TimedStage::LargeResolve
            | TimedStage::LargeGraph
            | TimedStage::LargeOrder
            | TimedStage::LargeCycle
            | TimedStage::LargeSlice
            | TimedStage::LargeSurvey
    )
}

/// How many transactions the records finish; none after a fault or a seal.
fn count_finished<R: Read + Drop>(alloc: Global, reader: R) -> Option<u32> {
    let mut rows = Rows::new(alloc, reader).ok()?;
    for count in 0..u32::MAX {
        match rows.next(alloc).ok()? {
            Item::Finished(..) | Item::Unknown(..) => {}
            Item::Seal => return None,
            Item::End => return Some(count),
        }
    }
    None
}

/// Goes as far as asked beyond the graph, and returns how many transactions there are, or how many were ordered.
fn search(
    rt: &(impl Threads + Sync),
    alloc: Global,
    graph: &Graph,
    stage: TimedStage,
) -> Option<u32> {
    if stage == TimedStage::Graph {
        return Some(graph.count());
    }
    if stage == TimedStage::Order {
        let ordered = order(alloc, graph, Level::Causal).ok()?;
        return u32::try_from(ordered.map_or(0, |numbers| numbers.len())).ok();
    }
    let near = near(rt, alloc, graph, Level::Causal).ok()?;
    if stage == TimedStage::Near {
        return Some(graph.count());
    }
    let prices = derive(rt, alloc, graph, &near).ok()?;
    Some(prices.count())
}

/// Goes as far as asked, and returns how many records or transactions there are at the end.
fn run<R: Read + Drop>(
    rt: &(impl Threads + Sync),
    alloc: Global,
    reader: R,
    stage: TimedStage,
) -> Option<u32> {
    if stage == TimedStage::Csv {
        return u32::try_from(count_records(alloc, reader).ok()?).ok();
    }
    if stage == TimedStage::Rows {
        return count_finished(alloc, reader);
    }
    let snapshot = snapshot_of(alloc, reader).ok()?;
    if stage == TimedStage::Snapshot {
        return Some(snapshot.sessions());
    }
    let resolved = resolve(alloc, &snapshot).ok()?;
    if stage == TimedStage::Resolve {
        return u32::try_from(resolved.places().len()).ok();
    }
    let graph = Graph::build(alloc, resolved).ok()?;
    search(rt, alloc, &graph, stage)
}

/// The stage that a word asks for.
fn stage_of(word: &str) -> Option<TimedStage>
    ensures asked { IfSome result (λ stage. word_of stage ≡ word.now) }
    ensures unknown { IfNone result ((stage : TimedStage) → word_of stage ≢ word.now) }
{
    match word {
        "csv" => Some(TimedStage::Csv),
        "rows" => Some(TimedStage::Rows),
        "snapshot" => Some(TimedStage::Snapshot),
        "resolve" => Some(TimedStage::Resolve),
        "graph" => Some(TimedStage::Graph),
        "order" => Some(TimedStage::Order),
        "near" => Some(TimedStage::Near),
        "derive" => Some(TimedStage::Derive),
        "large-snapshot" => Some(TimedStage::LargeSnapshot),
        "large-resolve" => Some(TimedStage::LargeResolve),
        "large-graph" => Some(TimedStage::LargeGraph),
        "large-order" => Some(TimedStage::LargeOrder),
        "large-cycle" => Some(TimedStage::LargeCycle),
        "large-slice" => Some(TimedStage::LargeSlice),
        "large-answer" => Some(TimedStage::LargeAnswer),
        "large-survey" => Some(TimedStage::LargeSurvey),
        "survey-answer" => Some(TimedStage::SurveyAnswer),
        _ => None,
    }
}

/// The stage that the first argument asks for.
fn asked_stage(rt: &HostRuntime) -> Option<TimedStage> {
    let word = env::args(rt).ok()?.nth(1)?;
    stage_of(word.as_str())
}

/// The level that the second argument asks for.
fn asked_level(rt: &HostRuntime) -> Option<Level> {
    match env::args(rt).ok()?.nth(2) {
        Some(word) if word.as_str() == "atomic" => Some(Level::Atomic),
        Some(_) => None,
        None => Some(Level::Causal),
    }
}

/// A number as text.
fn text_of(alloc: Global, count: Option<u32>) -> Option<String> {
    let count = count?;
    format!(in alloc; "{count}").ok()
}

fn main(rt: HostRuntime) -> ExitCode {
    let (Some(stage), Some(level)) = (asked_stage(&rt), asked_level(&rt)) else {
        return ExitCode::from(64);
    };
    let alloc = rt.alloc();
    let text = if stage == TimedStage::LargeAnswer {
        large_answer(alloc, rt.stdin(), level)
    } else if stage == TimedStage::SurveyAnswer {
        survey_answer(alloc, rt.stdin(), level)
    } else if is_large(stage) {
        text_of(alloc, run_large(alloc, rt.stdin(), level, stage))
    } else {
        text_of(alloc, run(&rt, alloc, rt.stdin(), stage))
    };
    let Some(text) = text else {
        return ExitCode::from(1);
    };
    match println!(rt; "{text}") {
        Ok(()) => ExitCode::SUCCESS,
        Err(_) => ExitCode::from(6),
    }
}

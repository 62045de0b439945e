//! The survey of a history: an order of its causal pairs, by Kahn's algorithm (`tcc_order`), and along it the contradicted reads; or,
//! where there is none, a circle of causal pairs. It costs what these cost.
ghost use Rattle.std.specs.Prelude.{IfOk};
ghost use Rattle.tcc_graph.specs.Levels.{judged};
ghost use Rattle.tcc_survey.specs.Contradictions.{IsSurvey};

use crate::circle::circle_of;
use crate::contradicted::contradicted_along;
use crate::surveyed::Surveyed;
use std::alloc::Global;
use tcc_base::{Progress, Unwatched};
use tcc_graph::{LargeGraph, Level};
use tcc_order::{PairPlacement, place_pairs};
use tcc_txn::NoMemory;

/// All contradicted reads of a history at a level, each with the least writer of its key that contradicts it. Such a writer is known
/// to the reader by a walk that the level allows, and is reached from what is read. A history without any may still have a cycle,
/// of several derived links: `tcc_order::order` says so.
pub fn survey(alloc: Global, graph: &LargeGraph, level: Level) -> Result<Surveyed, NoMemory>
    ensures { IfOk result (IsSurvey (judged graph.now level)) }
{
    survey_watched(alloc, graph, level, &Unwatched)
}

/// As `survey`, and once there is an order `progress` is told how far this is: how many blocks of 64 sessions are done. Each is gone
/// through twice, to find what is contradicted and then its names.
pub fn survey_watched<P: Progress>(
    alloc: Global,
    graph: &LargeGraph,
    level: Level,
    progress: &P,
) -> Result<Surveyed, NoMemory>
    ensures { IfOk result (IsSurvey (judged graph.now level)) }
{
    let order = match place_pairs(alloc, graph)? {
        PairPlacement::Order(order) => order,
        PairPlacement::Stuck(placed) => {
            return Ok(Surveyed::Circular(circle_of(alloc, graph, &placed)?));
        }
    };
    let list = contradicted_along(alloc, graph, level, &order, progress)?;
    Ok(Surveyed::Listed(list))
}

//! The judge of a claim that links are a cycle, and perhaps a least one.
ghost use Rattle.std.specs.Prelude.{◌≡◌, ◌≤◌, ◌↔◌, [], IfOk, IsTrue, List};
ghost use Rattle.tcc_graph.specs.declared.level.Level.{Level};
ghost use Rattle.tcc_cert.specs.declared.large.Run.{Run};
ghost use Rattle.tcc_judge.specs.{declared.cycles.TheConstants.SHORT, Cycles.AreNeededRuns, Cycles.HasLinksSizes, Verdicts.cycle_rules, Verdicts.least_rules};
ghost use Rattle.tcc_rules.specs.Asked.{IsVerdictOf};

use crate::decoding::decode_runs;
use crate::least_by_order::onward_verdict;
use crate::links::judge_links;
use crate::verdict::{rejected, rejected_at};
use crate::{LargeJudging, LargeRule, LargeVerdict};
use std::alloc::Global;
use tcc_base::{Progress, Unwatched};
use tcc_cert::{LinksClaim, Run};
use tcc_graph::{LargeGraph, Level};
use tcc_least::{ShortCycle, short_cycle};
use tcc_rules::are_links_below;
use tcc_txn::NoMemory;

/// Up to this cost no runs are needed.
const SHORT: u32 = 4;

/// Whether there are no runs.
fn is_none(runs: &[Run]) -> bool
    ensures { IsTrue result ↔ (runs.now ≡ []) }
{
    runs.is_empty()
}

/// Whether the runs are those that are needed for a claim that no cycle costs less.
pub(crate) fn are_needed(
    alloc: Global,
    graph: &LargeGraph,
    cost: u32,
    runs: &[Run],
) -> Result<bool, NoMemory>
    ensures { IfOk result (λ needed. IsTrue needed ↔ AreNeededRuns graph.now cost runs.now) }
{
    if cost <= SHORT {
        return Ok(is_none(runs));
    }
    match decode_runs(alloc, graph, runs)? {
        Some(_order) => Ok(true),
        None => Ok(false),
    }
}

/// Whether the sizes of a claim are those of the history.
fn has_links_sizes(alloc: Global, graph: &LargeGraph, claim: &LinksClaim) -> Result<bool, NoMemory>
    ensures { IfOk result (λ right. IsTrue right ↔ HasLinksSizes graph.now claim.now) }
{
    if claim.transactions != graph.count() {
        return Ok(false);
    }
    if !are_links_below(claim.links.as_slice(), claim.transactions) {
        return Ok(false);
    }
    match &claim.least {
        Some(runs) => {
            let needed = are_needed(alloc, graph, claim.cost, runs.as_slice())?;
            Ok(needed)
        }
        None => Ok(true),
    }
}

/// The verdict of the rules that no cycle costs less, up to a cost of 4.
fn short_verdict(graph: &LargeGraph, cost: u32) -> LargeVerdict
    requires { cost ≤ SHORT }
    ensures { (level : Level) (runs : List Run) → IsVerdictOf (least_rules graph.now level cost runs) result }
{
    match short_cycle(graph, u64::from(cost)) {
        Some(ShortCycle::Round { from, to }) => rejected_at(LargeRule::ShortPairs, (from, to)),
        Some(ShortCycle::Return { from, to }) => rejected_at(LargeRule::ShortLinks, (from, to)),
        None => LargeVerdict::Accepted,
    }
}

/// The verdict of the rules that no cycle costs less, with the runs that are needed.
pub(crate) fn least_verdict<P: Progress>(
    alloc: Global,
    graph: &LargeGraph,
    level: Level,
    cost: u32,
    runs: &[Run],
    progress: &P,
) -> LargeJudging
    requires { AreNeededRuns graph.now cost runs.now }
    ensures { IfOk result (IsVerdictOf (least_rules graph.now level cost runs.now)) }
{
    if cost <= SHORT {
        return Ok(short_verdict(graph, cost));
    }
    let Some(order) = decode_runs(alloc, graph, runs)? else {
        return Ok(rejected(LargeRule::Sizes));
    };
    let verdict = onward_verdict(alloc, graph, level, cost, &order, progress)?;
    Ok(verdict)
}

/// Accepts the claim exactly where the links are a cycle of its cost and its level, and, where that is claimed, no cycle costs less.
/// Otherwise it names the first broken rule and where. Up to a cost of 4 it is decided directly that no cycle costs less. Above that it is
/// decided within the limits of its rule, with the runs of an order that keeps all pairs.
pub fn judge_cycle(alloc: Global, graph: &LargeGraph, claim: &LinksClaim) -> LargeJudging
    ensures { IfOk result (IsVerdictOf (cycle_rules graph.now claim.now)) }
{
    if !has_links_sizes(alloc, graph, claim)? {
        return Ok(rejected(LargeRule::Sizes));
    }
    let verdict = judge_links(graph, claim)?;
    if verdict != LargeVerdict::Accepted {
        return Ok(verdict);
    }
    match &claim.least {
        Some(runs) => {
            let verdict = least_verdict(
                alloc,
                graph,
                claim.level,
                claim.cost,
                runs.as_slice(),
                &Unwatched,
            )?;
            Ok(verdict)
        }
        None => Ok(LargeVerdict::Accepted),
    }
}

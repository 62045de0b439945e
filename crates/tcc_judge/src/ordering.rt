//! The judge of a claim that runs encode a commit order.
ghost use Rattle.std.specs.Prelude.{◌≡◌, IfOk, IfSome, MatchOption};
ghost use Rattle.tcc_graph.specs.Levels.{judged};
ghost use Rattle.tcc_judge.specs.{Orders.BreaksAxiom, Runs.order_of, private.Least.IsFoundFirst, private.Positions.KeepsPairs, private.Decoding.IsOrdered};
ghost use Rattle.tcc_judge.specs.Verdicts.{HasOrderSizes, order_rules, pair_rules};
ghost use Rattle.tcc_rules.specs.Asked.{IsVerdictOf};

use crate::axiom_violation::first_behind;
use crate::decoding::decode_runs;
use crate::first_backward_read::kept_positions;
use crate::singles::first_single;
use crate::verdict::{rejected, rejected_at};
use crate::{LargeJudging, LargeRule, LargeVerdict};
use std::alloc::Global;
use tcc_base::{Progress, Unwatched};
use tcc_cert::RunsClaim;
use tcc_graph::{LargeGraph, Level};
use tcc_txn::NoMemory;

/// The first pair of a transaction and one that it has to come before and doesn't.
fn first_broken<P: Progress>(
    alloc: Global,
    graph: &LargeGraph,
    level: Level,
    order: &[u32],
    positions: &[u32],
    progress: &P,
) -> Result<Option<(u32, u32)>, NoMemory>
    requires ordered { IsOrdered graph.now order.now }
    requires kept { KeepsPairs graph.now order.now positions.now }
    ensures { IfOk result (IsFoundFirst (BreaksAxiom (judged graph.now level) order.now)) }
{
    match level {
        Level::Causal => first_behind(alloc, graph, order, progress),
        Level::Atomic => first_single(alloc, graph, order, positions),
    }
}

/// The verdict of the rules on an order that has each transaction once, and every session pair in order.
fn pairs_verdict<P: Progress>(
    alloc: Global,
    graph: &LargeGraph,
    level: Level,
    order: &[u32],
    progress: &P,
) -> LargeJudging
    requires { IsOrdered graph.now order.now }
    ensures { IfOk result (IsVerdictOf (pair_rules (judged graph.now level) order.now)) }
{
    let positions = match kept_positions(alloc, graph, order)? {
        Ok(positions) => positions,
        Err(at) => return Ok(rejected_at(LargeRule::Pairs, at)),
    };
    match first_broken(alloc, graph, level, order, &positions, progress)? {
        Some(at) => Ok(rejected_at(LargeRule::Axiom, at)),
        None => Ok(LargeVerdict::Accepted),
    }
}

/// The order of a claim; none where its sizes are not those of the history.
fn claimed_order(
    alloc: Global,
    graph: &LargeGraph,
    claim: &RunsClaim,
) -> Result<Option<Vec<u32>>, NoMemory>
    ensures sizes { IfOk result (λ found. MatchOption found
        (HasOrderSizes graph.now claim.now → ⊥)
        (λ order. HasOrderSizes graph.now claim.now × (order.items ≡ order_of graph.now claim.now.runs))) }
    ensures ordered { IfOk result (λ found. IfSome found (λ order. IsOrdered graph.now order.items)) }
{
    if claim.transactions != graph.count() || claim.sessions as usize != graph.sessions().len() {
        return Ok(None);
    }
    let Some(order) = decode_runs(alloc, graph, claim.runs.as_slice())? else {
        return Ok(None);
    };
    Ok(Some(order))
}

/// Accepts the claim exactly where the runs match the sizes of the sessions and encode a commit order of the level; otherwise names the
/// first broken rule and where.
pub fn judge_order(alloc: Global, graph: &LargeGraph, claim: &RunsClaim) -> LargeJudging
    ensures { IfOk result (IsVerdictOf (order_rules graph.now claim.now)) }
{
    judge_order_watched(alloc, graph, claim, &Unwatched)
}

/// As `judge_order`, and at `Causal` `progress` is given how many blocks of 64 sessions are done.
pub(crate) fn judge_order_watched<P: Progress>(
    alloc: Global,
    graph: &LargeGraph,
    claim: &RunsClaim,
    progress: &P,
) -> LargeJudging
    ensures { IfOk result (IsVerdictOf (order_rules graph.now claim.now)) }
{
    let Some(order) = claimed_order(alloc, graph, claim)? else {
        return Ok(rejected(LargeRule::Sizes));
    };
    let verdict = pairs_verdict(alloc, graph, claim.level, &order, progress)?;
    Ok(verdict)
}

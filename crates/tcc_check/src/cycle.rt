//! The rules on a claim that a cycle is least.
ghost use Rattle.std.specs.Prelude.{◌≤◌, ◌↔◌, IsTrue, IfOk};
ghost use Rattle.tcc_txn.specs.declared.limits.TheConstants.{MAX_COUNT};
ghost use Rattle.tcc_reads.specs.History.{count};
ghost use Rattle.tcc_cert.specs.CycleRules.{HasRightSizes};
ghost use Rattle.tcc_rules.specs.Asked.{IsVerdictOf};
ghost use Rattle.tcc_check.specs.Verdicts.{bounds_rules, cycle_rules};

use crate::far_rows::far_table;
use crate::links::links_verdict;
use crate::near_rows::near_table;
use crate::sizes::{has_far_size, has_size, is_capped};
use crate::verdict::{first_rejected, rejected};
use std::alloc::Global;
use tcc_cert::CycleClaim;
use tcc_graph::LargeGraph;
use tcc_rules::{Rule, Verdict, are_links_below};
use tcc_txn::NoMemory;

/// Whether the tables have the size of the history, and no number is out of its range.
fn has_right_sizes(graph: &LargeGraph, claim: &CycleClaim) -> bool
    ensures { IsTrue result ↔ HasRightSizes graph.now claim.now }
{
    let count = graph.count();
    let near = claim.near.as_slice();
    let far = claim.far.as_slice();
    has_size(near, count as usize, count as usize)
        && has_far_size(claim.version, far, count)
        && are_links_below(claim.links.as_slice(), count)
        && is_capped(near, claim.least)
        && is_capped(far, claim.least)
}

/// Judges the tables.
fn bounds_verdict(
    alloc: Global,
    graph: &LargeGraph,
    claim: &CycleClaim,
) -> Result<Verdict, NoMemory>
    requires few { count graph.now ≤ MAX_COUNT }
    requires sizes { HasRightSizes graph.now claim.now }
    ensures { IfOk result (IsVerdictOf (bounds_rules graph.now claim.now)) }
{
    let rows = claim.near.as_slice();
    let near = near_table(alloc, graph, claim.level, rows, claim.least)?;
    let far = claim.far.as_slice();
    let of_far = far_table(graph, claim.version, &near, far, claim.least);
    Ok(first_rejected(near.verdict, of_far))
}

/// Judges a claim that a cycle is least.
pub(crate) fn cycle_verdict(
    alloc: Global,
    graph: &LargeGraph,
    claim: &CycleClaim,
) -> Result<Verdict, NoMemory>
    requires { count graph.now ≤ MAX_COUNT }
    ensures { IfOk result (IsVerdictOf (cycle_rules graph.now claim.now)) }
{
    if !has_right_sizes(graph, claim) {
        return Ok(rejected(Rule::Sizes, 0));
    }
    match links_verdict(graph, claim)? {
        Verdict::Accepted => bounds_verdict(alloc, graph, claim),
        of_links => Ok(of_links),
    }
}

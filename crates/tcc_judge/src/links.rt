//! The rule on the links of a cycle, as `tcc_check` has it.
ghost use Rattle.std.specs.Prelude.{IfOk};
ghost use Rattle.tcc_judge.specs.Verdicts.{links_rules};
ghost use Rattle.tcc_rules.specs.Asked.{IsVerdictOf};

use crate::verdict::rejected_at;
use crate::{LargeJudging, LargeRule, LargeVerdict};
use tcc_cert::LinksClaim;
use tcc_graph::LargeGraph;
use tcc_rules::first_wrong_link;

/// Accepts the links exactly where they are a cycle of the level and cost what is claimed; otherwise names the first wrong one.
pub fn judge_links(graph: &LargeGraph, claim: &LinksClaim) -> LargeJudging
    ensures { IfOk result (IsVerdictOf (links_rules graph.now claim.now)) }
{
    let links = claim.links.as_slice();
    match first_wrong_link(graph, claim.level, claim.cost, links)? {
        Some(at) => Ok(rejected_at(LargeRule::Links, (at, 0))),
        None => Ok(LargeVerdict::Accepted),
    }
}

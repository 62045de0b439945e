//! The judgement of a claim of either kind about a history of any size.
ghost use Rattle.std.specs.Prelude.{IfOk};
ghost use Rattle.tcc_judge.specs.Verdicts.{rules_of};
ghost use Rattle.tcc_rules.specs.Asked.{IsVerdictOf};

use crate::{LargeJudging, judge_cycle, judge_order};
use std::alloc::Global;
use tcc_cert::LargeCertificate;
use tcc_graph::LargeGraph;

/// Accepts the claim exactly where it keeps all rules for its kind and its level; otherwise names the first broken one and where.
pub fn judge(alloc: Global, graph: &LargeGraph, certificate: &LargeCertificate) -> LargeJudging
    ensures { IfOk result (IsVerdictOf (rules_of graph.now certificate.now)) }
{
    match certificate {
        LargeCertificate::Order(claim) => judge_order(alloc, graph, claim),
        LargeCertificate::Cycle(claim) => judge_cycle(alloc, graph, claim),
    }
}

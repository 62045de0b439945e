//! The rule on the links of a cycle: of a claim, and of links that come.
ghost use Rattle.std.specs.Prelude.{◌≡◌, ◌++◌, ℕ, All, IfOk, List, MatchOption, length, map};
ghost use Rattle.tcc_reads.specs.History.{History, count};
ghost use Rattle.tcc_graph.specs.{Levels.judged, declared.link.Link.Link};
ghost use Rattle.tcc_cert.specs.{Ahead.IsAhead, Parts.Parts, declared.certificate.CycleClaim.CycleClaim, declared.part.Part.Part};
ghost use Rattle.tcc_cert.specs.CycleRules.{IsFirstWrongLink, IsLinkBelow};
ghost use Rattle.tcc_cert.specs.declared.part.Part.TheVariants as part;
ghost use Rattle.tcc_rules.specs.Asked.{IsVerdictOf};
ghost use Rattle.tcc_check.specs.{private.Coming.Leaves, private.Judged.AreLinksJudged, private.Judged.links_rules};

use crate::coming::next_part;
use crate::verdict::rejected;
use std::alloc::Global;
use std::io::Read;
use tcc_cert::{CertReader, CycleClaim, CycleHead, Part};
use tcc_graph::LargeGraph;
use tcc_rules::{Rule, StreamFault, Verdict, first_wrong_link, no_links, seen_wrong, with_link};
use tcc_txn::NoMemory;

/// The verdict of the rule.
fn wrong_verdict(wrong: Option<u32>) -> Verdict
    ensures { (h : History) (k : CycleClaim) → IsFirstWrongLink (judged h k.level) k.least k.links wrong → IsVerdictOf (links_rules h k) result }
{
    match wrong {
        Some(at) => rejected(Rule::Links, at),
        None => Verdict::Accepted,
    }
}

/// Judges the links of a claim.
pub(crate) fn links_verdict(graph: &LargeGraph, claim: &CycleClaim) -> Result<Verdict, NoMemory>
    ensures { IfOk result (IsVerdictOf (links_rules graph.now claim.now)) }
{
    let links = claim.links.as_slice();
    let wrong = first_wrong_link(graph, claim.level, claim.least, links)?;
    Ok(wrong_verdict(wrong))
}

/// Judges the links that come. The result is none where one of their numbers is not below the count of transactions. One
/// link is held at a time.
pub(crate) fn judge_links<R: Read>(
    alloc: Global,
    graph: &LargeGraph,
    parts: &mut CertReader<R>,
    head: CycleHead,
) -> Result<Option<Verdict>, StreamFault>
    ensures { (ahead : Parts) → IsAhead R.remaining parts.old ahead
        → Leaves R.remaining ahead parts.new (λ found rest. (links : List Link) (tables : List Part) → length links ≡ head.links
        → ahead.parts ≡ map part.Link links ++ tables
        → MatchOption found (All (IsLinkBelow (count graph.now)) links → ⊥)
        (AreLinksJudged graph.now head links rest tables)) result }
{
    let mut seen = no_links(head.least);
    for before in 0..head.links {
        let Part::Link(link) = next_part(alloc, parts)? else {
            return Ok(None);
        };
        if !link.is_below(graph.count()) {
            return Ok(None);
        }
        seen = with_link(seen, graph, head.level, before as usize + 1, &link);
    }
    let wrong = seen_wrong(seen)?;
    Ok(Some(wrong_verdict(wrong)))
}

//! The judgement of a certificate as its text comes.
ghost use Rattle.std.specs.Prelude.{◌≡◌, ◌≤◌, ◌++◌, IfSome, List, MatchOption, false, true, length, map, ℕ};
ghost use Rattle.tcc_txn.specs.declared.limits.TheConstants.{MAX_COUNT};
ghost use Rattle.tcc_reads.specs.History.{count};
ghost use Rattle.tcc_cert.specs.{Ahead.IsAhead, Ahead.is_new, CycleRules.HasRightSizes};
ghost use Rattle.tcc_cert.specs.Parts.{Parts, parts_read, with_tables};
ghost use Rattle.tcc_cert.specs.declared.part.Part.TheVariants as part;
ghost use Rattle.tcc_graph.specs.declared.link.Link.{Link};
ghost use Rattle.tcc_check.specs.private.Coming.{Finishes, Leaves, sized};
ghost use Rattle.tcc_check.specs.private.Judged.{IsClaimJudged, IsCycleJudged};
ghost use Rattle.tcc_check.specs.Streams.{IsClaimed, IsJudged, IsStreamed};

use crate::coming::{clock_rows, ends, next_part};
use crate::far_rows::judge_far;
use crate::links::judge_links;
use crate::near_rows::judge_near;
use crate::order::order_verdict;
use crate::verdict::{first_rejected, rejected};
use std::alloc::Global;
use std::io::Read;
use tcc_cert::{CertReader, CycleHead, Part};
use tcc_graph::{Graph, LargeGraph};
use tcc_rules::{Claim, Judgement, Rule, StreamFault, Verdict};

/// A claim and the verdict on it, or why there is none.
pub type Judging = Result<Judgement, StreamFault>;

/// What the rules after the one on sizes say of a claim that a cycle is least, whose links and tables come. It is none
/// where the rule on sizes is broken.
fn judge_tables<R: Read>(
    alloc: Global,
    graph: &LargeGraph,
    parts: &mut CertReader<R>,
    head: CycleHead,
) -> Result<Option<Verdict>, StreamFault>
    requires { count graph.now ≤ MAX_COUNT }
    ensures { (ahead : Parts) → IsAhead R.remaining parts.old ahead
        → Leaves R.remaining ahead parts.new (λ found rest. (links : List Link) (near far : List (List ℕ)) → length links ≡ head.links
        → length near ≡ head.count → ahead.parts ≡ map part.Link links ++ (map part.Near near ++ map part.Far far)
        → MatchOption found (HasRightSizes graph.now (with_tables head links near far) → ⊥)
        (IsClaimJudged graph.now (with_tables head links near far) rest)) result }
{
    if head.count != graph.count() {
        return Ok(None);
    }
    let Some(of_links) = judge_links(alloc, graph, parts, head)? else {
        return Ok(None);
    };
    let Some(near) = judge_near(alloc, graph, parts, head.level, head.least)? else {
        return Ok(None);
    };
    let Some(of_far) = judge_far(alloc, graph, parts, head.version, &near, head.least)? else {
        return Ok(None);
    };
    let of_tables = first_rejected(near.verdict, of_far);
    Ok(Some(first_rejected(of_links, of_tables)))
}

/// The verdict on tables, where they have the right sizes and nothing comes after them.
fn sized(found: Option<Verdict>, at_once: bool) -> Verdict
    ensures { result ≡ sized found at_once }
{
    match found {
        Some(verdict) => {
            if at_once {
                verdict
            } else {
                rejected(Rule::Sizes, 0)
            }
        }
        None => rejected(Rule::Sizes, 0),
    }
}

/// Judges a claim that a cycle is least, whose links and tables come.
fn judge_cycle<R: Read>(
    alloc: Global,
    graph: &LargeGraph,
    parts: &mut CertReader<R>,
    head: CycleHead,
) -> Judging
    requires { count graph.now ≤ MAX_COUNT }
    ensures { (ahead : Parts) → IsAhead R.remaining parts.old ahead → Finishes ahead (IsCycleJudged graph.now head ahead) result }
{
    let found = judge_tables(alloc, graph, parts, head)?;
    let at_once = ends(alloc, parts)?;
    let claim = Claim::Cycle { least: head.least };
    let verdict = sized(found, at_once);
    Ok(Judgement { claim, verdict })
}

/// Judges the certificate whose parts a new reader gives, as `judge_stream` does that of a text.
pub fn judge_parts<R: Read>(alloc: Global, graph: &Graph, parts: &mut CertReader<R>) -> Judging
    requires { is_new parts.old ≡ true }
    ensures { (bytes : List ℕ) → IsAhead R.remaining parts.old (parts_read bytes) → IsJudged graph.now bytes result }
{
    match next_part(alloc, parts)? {
        Part::Order(head) => {
            let clocks = clock_rows(alloc, parts)?;
            let verdict = order_verdict(alloc, graph, &head.with_clocks(clocks))?;
            let claim = Claim::Order;
            Ok(Judgement { claim, verdict })
        }
        Part::Cycle(head) => judge_cycle(alloc, graph, parts, head),
        Part::Link(_) | Part::Clocks(_) | Part::Near(_) | Part::Far(_) | Part::End => {
            unreachable!()
        }
    }
}

/// Reads on to the end after a claim.
fn ended<R: Read>(
    alloc: Global,
    parts: &mut CertReader<R>,
    claim: Claim,
) -> Result<Claim, StreamFault>
    ensures { (ahead : Parts) → IsAhead R.remaining parts.old ahead → Finishes ahead (λ said. said ≡ claim) result }
{
    ends(alloc, parts)?;
    Ok(claim)
}

/// The claim of the certificate whose parts a new reader gives, or the fault of the text. The text is read to its end, and
/// nothing is judged. It is for callers that know that the claim is not about their history.
pub fn claim_in<R: Read>(alloc: Global, parts: &mut CertReader<R>) -> Result<Claim, StreamFault>
    requires { is_new parts.old ≡ true }
    ensures { (bytes : List ℕ) → IsAhead R.remaining parts.old (parts_read bytes) → IsClaimed bytes result }
{
    match next_part(alloc, parts)? {
        Part::Order(_head) => ended(alloc, parts, Claim::Order),
        Part::Cycle(head) => ended(alloc, parts, Claim::Cycle { least: head.least }),
        Part::Link(_) | Part::Clocks(_) | Part::Near(_) | Part::Far(_) | Part::End => {
            unreachable!()
        }
    }
}

/// Judges the certificate whose text the reader gives, as it comes: what it claims, and the verdict of the rules on it,
/// or the fault of the text. One link is held at a time, and of each table one row.
pub fn judge_stream<R: Read + Drop>(alloc: Global, graph: &Graph, reader: R) -> Judging
    ensures { IfSome (R.remaining reader) (λ bytes. IsJudged graph.now bytes result) }
{
    judge_parts(alloc, graph, &mut CertReader::new(reader))
}

/// The verdict alone: that of the rules on the certificate whose text the reader gives, or the fault of the text, also
/// where a rule is broken before it. It is for callers that know what is claimed, and ask whether it is certified.
pub fn check_stream<R: Read + Drop>(
    alloc: Global,
    graph: &Graph,
    reader: R,
) -> Result<Verdict, StreamFault>
    ensures { IfSome (R.remaining reader) (λ bytes. IsStreamed graph.now bytes result) }
{
    let judgement = judge_stream(alloc, graph, reader)?;
    Ok(judgement.verdict)
}

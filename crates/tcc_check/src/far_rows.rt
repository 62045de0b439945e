//! The rows of costs, each judged as it comes.
ghost use Rattle.std.specs.Prelude.{◌≡◌, ◌<◌, ◌≤◌, ◌+◌, ◌-◌, All, List, MatchOption, length, map, slice_index, ℕ};
ghost use Rattle.tcc_txn.specs.declared.limits.TheConstants.{MAX_COUNT};
ghost use Rattle.tcc_reads.specs.History.{count};
ghost use Rattle.tcc_cert.specs.{Ahead.IsAhead, Parts.Parts};
ghost use Rattle.tcc_cert.specs.Tables.{HasFarSize, IsCapped, row_of, lowest};
ghost use Rattle.tcc_cert.specs.declared.part.Part.TheVariants as part;
ghost use Rattle.tcc_check.specs.private.Coming.{AreFoundBefore, IsFarRight, Leaves, far_verdict};
ghost use Rattle.tcc_check.specs.private.Judged.{AreLinksOf, IsFarJudged, IsOrderly, far_rules};
ghost use Rattle.tcc_rules.specs.Asked.{IsVerdictOf};

use crate::coming::next_part;
use crate::first_broken::{first_long_step, long_link};
use crate::near_rows::NearJudged;
use crate::sizes::{is_row_right, lowest};
use crate::verdict::first_of;
use std::alloc::Global;
use std::io::Read;
use tcc_cert::{CertReader, Numbers, Part, Version};
use tcc_graph::LargeGraph;
use tcc_rules::{Rule, StreamFault, Verdict};

/// For each rule on costs where it is broken first, in the rows that came.
#[derive(Clone, Copy)]
pub(crate) struct FarFaults {
    pub(crate) link: Option<(u32, u32)>,
    pub(crate) step: Option<(u32, u32)>,
    pub(crate) back: Option<(u32, u32)>,
}

/// Nothing, before the first row.
const NO_FAULTS: FarFaults = FarFaults {
    link: None,
    step: None,
    back: None,
};

/// The row's own start, where the row has less than `least` back to it.
fn short_return(row: &[u32], low: u32, start: u32, least: u32) -> Option<u32>
    requires low { low ≤ start }
    requires start { start < low + length row.now }
    ensures { MatchOption result (least ≤ slice_index row.now (start - low)) (λ end. (end ≡ start) × (slice_index row.now (start - low) < least)) }
{
    if row[(start - low) as usize] < least {
        Some(start)
    } else {
        None
    }
}

/// What is found with one more row.
fn with_row(
    faults: FarFaults,
    graph: &LargeGraph,
    version: Version,
    near: &NearJudged,
    least: u32,
    start: u32,
    row: &[u32],
) -> FarFaults
    requires few { count graph.now ≤ MAX_COUNT }
    requires orderly { IsOrderly graph.now near.now }
    requires long { lowest version start + length row.now ≡ count graph.now }
    requires start { start < count graph.now }
    requires capped { All (λ value. value ≤ least) row.now }
    ensures { (table far : List (List ℕ)) → AreLinksOf graph.now least table near.now → row_of far start ≡ row.now
        → AreFoundBefore graph.now version least table far start faults → AreFoundBefore graph.now version least table far (start + 1) result }
{
    let low = lowest(version, start);
    let links = near.links.as_slice();
    let link = long_link(graph, &links[start as usize], row, low, start, least);
    let step = first_long_step(faults.step, start, &near.begins, links, row, low);
    let back = short_return(row, low, start, least);
    FarFaults {
        link: first_of(faults.link, start, link),
        step,
        back: first_of(faults.back, start, back),
    }
}

/// The first broken rule of those on costs, and where.
fn far_verdict(faults: FarFaults) -> Verdict
    ensures { result ≡ far_verdict faults }
{
    let (rule, at) = match (faults.link, faults.step, faults.back) {
        (Some(at), _, _) => (Rule::FarLinks, at),
        (None, Some(at), _) => (Rule::FarSteps, at),
        (None, None, Some(at)) => (Rule::Returns, at),
        (None, None, None) => return Verdict::Accepted,
    };
    Verdict::Rejected { rule, at }
}

/// Judges a table of costs.
pub(crate) fn far_table(
    graph: &LargeGraph,
    version: Version,
    near: &NearJudged,
    far: &[Numbers],
    least: u32,
) -> Verdict
    requires few { count graph.now ≤ MAX_COUNT }
    requires orderly { IsOrderly graph.now near.now }
    requires size { HasFarSize version (count graph.now) far.now }
    requires capped { IsCapped least far.now }
    ensures { (table : List (List ℕ)) → AreLinksOf graph.now least table near.now → IsVerdictOf (far_rules graph.now version least table far.now) result }
{
    let mut faults = NO_FAULTS;
    for start in 0..graph.count() {
        let row = far[start as usize].as_slice();
        faults = with_row(faults, graph, version, near, least, start, row);
    }
    far_verdict(faults)
}

/// Judges the table of costs that comes. The result is none where it doesn't have the sizes of the version, or has a number
/// above the cost. One row of it is held at a time.
pub(crate) fn judge_far<R: Read>(
    alloc: Global,
    graph: &LargeGraph,
    parts: &mut CertReader<R>,
    version: Version,
    near: &NearJudged,
    least: u32,
) -> Result<Option<Verdict>, StreamFault>
    requires few { count graph.now ≤ MAX_COUNT }
    requires orderly { IsOrderly graph.now near.now }
    ensures { (ahead : Parts) → IsAhead R.remaining parts.old ahead
        → Leaves R.remaining ahead parts.new (λ found rest. (table far : List (List ℕ)) → AreLinksOf graph.now least table near.now
        → ahead.parts ≡ map part.Far far
        → MatchOption found (IsFarRight version (count graph.now) least far → ⊥) (IsFarJudged graph.now version least table far rest)) result }
{
    let mut faults = NO_FAULTS;
    let count = graph.count();
    for start in 0..count {
        let Part::Far(row) = next_part(alloc, parts)? else {
            return Ok(None);
        };
        let row = row.as_slice();
        let wide = count - lowest(version, start);
        if !is_row_right(row, wide as usize, least) {
            return Ok(None);
        }
        faults = with_row(faults, graph, version, near, least, start, row);
    }
    Ok(Some(far_verdict(faults)))
}

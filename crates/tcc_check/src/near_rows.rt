//! The rows of lengths, each judged as it comes. Only the links that it gives are kept.
ghost use Rattle.std.specs.Prelude.{◌≡◌, ◌<◌, ◌≤◌, ◌+◌, ◌++◌, [], All, IfOk, IfSome, OnOk, List, MatchOption, length, map, ℕ};
ghost use Rattle.tcc_txn.specs.declared.limits.TheConstants.{MAX_COUNT};
ghost use Rattle.tcc_reads.specs.History.{History, count};
ghost use Rattle.tcc_graph.specs.declared.level.Level.{Level};
ghost use Rattle.tcc_cert.specs.{Ahead.IsAhead, Parts.Parts};
ghost use Rattle.tcc_cert.specs.Tables.{HasSize, IsCapped, row_of};
ghost use Rattle.tcc_cert.specs.declared.part.Part.TheVariants as part;
ghost use Rattle.tcc_check.specs.private.Coming.{IsNearFoundTo, IsNearRight, Leaves, near_verdict};
ghost use Rattle.tcc_check.specs.private.Judged.{AreNearRowsTo, IsNearJudged, IsOrderly, judged};
ghost use Rattle.tcc_check.specs.private.Pairs.{AreOrderly, ArePairs};

use crate::adjacency::{PairLists, pairs_of};
use crate::coming::next_part;
use crate::first_broken::{first_long_step, long_link};
use crate::groups::Groups;
use crate::links_from::link_ends;
use crate::sizes::is_row_right;
use crate::verdict::first_of;
use std::alloc::Global;
use std::io::Read;
use tcc_cert::{CertReader, Numbers, Part};
use tcc_graph::{LargeGraph, Level};
use tcc_rules::{Rule, StreamFault, Verdict};
use tcc_txn::NoMemory;

/// For each rule on lengths where it is broken first, in the rows that came.
#[derive(Clone, Copy)]
pub(crate) struct NearFaults {
    pub(crate) pair: Option<(u32, u32)>,
    pub(crate) step: Option<(u32, u32)>,
}

/// What is kept of the rows that came: what was found in them, and the links from their starts.
#[derive(Drop)]
pub(crate) struct NearRows {
    pub(crate) faults: NearFaults,
    pub(crate) links: Vec<Groups>,
}

/// What is kept of a table of lengths: what the rules on it say, where the runs of sessions begin, and the other links
/// from each transaction.
#[derive(Drop)]
pub(crate) struct NearJudged {
    pub(crate) verdict: Verdict,
    pub(crate) begins: Vec<u32>,
    pub(crate) links: Vec<Groups>,
}

/// What is found with one more row. At `Atomic` no walk has a second step, so the rule on these isn't asked.
fn with_row(
    graph: &LargeGraph,
    level: Level,
    pairs: &PairLists,
    least: u32,
    faults: NearFaults,
    start: u32,
    row: &[u32],
) -> NearFaults
    requires few { count graph.now ≤ MAX_COUNT }
    requires pairs { ArePairs graph.now least pairs.now }
    requires long { length row.now ≡ count graph.now }
    requires start { start < count graph.now }
    requires capped { All (λ value. value ≤ least) row.now }
    ensures { (near : List (List ℕ)) → row_of near start ≡ row.now → IsNearFoundTo graph.now level near start faults
        → IsNearFoundTo graph.now level near (start + 1) result }
{
    let reads = pairs.reads.as_slice();
    let pair = long_link(graph, &reads[start as usize], row, 0, start, least);
    let step = match level {
        Level::Causal => first_long_step(faults.step, start, &pairs.begins, reads, row, 0),
        Level::Atomic => None,
    };
    NearFaults {
        pair: first_of(faults.pair, start, pair),
        step,
    }
}

/// Takes one more row: judges it, and keeps the links that it gives.
fn take_row(
    alloc: Global,
    graph: &LargeGraph,
    level: Level,
    pairs: &PairLists,
    least: u32,
    start: u32,
    row: &[u32],
    rows: &mut NearRows,
) -> Result<(), NoMemory>
    requires few { count graph.now ≤ MAX_COUNT }
    requires pairs { ArePairs graph.now least pairs.now }
    requires long { length row.now ≡ count graph.now }
    requires start { start < count graph.now }
    requires capped { All (λ value. value ≤ least) row.now }
    requires orderly { AreOrderly (count graph.now) rows.old.links.items }
    ensures taken { OnOk result ((near : List (List ℕ)) → row_of near start ≡ row.now → AreNearRowsTo graph.now level least near start rows.old
        → AreNearRowsTo graph.now level least near (start + 1) rows.new) }
    ensures orderly { OnOk result (AreOrderly (count graph.now) rows.new.links.items) }
    ensures long { OnOk result (length rows.new.links.items ≡ length rows.old.links.items + 1) }
{
    rows.faults = with_row(graph, level, pairs, least, rows.faults, start, row);
    let readings = pairs.readings.as_slice();
    rows.links
        .push(link_ends(alloc, graph, readings, row, start, least)?)?;
    Ok(())
}

/// Nothing, before the first row.
fn no_rows(alloc: Global) -> NearRows
    ensures none { result.links.items ≡ [] }
    ensures rows { (h : History) (level : Level) (least : ℕ) (near : List (List ℕ)) → AreNearRowsTo h level least near 0 result }
{
    NearRows {
        faults: NearFaults {
            pair: None,
            step: None,
        },
        links: Vec::new(alloc),
    }
}

/// The first broken rule of those on lengths, and where.
fn near_verdict(faults: NearFaults) -> Verdict
    ensures { result ≡ near_verdict faults.pair faults.step }
{
    let (rule, at) = match (faults.pair, faults.step) {
        (Some(at), _) => (Rule::NearPairs, at),
        (None, Some(at)) => (Rule::NearSteps, at),
        (None, None) => return Verdict::Accepted,
    };
    Verdict::Rejected { rule, at }
}

/// What is kept of all rows.
fn judged(pairs: PairLists, rows: NearRows) -> NearJudged
    ensures { result ≡ judged pairs rows }
{
    NearJudged {
        verdict: near_verdict(rows.faults),
        begins: pairs.begins,
        links: rows.links,
    }
}

/// Judges a table of lengths.
pub(crate) fn near_table(
    alloc: Global,
    graph: &LargeGraph,
    level: Level,
    near: &[Numbers],
    least: u32,
) -> Result<NearJudged, NoMemory>
    requires few { count graph.now ≤ MAX_COUNT }
    requires size { HasSize (count graph.now) (count graph.now) near.now }
    requires capped { IsCapped least near.now }
    ensures judged { IfOk result (IsNearJudged graph.now level least near.now) }
    ensures orderly { IfOk result (IsOrderly graph.now) }
{
    let pairs = pairs_of(alloc, graph, least)?;
    let mut rows = no_rows(alloc);
    for start in 0..graph.count() {
        let row = near[start as usize].as_slice();
        take_row(alloc, graph, level, &pairs, least, start, row, &mut rows)?;
    }
    Ok(judged(pairs, rows))
}

/// Judges the table of lengths that comes. The result is none where it doesn't have the size of the history, or has a
/// number above the cost. One row of it is held at a time.
pub(crate) fn judge_near<R: Read>(
    alloc: Global,
    graph: &LargeGraph,
    parts: &mut CertReader<R>,
    level: Level,
    least: u32,
) -> Result<Option<NearJudged>, StreamFault>
    requires few { count graph.now ≤ MAX_COUNT }
    ensures orderly { IfOk result (λ found. IfSome found (IsOrderly graph.now)) }
    ensures parts { (ahead : Parts) → IsAhead R.remaining parts.old ahead
        → Leaves R.remaining ahead parts.new (λ found rest. (near far : List (List ℕ)) → length near ≡ count graph.now
        → ahead.parts ≡ map part.Near near ++ map part.Far far
        → MatchOption found (IsNearRight (count graph.now) least near → ⊥)
        (λ judged. IsNearRight (count graph.now) least near × IsNearJudged graph.now level least near judged × (rest.parts ≡ map part.Far far))) result }
{
    let pairs = pairs_of(alloc, graph, least)?;
    let mut rows = no_rows(alloc);
    for start in 0..graph.count() {
        let Part::Near(row) = next_part(alloc, parts)? else {
            return Ok(None);
        };
        let row = row.as_slice();
        if !is_row_right(row, graph.count() as usize, least) {
            return Ok(None);
        }
        take_row(alloc, graph, level, &pairs, least, start, row, &mut rows)?;
    }
    Ok(Some(judged(pairs, rows)))
}

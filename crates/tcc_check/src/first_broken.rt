//! Where a row first has more than a link costs.
ghost use Rattle.std.specs.Prelude.{◌≡◌, ◌<◌, ◌≤◌, ◌+◌, ◌^◌, length, All};
ghost use Rattle.tcc_reads.specs.History.{count};
ghost use Rattle.tcc_check.specs.{private.Runs.HasRuns, private.Weights.AreByWeight};
ghost use Rattle.tcc_check.specs.private.Searches.{IsFoundBelow, IsLongPair, IsLongRunTo, IsLongSingle, IsLongStep, IsOvershot, IsOvershotAt, lesser, IsFirstLong};

use crate::groups::Groups;
use crate::links_from::UNLINKED;
use crate::verdict::first_of;
use tcc_graph::LargeGraph;

/// The greatest value of a row.
fn greatest_of(row: &[u32]) -> u32
    ensures { All (λ value. value ≤ result) row.now }
{
    let mut greatest = 0;
    for value in row {
        greatest = greatest.max(*value);
    }
    greatest
}

/// The lesser of two positions that may be found.
fn lesser(one: Option<u32>, other: Option<u32>) -> Option<u32>
    ensures { result ≡ lesser one other }
{
    match (one, other) {
        (None, _) => other,
        (Some(_), None) => one,
        (Some(one), Some(other)) => Some(one.min(other)),
    }
}

/// The first of these ends for which the row has more than the cost: its numbers are those from `low` upward.
fn overshot_at(ends: &[u16], row: &[u32], low: u32, cost: u64) -> Option<u32>
    requires { All (λ end. end < low + length row.now) ends.now }
    ensures { IsFoundBelow (low + length row.now) (IsOvershotAt ends.now row.now low cost) result }
{
    let mut found = None;
    for end in ends {
        let end = u32::from(*end);
        if low <= end && cost < u64::from(row[(end - low) as usize]) {
            found = lesser(found, Some(end));
        }
    }
    found
}

/// The first end of these links to which the link, after `before` steps, costs less than the row has. The row's numbers are
/// those from `low` upward, none above `most`. No link is looked at from the first that costs `most` on.
fn overshot(links: &Groups, row: &[u32], low: u32, before: u32, most: u32) -> Option<u32>
    requires inside { All (λ link. link.0 < low + length row.now) links.now }
    requires sorted { AreByWeight links.now }
    requires capped { All (λ value. value ≤ most) row.now }
    ensures { IsFoundBelow (low + length row.now) (IsOvershot links.now row.now low before) result }
{
    let (mut left, groups) = links.parts();
    let mut found = None;
    for (weight, count) in groups {
        let cost = u64::from(before) + 1 + u64::from(*weight);
        if u64::from(most) <= cost {
            return found;
        }
        let (ends, later) = left.split_at(*count as usize);
        found = lesser(found, overshot_at(ends, row, low, cost));
        left = later;
    }
    found
}

/// The least number of the run of `end` before it. Where the run begins it is that of `init` alone, else the one carried
/// along.
fn run_least(begin: u32, end: usize, opening: u32, least: u32) -> u32
    ensures anew { begin ≡ end → result ≡ opening }
    ensures on { (begin ≡ end → ⊥) → result ≡ least }
{
    if begin as usize == end {
        opening
    } else {
        least
    }
}

/// The first end to which a session pair costs less than the row has, after what the row has for its start. The least
/// number of the end's run is carried along.
fn long_run(begins: &[u32], row: &[u32], low: u32) -> Option<u32>
    requires begins { length begins.now ≡ low + length row.now }
    requires runs { HasRuns begins.now }
    requires few { low + length row.now < 2 ^ 32 }
    ensures { IsFoundBelow (low + length row.now) (IsLongRunTo begins.now row.now low) result }
{
    let mut opening = UNLINKED;
    let mut least = UNLINKED;
    for (index, value) in row.iter().enumerate() {
        let end = low as usize + index;
        least = run_least(begins[end], end, opening, least);
        if u64::from(least) + 1 < u64::from(*value) {
            return Some(end as u32);
        }
        least = least.min(*value);
        if end == 0 {
            opening = *value;
        }
    }
    None
}

/// The first end to which some link costs less than the row has, after what the row has for its start. The link is a
/// session pair, or one of the others, which are listed by their starts.
fn long_step(begins: &[u32], others: &[Groups], row: &[u32], low: u32, most: u32) -> Option<u32>
    requires long { length others.now ≡ low + length row.now }
    requires begins { length begins.now ≡ low + length row.now }
    requires inside { All (λ ends. All (λ link. link.0 < low + length row.now) ends) others.now }
    requires sorted { All (λ ends. AreByWeight ends) others.now }
    requires runs { HasRuns begins.now }
    requires capped { All (λ value. value ≤ most) row.now }
    requires few { low + length row.now < 2 ^ 32 }
    ensures { IsFoundBelow (low + length row.now) (IsLongStep begins.now others.now row.now low) result }
{
    let mut found = long_run(begins, row, low);
    for (index, before) in row.iter().enumerate() {
        let start = low as usize + index;
        let end = overshot(&others[start], row, low, *before, most);
        found = lesser(found, end);
    }
    found
}

/// What was found in an earlier row, or else the first in the row of `start` to which some link costs less than the row
/// has. Once something is broken, nothing more is looked for.
pub(crate) fn first_long_step(
    found: Option<(u32, u32)>,
    start: u32,
    begins: &[u32],
    others: &[Groups],
    row: &[u32],
    low: u32,
) -> Option<(u32, u32)>
    requires long { length others.now ≡ low + length row.now }
    requires begins { length begins.now ≡ low + length row.now }
    requires inside { All (λ ends. All (λ link. link.0 < low + length row.now) ends) others.now }
    requires sorted { All (λ ends. AreByWeight ends) others.now }
    requires runs { HasRuns begins.now }
    requires few { low + length row.now < 2 ^ 32 }
    ensures { IsFirstLong found start begins.now others.now row.now low result }
{
    match found {
        Some(at) => Some(at),
        None => {
            let end = long_step(begins, others, row, low, greatest_of(row));
            first_of(None, start, end)
        }
    }
}

/// The first end of a session pair from the start for which the row has more than a step.
fn long_pair(graph: &LargeGraph, row: &[u32], low: u32, start: u32) -> Option<u32>
    requires long { low + length row.now ≡ count graph.now }
    requires low { low ≤ start }
    requires start { start < count graph.now }
    ensures { IsFoundBelow (count graph.now) (IsLongPair graph.now row.now low start) result }
{
    let (first, behind) = graph.later(start);
    for end in first..behind {
        if 1 < row[(end - low) as usize] {
            return Some(end);
        }
    }
    None
}

/// The first end to which a link from the start, a session pair or one of the others, costs less than the row has.
pub(crate) fn long_link(
    graph: &LargeGraph,
    others: &Groups,
    row: &[u32],
    low: u32,
    start: u32,
    most: u32,
) -> Option<u32>
    requires long { low + length row.now ≡ count graph.now }
    requires low { low ≤ start }
    requires start { start < count graph.now }
    requires inside { All (λ link. link.0 < count graph.now) others.now }
    requires sorted { AreByWeight others.now }
    requires capped { All (λ value. value ≤ most) row.now }
    ensures { IsFoundBelow (count graph.now) (IsLongSingle graph.now others.now row.now low start) result }
{
    let pair = long_pair(graph, row, low, start);
    lesser(pair, overshot(others, row, low, 0, most))
}

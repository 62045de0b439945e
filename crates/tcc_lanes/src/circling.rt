//! The members of a cheapest way from one of them back to it, read off backwards from what it costs to come to each (`settling`). For M
//! members this takes M prices for each link, besides the costs themselves.
ghost use Rattle.std.specs.Prelude.{◌≡◌, ◌≤◌, ◌<◌, ◌+◌, ◌↔◌, ℕ, AllPairs, IfOk, IsTrue, MatchOption, length, reverse, slice_index};
ghost use Rattle.tcc_graph.specs.Levels.{Judged};
ghost use Rattle.tcc_lanes.specs.{Among.HasCheaperAlong, Picked.ArePicked, Picked.HasAllAmong, Picked.IsLowestStart};
ghost use Rattle.tcc_lanes.specs.private.Pricing.{ArePriceRows, HasReturn, IsAttained, IsFirstBefore, IsTable, price_of};

use crate::bucket_dijkstra::costs_from;
use crate::stretches::PriceRow;
use std::alloc::Global;
use tcc_txn::NoMemory;

/// Whether a cost is the sum of another and a price.
fn is_sum(before: u32, price: u32, cost: u32) -> bool
    ensures { IsTrue result ↔ (before + price ≡ cost) }
{
    u64::from(before) + u64::from(price) == u64::from(cost)
}

/// What a link from one member to another costs.
fn price(rows: &[PriceRow], from: usize, to: usize) -> u32
    requires table { IsTable rows.now }
    requires from { from < length rows.now }
    requires to { to < length rows.now }
    ensures { result ≡ price_of rows.now from to }
{
    rows[from].price(to)
}

/// The first member from which a link leads to another such that the costs add up exactly; none where a link from the start does so.
fn before(rows: &[PriceRow], costs: &[u32], start: usize, to: usize) -> Option<usize>
    requires table { IsTable rows.now }
    requires start { start < length rows.now }
    requires to { to < length rows.now }
    requires same { length costs.now ≡ length rows.now }
    requires attained { IsAttained rows.now start costs.now to }
    ensures { MatchOption result
        (price_of rows.now start to ≡ slice_index costs.now to)
        (λ from. (from < length rows.now) × IsFirstBefore rows.now start costs.now to from) }
{
    let cost = costs[to];
    if price(rows, start, to) == cost {
        return None;
    }
    for from in 0..rows.len() {
        if is_sum(costs[from], price(rows, from, to), cost) {
            return Some(from);
        }
    }
    None
}

/// The members on a cheapest way from one of them back to it, of links that cost less than `most` together. The links are picked from the
/// last backwards, each from the lowest number.
pub(crate) fn circle(
    alloc: Global,
    rows: &[PriceRow],
    members: &[u32],
    start: usize,
    most: u32,
) -> Result<Vec<u32>, NoMemory>
    requires table { IsTable rows.now }
    requires same { length members.now ≡ length rows.now }
    requires start { start < length rows.now }
    ensures along { IfOk result (λ circle. (j : Judged) → ArePriceRows j members.now most (length members.now) rows.now
        → AllPairs (λ u v. u < v) members.now → HasReturn j members.now most start → HasCheaperAlong j circle.items most) }
    ensures picked { IfOk result (λ circle. (j : Judged) (n : ℕ) → most ≡ n + 1 → ArePriceRows j members.now most (length members.now) rows.now
        → AllPairs (λ u v. u < v) members.now → HasReturn j members.now most start
        → HasAllAmong j members.now n → IsLowestStart j n (slice_index members.now start)
        → ArePicked j (slice_index members.now start) (slice_index members.now start) n (reverse circle.items)) }
{
    let costs = costs_from(alloc, rows, start, most)?;
    let mut circle = Vec::new(alloc);
    let mut to = start;
    while let Some(from) = before(rows, &costs, start, to) {
        circle.push(members[from])?;
        to = from;
    }
    circle.push(members[start])?;
    circle.reverse();
    Ok(circle)
}

//! Path reconstruction from a row of distances (Dijkstra, A note on two problems in connexion with graphs, Numerische
//! Mathematik 1, 1959). The links of the first least cycle are picked from the last backwards. What was picked is the end
//! of the first least cycle, and what is left is the distance to where it begins. For L links among N transactions a
//! distance and a cost are looked up L N times.
ghost use Rattle.std.specs.Prelude.{◌≡◌, ◌<◌, ◌≤◌, ◌-◌, ℕ, length, IfOk, MatchOption};
ghost use Rattle.tcc_reads.specs.History.{count};
ghost use Rattle.tcc_graph.specs.{Links.cost, Ties.IsFirstCycle, declared.link.Link.Link, Levels.judged};
ghost use Rattle.tcc_near.specs.WalkLengths.{IsNearOf};
ghost use Rattle.tcc_derive.specs.Prices.{IsPricesOf, IsLinkOf};
ghost use Rattle.tcc_core.specs.Returns.{IsFirstReturn};
ghost use Rattle.tcc_core.specs.private.Ways.{spent, IsBefore, IsFirstLink};

use crate::FirstReturn;
use std::alloc::Global;
use tcc_derive::{Prices, first_name, reason};
use tcc_graph::{Graph, Link};
use tcc_near::Near;
use tcc_txn::NoMemory;

/// What it costs to come to a transaction from the start upward, capped, which is nothing at the start.
fn spent(back: &FirstReturn<'_>, transaction: u32) -> Option<u32>
    requires upward { back.now.start ≤ transaction }
    requires below { transaction - back.now.start < length back.now.row.now }
    ensures { result ≡ spent back.now transaction }
{
    if transaction == back.start {
        Some(0)
    } else {
        back.row[(transaction - back.start) as usize]
    }
}

/// What it costs to come to `from`, if that and the cheapest link from there to `to` together are all that is left.
fn spent_before(
    back: &FirstReturn<'_>,
    prices: &Prices,
    to: u32,
    left: u32,
    from: u32,
) -> Option<u32>
    requires long { length back.now.row.now ≡ length prices.now.prices - back.now.start }
    requires upward { back.now.start ≤ from }
    requires from { from < length prices.now.prices }
    requires to { to < length prices.now.prices }
    ensures { MatchOption result ((c : ℕ) → IsBefore prices.now back.now to left from c → ⊥) (IsBefore prices.now back.now to left from) }
{
    let spent = spent(back, from)?;
    let link = prices.cost(from, to)?;
    if spent <= left && left - spent == link {
        Some(spent)
    } else {
        None
    }
}

/// The least number, from the start upward, from which a cheapest link to `to` costs all that is left, and the cost of
/// coming there.
fn last_start(back: &FirstReturn<'_>, prices: &Prices, to: u32, left: u32) -> Option<(u32, u32)>
    requires long { length back.now.row.now ≡ length prices.now.prices - back.now.start }
    requires to { to < length prices.now.prices }
    ensures { MatchOption result
        ((u : ℕ) (c : ℕ) → back.now.start ≤ u → u < length prices.now.prices → IsBefore prices.now back.now to left u c → ⊥)
        (λ found. (back.now.start ≤ found.0) × (found.0 < length prices.now.prices)
        × IsBefore prices.now back.now to left found.0 found.1
        × ((u : ℕ) (c : ℕ) → back.now.start ≤ u → u < found.0 → IsBefore prices.now back.now to left u c → ⊥)) }
{
    for from in back.start..prices.count() {
        if let Some(spent) = spent_before(back, prices, to, left, from) {
            return Some((from, spent));
        }
    }
    None
}

/// The first of the cheapest links from one transaction to another, if there is one.
fn first_link(
    alloc: Global,
    graph: &Graph,
    from: u32,
    to: u32,
    near: &Near,
) -> Result<Option<Link>, NoMemory>
    requires from { from < count graph.now }
    requires to { to < count graph.now }
    requires near { IsNearOf (judged graph.now near.now.level) near.now }
    ensures { IfOk result (λ found. MatchOption found ((l : Link) → IsLinkOf (judged graph.now near.now.level) from to l → ⊥)
        (IsFirstLink (judged graph.now near.now.level) from to)) }
{
    if graph.session(from, to) {
        return Ok(Some(Link::Session { from, to }));
    }
    if let Some(key) = first_name(graph.reads_from(from, to)) {
        return Ok(Some(Link::Reads { from, to, key }));
    }
    reason(alloc, graph, near, from, to)
}

/// The links of the first of the least cycles by the rule of ties, at the level of the distances: picked from the last
/// backwards, by what searches have found.
pub fn first_cycle(
    alloc: Global,
    graph: &Graph,
    near: &Near,
    prices: &Prices,
    back: &FirstReturn<'_>,
) -> Result<Vec<Link>, NoMemory>
    requires back { IsFirstReturn (judged graph.now near.now.level) back.now }
    requires near { IsNearOf (judged graph.now near.now.level) near.now }
    requires prices { IsPricesOf (judged graph.now near.now.level) prices.now }
    ensures first { IfOk result (λ links. IsFirstCycle (judged graph.now near.now.level) back.now.start links.items) }
    ensures cost { IfOk result (λ links. cost links.items ≡ back.now.cost) }
{
    let mut end = back.start;
    let mut left = back.cost;
    let mut picked = Vec::new(alloc);
    while left != 0 {
        let Some((from, spent)) = last_start(back, prices, end, left) else {
            unreachable!()
        };
        let Some(link) = first_link(alloc, graph, from, end, near)? else {
            unreachable!()
        };
        picked.push(link)?;
        end = from;
        left = spent;
    }
    picked.reverse();
    Ok(picked)
}

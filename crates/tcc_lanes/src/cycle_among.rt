//! Cycles among some transactions.
ghost use Rattle.std.specs.Prelude.{◌≡◌, ◌≤◌, ◌<◌, ◌+◌, ◌↔◌, ℕ, List, length, All, AllPairs, IfOk, IsTrue, MatchOption};
ghost use Rattle.tcc_reads.specs.History.{count};
ghost use Rattle.tcc_graph.specs.Levels.{Judged, judged};
ghost use Rattle.tcc_lanes.specs.{Among.HasCheaperAlong, Among.HasCheaperAmong, Among.IsCheapest, Picked.HasAllAmong, Picked.IsPickedAround};
ghost use Rattle.tcc_lanes.specs.private.Pricing.{ArePriceRows, IsTable};

use crate::bucket_dijkstra::{has_return, least_return};
use crate::circling::circle;
use crate::feedback::feedback_vertices;
use crate::price_rows::price_rows;
use crate::stretches::PriceRow;
use std::alloc::Global;
use tcc_graph::{LargeGraph, Level};
use tcc_txn::NoMemory;

/// The transactions of a cycle that costs less than `most`, in its order; none where there is no such cycle. All its links begin and end at
/// the given transactions, which ascend and don't include `init`. It starts at the lowest of them from which there is such a cycle. Where
/// no cycle costs less than `most - 1`, its links are picked from the last backwards, each from the lowest number. For M members among N
/// transactions with R reads this takes M / 64 rounds of sweeps of N + R, one sweep for each length of walks that leads to anything new.
/// Then it takes M * M steps. For each member it takes as many steps as all rows of prices have stretches (`stretches`), and M for each
/// cost that is met. A stretch takes 8 bytes.
pub fn cheaper_among(
    alloc: Global,
    graph: &LargeGraph,
    level: Level,
    members: &[u32],
    most: u32,
) -> Result<Option<Vec<u32>>, NoMemory>
    requires inside { All (λ v. v < count graph.now) members.now }
    requires some { All (λ v. 0 < v) members.now }
    requires ascending { AllPairs (λ u v. u < v) members.now }
    ensures found { IfOk result (λ found. MatchOption found
        (HasCheaperAmong (judged graph.now level) members.now most → ⊥)
        (λ circle. HasCheaperAmong (judged graph.now level) members.now most × HasCheaperAlong (judged graph.now level) circle.items most)) }
    ensures picked { IfOk result (λ found. (n : ℕ) → most ≡ n + 1 → HasAllAmong (judged graph.now level) members.now n
        → MatchOption found (Unit {0}) (λ circle. IsPickedAround (judged graph.now level) n circle.items)) }
{
    let rows = price_rows(alloc, graph, level, members, most)?;
    for start in 0..members.len() {
        if has_return(alloc, &rows, start, most)? {
            return Ok(Some(circle(alloc, &rows, members, start, most)?));
        }
    }
    Ok(None)
}

/// Whether a cycle costs less than `most`, all of whose links begin and end at these transactions, as `cheaper_among` finds one.
pub fn has_cheaper_among(
    alloc: Global,
    graph: &LargeGraph,
    level: Level,
    members: &[u32],
    most: u32,
) -> Result<bool, NoMemory>
    requires inside { All (λ v. v < count graph.now) members.now }
    requires some { All (λ v. 0 < v) members.now }
    requires ascending { AllPairs (λ u v. u < v) members.now }
    ensures { IfOk result (λ found. IsTrue found ↔ HasCheaperAmong (judged graph.now level) members.now most) }
{
    let found = cheaper_among(alloc, graph, level, members, most)?;
    match found {
        Some(_circle) => Ok(true),
        None => Ok(false),
    }
}

/// What the cheapest cycle of links among the members costs, if that is less than `most`; else `most`.
fn least_around(alloc: Global, rows: &[PriceRow], most: u32) -> Result<u32, NoMemory>
    requires table { IsTable rows.now }
    ensures within { IfOk result (λ least. least ≤ most) }
    ensures each { IfOk result (λ least. (j : Judged) (members : List ℕ) → ArePriceRows j members most (length members) rows.now
        → AllPairs (λ u v. u < v) members
        → (HasCheaperAmong j members least → ⊥) × (least < most → HasCheaperAmong j members (least + 1))) }
{
    let starts = feedback_vertices(alloc, rows)?;
    let mut least = most;
    for (start, is_start) in starts.iter().enumerate() {
        if *is_start {
            least = least_return(alloc, rows, start, least)?;
        }
    }
    Ok(least)
}

/// What the cheapest cycle costs whose links begin and end at these transactions, if that is less than `most`. The members ascend, and
/// `init` isn't among them. This takes the rows of prices that `cheaper_among` makes, and M * M more steps for M members. Then a search
/// starts from each member of a feedback vertex set, up to the least cost found by the earlier ones.
pub fn cheapest_among(
    alloc: Global,
    graph: &LargeGraph,
    level: Level,
    members: &[u32],
    most: u32,
) -> Result<Option<u32>, NoMemory>
    requires inside { All (λ v. v < count graph.now) members.now }
    requires some { All (λ v. 0 < v) members.now }
    requires ascending { AllPairs (λ u v. u < v) members.now }
    ensures { IfOk result (IsCheapest (HasCheaperAmong (judged graph.now level) members.now) most) }
{
    let rows = price_rows(alloc, graph, level, members, most)?;
    let least = least_around(alloc, &rows, most)?;
    if least < most {
        Ok(Some(least))
    } else {
        Ok(None)
    }
}

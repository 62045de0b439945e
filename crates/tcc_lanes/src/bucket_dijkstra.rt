//! The cheapest way back to a member, by the prices of links (Dial, CACM 12(11), 1969). Costs are settled level by level: the search goes
//! on from all members that cost one level together. Costs below a level never change again. For M members this takes M steps, one for each
//! column that has a price in the rows of the members that are reached, and one for each level that is met.
ghost use Rattle.std.specs.Prelude.{◌≡◌, ◌≤◌, ◌<◌, ◌+◌, ◌↔◌, ℕ, List, length, slice_index, All, AllPairs, Contains, IfOk, IsTrue, OnOk};
ghost use Rattle.tcc_graph.specs.Levels.{Judged};
ghost use Rattle.tcc_lanes.specs.declared.pricing.TheConstants.{NONE};
ghost use Rattle.tcc_lanes.specs.private.Buckets.{AreQueuedOn};
ghost use Rattle.tcc_lanes.specs.private.Pricing.{ArePriceRows, HasReturn, IsAttained, IsLeastReturn, IsReached, IsSettled, IsTable};

use crate::buckets::{is_past, take};
use crate::pricing::NONE;
use crate::stretches::PriceRow;
use std::alloc::Global;
use tcc_bits::Row;
use tcc_txn::NoMemory;

/// Goes on from those of these members whose cost is this level.
fn settle(
    alloc: Global,
    costs: &mut [u32],
    buckets: &mut Vec<Row<usize>>,
    rows: &[PriceRow],
    level: u32,
    here: &[usize],
) -> Result<(), NoMemory>
    requires table { IsTable rows.now }
    requires same { length rows.now ≡ length costs.old }
    requires inside { All (λ u. u < length rows.now) here.now }
    ensures same { length costs.new ≡ length costs.old }
    ensures settled { OnOk result (IsSettled rows.now level (Contains here.now) costs.old costs.new) }
    ensures queued { OnOk result (AreQueuedOn costs.old buckets.old.items costs.new buckets.new.items) }
{
    for member in here {
        if costs[*member] == level {
            rows[*member].relax(alloc, costs, buckets, level)?;
        }
    }
    Ok(())
}

/// What it costs to come from one member to each, as far as that is less than `most`.
pub(crate) fn costs_from(
    alloc: Global,
    rows: &[PriceRow],
    start: usize,
    most: u32,
) -> Result<Vec<u32>, NoMemory>
    requires table { IsTable rows.now }
    requires start { start < length rows.now }
    ensures same { IfOk result (λ costs. length costs.items ≡ length rows.now) }
    ensures reached { IfOk result (λ costs. (j : Judged) (members : List ℕ) → ArePriceRows j members most (length members) rows.now
        → (level : ℕ) × (most ≤ level + 1) × IsReached j members rows.now start level costs.items) }
    ensures attained { IfOk result (λ costs. (v : ℕ) → v < length rows.now → IsAttained rows.now start costs.items v) }
{
    let mut costs = vec![in alloc; NONE; rows.len()]?;
    let mut buckets = Vec::new(alloc);
    rows[start].relax(alloc, &mut costs, &mut buckets, 0)?;
    // From the last level before the limit nothing leads on below it.
    for level in 1..most.saturating_sub(1) {
        if is_past(&buckets, level) {
            return Ok(costs);
        }
        let here = take(alloc, &mut buckets, level);
        settle(
            alloc,
            &mut costs,
            &mut buckets,
            rows,
            level,
            here.as_slice(),
        )?;
    }
    Ok(costs)
}

/// Whether a cycle from a member, of links among the members, costs less than `most`.
pub(crate) fn has_return(
    alloc: Global,
    rows: &[PriceRow],
    start: usize,
    most: u32,
) -> Result<bool, NoMemory>
    requires table { IsTable rows.now }
    requires start { start < length rows.now }
    ensures { IfOk result (λ found. (j : Judged) (members : List ℕ) → ArePriceRows j members most (length members) rows.now
        → AllPairs (λ u v. u < v) members → IsTrue found ↔ HasReturn j members most start) }
{
    let costs = costs_from(alloc, rows, start, most)?;
    Ok(costs[start] < most)
}

/// What a cheapest cycle from a member costs, of links among the members, if that is less than `most`; else `most`.
pub(crate) fn least_return(
    alloc: Global,
    rows: &[PriceRow],
    start: usize,
    most: u32,
) -> Result<u32, NoMemory>
    requires table { IsTable rows.now }
    requires start { start < length rows.now }
    ensures within { IfOk result (λ least. least ≤ most) }
    ensures each { IfOk result (λ least. (j : Judged) (members : List ℕ) → ArePriceRows j members most (length members) rows.now
        → AllPairs (λ u v. u < v) members → IsLeastReturn j members most start least) }
{
    let costs = costs_from(alloc, rows, start, most)?;
    Ok(costs[start].min(most))
}

//! A row of prices for each member. For M members this takes M * M steps, besides what `pricing` takes.
ghost use Rattle.std.specs.Prelude.{◌≡◌, ◌≤◌, ◌<◌, ◌+◌, ◌*◌, ◌^◌, ◌↔◌, ℕ, Bool, true, List, length, slice_index, if◌then◌else◌, All, AllPairs, IfOk, OnOk};
ghost use Rattle.tcc_reads.specs.History.{History, IsBySession, count};
ghost use Rattle.tcc_clocks.specs.Parents.{ArePrevious};
ghost use Rattle.tcc_graph.specs.{Levels.IsAllowed, Levels.judged, declared.step.Step.Step};
ghost use Rattle.tcc_lanes.specs.{declared.pricing.TheConstants.NONE, declared.words.TheConstants.LANES};
ghost use Rattle.tcc_lanes.specs.private.{Marks.HasLane, Marks.IsAt, Pricing.AreMarked, Pricing.ArePairsFrom, Pricing.ArePriceRows, Pricing.AreRowsOn, Pricing.IsRowOf, Pricing.cell};

use crate::expand::spread;
use crate::hits::columns_of;
use crate::marking::{Marking, marks_of};
use crate::pricing::{LanePrices, NONE, prices_from};
use crate::stretches::PriceRow;
use crate::tiles::tile_at;
use crate::words::{LANES, has_lane};
use std::alloc::Global;
use tcc_clocks::previous_of_each;
use tcc_graph::{LargeGraph, Level};
use tcc_txn::NoMemory;

/// How long a walk may be, so that its derived link costs less than `most`: at `Atomic` all walks have one step.
pub(crate) fn longest_walk(level: Level, most: u32) -> u32
    ensures few { result < NONE }
    ensures all { (walk : List Step) → IsAllowed level walk → length walk + 1 < most → length walk ≤ result }
{
    match level {
        Level::Causal => most.saturating_sub(2),
        Level::Atomic => 1,
    }
}

/// Where a pair leads from each start, as marks of its lane.
fn pairs_from(alloc: Global, graph: &LargeGraph, parent_of: &[u32], starts: &[u32]) -> Marking
    requires numbered { IsBySession graph.now.entries }
    requires parents { ArePrevious graph.now parent_of.now }
    requires lanes { length starts.now ≤ LANES }
    requires inside { All (λ u. u < count graph.now) starts.now }
    ensures { IfOk result (λ pairs. ArePairsFrom graph.now starts.now pairs.items) }
{
    let count = graph.count() as usize;
    let begun = marks_of(alloc, count, starts)?;
    let mut pairs = vec![in alloc; 0; count]?;
    spread(graph, parent_of, &begun, &mut pairs);
    Ok(pairs)
}

/// What a link of a lane to a column costs: 1 where the word of pairs has the lane, and else the price of the derived one.
fn link_price(pairs: u64, prices: &LanePrices, column: usize, lane: usize) -> u32
    requires lane { lane < LANES }
    requires column { column < length prices.now.lanes.items }
    requires long { length prices.now.table.items ≡ length prices.now.lanes.items * LANES }
    ensures { (is_pair : Bool) → HasLane pairs lane ↔ (is_pair ≡ true)
        → ((IsAt prices.now.lanes.items column lane → ⊥) → slice_index prices.now.table.items (cell column lane) ≡ NONE)
        → result ≡ (if is_pair then 1 else slice_index prices.now.table.items (cell column lane)) }
{
    if has_lane(pairs, lane) {
        1
    } else if has_lane(prices.lanes[column], lane) {
        prices.table[column * LANES + lane]
    } else {
        NONE
    }
}

/// What links from the start of a lane cost.
fn price_row(
    alloc: Global,
    members: &[u32],
    pairs: &[u64],
    prices: &LanePrices,
    lane: usize,
) -> Result<PriceRow, NoMemory>
    requires lane { lane < LANES }
    requires members { All (λ v. v < length pairs.now) members.now }
    requires few { length members.now < 2 ^ 32 }
    requires lanes { length prices.now.lanes.items ≡ length members.now }
    requires long { length prices.now.table.items ≡ length members.now * LANES }
    ensures { IfOk result (λ row. (h : History) (starts : List ℕ) → lane < length starts → ArePairsFrom h starts pairs.now
        → AreMarked members.now starts prices.now.lanes.items prices.now.table.items
        → IsRowOf h members.now prices.now.table.items lane (slice_index starts lane) row) }
{
    let mut row = PriceRow::new(alloc);
    for (column, to) in members.iter().enumerate() {
        row.push(link_price(pairs[*to as usize], prices, column, lane))?;
    }
    Ok(row)
}

/// Adds a row for each of some starts.
fn push_rows(
    alloc: Global,
    rows: &mut Vec<PriceRow>,
    members: &[u32],
    starts: &[u32],
    pairs: &[u64],
    prices: &LanePrices,
) -> Result<(), NoMemory>
    requires lanes { length starts.now ≤ LANES }
    requires members { All (λ v. v < length pairs.now) members.now }
    requires few { length members.now < 2 ^ 32 }
    requires marked { AreMarked members.now starts.now prices.now.lanes.items prices.now.table.items }
    requires long { length prices.now.table.items ≡ length members.now * LANES }
    ensures { OnOk result ((h : History) → ArePairsFrom h starts.now pairs.now
        → AreRowsOn h members.now prices.now.table.items starts.now (length starts.now) rows.old.items rows.new.items) }
{
    for lane in 0..starts.len() {
        rows.push(price_row(alloc, members, pairs, prices, lane)?)?;
    }
    Ok(())
}

/// What links among members cost, for those that cost less than `most`: a row for each member.
#[tactic(auto, using(crate::proofs::TileLemmas::all_in_tile))]
pub(crate) fn price_rows(
    alloc: Global,
    graph: &LargeGraph,
    level: Level,
    members: &[u32],
    most: u32,
) -> Result<Vec<PriceRow>, NoMemory>
    requires inside { All (λ v. v < count graph.now) members.now }
    requires some { All (λ v. 0 < v) members.now }
    requires ascending { AllPairs (λ u v. u < v) members.now }
    ensures { IfOk result (λ rows. ArePriceRows (judged graph.now level) members.now most (length members.now) rows.items) }
{
    // this call ensures that transactions are ordered by session and place
    graph.sessions();
    let parent_of = previous_of_each(alloc, graph)?;
    let columns = columns_of(alloc, graph, members)?;
    let longest = longest_walk(level, most);
    let mut rows = Vec::new(alloc);
    for block in 0..members.len().div_ceil(LANES) {
        let starts = tile_at(members, block);
        let prices = prices_from(
            alloc, graph, level, &parent_of, &columns, members, starts, longest,
        )?;
        let pairs = pairs_from(alloc, graph, &parent_of, starts)?;
        push_rows(alloc, &mut rows, members, starts, &pairs, &prices)?;
    }
    Ok(rows)
}

//! The transactions that are near to the derived links that lead back in an order: by the links that lead to each from where one of them
//! ends, and from it to where one begins. For N transactions and R reads this takes some N + R steps.
ghost use Rattle.std.specs.Prelude.{◌≡◌, ◌≤◌, ◌<◌, ◌+◌, ◌↔◌, ◌⊎◌, ℕ, Bool, List, true, false, length, slice_index, slice_index_or, if◌then◌else◌, All, AllPairs, IfOk, IsTrue};
ghost use Rattle.tcc_reads.specs.History.{History, count};
ghost use Rattle.tcc_graph.specs.{Levels.judged, Orders.IsNumbering};
ghost use Rattle.tcc_lanes.specs.{Nearness.AreEndsOfAll, Nearness.AreNear, Nearness.ArePlaces, declared.pricing.TheConstants.NONE};
ghost use Rattle.tcc_lanes.specs.private.Marks.{HasLane, IsAt};
ghost use Rattle.tcc_lanes.specs.private.Passes.{AreCovered, AreEnds, AreNearTo, ArePricesOf, IsBeyond, IsLeastPrice, IsLedFromEnd, IsNearAt, IsReachedOn};

use crate::expand::spread;
use crate::marking::Marking;
use crate::passes::{beyond, covered, reached_on};
use crate::pricing::NONE;
use crate::two_step_links::{Closings, find_closings};
use crate::words::{has_lane, with_lane};
use std::alloc::Global;
use tcc_clocks::previous_of_each;
use tcc_graph::{LargeGraph, Level};
use tcc_txn::NoMemory;

/// A word with the first lane, where a link ends.
fn end_word(last: u32) -> u64
    ensures { HasLane result 0 ↔ (0 < last) }
{
    if 0 < last { with_lane(0, 0) } else { 0 }
}

/// The transactions where a link ends, as marks of the first lane.
fn ends(alloc: Global, lasts: &[u32]) -> Marking
    ensures { IfOk result (λ marks. AreEnds lasts.now (length lasts.now) marks.items) }
{
    let mut marks = Vec::new(alloc);
    for last in lasts {
        marks.push(end_word(*last))?;
    }
    Ok(marks)
}

/// The transactions to which a pair leads from where a link ends, as marks of the first lane.
fn led_on(alloc: Global, graph: &LargeGraph, lasts: &[u32]) -> Marking
    requires { length lasts.now ≡ count graph.now }
    ensures long { IfOk result (λ marks. length marks.items ≡ count graph.now) }
    ensures each { IfOk result (λ marks. (v : ℕ) → v < count graph.now → IsAt marks.items v 0 ↔ IsLedFromEnd graph.now lasts.now v) }
{
    // this call ensures that transactions are ordered by session and place
    graph.sessions();
    let parent_of = previous_of_each(alloc, graph)?;
    let marks = ends(alloc, lasts)?;
    let mut found = vec![in alloc; 0; graph.count() as usize]?;
    spread(graph, &parent_of, &marks, &mut found);
    Ok(found)
}

/// The least cost of the links that lead to a transaction from where a link ends.
fn comes_at(ends: bool, led: bool, reached: bool) -> u32
    ensures { result ≡ (if ends then 0 else if led then 1 else if reached then 2 else NONE) }
{
    if ends {
        0
    } else if led {
        1
    } else if reached {
        2
    } else {
        NONE
    }
}

/// Whether the links to a transaction and on from it cost less than `most`.
fn is_near(comes: u32, price: u32, beyond: u32, most: u32) -> bool
    ensures { IsTrue result ↔ ((comes + price < most) ⊎ (comes + (beyond + 1) < most)) }
{
    let comes = u64::from(comes);
    let most = u64::from(most);
    comes + u64::from(price) < most || comes + (u64::from(beyond) + 1) < most
}

/// Whether a transaction at a place is near, by what was found about it and its place.
fn is_near_at(
    prices: &[u32],
    lasts: &[u32],
    led: &[u64],
    reached: &[bool],
    beyond: &[u32],
    at: u32,
    place: usize,
    most: u32,
) -> bool
    requires prices { at < length prices.now }
    requires lasts { at < length lasts.now }
    requires led { at < length led.now }
    requires reached { place < length reached.now }
    requires beyond { place < length beyond.now }
    ensures { (h : History) (order : List ℕ) (covered : List Bool) → IsAt led.now at 0 ↔ IsLedFromEnd h lasts.now at
        → (slice_index_or reached.now place false ≡ true) ↔ IsReachedOn order lasts.now covered place
        → IsLeastPrice (IsBeyond order prices.now covered place) (slice_index beyond.now place)
        → IsTrue result ↔ IsNearAt h order prices.now lasts.now covered most place at }
{
    let at = at as usize;
    let ends = 0 < lasts[at];
    let comes = comes_at(ends, has_lane(led[at], 0), reached[place]);
    is_near(comes, prices[at], beyond[place], most)
}

/// Marks the transactions that are near, by what was found about the links.
fn mark_near(
    alloc: Global,
    graph: &LargeGraph,
    order: &[u32],
    found: &Closings,
    most: u32,
) -> Result<Vec<bool>, NoMemory>
    requires numbering { IsNumbering (count graph.now) order.now }
    requires prices { ArePricesOf (count graph.now) found.now.prices.items }
    requires lasts { length found.now.lasts.items ≡ count graph.now }
    ensures { IfOk result (λ marks. (covered : List Bool) × AreCovered order.now found.now.lasts.items (length order.now) covered
        × AreNearTo graph.now order.now found.now.prices.items found.now.lasts.items covered most (length order.now) marks.items) }
{
    let covered = covered(alloc, order, &found.lasts)?;
    let reached = reached_on(alloc, order, &found.lasts, &covered)?;
    let beyond = beyond(alloc, order, &found.prices, &covered)?;
    let led = led_on(alloc, graph, &found.lasts)?;
    let mut marks = vec![in alloc; false; graph.count() as usize]?;
    for (place, number) in order.iter().enumerate() {
        let lasts = &found.lasts;
        marks[*number as usize] = is_near_at(
            &found.prices,
            lasts,
            &led,
            &reached,
            &beyond,
            *number,
            place,
            most,
        );
    }
    Ok(marks)
}

/// Marks the transactions that are near to the derived links that lead back in an order, and that a cycle of fewer than `most` steps may
/// therefore pass. Each of these links begins at one of the sources and ends at one of the targets, which ascend.
pub fn near(
    alloc: Global,
    graph: &LargeGraph,
    level: Level,
    most: u32,
    order: &[u32],
    positions: &[u32],
    sources: &[u32],
    targets: &[u32],
) -> Result<Vec<bool>, NoMemory>
    requires places { ArePlaces (count graph.now) order.now positions.now }
    requires sources { All (λ b. b < count graph.now) sources.now }
    requires committed { All (λ b. 0 < b) sources.now }
    requires targets { All (λ a. a < count graph.now) targets.now }
    requires some { All (λ a. 0 < a) targets.now }
    requires ascending { AllPairs (λ u v. u < v) targets.now }
    requires ends { AreEndsOfAll (judged graph.now level) (λ v. slice_index positions.now v) most sources.now targets.now }
    ensures { IfOk result (λ marks. AreNear (judged graph.now level) (λ v. slice_index positions.now v) most marks.items) }
{
    let found = find_closings(alloc, graph, level, most, positions, sources, targets)?;
    let marks = mark_near(alloc, graph, order, &found, most)?;
    Ok(marks)
}

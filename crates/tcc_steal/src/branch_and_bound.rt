//! Branch and bound (Land and Doig, An automatic method of solving discrete programming problems, Econometrica 28, 1960)
//! over all starts, in parallel. Each start is a subproblem (Dijkstra's algorithm upward from it), and the bound is the
//! least cost offered so far. A search is cut where nothing below the bound is left. No bound is below the cost of a least
//! cycle. N starts take N searches, shared out by work stealing (Blumofe and Leiserson, Scheduling multithreaded
//! computations by work stealing, JACM 46, 1999).
ghost use Rattle.std.specs.Prelude.{◌≡◌, ◌≢◌, ◌<◌, ◌^◌, ℕ, Some, length, map, min, unwrap_or, IfOk, IfSome};
ghost use Rattle.tcc_graph.specs.Levels.{Judged};
ghost use Rattle.tcc_derive.specs.Prices.{Tables, IsPricesOf};
ghost use Rattle.tcc_bound.specs.declared.known.Known.{Known};
ghost use Rattle.tcc_core.specs.Rows.{cap_of};
ghost use Rattle.tcc_core.specs.Shares.{IsCycleCost, SettleAt, capped};
ghost use Rattle.tcc_steal.specs.{Findings.HasJudged, Findings.IsFound, private.Floors.least_cost};
ghost use Rattle.tcc_steal.specs.private.Working.{AreSearches, HasSeed, IsFirstBack, IsSeat, rows_of};

use crate::fork_join::shares_of_crew;
use crate::merging::{gather, search_all};
use crate::searched::EndedSearch;
use crate::worker::Worker;
use crate::{AllStart, Crew, Found, Gate};
use std::alloc::Global;
use std::thread::Threads;
use tcc_base::Workers;
use tcc_bits::PackedRow;
use tcc_bound::{Bound, Seat};
use tcc_derive::Prices;
use tcc_txn::NoMemory;

/// The row with each of its values capped, where there is a cap.
fn capped_row(row: PackedRow, cap: Option<u32>) -> PackedRow
    ensures { result ≡ map (capped cap) row }
{
    match cap {
        Some(cap) => row.capped(cap),
        None => row,
    }
}

/// The first of these searches that came back at this cost, by its index.
fn first_back(searches: &[EndedSearch], cost: u32) -> Option<u32>
    requires { length searches.now < 2 ^ 32 }
    ensures { IsFirstBack searches.now (Some cost) result }
{
    for (start, searched) in searches.iter().enumerate() {
        if searched.came_back_at(cost) {
            return Some(start as u32);
        }
    }
    None
}

/// What these searches, one from each start in order, have found, where `least` is the cost of a least cycle.
fn found(alloc: Global, least: Option<u32>, searches: Vec<EndedSearch>) -> Result<Found, NoMemory>
    requires { length searches.items < 2 ^ 32 }
    ensures least { IfOk result (λ found. found.least ≡ least) }
    ensures first { IfOk result (λ found. IsFirstBack searches.items least found.first) }
    ensures rows { IfOk result (λ found. found.rows.items ≡ map (λ e. map (capped least) e.row) searches.items) }
    ensures starts { IfOk result (λ found. found.starts.items ≡ map (λ e. (e.worker, e.start)) searches.items) }
{
    let first = match least {
        Some(cost) => first_back(&searches, cost),
        None => None,
    };
    let mut rows = Vec::with_capacity(alloc, searches.len())?;
    let mut starts = Vec::with_capacity(alloc, searches.len())?;
    for searched in searches {
        starts.push((searched.worker, searched.start))?;
        rows.push(capped_row(searched.row, least))?;
    }
    Ok(Found {
        least,
        first,
        rows,
        starts,
    })
}

/// The word of the bound as a cost; none where it is `u64::MAX`.
fn cost_in(word: u64) -> Option<u32>
    requires { word ≢ 18446744073709551615 → word < 2 ^ 32 }
    ensures { result ≡ cap_of word }
{
    if word == u64::MAX {
        None
    } else {
        Some(word as u32)
    }
}

/// Offers the seed, if there is one.
fn offer_seed(bound: &Bound, seat: &mut Seat, seed: Option<u32>)
    requires { (t : Tables) × HasJudged t × IsSeat t bound.now seat.old × ((j : Judged) → IsPricesOf j t → IfSome seed (IsCycleCost j)) }
    ensures seat { (t : Tables) → ((j : Judged) → IsPricesOf j t → IfSome seed (IsCycleCost j)) → IsSeat t bound.now seat.old
        → IsSeat t bound.now seat.new }
    ensures seed { HasSeed seed seat.new.known }
{
    if let Some(cost) = seed {
        bound.offer(seat, cost as u64);
    }
}

/// Searches from every start by `workers` workers, each in a thread of its own; a single worker searches in the caller's
/// thread. The gate is called before each start.
pub fn search<R: Threads + Sync, G: Gate>(
    rt: &R,
    alloc: Global,
    prices: &Prices,
    workers: Workers,
    gate: &G,
) -> Result<Found, NoMemory>
    requires prices { HasJudged prices.now }
    ensures { (j : Judged) → IsPricesOf j prices.now → IfOk result (IsFound j workers) }
{
    search_with(rt, alloc, prices, None, workers, gate, &AllStart)
}

/// Searches from every start as `search` does, by worker 0 and those of 1 and upward that the crew starts. A seed is the
/// cost of some cycle, and is offered before any start is taken. Worker 0 searches at the end from each start that no
/// worker returned.
pub fn search_with<R: Threads + Sync, G: Gate, C: Crew>(
    rt: &R,
    alloc: Global,
    prices: &Prices,
    seed: Option<u32>,
    workers: Workers,
    gate: &G,
    crew: &C,
) -> Result<Found, NoMemory>
    requires prices { HasJudged prices.now }
    requires seed { (j : Judged) → IsPricesOf j prices.now → IfSome seed (IsCycleCost j) }
    ensures { (j : Judged) → IsPricesOf j prices.now → IfOk result (IsFound j workers) }
{
    search_by(rt, alloc, prices, seed, workers.count(), gate, crew)
}

/// The result of `search_with`, by `workers` workers. The floor of the bound is the cost of a least cycle.
fn search_by<R: Threads + Sync, G: Gate, C: Crew>(
    rt: &R,
    alloc: Global,
    prices: &Prices,
    seed: Option<u32>,
    workers: u32,
    gate: &G,
    crew: &C,
) -> Result<Found, NoMemory>
    ghost floor: { ℕ }
    requires prices { HasJudged prices.now }
    requires floor { floor ≡ least_cost prices.now }
    requires seed { (j : Judged) → IsPricesOf j prices.now → IfSome seed (IsCycleCost j) }
    requires workers { 0 < workers }
    ensures { (j : Judged) → IsPricesOf j prices.now → IfOk result (IsFound j workers) }
{
    let (bound, mut seat) = Bound::new(alloc)?;
    offer_seed(&bound, &mut seat, seed);
    let shares = shares_of_crew(rt, alloc, prices, &bound, gate, crew, workers, &mut seat)?;
    let slots = gather(alloc, prices, &bound, &mut seat, shares)?;
    let mut worker = Worker {
        number: 0,
        seat,
        search: None,
    };
    let searches = search_all(alloc, prices, &bound, gate, &mut worker, slots)?;
    let least = cost_in(bound.close(worker.seat));
    let found = found(alloc, least, searches)?;
    Ok(found)
}

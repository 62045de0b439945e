//! The join of what many workers did: one search of each start, and one seat that knows everything. After each share a slot
//! has the first search of its start that came, and none of another, and the seat knows what the shares knew. N starts take
//! N steps, and a search for each that no worker returned.
ghost use Rattle.std.specs.Prelude.{◌≡◌, ◌<◌, ◌^◌, ℕ, length, replicate, None, IfOk, OnOk};
ghost use Rattle.tcc_derive.specs.Prices.{Tables};
ghost use Rattle.tcc_steal.specs.Findings.{HasJudged};
ghost use Rattle.tcc_steal.specs.private.Working.{IsSeat, IsWorker, MayTakeIn, HasTakenIn, AreShares, AreKept, AreSearches};

use crate::Gate;
use crate::searched::EndedSearch;
use crate::worker::Worker;
use crate::worker_loop::Share;
use std::alloc::Global;
use tcc_bound::{Bound, Seat};
use tcc_derive::Prices;
use tcc_txn::NoMemory;

/// Takes in a share: each search is put into the slot of its start, unless that is full.
fn take_in(bound: &Bound, seat: &mut Seat, slots: &mut [Option<EndedSearch>], share: Share)
    requires { (t : Tables) × (workers : ℕ) × MayTakeIn t bound.now workers seat.old slots.old share }
    ensures long { length slots.new ≡ length slots.old }
    ensures taken { (t : Tables) (workers : ℕ) → MayTakeIn t bound.now workers seat.old slots.old share
        → HasTakenIn t bound.now workers seat.new slots.new }
{
    bound.join(seat, share.seat);
    let mut searches = share.searches;
    while let Some(searched) = searches.pop() {
        let start = searched.start as usize;
        if slots[start].is_none() {
            slots[start] = Some(searched);
        }
    }
}

/// A slot for the search of each start, empty.
fn empty_slots(alloc: Global, count: u32) -> Result<Vec<Option<EndedSearch>>, NoMemory>
    ensures { IfOk result (λ slots. slots.items ≡ replicate count None) }
{
    let mut slots = Vec::with_capacity(alloc, count as usize)?;
    for _ in 0..count {
        slots.push(None)?;
    }
    Ok(slots)
}

/// Takes in the shares one at a time, by the seat that offered the seed. A worker that ended out of memory ends this too.
pub(crate) fn gather(
    alloc: Global,
    prices: &Prices,
    bound: &Bound,
    seat: &mut Seat,
    mut shares: Vec<Result<Share, NoMemory>>,
) -> Result<Vec<Option<EndedSearch>>, NoMemory>
    requires seat { IsSeat prices.now bound.now seat.old }
    requires shares { (workers : ℕ) × AreShares prices.now bound.now workers shares.items }
    ensures seat { OnOk result (IsSeat prices.now bound.now seat.new) }
    ensures long { IfOk result (λ slots. length slots.items ≡ length prices.now.prices) }
    ensures kept { (workers : ℕ) → AreShares prices.now bound.now workers shares.items
        → IfOk result (λ slots. AreKept prices.now workers seat.new.known slots.items) }
{
    let mut slots = empty_slots(alloc, prices.count())?;
    while let Some(share) = shares.pop() {
        take_in(bound, seat, slots.as_mut_slice(), share?);
    }
    Ok(slots)
}

/// The searches from all starts, in order: those in their slots, and the worker's own for the others.
pub(crate) fn search_all(
    alloc: Global,
    prices: &Prices,
    bound: &Bound,
    gate: &impl Gate,
    worker: &mut Worker,
    mut slots: Vec<Option<EndedSearch>>,
) -> Result<Vec<EndedSearch>, NoMemory>
    requires prices { HasJudged prices.now }
    requires worker { IsWorker prices.now bound.now worker.old }
    requires long { length slots.items ≡ length prices.now.prices }
    ensures worker { OnOk result (IsWorker prices.now bound.now worker.new) }
    ensures few { IfOk result (λ all. length all.items < 2 ^ 32) }
    ensures long { IfOk result (λ all. length all.items ≡ length prices.now.prices) }
    ensures all { (workers : ℕ) → worker.old.number < workers → AreKept prices.now workers worker.old.seat.known slots.items
        → IfOk result (λ all. AreSearches prices.now workers worker.new.seat.known 0 all.items) }
{
    let mut searches = Vec::with_capacity(alloc, slots.len())?;
    for start in 0..prices.count() {
        let searched = match slots[start as usize].take() {
            Some(searched) => searched,
            None => worker.search(alloc, prices, bound, gate, start)?,
        };
        searches.push(searched)?;
    }
    Ok(searches)
}

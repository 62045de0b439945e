//! The loop of one worker: it takes a start, searches from there, and goes on to the next, until none is left. After each
//! start its searches have ended, by what its seat knows. Each start takes one take and one search.
ghost use Rattle.std.specs.Prelude.{◌<◌, ℕ, length, IfOk, IfSome};
ghost use Rattle.tcc_steal.specs.Findings.{HasJudged};
ghost use Rattle.tcc_steal.specs.private.Working.{IsWorker, IsWorkSource, IsShare, AreBy};

use crate::Gate;
use crate::deque::{Owner, Thief, pop, steal};
use crate::deque_view::PassView;
use crate::searched::EndedSearch;
use crate::worker::Worker;
use crossbeam_deque::Pass;
use std::alloc::Global;
use tcc_bound::{Bound, Seat};
use tcc_derive::Prices;
use tcc_txn::NoMemory;

/// What a thief begins with.
#[derive(Drop)]
pub(crate) struct ThiefInit {
    pub worker: Worker,
    pub pass: Pass<u32, PassView>,
    pub retries: u32,
}

/// The source from which a worker takes its starts. Worker 0 has the deque that it owns. A thief has its pass, with which
/// it ends after this many retries in a row.
#[derive(Drop)]
pub(crate) enum WorkSource<'a> {
    Owner(Owner),
    Thief(&'a Thief, Pass<u32, PassView>, u32),
}

/// The result of a worker: its seat, and its searches in the order in which it made them.
#[derive(Drop)]
pub(crate) struct Share {
    pub seat: Seat,
    pub searches: Vec<EndedSearch>,
}

/// The next of the starts that were pushed. It is none where none is left, or a thief was refused too often in a row.
fn next(hand: &mut WorkSource<'_>) -> Option<u32>
    requires { (count : ℕ) × IsWorkSource count hand.old }
    ensures hand { (count : ℕ) → IsWorkSource count hand.old → IsWorkSource count hand.new }
    ensures start { (count : ℕ) → IsWorkSource count hand.old → IfSome result (λ start. start < count) }
{
    match hand {
        WorkSource::Owner(owner) => pop(owner),
        WorkSource::Thief(thief, pass, retries) => steal(thief, pass, *retries),
    }
}

/// A worker searches from the starts that it takes, until it gets no further one.
pub(crate) fn bring_back(
    alloc: Global,
    prices: &Prices,
    bound: &Bound,
    gate: &impl Gate,
    mut hand: WorkSource<'_>,
    mut worker: Worker,
) -> Result<Share, NoMemory>
    requires prices { HasJudged prices.now }
    requires hand { IsWorkSource (length prices.now.prices) hand }
    requires worker { IsWorker prices.now bound.now worker }
    ensures share { (workers : ℕ) → worker.number < workers → IfOk result (IsShare prices.now bound.now workers) }
    ensures by { IfOk result (λ share. AreBy worker.number share.searches.items) }
{
    let count = prices.count();
    let mut searches = Vec::new(alloc);
    for _ in 0..count {
        let Some(start) = next(&mut hand) else {
            break;
        };
        let searched = worker.search(alloc, prices, bound, gate, start)?;
        searches.push(searched)?;
    }
    Ok(Share {
        seat: worker.seat,
        searches,
    })
}

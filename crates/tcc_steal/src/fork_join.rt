//! Fork and join (Conway, A multiprocessor system design, AFIPS 1963): worker 0 and each thief in a thread of their own,
//! over one deque of starts. All starts were pushed before any thief began, and each seat is one of the bound. Each thief
//! takes a thread, a seat and a pass.
ghost use Rattle.std.specs.Prelude.{◌≡◌, ◌<◌, ◌≤◌, ℕ, All, length, IfOk, OnOk};
ghost use Rattle.crossbeam_deque.specs.Handles.{worker_deque, worker_flavor, worker_view, stealer_deque};
ghost use Rattle.tcc_steal.specs.{private.StartQueues.IsTaker, Findings.HasJudged};
ghost use Rattle.tcc_steal.specs.private.Working.{IsSeat, IsWorker, IsThiefInit, AreThieves, AreThiefInits, AreThiefInitsOf, AreShares, IsShare};
ghost use Rattle.tcc_derive.specs.Prices.{Tables};

use crate::deque::{Owner, Thief, fill, pass_for_thief};
use crate::worker::Worker;
use crate::worker_loop::{Share, ThiefInit, WorkSource, bring_back};
use crate::{Crew, Gate};
use std::alloc::Global;
use std::thread;
use std::thread::Threads;
use tcc_bound::{Bound, Seat};
use tcc_derive::Prices;
use tcc_txn::NoMemory;

/// The thieves that the crew starts.
fn thieves(alloc: Global, workers: u32, crew: &impl Crew) -> Result<Vec<u32>, NoMemory>
    ensures { IfOk result (λ thieves. AreThieves workers thieves.items) }
{
    let mut thieves = Vec::new(alloc);
    for number in 1..workers {
        if crew.starts(number) {
            thieves.push(number)?;
        }
    }
    Ok(thieves)
}

/// What each thief begins with.
fn jobs(
    alloc: Global,
    bound: &Bound,
    seat: &mut Seat,
    owner: &mut Owner,
    thieves: &[u32],
    crew: &impl Crew,
) -> Result<Vec<ThiefInit>, NoMemory>
    requires { seat.old.bound ≡ bound.now }
    ensures seat { seat.new ≡ seat.old }
    ensures owner { OnOk result ((worker_deque owner.new ≡ worker_deque owner.old) × (worker_flavor owner.new ≡ worker_flavor owner.old)) }
    ensures taker { (count : ℕ) → IsTaker count (worker_view owner.old) → OnOk result (IsTaker count (worker_view owner.new)) }
    ensures jobs { (t : Tables) → IsSeat t bound.now seat.old → IsTaker (length t.prices) (worker_view owner.old)
        → IfOk result (λ jobs. AreThiefInits t bound.now (worker_deque owner.old) jobs.items) }
    ensures numbers { (workers : ℕ) → AreThieves workers thieves.now → IfOk result (λ jobs. AreThiefInitsOf workers jobs.items) }
{
    let mut jobs = Vec::new(alloc);
    for number in thieves {
        jobs.push(ThiefInit {
            worker: Worker {
                number: *number,
                seat: bound.split(seat),
                search: None,
            },
            pass: pass_for_thief(owner),
            retries: crew.retries(*number),
        })?;
    }
    Ok(jobs)
}

/// The results of the thieves, each from a thread of its own.
fn thieves_shares<R: Threads + Sync, G: Gate>(
    rt: &R,
    alloc: Global,
    prices: &Prices,
    bound: &Bound,
    gate: &G,
    thief: &Thief,
    jobs: Vec<ThiefInit>,
) -> Result<Vec<Result<Share, NoMemory>>, NoMemory>
    requires prices { HasJudged prices.now }
    requires jobs { AreThiefInits prices.now bound.now (stealer_deque thief.now) jobs.items }
    ensures { (workers : ℕ) → AreThiefInitsOf workers jobs.items → IfOk result (λ shares. AreShares prices.now bound.now workers shares.items) }
{
    let shares = thread::map_vec(
        rt,
        jobs,
        &|job: ThiefInit| -> Result<Share, NoMemory>
            requires { HasJudged prices.now × IsThiefInit prices.now bound.now (stealer_deque thief.now) job }
            ensures { (workers : ℕ) → job.worker.number < workers → IfOk result (IsShare prices.entry.now bound.entry.now workers) }
        {
            let hand = WorkSource::Thief(thief, job.pass, job.retries);
            bring_back(alloc, prices, bound, gate, hand, job.worker)
        },
    )?;
    Ok(shares)
}

/// The results of the workers: worker 0 and the thieves that the crew starts, or nothing where it starts none. Worker 0
/// pushes all starts before any thief begins.
pub(crate) fn shares_of_crew<R: Threads + Sync, G: Gate, C: Crew>(
    rt: &R,
    alloc: Global,
    prices: &Prices,
    bound: &Bound,
    gate: &G,
    crew: &C,
    workers: u32,
    seat: &mut Seat,
) -> Result<Vec<Result<Share, NoMemory>>, NoMemory>
    requires prices { HasJudged prices.now }
    requires seat { IsSeat prices.now bound.now seat.old }
    requires workers { 0 < workers }
    ensures seat { seat.new ≡ seat.old }
    ensures shares { IfOk result (λ shares. AreShares prices.now bound.now workers shares.items) }
{
    let thieves = thieves(alloc, workers, crew)?;
    if thieves.is_empty() {
        return Ok(Vec::new(alloc));
    }
    let mut owner = fill(alloc, prices.count())?;
    let stealer = owner.stealer()?;
    let thief = &stealer;
    let jobs = jobs(alloc, bound, seat, &mut owner, &thieves, crew)?;
    let worker = Worker {
        number: 0,
        seat: bound.split(seat),
        search: None,
    };
    let (own, others) = thread::join(
        rt,
        move || -> Result<Share, NoMemory>
            requires { HasJudged prices.now × (worker_flavor owner ≡ 0) × IsTaker (length prices.now.prices) (worker_view owner)
                × IsWorker prices.now bound.now worker }
            ensures { (workers : ℕ) → worker.number < workers → IfOk result (IsShare prices.entry.now bound.entry.now workers) }
        {
            let hand = WorkSource::Owner(owner);
            bring_back(alloc, prices, bound, gate, hand, worker)
        },
        move || -> Result<Vec<Result<Share, NoMemory>>, NoMemory>
            requires { HasJudged prices.now × AreThiefInits prices.now bound.now (stealer_deque thief.now) jobs.items }
            ensures { (workers : ℕ) → AreThiefInitsOf workers jobs.items
                → IfOk result (λ shares. AreShares prices.entry.now bound.entry.now workers shares.items) }
        { thieves_shares(rt, alloc, prices, bound, gate, thief, jobs) },
    );
    let mut shares = others?;
    shares.push(own)?;
    Ok(shares)
}

//! Searches over worked histories, by one worker and by many, with distances worked out by hand.
ghost use Rattle.std.specs.Prelude.{IfOk, IfSome};
ghost use Rattle.tcc_graph.specs.Levels.{Judged};
ghost use Rattle.tcc_derive.specs.Prices.{IsPricesOf};
ghost use Rattle.tcc_core.specs.Shares.{IsCycleCost};
ghost use Rattle.tcc_steal.specs.Findings.{HasJudged};

use std::alloc::Global;
use std::process::Abort;
use std::sync::atomic::{AtomicU64, Ordering};
use std::test::Fail;
use std::thread;
use std::thread::Threads;
use tcc_base::Workers;
use tcc_bits::PackedRow;
use tcc_core::seed;
use tcc_derive::{Prices, derive};
use tcc_graph::{Graph, Level};
use tcc_near::near;
use tcc_reads::resolve;
use tcc_rows::snapshot_of;
use tcc_steal::{AllStart, Crew, Found, Gate, OpenGate, search, search_with};
use tcc_txn::NoMemory;

/// a/1 writes x, but a/2 reads its initial value, and the same happens in session b with y: two cycles of three steps, over a/1 and over
/// b/1, each by way of `init`.
const TWO_STALE_READS: &str = "a,begin\na,w,x,1\na,commit\na,begin\na,r,x,0\na,commit\n\
    b,begin\nb,w,y,1\nb,commit\nb,begin\nb,r,y,0\nb,commit\n";

/// b/1 reads what a/1 wrote.
const ONE_READ: &str = "a,begin\na,w,x,1\na,commit\nb,begin\nb,r,x,1\nb,commit\n";

/// a/1 and b/1 write x, and c/1 reads both values: a cycle of four steps, over a/1. d/1 writes z, which f/2 doesn't read, though it had
/// observed it by way of e/1 and f/1. That is a cycle of five, over `init`.
const TWO_CYCLES: &str = "a,begin\na,w,x,1\na,commit\nb,begin\nb,w,x,2\nb,commit\n\
    c,begin\nc,r,x,1\nc,r,x,2\nc,commit\nd,begin\nd,w,z,1\nd,commit\n\
    e,begin\ne,r,z,1\ne,w,y,1\ne,commit\nf,begin\nf,r,y,1\nf,commit\nf,begin\nf,r,z,0\nf,commit\n";

/// The prices of a graph, and the cost of a cycle that its distances show.
fn seeded(
    rt: &(impl Threads + Sync),
    alloc: Global,
    graph: &Graph,
) -> Result<(Prices, Option<u32>), NoMemory>
    ensures prices { IfOk result (λ made. HasJudged made.0) }
    ensures seed { IfOk result (λ made. (j : Judged) → IsPricesOf j made.0 → IfSome made.1 (IsCycleCost j)) }
{
    let near = near(rt, alloc, graph, Level::Causal)?;
    let prices = derive(rt, alloc, graph, &near)?;
    let seed = seed(&near, &prices);
    Ok((prices, seed))
}

/// The prices of a graph.
fn prices_of(rt: &(impl Threads + Sync), alloc: Global, graph: &Graph) -> Result<Prices, NoMemory>
    ensures { IfOk result HasJudged }
{
    let (prices, _) = seeded(rt, alloc, graph)?;
    Ok(prices)
}

/// The graph of these records.
fn graph_of(alloc: Global, records: &str) -> Option<Graph> {
    let snapshot = snapshot_of(alloc, records.as_bytes()).ok()?;
    let resolved = resolve(alloc, &snapshot).ok()?;
    Graph::build(alloc, resolved).ok()
}

/// Whether the row has these distances.
fn has_distances(row: &PackedRow, wanted: &[Option<u32>]) -> bool {
    if row.len() != wanted.len() {
        return false;
    }
    for (index, distance) in wanted.iter().enumerate() {
        if row.get(index) != *distance {
            return false;
        }
    }
    true
}

/// This many workers.
fn workers_of(rt: &impl Abort, count: u32) -> Workers {
    Workers::new(count).expect(rt, "1 to 32 workers")
}

/// The result has this least cost, this first start, these rows, and each start once, with a worker below `workers`.
fn assert_found(
    rt: &impl Abort,
    found: &Found,
    workers: u32,
    least: Option<u32>,
    first: Option<u32>,
    rows: &[&[Option<u32>]],
) {
    assert!(rt; found.least == least && found.first == first);
    assert_eq!(rt; found.rows.len(), rows.len());
    for (row, wanted) in found.rows.iter().zip(rows.iter()) {
        assert!(rt; has_distances(row, wanted));
    }
    assert_eq!(rt; found.starts.len(), rows.len());
    for start in 0..rows.len() {
        let times = found
            .starts
            .iter()
            .filter(|(worker, s)| *worker < workers && *s as usize == start)
            .count();
        assert_eq!(rt; times, 1);
    }
}

/// The prices of the two stale reads.
fn stale_prices(rt: &(impl Abort + Threads + Sync), alloc: Global) -> Result<Prices, Fail>
    ensures { IfOk result HasJudged }
{
    let Some(graph) = graph_of(alloc, TWO_STALE_READS) else {
        panic!(rt; "no graph");
    };
    Ok(prices_of(rt, alloc, &graph)?)
}

/// The result for the two stale reads has their distances.
fn assert_stale(rt: &impl Abort, found: &Found, workers: u32) {
    let rows: &[&[Option<u32>]] = &[
        &[Some(3), Some(1), Some(1), Some(1), Some(1)],
        &[Some(3), Some(1), Some(3), Some(3)],
        &[Some(3), Some(3), Some(3)],
        &[Some(3), Some(1)],
        &[Some(3)],
    ];
    assert_found(rt, found, workers, Some(3), Some(0), rows);
}

/// The result of these workers for the two stale reads, which has their distances.
fn assert_stale_reads(
    rt: &(impl Abort + Threads + Sync),
    alloc: Global,
    workers: u32,
    gate: &impl Gate,
    crew: &impl Crew,
) -> Result<Found, Fail> {
    let prices = stale_prices(rt, alloc)?;
    let count = workers_of(rt, workers);
    let found = search_with(rt, alloc, &prices, None, count, gate, crew)?;
    assert_stale(rt, &found, workers);
    Ok(found)
}

/// One worker and many find the same.
#[test]
fn any_workers(rt: HostRuntime) -> Result<(), Fail> {
    let alloc = rt.alloc();
    assert_stale_reads(&rt, alloc, 1, &OpenGate, &AllStart)?;
    assert_stale_reads(&rt, alloc, 2, &OpenGate, &AllStart)?;
    assert_stale_reads(&rt, alloc, 32, &OpenGate, &AllStart)?;
    let Some(graph) = graph_of(alloc, ONE_READ) else {
        panic!(rt; "no graph");
    };
    let prices = prices_of(&rt, alloc, &graph)?;
    let found = search(&rt, alloc, &prices, workers_of(&rt, 2), &OpenGate)?;
    let rows: &[&[Option<u32>]] = &[&[None, Some(1), Some(1)], &[None, Some(1)], &[None]];
    assert_found(&rt, &found, 2, None, None, rows);
    Ok(())
}

/// Searches that begin with a seed find the least cost, also where the seed is exactly that cost, or above it. A mutant fails that cuts
/// what costs as much as the seed, or returns the seed.
#[test]
fn seeds(rt: HostRuntime) -> Result<(), Fail> {
    let alloc = rt.alloc();
    let cases = [(TWO_STALE_READS, 3, 3, 0), (TWO_CYCLES, 5, 4, 1)];
    for (records, wanted, least, first) in cases {
        let Some(graph) = graph_of(alloc, records) else {
            panic!(rt; "no graph");
        };
        let (prices, seed) = seeded(&rt, alloc, &graph)?;
        assert!(rt; seed == Some(wanted), "of {records}");
        for workers in [1, 2, 32] {
            let workers = workers_of(&rt, workers);
            let found = search_with(&rt, alloc, &prices, seed, workers, &OpenGate, &AllStart)?;
            assert!(rt; found.least == Some(least) && found.first == Some(first));
        }
    }
    Ok(())
}

/// Counts the calls of each worker for each start.
#[derive(Drop)]
struct Counting {
    calls: Vec<Vec<AtomicU64>>,
}

impl Counting {
    /// A count for this many workers, none of which has searched yet, and this many starts.
    fn new(alloc: Global, workers: u32, starts: u32) -> Result<Counting, NoMemory> {
        let mut calls = Vec::new(alloc);
        for _ in 0..workers {
            calls.push(no_calls(alloc, starts)?)?;
        }
        Ok(Counting { calls })
    }

    /// How often the worker was seen at the start.
    fn of(&self, worker: u32, start: u32) -> Option<u64> {
        let calls = self.calls.get(worker as usize)?.get(start as usize)?;
        Some(calls.load(Ordering::SeqCst))
    }

    /// How often the worker was seen.
    fn all_of(&self, worker: u32) -> u64 {
        let mut all = 0u64;
        if let Some(starts) = self.calls.get(worker as usize) {
            for calls in starts {
                all = all.saturating_add(calls.load(Ordering::SeqCst));
            }
        }
        all
    }

    /// How often any of the first `workers` workers was seen.
    fn all(&self, workers: u32) -> u64 {
        let mut all = 0u64;
        for worker in 0..workers {
            all = all.saturating_add(self.all_of(worker));
        }
        all
    }
}

/// A count for each start, none of which was seen yet.
fn no_calls(alloc: Global, starts: u32) -> Result<Vec<AtomicU64>, NoMemory> {
    let mut calls = Vec::new(alloc);
    for _ in 0..starts {
        calls.push(AtomicU64::new(0))?;
    }
    Ok(calls)
}

impl Gate for Counting {
    fn enter(&self, worker: u32, start: u32) {
        if let Some(starts) = self.calls.get(worker as usize) {
            if let Some(calls) = starts.get(start as usize) {
                calls.fetch_add(1, Ordering::SeqCst);
            }
        }
    }
}

/// The gate is called once for each start, by the worker that is beside it in `starts`.
#[test]
fn gate_sees_each_start_once(rt: HostRuntime) -> Result<(), Fail> {
    let alloc = rt.alloc();
    let gate = Counting::new(alloc, 2, 5)?;
    let found = assert_stale_reads(&rt, alloc, 2, &gate, &AllStart)?;
    for (worker, start) in &found.starts {
        assert_eq!(rt; gate.of(*worker, *start), Some(1));
    }
    assert_eq!(rt; gate.all(2), 5);
    Ok(())
}

/// One in `step` thieves starts, none where that is 0, and it ends after `retries` retries in a row. It counts how often it was asked for
/// these.
#[derive(Drop)]
struct Few {
    step: u32,
    retries: u32,
    asked: AtomicU64,
}

impl Crew for Few {
    fn starts(&self, worker: u32) -> bool {
        self.step != 0 && worker % self.step == 0
    }

    fn retries(&self, _worker: u32) -> u32 {
        self.asked.fetch_add(1, Ordering::SeqCst);
        self.retries
    }
}

/// Thieves that are missing or give up at once don't change the result, and a thief that doesn't start searches nothing: with no thief
/// worker 0 has all starts. Each thief that starts is asked for its retries. So a mutant fails that starts all thieves, or has retries of
/// its own.
#[test]
fn any_crew(rt: HostRuntime) -> Result<(), Fail> {
    let alloc = rt.alloc();
    for (step, retries, thieves) in [(0, 1024, 0), (2, 1024, 15), (1, 0, 31)] {
        let asked = AtomicU64::new(0);
        let crew = Few {
            step,
            retries,
            asked,
        };
        let gate = Counting::new(alloc, 32, 5)?;
        let found = assert_stale_reads(&rt, alloc, 32, &gate, &crew)?;
        for (worker, start) in &found.starts {
            assert!(rt; *worker == 0 || crew.starts(*worker));
            assert_eq!(rt; gate.of(*worker, *start), Some(1));
        }
        assert_eq!(rt; gate.all(32), 5);
        assert_eq!(rt; crew.asked.load(Ordering::SeqCst), thieves);
    }
    Ok(())
}

/// Holds its first callers until a given number of starts were entered.
#[derive(Drop)]
struct Meeting {
    held: u64,
    until: u64,
    entered: AtomicU64,
    missed: AtomicU64,
}

impl Meeting {
    fn new(held: u64, until: u64) -> Meeting {
        Meeting {
            held,
            until,
            entered: AtomicU64::new(0),
            missed: AtomicU64::new(0),
        }
    }

    /// All that were held met the others, and no start was entered twice. So what each worker brought back was taken in as a whole, and
    /// none of it was searched again.
    fn assert_met(&self, rt: &impl Abort) {
        assert_eq!(rt; self.missed.load(Ordering::SeqCst), 0);
        assert_eq!(rt; self.entered.load(Ordering::SeqCst), 5);
    }
}

impl Gate for Meeting {
    fn enter(&self, _worker: u32, _start: u32) {
        if self.entered.fetch_add(1, Ordering::SeqCst) < self.held {
            for _ in 0..100_000_000u32 {
                if self.until <= self.entered.load(Ordering::SeqCst) {
                    return;
                }
                thread::yield_now();
            }
            self.missed.fetch_add(1, Ordering::SeqCst);
        }
    }
}

/// This many workers meet, by both calls: the gate holds the first callers until a given number of starts were entered.
fn assert_meet(
    rt: &(impl Abort + Threads + Sync),
    alloc: Global,
    workers: u32,
    held: u64,
    until: u64,
) -> Result<(), Fail> {
    let gate = Meeting::new(held, until);
    assert_stale_reads(rt, alloc, workers, &gate, &AllStart)?;
    gate.assert_met(rt);
    let gate = Meeting::new(held, until);
    let prices = stale_prices(rt, alloc)?;
    let count = workers_of(rt, workers);
    let found = search(rt, alloc, &prices, count, &gate)?;
    assert_stale(rt, &found, workers);
    gate.assert_met(rt);
    Ok(())
}

/// A worker that is held meets another at a second start.
#[test]
fn two_starts_meet(rt: HostRuntime) -> Result<(), Fail> {
    assert_meet(&rt, rt.alloc(), 2, 1, 2)
}

/// While one of two workers is held the other takes the four starts that are left, and while four of five are held the fifth takes the
/// last.
#[test]
fn others_go_on(rt: HostRuntime) -> Result<(), Fail> {
    assert_meet(&rt, rt.alloc(), 2, 1, 5)?;
    assert_meet(&rt, rt.alloc(), 5, 4, 5)
}

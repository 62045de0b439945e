//! Runs of the machine over worked histories.
use crate::tests::histories::{ONE_READ, STALE_READ, TWO_WRITERS, priced};
use std::alloc::Global;
use std::process::Abort;
use std::test::Fail;
use tcc_derive::Prices;
use tcc_graph::Level;
use tcc_steal::Event::{End, Look, Offer, Settle, Take};
use tcc_steal::{Event, RunFault, StepFault, World};

/// The stale read twice, in two sessions.
const TWO_STALE_READS: &str = "a,begin\na,w,x,1\na,commit\na,begin\na,r,x,0\na,commit\n\
    b,begin\nb,w,y,1\nb,commit\nb,begin\nb,r,y,0\nb,commit\n";

/// The state in which this many workers begin.
fn begin(rt: &impl Abort, alloc: Global, prices: &Prices, workers: u32) -> World {
    let Ok(world) = World::new(alloc, prices, workers) else {
        panic!(rt; "no memory");
    };
    world
}

/// One event.
fn step(
    rt: &impl Abort,
    alloc: Global,
    world: &mut World,
    prices: &Prices,
    event: Event,
) -> Result<(), StepFault> {
    assert!(rt; world.starts() == prices.count());
    world.step(alloc, prices, event)
}

/// Some events, all enabled.
fn assert_run(
    rt: &impl Abort,
    alloc: Global,
    world: &mut World,
    prices: &Prices,
    events: &[Event],
) {
    assert!(rt; world.starts() == prices.count());
    assert!(rt; world.run(alloc, prices, events).is_ok());
}

/// None of these events is enabled, and they leave the word at none.
fn assert_refused(
    rt: &impl Abort,
    alloc: Global,
    world: &mut World,
    prices: &Prices,
    events: &[Event],
) {
    for event in events {
        let refused = step(rt, alloc, world, prices, *event);
        assert!(rt; refused == Err(StepFault::NotEnabled));
        assert!(rt; world.word().is_none());
    }
}

/// What two workers do on the stale read, up to the offer of the first.
const FIRST: [Event; 7] = [
    Take(0, 0),
    Take(1, 2),
    Settle(1),
    End(1),
    Settle(0),
    Settle(0),
    Settle(0),
];

/// And what they do from it on: start 1 is cut, as nothing comes back to it over numbers from there upward.
const LAST: [Event; 7] = [
    Offer(0, 3),
    End(0),
    Take(1, 1),
    Look(1),
    Settle(1),
    Settle(1),
    End(1),
];

#[test]
fn stale_read(rt: HostRuntime) {
    let alloc = rt.alloc();
    let prices = priced(&rt, alloc, STALE_READ, Level::Causal);
    let mut world = begin(&rt, alloc, &prices, 2);
    assert!(&rt; world.word().is_none());
    assert_eq!(&rt; world.left(), 3);
    assert_run(&rt, alloc, &mut world, &prices, &FIRST);
    assert!(&rt; world.word().is_none());
    assert_eq!(&rt; world.left(), 1);
    let refused = [
        Offer(0, 2),
        End(0),
        Settle(0),
        Take(0, 1),
        Take(1, 0),
        Take(1, 2),
        Take(1, 3),
        Take(2, 1),
    ];
    assert_refused(&rt, alloc, &mut world, &prices, &refused);
    for worker in [1, 2] {
        let idle = [Look(worker), Settle(worker), Offer(worker, 3), End(worker)];
        assert_refused(&rt, alloc, &mut world, &prices, &idle);
    }
    assert_eq!(&rt; world.left(), 1);
    assert_run(&rt, alloc, &mut world, &prices, &LAST);
    assert!(&rt; world.word() == Some(3));
    assert_eq!(&rt; world.left(), 0);
}

/// A run stops at the first event that is refused, and those before it were done.
#[test]
fn stopped_run(rt: HostRuntime) {
    let alloc = rt.alloc();
    let prices = priced(&rt, alloc, STALE_READ, Level::Causal);
    let mut world = begin(&rt, alloc, &prices, 2);
    let events = [Take(0, 0), Take(1, 0), Take(1, 1)];
    assert!(&rt; world.starts() == prices.count());
    let stopped = world.run(alloc, &prices, &events);
    let wanted = RunFault {
        at: 1,
        fault: StepFault::NotEnabled,
    };
    assert!(&rt; stopped == Err(wanted));
    assert_eq!(&rt; world.left(), 2);
}

/// With a seed the word begins at it, and a search that looked first goes no further.
#[test]
fn seeded(rt: HostRuntime) {
    let alloc = rt.alloc();
    let prices = priced(&rt, alloc, STALE_READ, Level::Causal);
    let Ok(mut world) = World::seeded(alloc, &prices, 1, 3) else {
        panic!(&rt; "no memory");
    };
    assert!(&rt; world.word() == Some(3));
    let events = [
        Take(0, 1),
        Look(0),
        Settle(0),
        Settle(0),
        End(0),
        Take(0, 2),
        Settle(0),
        End(0),
        Take(0, 0),
        Settle(0),
        Settle(0),
        Settle(0),
        Offer(0, 3),
        End(0),
    ];
    assert_run(&rt, alloc, &mut world, &prices, &events);
    assert!(&rt; world.word() == Some(3));
    assert_eq!(&rt; world.left(), 0);
}

/// A worker; the start that it takes if it is idle; and else whose turn it is: to look, to settle or end, or to offer.
type Choice = (u32, u32, u32);

/// One event, if it is enabled. Where start and turn are one number, each event that is enabled is one choice of worker
/// and number.
fn act(rt: &impl Abort, alloc: Global, world: &mut World, prices: &Prices, choice: Choice) -> bool {
    let (worker, start, turn) = choice;
    if step(rt, alloc, world, prices, Take(worker, start)).is_ok() {
        return true;
    }
    if turn == 0 {
        return step(rt, alloc, world, prices, Look(worker)).is_ok();
    }
    if turn == 1 {
        return step(rt, alloc, world, prices, Settle(worker)).is_ok()
            || step(rt, alloc, world, prices, End(worker)).is_ok();
    }
    if turn == 2 {
        for cost in 0..20 {
            if step(rt, alloc, world, prices, Offer(worker, cost)).is_ok() {
                return true;
            }
        }
    }
    false
}

/// A worker takes this start, or looks if it has one, and then ends what it holds.
fn search(
    rt: &impl Abort,
    alloc: Global,
    world: &mut World,
    prices: &Prices,
    worker: u32,
    start: u32,
) {
    act(rt, alloc, world, prices, (worker, start, 0));
    for _ in 0..100 {
        if !act(rt, alloc, world, prices, (worker, start, 1)) {
            break;
        }
    }
    act(rt, alloc, world, prices, (worker, start, 2));
    act(rt, alloc, world, prices, (worker, start, 1));
}

/// The end of a run by a fixed rule: each worker ends what it holds, and then the first takes the starts that are left in
/// ascending order.
fn finish(
    rt: &impl Abort,
    alloc: Global,
    world: &mut World,
    prices: &Prices,
    workers: u32,
) -> Option<u32> {
    for worker in 0..workers {
        search(rt, alloc, world, prices, worker, prices.count());
    }
    for start in 0..prices.count() {
        search(rt, alloc, world, prices, 0, start);
    }
    for worker in 0..workers {
        assert!(rt; !act(rt, alloc, world, prices, (worker, prices.count(), 0)));
    }
    assert_eq!(rt; world.left(), 0);
    world.word()
}

/// For two workers, whether a number of events are enabled one after another, which the digits of a number choose.
fn act_by_digits(
    rt: &impl Abort,
    alloc: Global,
    world: &mut World,
    prices: &Prices,
    events: u32,
    number: u32,
) -> bool {
    let choices = prices.count().max(3);
    let mut rest = number;
    for _ in 0..events {
        let choice = rest / 2 % choices;
        if !act(rt, alloc, world, prices, (rest % 2, choice, choice)) {
            return false;
        }
        rest = rest / 2 / choices;
    }
    true
}

/// For two workers every list of the first six or seven enabled events, and from each to the end by the rule: the same word. The table has
/// the number of events, of lists of as many choices, and of those that are enabled.
#[test]
fn every_run_in_small(rt: HostRuntime) {
    let alloc = rt.alloc();
    let cases: [(&str, u32, u32, u32, Option<u32>); 4] = [
        (STALE_READ, 7, 279_936, 22_772, Some(3)),
        (TWO_WRITERS, 6, 262_144, 12_194, Some(4)),
        (TWO_STALE_READS, 6, 1_000_000, 21_248, Some(3)),
        (ONE_READ, 7, 279_936, 22_700, None),
    ];
    for (records, events, lists, enabled, word) in cases.iter() {
        let prices = priced(&rt, alloc, records, Level::Causal);
        let mut runs = 0u32;
        for number in 0..*lists {
            let mut world = begin(&rt, alloc, &prices, 2);
            if act_by_digits(&rt, alloc, &mut world, &prices, *events, number) {
                let ended = finish(&rt, alloc, &mut world, &prices, 2);
                assert!(&rt; ended == *word, "{number} of {records}");
                runs = runs.saturating_add(1);
            }
        }
        assert_eq!(&rt; runs, *enabled, "{records}");
    }
}

/// A number made of the one before.
fn next(state: u64) -> u64 {
    state
        .wrapping_mul(6364136223846793005)
        .wrapping_add(1442695040888963407)
}

/// A run by random choices, and from there to its end by the rule.
fn random_run(
    rt: &impl Abort,
    alloc: Global,
    prices: &Prices,
    workers: u32,
    seed: u64,
) -> Option<u32> {
    let count = prices.count();
    assert!(rt; workers > 0 && count > 0);
    let mut world = begin(rt, alloc, prices, workers);
    let mut state = seed;
    for _ in 0..10_000 {
        state = next(state);
        let pick = (state / 4294967296) as u32;
        let choice = (pick % workers, pick / 8 % count, pick / 4096 % 3);
        act(rt, alloc, &mut world, prices, choice);
    }
    finish(rt, alloc, &mut world, prices, workers)
}

/// In each of five groups two transactions write the values of a key, and from each a chain of readers leads to one that reads the other's
/// value. The chains of each group are shorter than those of the one before, so its cycle costs less.
fn groups(alloc: Global) -> Result<String, Fail> {
    let mut records = String::new(alloc);
    for group in 0..5u32 {
        let last = 5 - group;
        for (value, other) in [(1, 2), (2, 1)].iter() {
            for hop in 0..last + 1 {
                let next = hop + 1;
                let name = format!(in alloc; "{group}.{value}.{hop}")?;
                let name = name.as_str();
                let read = format!(in alloc; "{name},begin\n{name},r,{group}.{value},{hop}\n")?;
                records.push_str(read.as_str())?;
                if hop == 0 {
                    let first = format!(in alloc; "{name},w,{group},{value}\n")?;
                    records.push_str(first.as_str())?;
                }
                if hop == last {
                    let crossed = format!(in alloc; "{name},r,{group},{other}\n")?;
                    records.push_str(crossed.as_str())?;
                }
                let written = format!(in alloc;
                    "{name},w,{group}.{value},{next}\n{name},commit\n"
                )?;
                records.push_str(written.as_str())?;
            }
        }
    }
    Ok(records)
}

/// Random runs of two and of five workers over 41 transactions end with the word of one worker that takes the starts in ascending order:
/// the cost of the last group's cycle. The cycle of the first group, from transaction 1, costs three times as much.
#[test]
fn random_runs(rt: HostRuntime) -> Result<(), Fail> {
    let alloc = rt.alloc();
    let records = groups(alloc)?;
    let prices = priced(&rt, alloc, records.as_str(), Level::Causal);
    assert_eq!(&rt; prices.count(), 41);
    let mut first = begin(&rt, alloc, &prices, 1);
    search(&rt, alloc, &mut first, &prices, 0, 1);
    assert!(&rt; first.word() == Some(12));
    let mut alone = begin(&rt, alloc, &prices, 1);
    let word = finish(&rt, alloc, &mut alone, &prices, 1);
    assert!(&rt; word == Some(4));
    for seed in 0..25u64 {
        for workers in [2u32, 5].iter() {
            let ended = random_run(&rt, alloc, &prices, *workers, seed);
            assert!(&rt; ended == word, "{seed} with {workers} workers");
        }
    }
    Ok(())
}

//! Searches over worked histories, with distances worked out by hand.
use crate::tests::histories::{LONG_WALK, ONE_READ, STALE_READ, TWO_WRITERS, priced};
use std::alloc::Global;
use std::process::Abort;
use std::thread::Threads;
use tcc_core::{Search, Settled};
use tcc_graph::Level;

/// Steps of a search. Each has a cap, the answer that is expected, and the row from the start upward that it has to leave, where the
/// definitions settle that.
type CoreSteps<'a> = &'a [(u64, Settled, Option<&'a [Option<u32>]>)];

/// Takes these steps of the search from a start.
fn assert_steps(
    rt: &(impl Abort + Threads + Sync),
    alloc: Global,
    records: &str,
    level: Level,
    start: u32,
    steps: CoreSteps<'_>,
) {
    let prices = priced(rt, alloc, records, level);
    assert!(rt; start < prices.count());
    let Ok(mut search) = Search::begin(alloc, &prices, start) else {
        panic!(rt; "no memory");
    };
    assert!(rt; search.row().iter().all(|distance| distance.is_none()));
    for (cap, wanted, row) in steps {
        assert_eq!(rt;
            search.row().len() + search.start() as usize,
            prices.count() as usize
        );
        let settled = search.settle(&prices, *cap);
        assert!(rt; settled == *wanted, "from {start} at {cap} of {records}");
        if let Some(row) = row {
            assert!(rt; search.row() == *row, "from {start} at {cap} of {records}");
        }
        assert_eq!(rt; search.start(), start);
    }
}

/// From `init` two transactions join in some order, at 1 each, and then the start returns at 3. What costs as much as the cap is within it.
#[test]
fn steps_from_init(rt: HostRuntime) {
    let alloc = rt.alloc();
    let empty: &[Option<u32>] = &[None, None, None];
    let near: &[Option<u32>] = &[None, Some(1), Some(1)];
    let whole: &[Option<u32>] = &[Some(3), Some(1), Some(1)];
    let whole_at_once = [
        (u64::MAX, Settled::More, None),
        (u64::MAX, Settled::More, Some(near)),
        (u64::MAX, Settled::Returned(3), Some(whole)),
    ];
    let by_caps = [
        (0, Settled::Cut(0), Some(empty)),
        (1, Settled::More, None),
        (1, Settled::More, Some(near)),
        (1, Settled::Cut(1), Some(near)),
        (2, Settled::Cut(2), Some(near)),
        (3, Settled::Returned(3), Some(whole)),
    ];
    for level in [Level::Causal, Level::Atomic] {
        assert_steps(&rt, alloc, STALE_READ, level, 0, &whole_at_once);
        assert_steps(&rt, alloc, STALE_READ, level, 0, &by_caps);
    }
    // The link from `init` to the reader of a/1 costs less than the way over a/1, which joins first.
    let two_ways = [
        (u64::MAX, Settled::More, None),
        (u64::MAX, Settled::More, Some(near)),
        (u64::MAX, Settled::Cut(u64::MAX), Some(near)),
    ];
    assert_steps(&rt, alloc, ONE_READ, Level::Causal, 0, &two_ways);
}

/// From a/1 upward nothing comes back over `init`, and no link leads on from a/2. Of two writers that have to come before each other, the
/// lower comes back, and the higher does not.
#[test]
fn steps_upward(rt: HostRuntime) {
    let alloc = rt.alloc();
    let cases: [(&str, u32, CoreSteps<'_>); 4] = [
        (
            STALE_READ,
            1,
            &[
                (9, Settled::More, Some(&[None, Some(1)])),
                (9, Settled::Cut(9), Some(&[None, Some(1)])),
                (u64::MAX, Settled::Cut(u64::MAX), Some(&[None, Some(1)])),
            ],
        ),
        (
            STALE_READ,
            2,
            &[
                (7, Settled::Cut(7), Some(&[None])),
                (u64::MAX, Settled::Cut(u64::MAX), Some(&[None])),
            ],
        ),
        (
            TWO_WRITERS,
            1,
            &[
                (3, Settled::More, Some(&[None, None, Some(1)])),
                (3, Settled::More, Some(&[None, Some(2), Some(1)])),
                (3, Settled::Cut(3), Some(&[None, Some(2), Some(1)])),
                (4, Settled::Returned(4), Some(&[Some(4), Some(2), Some(1)])),
                (u64::MAX, Settled::Cut(u64::MAX), None),
            ],
        ),
        (
            TWO_WRITERS,
            2,
            &[
                (u64::MAX, Settled::More, Some(&[None, Some(1)])),
                (u64::MAX, Settled::Cut(u64::MAX), Some(&[None, Some(1)])),
            ],
        ),
    ];
    for (records, start, steps) in cases {
        assert_steps(&rt, alloc, records, Level::Causal, start, steps);
        assert_steps(&rt, alloc, records, Level::Atomic, start, steps);
    }
}

/// A walk of two pairs is a reason at `Causal`, and none at `Atomic`.
#[test]
fn steps_at_levels(rt: HostRuntime) {
    let alloc = rt.alloc();
    let reached: &[Option<u32>] = &[None, Some(1), Some(1), Some(1)];
    let whole: &[Option<u32>] = &[Some(4), Some(1), Some(1), Some(1)];
    let cases: [(Level, Settled, &[Option<u32>]); 2] = [
        (Level::Causal, Settled::Returned(4), whole),
        (Level::Atomic, Settled::Cut(u64::MAX), reached),
    ];
    for (level, last, row) in cases {
        let steps = [
            (u64::MAX, Settled::More, None),
            (u64::MAX, Settled::More, None),
            (u64::MAX, Settled::More, Some(reached)),
            (u64::MAX, last, Some(row)),
        ];
        assert_steps(&rt, alloc, LONG_WALK, level, 0, &steps);
    }
}

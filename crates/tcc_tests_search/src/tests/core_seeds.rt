//! Seeds and renewed searches, worked out by hand.
use crate::tests::histories::{
    LONG_WALK, ONE_READ, STALE_READ, TWO_WRITERS, graph_of, near_of, priced, prices_of,
};
use std::alloc::Global;
use std::process::Abort;
use std::thread::Threads;
use tcc_core::{Search, Settled, seed};
use tcc_graph::Level;

/// a/1 reads from b/1 and b/1 from a/1: a walk of two steps, which `Atomic` does not allow, ends where it began.
const ROUND: &str = "a,begin\na,r,y,1\na,w,x,1\na,commit\nb,begin\nb,r,x,1\nb,w,y,1\nb,commit\n";

/// The seed of a history.
fn seed_of(
    rt: &(impl Abort + Threads + Sync),
    alloc: Global,
    records: &str,
    level: Level,
) -> Option<u32> {
    let graph = graph_of(rt, alloc, records);
    let near = near_of(rt, alloc, &graph, level);
    let prices = prices_of(rt, alloc, &graph, &near);
    seed(&near, &prices)
}

/// A cycle of two derived links gives no seed.
#[test]
fn seeds(rt: HostRuntime) {
    let alloc = rt.alloc();
    let cases = [
        (STALE_READ, Some(3), Some(3)),
        (TWO_WRITERS, None, None),
        (LONG_WALK, Some(4), None),
        (ROUND, Some(2), None),
        (ONE_READ, None, None),
    ];
    for (records, causal, atomic) in cases {
        let at_causal = seed_of(&rt, alloc, records, Level::Causal);
        let at_atomic = seed_of(&rt, alloc, records, Level::Atomic);
        assert!(rt; (at_causal, at_atomic) == (causal, atomic), "of {records}");
    }
}

/// A search that was taken to its end is renewed for each start in turn, and settles as one that begins there. From `init` the start
/// returns at 3, from a/1 upward nothing comes back, and from a/2 nothing leads on.
#[test]
fn renewed(rt: HostRuntime) {
    let alloc = rt.alloc();
    let prices = priced(&rt, alloc, STALE_READ, Level::Causal);
    assert!(rt; prices.count() == 3);
    let Ok(mut search) = Search::begin(alloc, &prices, 2) else {
        panic!(rt; "no memory");
    };
    let cases: [(u32, u32, Settled, &[Option<u32>]); 4] = [
        (0, 2, Settled::Returned(3), &[Some(3), Some(1), Some(1)]),
        (2, 0, Settled::Cut(9), &[None]),
        (1, 1, Settled::Cut(9), &[None, Some(1)]),
        (0, 2, Settled::Returned(3), &[Some(3), Some(1), Some(1)]),
    ];
    for (start, more, last, row) in cases {
        assert!(rt; start < prices.count());
        assert_eq!(rt;
            search.row().len() + search.start() as usize,
            prices.count() as usize
        );
        search.renew(&prices, start);
        assert!(rt; search.start() == start, "at {start}");
        assert!(rt;
            search.row().iter().all(|distance| distance.is_none()),
            "at {start}"
        );
        for _step in 0..more {
            assert_eq!(rt;
                search.row().len() + search.start() as usize,
                prices.count() as usize
            );
            assert!(rt; search.settle(&prices, 9) == Settled::More, "at {start}");
        }
        assert_eq!(rt;
            search.row().len() + search.start() as usize,
            prices.count() as usize
        );
        assert!(rt; search.settle(&prices, 9) == last, "at {start}");
        assert!(rt; search.row() == row, "at {start}");
    }
}

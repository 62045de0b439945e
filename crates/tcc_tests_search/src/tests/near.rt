//! Worked histories, with distances and clocks worked out by hand.
use crate::tests::histories::{
    CHAIN, MUTUAL, STALE_READ, TWO_WRITERS, graph_of, is_level, near_of,
};
use std::alloc::Global;
use std::process::Abort;
use std::test::Fail;
use std::thread::Threads;
use tcc_bits::Row;
use tcc_graph::Level;
use tcc_near::{NONE, clocks};
use tcc_txn::MAX_TRANSACTIONS;

/// The least numbers of steps of these pairs, from and to, in the history of these records at this level.
fn assert_least(
    rt: &(impl Abort + Threads + Sync),
    alloc: Global,
    level: Level,
    records: &str,
    wanted: &[(u32, u32, Option<u32>)],
) {
    let graph = graph_of(rt, alloc, records);
    let near = near_of(rt, alloc, &graph, level);
    assert!(rt; is_level(near.level(), level), "of {records}");
    for (a, b, steps) in wanted {
        let (a, b) = (*a, *b);
        assert!(rt; a < graph.count());
        assert!(rt; b < graph.count());
        assert_eq!(rt; near.least(a, b), *steps, "from {a} to {b} of {records}");
        let none = near.row(a)[b as usize] == NONE;
        assert_eq!(rt; none, steps.is_none());
    }
}

/// The last places of each session after each transaction of the history of these records.
fn assert_clocks(
    rt: &(impl Abort + Threads + Sync),
    alloc: Global,
    records: &str,
    wanted: &[&[u32]],
) {
    let graph = graph_of(rt, alloc, records);
    let Ok(clocks) = clocks(rt, alloc, &graph) else {
        panic!(rt; "no memory");
    };
    assert!(rt; wanted.len() == graph.count() as usize);
    for t in 0..graph.count() {
        let places = wanted[t as usize];
        let row = clocks.row(t);
        assert!(rt; row == places, "of {t} of {records}");
        for session in 0..u32::MAX {
            let Some(place) = row.get(session as usize) else {
                break;
            };
            assert_eq!(rt; clocks.last(t, session), *place);
        }
    }
}

/// A step leads over a session's pair however far, or over a read; on a cycle a transaction reaches itself by at least one step.
#[test]
fn least_steps(rt: HostRuntime) {
    let alloc = rt.alloc();
    let cases: [(&str, &[(u32, u32, Option<u32>)]); 4] = [
        (
            STALE_READ,
            &[
                (0, 0, None),
                (0, 1, Some(1)),
                (0, 2, Some(1)),
                (1, 0, None),
                (1, 1, None),
                (1, 2, Some(1)),
                (2, 1, None),
                (2, 2, None),
            ],
        ),
        (
            CHAIN,
            &[
                (1, 2, Some(1)),
                (1, 3, Some(2)),
                (1, 4, Some(3)),
                (2, 4, Some(2)),
                (0, 4, Some(1)),
                (4, 1, None),
            ],
        ),
        (
            TWO_WRITERS,
            &[(1, 3, Some(1)), (2, 3, Some(1)), (1, 2, None), (3, 1, None)],
        ),
        (
            MUTUAL,
            &[
                (0, 0, None),
                (1, 1, Some(2)),
                (2, 2, Some(2)),
                (1, 2, Some(1)),
                (2, 1, Some(1)),
            ],
        ),
    ];
    for (records, wanted) in cases {
        assert_least(&rt, alloc, Level::Causal, records, wanted);
    }
}

/// At `Atomic` a causal pair is one step, and two of them lead nowhere: not to a third transaction, and not back.
#[test]
fn single_steps(rt: HostRuntime) {
    let alloc = rt.alloc();
    let cases: [(&str, &[(u32, u32, Option<u32>)]); 3] = [
        (
            "a,begin\na,w,x,1\na,commit\na,begin\na,w,y,1\na,commit\n\
            b,begin\nb,r,y,1\nb,r,x,0\nb,commit\n",
            &[
                (0, 0, None),
                (0, 1, Some(1)),
                (0, 3, Some(1)),
                (1, 2, Some(1)),
                (2, 3, Some(1)),
                (1, 3, None),
                (3, 1, None),
            ],
        ),
        (
            "a,begin\na,w,x,1\na,commit\nb,begin\nb,r,x,1\nb,w,y,1\nb,commit\n\
            c,begin\nc,r,y,1\nc,commit\nc,begin\nc,r,x,1\nc,commit\n",
            &[
                (1, 2, Some(1)),
                (1, 3, None),
                (1, 4, Some(1)),
                (2, 3, Some(1)),
                (2, 4, None),
                (3, 4, Some(1)),
            ],
        ),
        (
            MUTUAL,
            &[(1, 2, Some(1)), (2, 1, Some(1)), (1, 1, None), (2, 2, None)],
        ),
    ];
    for (records, wanted) in cases {
        assert_least(&rt, alloc, Level::Atomic, records, wanted);
    }
}

/// As many transactions as an input may have, in one session.
#[test]
fn steps_of_the_longest_chain(rt: HostRuntime) -> Result<(), Fail> {
    let alloc = rt.alloc();
    let mut records = String::new(alloc);
    for _ in 0..MAX_TRANSACTIONS {
        records.push_str("a,begin\na,commit\n")?;
    }
    let last = MAX_TRANSACTIONS as u32;
    let wanted = [
        (1, last, Some(1)),
        (0, last, Some(1)),
        (last, 1, None),
        (last, last, None),
    ];
    assert_least(&rt, alloc, Level::Causal, &records, &wanted);
    Ok(())
}

/// Places count aborted transactions, and a session that has only aborted ones has its column. On a cycle a transaction comes after itself.
#[test]
fn places_behind(rt: HostRuntime) {
    let alloc = rt.alloc();
    let cases: [(&str, &[&[u32]]); 2] = [
        (
            "a,begin\na,w,x,1\na,commit\nb,begin\nb,w,y,1\nb,commit\n\
            c,begin\nc,r,x,1\nc,r,y,0\nc,commit\nd,begin\nd,r,x,0\nd,r,y,1\nd,commit\n",
            &[
                &[0, 0, 0, 0],
                &[0, 0, 0, 0],
                &[0, 0, 0, 0],
                &[1, 0, 0, 0],
                &[0, 1, 0, 0],
            ],
        ),
        (
            "a,begin\na,w,z,1\na,abort\na,begin\na,r,y,1\na,w,x,1\na,commit\na,begin\na,abort\n\
            a,begin\na,commit\nb,begin\nb,abort\nc,begin\nc,r,x,1\nc,w,y,1\nc,commit\n",
            &[&[0, 0, 0], &[2, 0, 1], &[2, 0, 1], &[2, 0, 1]],
        ),
    ];
    for (records, wanted) in cases {
        assert_clocks(&rt, alloc, records, wanted);
    }
}

/// A value that is pushed comes after those that were there.
#[test]
fn rows_grow_at_their_end(rt: HostRuntime) -> Result<(), Fail> {
    let mut row = Row::new(vec![in rt.alloc(); 3u32]?);
    assert!(rt; row.push(5).is_ok());
    assert!(rt; row.as_slice() == [3, 5].as_slice());
    Ok(())
}

//! Worked histories, with their first commit orders worked out by hand.
use crate::tests::histories::{LONG_WALK, MUTUAL, STALE_READ, TWO_WRITERS, graph_of};
use std::alloc::Global;
use std::process::Abort;
use std::thread::Threads;
use tcc_base::Workers;
use tcc_graph::{LargeGraph, Level};
use tcc_order::{Placement, order, order_of_pairs, place, place_by};
use tcc_reads::resolve_large;
use tcc_rows::large_snapshot_of;

/// The first commit order of these records at a level has to be this, or there has to be none.
fn assert_order(
    rt: &impl Abort,
    alloc: Global,
    records: &str,
    level: Level,
    wanted: Option<&[u32]>,
) {
    let graph = graph_of(rt, alloc, records);
    let Ok(found) = order(alloc, &graph, level) else {
        panic!(rt; "no memory");
    };
    match found {
        Some(order) => assert!(rt; Some(order.as_slice()) == wanted, "of {records}"),
        None => assert!(rt; wanted.is_none(), "of {records}"),
    }
}

/// Nothing comes before `init`, and a source comes before its reader. A writer that reaches a reader of another's value comes before the
/// other, and what nothing holds back comes by number. There is no order where a reader of the initial value comes after a writer, and
/// where two read from one another. At `Atomic` a writer that reaches the reader by more than one pair holds nothing back.
#[test]
fn first_orders(rt: HostRuntime) {
    let alloc = rt.alloc();
    let cases: [(&str, Option<&[u32]>, Option<&[u32]>); 10] = [
        ("", Some(&[0]), Some(&[0])),
        (
            "a,begin\na,w,x,1\na,commit\nb,begin\nb,w,y,1\nb,commit\n\
            c,begin\nc,r,x,1\nc,r,y,0\nc,commit\nd,begin\nd,r,x,0\nd,r,y,1\nd,commit\n",
            Some(&[0, 1, 2, 3, 4]),
            Some(&[0, 1, 2, 3, 4]),
        ),
        (
            "a,begin\na,r,x,0\na,w,x,1\na,commit\nb,begin\nb,r,x,0\nb,w,x,2\nb,commit\n",
            Some(&[0, 1, 2]),
            Some(&[0, 1, 2]),
        ),
        (
            "a,begin\na,r,x,1\na,commit\nb,begin\nb,w,x,1\nb,commit\n",
            Some(&[0, 2, 1]),
            Some(&[0, 2, 1]),
        ),
        (
            "a,begin\na,r,x,1\na,commit\nb,begin\nb,w,y,1\nb,commit\nc,begin\nc,w,x,1\nc,commit\n",
            Some(&[0, 2, 3, 1]),
            Some(&[0, 2, 3, 1]),
        ),
        (
            "a,begin\na,w,x,1\na,commit\nb,begin\nb,w,x,2\nb,w,y,1\nb,commit\n\
            c,begin\nc,r,y,1\nc,r,x,1\nc,commit\n",
            Some(&[0, 2, 1, 3]),
            Some(&[0, 2, 1, 3]),
        ),
        (
            "a,begin\na,w,x,1\na,commit\nb,begin\nb,w,x,2\nb,w,y,1\nb,commit\n\
            c,begin\nc,r,y,1\nc,w,z,1\nc,commit\nd,begin\nd,r,z,1\nd,r,x,1\nd,commit\n",
            Some(&[0, 2, 1, 3, 4]),
            Some(&[0, 1, 2, 3, 4]),
        ),
        (STALE_READ, None, None),
        (LONG_WALK, None, Some(&[0, 1, 2, 3])),
        (
            "a,begin\na,w,x,1\na,r,y,1\na,commit\nb,begin\nb,w,y,1\nb,r,x,1\nb,commit\n",
            None,
            None,
        ),
    ];
    for (records, causal, atomic) in cases {
        assert_order(&rt, alloc, records, Level::Causal, causal);
        assert_order(&rt, alloc, records, Level::Atomic, atomic);
    }
}

/// Where there is no order of these records at a level, these links have to be kept, and these transactions placed.
fn assert_stuck(
    rt: &impl Abort,
    alloc: Global,
    records: &str,
    level: Level,
    kept: &[&[u32]],
    placed: u64,
) {
    let graph = graph_of(rt, alloc, records);
    let Ok(Placement::Stuck(stuck)) = place(alloc, &graph, level) else {
        panic!(rt; "there is an order of {records}");
    };
    assert!(rt; stuck.kept.len() == kept.len(), "of {records}");
    for (number, wanted) in kept.iter().enumerate() {
        assert!(rt; stuck.kept.row(number) == *wanted, "of {records}");
    }
    assert!(rt;
        stuck.placed.as_slice() == [placed].as_slice(),
        "of {records}"
    );
}

/// Two writers have to come before one another, because of a reader of both: each is kept for the other, and nothing but `init` is placed.
/// A writer that has to come before `init` leaves nothing to be placed at all. Where two read from one another no link is needed.
#[test]
fn what_is_left(rt: HostRuntime) {
    let alloc = rt.alloc();
    for level in [Level::Causal, Level::Atomic] {
        assert_stuck(&rt, alloc, TWO_WRITERS, level, &[&[], &[2], &[1], &[]], 1);
        assert_stuck(&rt, alloc, STALE_READ, level, &[&[1], &[], &[]], 0);
        assert_stuck(&rt, alloc, MUTUAL, level, &[&[], &[], &[]], 1);
    }
}

/// Pairs alone leave an order where links lead back, and none where two transactions read from one another.
#[test]
fn orders_of_pairs(rt: HostRuntime) {
    let alloc = rt.alloc();
    let graph = graph_of(&rt, alloc, STALE_READ);
    let Ok(Some(order)) = order_of_pairs(alloc, &graph) else {
        panic!(&rt; "pairs stand in a circle");
    };
    assert!(rt; order.as_slice() == [0, 1, 2].as_slice());
    let graph = graph_of(&rt, alloc, MUTUAL);
    let none = matches!(order_of_pairs(alloc, &graph), Ok(None));
    assert!(rt; none);
}

/// Records of sessions in four blocks. Each of 75 readers has observed one of the writers by y, and then reads x from another, so that the
/// one has to come before the other.
fn many_sessions(rt: &impl Abort, alloc: Global, last: &str) -> String {
    let mut text = String::new(alloc);
    for k in 100..250 {
        let writer = format!(in alloc; "w{k},begin\nw{k},w,x,{k}\nw{k},w,y,{k}\nw{k},commit\n");
        text.push_str(&writer.expect(rt, "no memory"))
            .expect(rt, "no memory");
    }
    for k in 100..175 {
        let known = k + 75;
        let first = format!(in alloc; "r{k},begin\nr{k},r,y,{known}\nr{k},commit\n");
        text.push_str(&first.expect(rt, "no memory"))
            .expect(rt, "no memory");
        let then = format!(in alloc; "r{k},begin\nr{k},r,x,{k}\nr{k},commit\n");
        text.push_str(&then.expect(rt, "no memory"))
            .expect(rt, "no memory");
    }
    text.push_str(last).expect(rt, "no memory");
    text
}

/// This many workers have to find what one finds alone: the same order, or the same links and what is left.
fn assert_same(
    rt: &(impl Abort + Threads + Sync),
    alloc: Global,
    graph: &LargeGraph,
    level: Level,
    count: u32,
) {
    let alone = place(alloc, graph, level).expect(rt, "no memory");
    let workers = Workers::new(count).expect(rt, "1 to 32 workers");
    let by_workers = place_by(rt, alloc, graph, level, workers).expect(rt, "no memory");
    match (alone, by_workers) {
        (Placement::Order(order), Placement::Order(other)) => {
            assert!(rt; order.as_slice() == other.as_slice(), "by {count}");
        }
        (Placement::Stuck(stuck), Placement::Stuck(other)) => {
            assert!(rt;
                stuck.placed.as_slice() == other.placed.as_slice(),
                "by {count}"
            );
            assert!(rt; stuck.kept.len() == other.kept.len(), "by {count}");
            for number in 0..stuck.kept.len() {
                let same = other.kept.row(number);
                assert!(rt; stuck.kept.row(number) == same, "by {count}");
            }
        }
        _ => panic!(rt; "another answer by {count}"),
    }
}

/// Whatever the number of workers, the order is the same. So are the links by which an order stops, where a session reads the initial value
/// of a key that it wrote.
#[test]
fn by_workers(rt: HostRuntime) {
    let alloc = rt.alloc();
    for last in [
        "",
        "v,begin\nv,w,z,1\nv,commit\nv,begin\nv,r,z,0\nv,commit\n",
    ] {
        let records = many_sessions(&rt, alloc, last);
        let snapshot = large_snapshot_of(alloc, records.as_bytes()).expect(&rt, "unlawful");
        let resolved = resolve_large(alloc, &snapshot).expect(&rt, "faults");
        let graph = LargeGraph::build(alloc, resolved).expect(&rt, "no memory");
        for count in [1, 2, 4, 32] {
            assert_same(&rt, alloc, &graph, Level::Causal, count);
            assert_same(&rt, alloc, &graph, Level::Atomic, count);
        }
    }
}

//! Decisions about worked histories treated as large ones, compared with the first orders and with cycles that were worked out by hand.
use crate::tests::histories::{
    CHAIN, LONG_WALK, MUTUAL, ONE_READ, STALE_READ, TWO_WRITERS, graph_of,
};
use std::alloc::Global;
use std::process::Abort;
use tcc_graph::{Level, Link, is_cycle};
use tcc_large::{Decision, decide, explain_large};
use tcc_order::order;
use tcc_reads::ResolveFault;
use tcc_rows::snapshot_of;
use tcc_slices::{records, slice};

/// A read of the initial value in one session, which had observed the writer in another by way of two sessions between.
const FAR_INIT: &str = "a,begin\na,w,x,1\na,commit\na,begin\na,w,y,1\na,commit\n\
    b,begin\nb,r,y,1\nb,commit\nb,begin\nb,w,z,1\nb,commit\n\
    c,begin\nc,r,z,1\nc,commit\nc,begin\nc,r,x,0\nc,commit\n";

/// a/1 and b/1 overwrite each other's x, as c/2 and d/2 saw it, and nobody reads an initial value.
const CONFLICT: &str = "a,begin\na,w,x,1\na,commit\nb,begin\nb,w,x,2\nb,commit\n\
    c,begin\nc,r,x,1\nc,commit\nc,begin\nc,r,x,2\nc,commit\n\
    d,begin\nd,r,x,2\nd,commit\nd,begin\nd,r,x,1\nd,commit\n";

/// Three sessions that read from one another in a cycle, each in a transaction before the one that is read from.
const PAIRS: &str = "a,begin\na,r,z,1\na,commit\na,begin\na,w,x,1\na,commit\n\
    b,begin\nb,r,x,1\nb,commit\nb,begin\nb,w,y,1\nb,commit\n\
    c,begin\nc,r,y,1\nc,commit\nc,begin\nc,w,z,1\nc,commit\n";

/// How many derived links there are.
fn derived(links: &[Link]) -> usize {
    let mut count: usize = 0;
    for link in links {
        if matches!(link, Link::Derived { .. }) {
            count = count.saturating_add(1);
        }
    }
    count
}

/// The decision about these records at a level has to be the first order where there is one, and else a cycle of this many links, this many
/// of them derived.
fn assert_decided(
    rt: &impl Abort,
    alloc: Global,
    records: &str,
    level: Level,
    wanted: Option<(usize, usize)>,
) {
    let graph = graph_of(rt, alloc, records);
    let (decision, _order) = decide(alloc, &graph, level).expect(rt, "no memory");
    let first = order(alloc, &graph, level).expect(rt, "no memory");
    match &decision {
        Decision::Order(found) => {
            assert!(rt; wanted.is_none(), "an order of {records}");
            let first = first.expect(rt, records);
            assert!(rt; found.as_slice() == first.as_slice(), "of {records}");
        }
        Decision::Least(links) | Decision::Cycle(links) => {
            assert!(rt; first.is_none(), "a cycle of {records}");
            assert!(rt; is_cycle(&graph, level, links), "of {records}");
            let found = (links.len(), derived(links));
            assert!(rt; Some(found) == wanted, "of {records}");
        }
    }
}

/// Where there is an order it is the first. Else there is a cycle: one through `init`, one of pairs, or one in which two writers come
/// before each other. At `Atomic` this is so only where a single pair leads from a writer to a reader of what it wrote.
#[test]
fn decisions(rt: HostRuntime) {
    let alloc = rt.alloc();
    let cases: [(&str, Option<(usize, usize)>, Option<(usize, usize)>); 10] = [
        ("", None, None),
        (ONE_READ, None, None),
        (STALE_READ, Some((2, 1)), Some((2, 1))),
        (TWO_WRITERS, Some((2, 2)), Some((2, 2))),
        (LONG_WALK, Some((2, 1)), None),
        (CHAIN, Some((2, 1)), None),
        (FAR_INIT, Some((2, 1)), None),
        (MUTUAL, Some((2, 0)), Some((2, 0))),
        (CONFLICT, Some((2, 2)), None),
        (PAIRS, Some((6, 0)), Some((6, 0))),
    ];
    for (records, causal, atomic) in cases {
        assert_decided(&rt, alloc, records, Level::Causal, causal);
        assert_decided(&rt, alloc, records, Level::Atomic, atomic);
    }
}

/// No links are no cycle, nor are those of one without the last, nor those whose reason is another's.
#[test]
fn judged(rt: HostRuntime) {
    let alloc = rt.alloc();
    let graph = graph_of(&rt, alloc, PAIRS);
    let (decision, _order) = decide(alloc, &graph, Level::Causal).expect(&rt, "no memory");
    assert!(&rt; matches!(decision, Decision::Cycle(_)));
    let links = decision.links().expect(&rt, "no cycle");
    assert!(&rt; is_cycle(&graph, Level::Causal, links));
    assert!(&rt; !is_cycle(&graph, Level::Causal, &[]));
    assert!(&rt; !is_cycle(&graph, Level::Causal, &links[1..]));
    let other = graph_of(&rt, alloc, CHAIN);
    assert!(&rt; !is_cycle(&other, Level::Causal, links));
}

/// The records of the slice of these records by the cycle that is found at `Causal`.
fn assert_slice(rt: &impl Abort, alloc: Global, whole: &str, wanted: &str) {
    let graph = graph_of(rt, alloc, whole);
    let (decision, _order) = decide(alloc, &graph, Level::Causal).expect(rt, "no memory");
    assert!(rt; matches!(decision, Decision::Least(_)), "of {whole}");
    let links = decision.links().expect(rt, whole);
    let snapshot = snapshot_of(alloc, whole.as_bytes())
        .expect(rt, whole)
        .large();
    let found = slice(alloc, &snapshot, &graph, Level::Causal, links).expect(rt, "no memory");
    let part = found.expect(rt, whole);
    let text = records(alloc, &part).expect(rt, "no memory");
    assert!(rt; text.as_slice() == wanted.as_bytes(), "of {whole}");
}

/// A slice has the operations that the links need, in the order of the whole. Of two writes of a key it has the visible one, of a read of
/// an own write nothing, and no aborted transactions.
#[test]
fn slices(rt: HostRuntime) {
    let alloc = rt.alloc();
    assert_slice(&rt, alloc, STALE_READ, STALE_READ);
    assert_slice(&rt, alloc, TWO_WRITERS, TWO_WRITERS);
    assert_slice(
        &rt,
        alloc,
        MUTUAL,
        "a,begin\na,r,y,1\na,w,x,1\na,commit\nb,begin\nb,r,x,1\nb,w,y,1\nb,commit\n",
    );
    assert_slice(
        &rt,
        alloc,
        "a,begin\na,w,v,8\na,abort\na,begin\na,r,u,0\na,w,x,4\na,w,y,1\na,w,x,5\na,r,x,5\na,commit\n\
        b,begin\nb,w,u,1\nb,commit\na,begin\na,r,y,1\na,r,x,0\na,r,u,1\na,commit\n",
        "a,begin\na,w,x,5\na,commit\na,begin\na,r,x,0\na,commit\n",
    );
}

/// With a cycle of more than four steps comes an order that keeps all pairs, `init` first: the only one there is where they lead along all
/// transactions. There is none where pairs form a cycle, and none with another answer.
#[test]
fn orders_to_judge(rt: HostRuntime) {
    let alloc = rt.alloc();
    let cases: [(&str, &[u32]); 4] = [
        (FAR_INIT, &[0, 1, 2, 3, 4, 5, 6]),
        (PAIRS, &[]),
        (STALE_READ, &[]),
        (ONE_READ, &[]),
    ];
    for (records, wanted) in cases {
        let snapshot = snapshot_of(alloc, records.as_bytes())
            .expect(&rt, records)
            .large();
        let (_answer, order) = explain_large(alloc, &snapshot, Level::Causal).expect(&rt, records);
        let found = order.unwrap_or(Vec::new(alloc));
        assert!(&rt; found.as_slice() == wanted, "of {records}");
    }
}

/// A large snapshot is answered with its graph, at the level that was asked for; or with its read faults.
#[test]
fn large_answers(rt: HostRuntime) {
    let alloc = rt.alloc();
    let chain = snapshot_of(alloc, CHAIN.as_bytes())
        .expect(&rt, CHAIN)
        .large();
    let (causal, _) = explain_large(alloc, &chain, Level::Causal).expect(&rt, CHAIN);
    assert!(&rt; causal.graph.count() == 5);
    assert!(&rt; matches!(causal.decision, Decision::Least(_) | Decision::Cycle(_)));
    let (atomic, _) = explain_large(alloc, &chain, Level::Atomic).expect(&rt, CHAIN);
    assert!(&rt; matches!(atomic.decision, Decision::Order(_)));
    let thin = "a,begin\na,r,x,1\na,commit\n";
    let snapshot = snapshot_of(alloc, thin.as_bytes())
        .expect(&rt, thin)
        .large();
    match explain_large(alloc, &snapshot, Level::Causal) {
        Err(ResolveFault::Reads(faults)) => assert!(&rt; faults.len() == 1),
        _ => panic!(&rt; "no faults of {thin}"),
    }
}

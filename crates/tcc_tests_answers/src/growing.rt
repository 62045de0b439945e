//! Answers for histories that go on, and for others, after an anomaly: worked out by hand.
use crate::answers::{OWN, OWN_TEXT, answer_of, text_of, workers_of};
use std::alloc::Global;
use std::process::Abort;
use std::test::Fail;
use std::thread::Threads;
use tcc_answer::{Anomaly, Answer, CappedRows, Labels};
use tcc_cert::Links;
use tcc_explain::laws::grown;
use tcc_explain::{NextFault, OpenGate, Workers, explain_next};
use tcc_graph::{Graph, Level, Link};
use tcc_reads::resolve;
use tcc_rows::snapshot_of;
use tcc_txn::Snapshot;

/// Two writes of one session; another session has observed the later and misses the earlier.
const MONOTONIC: &str = "a,begin\na,w,x,1\na,commit\na,begin\na,w,y,1\na,commit\n\
    b,begin\nb,r,y,1\nb,r,x,0\nb,commit\n";

/// Two transactions that read from each other.
const CIRCLE: &str = "a,begin\na,w,x,1\na,r,y,1\na,commit\nb,begin\nb,w,y,1\nb,r,x,1\nb,commit\n";

/// Two writes that two others see in opposite orders: each may come before the other.
const FORK: &str = "a,begin\na,w,x,1\na,commit\nb,begin\nb,w,y,1\nb,commit\n\
    c,begin\nc,r,x,1\nc,r,y,0\nc,commit\nd,begin\nd,r,x,0\nd,r,y,1\nd,commit\n";

/// Records, those that follow them, a level, and the text of the answer after that of the first. The least anomaly falls from 4 steps to 3.
/// It stays as it is where nothing follows. It also stays where a session follows that sorts first, so that all numbers move. A cycle of
/// reads alone, and a level, stay too.
const GROWN: [(&str, &str, Level, &str); 5] = [
    (
        MONOTONIC,
        "a,begin\na,r,x,0\na,commit\n",
        Level::Causal,
        "anomaly: 3 steps, stale-initial-read\nsession init -> a/1\n\
        derived a/1 -> init by x, read by a/3\n  session a/1 -> a/3\n  against init -> a/3 by x\n",
    ),
    (OWN, "", Level::Causal, OWN_TEXT),
    (
        OWN,
        "A,begin\nA,r,x,1\nA,w,z,1\nA,commit\n",
        Level::Causal,
        OWN_TEXT,
    ),
    (
        CIRCLE,
        "A,begin\nA,commit\nb,begin\nb,abort\n",
        Level::Causal,
        "anomaly: 2 steps, cyclic-causality\nreads a/1 -> b/1 by x\nreads b/1 -> a/1 by y\n",
    ),
    (OWN, "b,begin\nb,r,x,1\nb,commit\n", Level::Atomic, OWN_TEXT),
];

/// The anomaly of these records, without its tables.
fn anomaly_of(
    rt: &(impl Threads + Sync),
    alloc: Global,
    records: &str,
    level: Level,
) -> Option<Anomaly> {
    match answer_of(rt, alloc, records, level, Workers::ONE)? {
        Answer::Anomaly(anomaly) => Some(anomaly.without_tables(alloc)),
        Answer::Commit(_) => None,
    }
}

/// The answer for some records and those that follow them, after the anomaly of the first.
fn assert_grown(
    rt: &(impl Threads + Sync + Abort),
    alloc: Global,
    row: &(&str, &str, Level, &str),
    workers: Workers,
) {
    let (records, more, level, text) = row;
    let earlier = anomaly_of(rt, alloc, records, *level).expect(rt, "an anomaly");
    let later = format!(in alloc; "{records}{more}").expect(rt, "records");
    let snapshot = snapshot_of(alloc, later.as_bytes()).expect(rt, "a snapshot");
    match explain_next(rt, alloc, &snapshot, &earlier, workers, &OpenGate) {
        Ok(answer) => {
            let out = text_of(alloc, &answer).expect(rt, "a text");
            assert_eq!(rt; out.as_slice(), text.as_bytes(), "for {later}");
        }
        Err(_) => panic!(rt; "no answer"),
    }
}

#[test]
fn anomalies_stay(rt: HostRuntime) {
    for row in &GROWN {
        for workers in [1, 2, 32] {
            assert_grown(&rt, rt.alloc(), row, workers_of(&rt, workers));
        }
    }
    grown();
}

/// The first link that a history doesn't have, if it doesn't continue the one of the anomaly; but read faults come before that.
#[test]
fn missing_links(rt: HostRuntime) -> Result<(), Fail> {
    let alloc = rt.alloc();
    let fork = snapshot_of(alloc, FORK.as_bytes())?;
    for (records, missing) in [(OWN, 2), (CIRCLE, 1)] {
        let earlier = anomaly_of(&rt, alloc, records, Level::Causal).expect(&rt, "an anomaly");
        match explain_next(&rt, alloc, &fork, &earlier, Workers::ONE, &OpenGate) {
            Err(NextFault::NotNested { link }) => assert_eq!(&rt; link, missing),
            _ => panic!(&rt; "each link is one"),
        }
        let thin = snapshot_of(alloc, "b,begin\nb,r,z,7\nb,commit\n".as_bytes())?;
        match explain_next(&rt, alloc, &thin, &earlier, Workers::ONE, &OpenGate) {
            Err(NextFault::Reads(faults)) => assert_eq!(&rt; faults.len(), 1),
            _ => panic!(&rt; "no read faults"),
        }
    }
    Ok(())
}

/// An anomaly made by the test: a link of a history that has none, and no cycle.
fn made(alloc: Global, snapshot: &Snapshot) -> Option<Anomaly> {
    let resolved = resolve(alloc, snapshot).ok()?;
    let graph = Graph::build(alloc, resolved).ok()?;
    let labels = Labels::of(alloc, &graph).ok()?;
    let mut links = Vec::new(alloc);
    links.push(Link::Session { from: 0, to: 1 }).ok()?;
    let (near, far) = (CappedRows::empty(alloc), CappedRows::empty(alloc));
    Some(Anomaly::new(Level::Causal, Links::new(links), 1, near, far, labels))
}

/// Links that are no cycle don't change the answer.
#[test]
fn order_after_no_cycle(rt: HostRuntime) -> Result<(), Fail> {
    let alloc = rt.alloc();
    let fork = snapshot_of(alloc, FORK.as_bytes())?;
    let earlier = made(alloc, &fork).expect(&rt, "links");
    match explain_next(&rt, alloc, &fork, &earlier, workers_of(&rt, 2), &OpenGate) {
        Ok(answer) => {
            let out = text_of(alloc, &answer).expect(&rt, "a text");
            let text = "consistent: 4 transactions, 4 sessions\norder: init a/1 b/1 c/1 d/1\n";
            assert_eq!(&rt; out.as_slice(), text.as_bytes());
        }
        Err(_) => panic!(&rt; "no answer"),
    }
    Ok(())
}

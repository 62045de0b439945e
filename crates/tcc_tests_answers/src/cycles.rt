//! First cycles of worked histories: where they start, what they cost and how many links they have.
use crate::answers::{STALE, TORN, answer_of, workers_of};
use std::process::Abort;
use std::thread::Threads;
use tcc_answer::Answer;
use tcc_core::laws::{bounded, parts, picked};
use tcc_graph::{Level, Link};

/// Two that read one another, where a dearer cycle starts at a lower number.
const CIRCLE: &str =
    "a,begin\na,r,x,0\na,r,y,1\na,w,x,1\na,commit\nb,begin\nb,r,x,1\nb,w,y,1\nb,commit\n";

/// Two writes of one key, of which the other session reads the initial value.
const FORK: &str = "a,begin\na,w,x,1\na,commit\nb,begin\nb,r,x,0\nb,commit\n";

/// The start, the cost and the number of links of the cycle, if the answer is one.
fn measured(answer: &Answer) -> Option<(u32, u32, usize)> {
    let Answer::Anomaly(anomaly) = answer else {
        return None;
    };
    let start = match anomaly.links().first()? {
        Link::Session { from, .. } => *from,
        Link::Reads { from, .. } => *from,
        Link::Derived { from, .. } => *from,
    };
    Some((start, anomaly.cost(), anomaly.links().len()))
}

/// Two writes read by one; a dearer cycle from a lower number; a fork; and an old value read after a walk of three pairs,
/// which one level allows.
#[test]
fn first_cycles(rt: HostRuntime) {
    picked();
    parts();
    bounded();
    let alloc = rt.alloc();
    let table = [
        (TORN, Level::Atomic, Some((1, 4, 2))),
        (CIRCLE, Level::Causal, Some((1, 2, 2))),
        (FORK, Level::Causal, None),
        (STALE, Level::Causal, Some((0, 5, 2))),
        (STALE, Level::Atomic, None),
    ];
    for (records, level, wanted) in table {
        let answer = answer_of(&rt, alloc, records, level, workers_of(&rt, 2)).expect(
            &rt,
            "an answer",
        );
        assert_eq!(&rt; measured(&answer), wanted, "for {records}");
    }
}

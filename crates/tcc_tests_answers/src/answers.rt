//! Answers for records, and their texts.
use std::alloc::Global;
use std::fmt::Display;
use std::process::Abort;
use std::thread::Threads;
use tcc_answer::{Answer, write_text};
use tcc_explain::{OpenGate, Workers, explain};
use tcc_graph::Level;
use tcc_rows::snapshot_of;

/// a/1 writes x, b/1 reads it and writes y, c/1 reads y, and c/2 the initial value of x.
pub const STALE: &str = "a,begin\na,w,x,1\na,commit\nb,begin\nb,r,x,1\nb,w,y,1\nb,commit\n\
    c,begin\nc,r,y,1\nc,commit\nc,begin\nc,r,x,0\nc,commit\n";

/// A read of the initial value after an own write.
pub const OWN: &str = "a,begin\na,w,x,1\na,commit\na,begin\na,r,x,0\na,commit\n";

pub const OWN_TEXT: &str = "anomaly: 3 steps, stale-initial-read\nsession init -> a/1\n\
    derived a/1 -> init by x, read by a/2\n  session a/1 -> a/2\n  against init -> a/2 by x\n";

/// Two writes that one transaction reads both.
pub const TORN: &str = "a,begin\na,w,x,1\na,commit\nb,begin\nb,w,x,2\nb,commit\n\
    c,begin\nc,r,x,1\nc,r,x,2\nc,commit\n";

/// This many workers.
pub fn workers_of(rt: &impl Abort, count: u32) -> Workers {
    Workers::new(count).expect(rt, "1 to 32 workers")
}

/// The answer for records that have one, by this many workers.
pub fn answer_of(
    rt: &(impl Threads + Sync),
    alloc: Global,
    records: &str,
    level: Level,
    workers: Workers,
) -> Option<Answer> {
    let snapshot = snapshot_of(alloc, records.as_bytes()).ok()?;
    explain(rt, alloc, &snapshot, level, workers, &OpenGate).ok()
}

/// The value shows as this text.
pub fn assert_shows(rt: &impl Abort, alloc: Global, value: &impl Display, text: &str) {
    assert_eq!(rt; value.to_string(alloc).expect(rt, "room").as_str(), text);
}

/// The text of an answer.
pub fn text_of(alloc: Global, answer: &Answer) -> Option<Vec<u8>> {
    let mut out = Vec::new(alloc);
    write_text(alloc, answer, &mut out).ok()?;
    Some(out)
}

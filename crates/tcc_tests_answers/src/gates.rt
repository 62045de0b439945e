//! Workers and gate reach the threads by every call that searches: a mutant fails that goes on with one worker, or with a gate of its own.
use crate::answers::{OWN_TEXT, answer_of, text_of, workers_of};
use crate::books::{opened, recorder};
use std::alloc::Global;
use std::process::Abort;
use std::sync::Wait;
use std::sync::atomic::{AtomicU64, Ordering};
use std::thread::Threads;
use std::{io, thread};
use tcc_answer::Answer;
use tcc_book::Book;
use tcc_explain::{Workers, explain, explain_next};
use tcc_graph::Level;
use tcc_rows::snapshot_of;
use tcc_run::{Gate, Options, audit, explain_snapshot, run_explain};
use tcc_txn::Snapshot;

/// A read of the initial value after an own write, once in each of two sessions: five starts.
const TWICE: &str = "a,begin\na,w,x,1\na,commit\na,begin\na,r,x,0\na,commit\n\
    b,begin\nb,w,y,1\nb,commit\nb,begin\nb,r,y,0\nb,commit\n";

const STARTS: u64 = 5;

/// Holds its first caller until a given number of starts were entered.
#[derive(Drop)]
struct HeldStart {
    until: u64,
    entered: AtomicU64,
    missed: AtomicU64,
}

impl HeldStart {
    fn new(until: u64) -> HeldStart {
        HeldStart {
            until,
            entered: AtomicU64::new(0),
            missed: AtomicU64::new(0),
        }
    }

    /// The caller that was held met the others, and each start was entered once.
    fn assert_met(&self, rt: &impl Abort) {
        assert_eq!(rt; self.missed.load(Ordering::SeqCst), 0);
        assert_eq!(rt; self.entered.load(Ordering::SeqCst), STARTS);
    }
}

impl Gate for HeldStart {
    fn enter(&self, _worker: u32, _start: u32) {
        if self.entered.fetch_add(1, Ordering::SeqCst) == 0 {
            for _ in 0..100_000_000u32 {
                if self.until <= self.entered.load(Ordering::SeqCst) {
                    return;
                }
                thread::yield_now();
            }
            self.missed.fetch_add(1, Ordering::SeqCst);
        }
    }
}

/// The answer is that of the history, and the workers met.
fn assert_answer(rt: &impl Abort, alloc: Global, answer: Option<Answer>, gate: &HeldStart) {
    let answer = answer.expect(rt, "an answer");
    let out = text_of(alloc, &answer).expect(rt, "a text");
    assert_eq!(rt; out.as_slice(), OWN_TEXT.as_bytes());
    gate.assert_met(rt);
}

/// What the history's records finish.
fn twice(rt: &impl Abort, alloc: Global) -> Snapshot {
    match snapshot_of(alloc, TWICE.as_bytes()) {
        Ok(snapshot) => snapshot,
        Err(_) => panic!(rt; "no snapshot"),
    }
}

/// With the calls that explain a snapshot, one worker is held until the other has entered a start, and until it has entered all.
#[test]
fn snapshots(rt: HostRuntime) {
    let alloc = rt.alloc();
    let snapshot = twice(&rt, alloc);
    let two = workers_of(&rt, 2);
    for until in [2, STARTS] {
        let gate = HeldStart::new(until);
        let answer = explain(&rt, alloc, &snapshot, Level::Causal, two, &gate);
        assert_answer(&rt, alloc, answer.ok(), &gate);
        let gate = HeldStart::new(until);
        let answer = explain_snapshot(&rt, alloc, &snapshot, Level::Causal, two, &gate);
        assert_answer(&rt, alloc, answer.ok(), &gate);
    }
}

/// The same with the call that goes on after an earlier anomaly.
#[test]
fn histories_that_go_on(rt: HostRuntime) {
    let alloc = rt.alloc();
    let snapshot = twice(&rt, alloc);
    let Some(Answer::Anomaly(earlier)) = answer_of(&rt, alloc, TWICE, Level::Causal, Workers::ONE)
    else {
        panic!(&rt; "no anomaly");
    };
    for until in [2, STARTS] {
        let gate = HeldStart::new(until);
        let answer = explain_next(&rt, alloc, &snapshot, &earlier, workers_of(&rt, 2), &gate);
        assert_answer(&rt, alloc, answer.ok(), &gate);
    }
}

/// A run by two workers, which gives the history's answer.
fn run(rt: &(impl Threads + Abort + Sync), alloc: Global, file: Option<Vec<u8>>, gate: &HeldStart) {
    let options = Options {
        level: Level::Causal,
        workers: workers_of(rt, 2),
        json: false,
        required: 0,
    };
    let mut file = file;
    let mut out = Vec::new(alloc);
    let code = run_explain(
        rt,
        alloc,
        TWICE.as_bytes(),
        &mut out,
        &mut file,
        &mut io::sink(),
        options,
        gate,
    );
    assert_eq!(rt; code, 1);
    assert_eq!(rt; out.as_slice(), OWN_TEXT.as_bytes());
}

/// The same with a run whose certificate is wanted.
#[test]
fn runs(rt: HostRuntime) {
    let alloc = rt.alloc();
    for until in [2, STARTS] {
        let gate = HeldStart::new(until);
        run(&rt, alloc, Some(Vec::new(alloc)), &gate);
        gate.assert_met(&rt);
    }
}

/// Where none is wanted, nothing is searched.
#[test]
fn runs_without_a_certificate(rt: HostRuntime) {
    let gate = HeldStart::new(2);
    run(&rt, rt.alloc(), None, &gate);
    assert_eq!(&rt; gate.entered.load(Ordering::SeqCst), 0);
}

/// The answer for a book with the same history.
fn audited(rt: &(impl Threads + Wait + Sync), alloc: Global, gate: &HeldStart) -> Option<Answer> {
    let book = Book::new(alloc).ok()?;
    let mut passes = Vec::new(alloc);
    for pass in opened(rt, alloc, &book, &[b"a", b"b"])? {
        passes.push(recorder(rt, alloc, &book, pass)?).ok()?;
    }
    let two = Workers::new(2)?;
    audit(rt, alloc, &book, &passes, Level::Causal, two, gate).ok()
}

/// The same with an audit.
#[test]
fn audits(rt: HostRuntime) {
    let alloc = rt.alloc();
    for until in [2, STARTS] {
        let gate = HeldStart::new(until);
        let answer = audited(&rt, alloc, &gate);
        assert_answer(&rt, alloc, answer, &gate);
    }
}

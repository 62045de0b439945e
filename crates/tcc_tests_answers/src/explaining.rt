//! Worked histories at a level with their answers as text and as a certificate, worked out by hand.
use crate::answers::{OWN, OWN_TEXT, STALE, TORN, answer_of, assert_shows, text_of, workers_of};
use std::alloc::Global;
use std::process::Abort;
use std::test::Fail;
use std::thread::Threads;
use tcc_answer::Answer;
use tcc_cert::write;
use tcc_explain::laws::{certificates, certified, one_answer};
use tcc_explain::{ExplainFault, NextFault, OpenGate, Workers, explain};
use tcc_graph::Level;
use tcc_reads::ReadFaultKind;
use tcc_rows::snapshot_of;

/// A read of the initial value after a write of another session, which was observed through a later write of that session.
const WRITES: &str = "a,begin\na,w,x,1\na,commit\na,begin\na,w,y,1\na,commit\n\
    b,begin\nb,r,y,1\nb,r,x,0\nb,commit\n";

/// One of two writes of a transaction is read, and the other is not.
const HALF: &str = "a,begin\na,w,x,1\na,w,y,1\na,commit\nb,begin\nb,r,x,1\nb,r,y,0\nb,commit\n";

const HALF_TEXT: &str = "anomaly: 3 steps, stale-initial-read\nsession init -> a/1\n\
    derived a/1 -> init by y, read by b/1\n  reads a/1 -> b/1 by x\n  against init -> b/1 by y\n";

/// Records, a level, and the text of their answer: where the walks of all reasons are single pairs, the levels agree;
/// where they are longer, there is an order at `Atomic`.
const TEXTS: [(&str, Level, &str); 7] = [
    (OWN, Level::Atomic, OWN_TEXT),
    (
        STALE,
        Level::Atomic,
        "consistent: 4 transactions, 3 sessions\norder: init a/1 b/1 c/1 c/2\n",
    ),
    (
        "a,begin\na,w,x,1\na,commit\na,begin\na,w,x,2\na,commit\n\
        b,begin\nb,r,x,2\nb,commit\nb,begin\nb,r,x,1\nb,commit\n",
        Level::Atomic,
        "consistent: 4 transactions, 2 sessions\norder: init a/1 a/2 b/1 b/2\n",
    ),
    (
        TORN,
        Level::Atomic,
        "anomaly: 4 steps, conflict-cycle\nderived a/1 -> b/1 by x, read by c/1\n\
        \x20 reads a/1 -> c/1 by x\n  against b/1 -> c/1 by x\n\
        derived b/1 -> a/1 by x, read by c/1\n  reads b/1 -> c/1 by x\n  against a/1 -> c/1 by x\n",
    ),
    (
        WRITES,
        Level::Atomic,
        "consistent: 3 transactions, 2 sessions\norder: init a/1 a/2 b/1\n",
    ),
    (HALF, Level::Atomic, HALF_TEXT),
    (HALF, Level::Causal, HALF_TEXT),
];

/// Records, a level, and the certificate of their answer. There are two cycles; an order without clocks; one with clocks, in which places
/// are not numbers; and a cycle beside which a walk of two pairs is none at `Atomic`.
const CERTIFICATES: [(&str, Level, &str); 5] = [
    (
        OWN,
        Level::Causal,
        "tcc-certificate 2 causal\ncycle 3 2 3\nS 0 1\nD 1 0 x 2 1\nS 1 2\n\
        near\n3 1 1\n3 3 1\n3 3 3\nfar\n3 1 1\n3 1\n3\nend\n",
    ),
    (
        TORN,
        Level::Causal,
        "tcc-certificate 2 causal\ncycle 4 2 4\nD 1 2 x 3 1\nR 1 3 x\nD 2 1 x 3 1\nR 2 3 x\n\
        near\n4 1 1 1\n4 4 4 1\n4 4 4 1\n4 4 4 4\nfar\n4 1 1 1\n4 2 1\n4 1\n4\nend\n",
    ),
    (
        WRITES,
        Level::Atomic,
        "tcc-certificate 2 atomic\norder 4 2\n0 1 2 3\nend\n",
    ),
    (
        "b,begin\nb,w,x,1\nb,commit\na,begin\na,w,z,1\na,abort\n\
        a,begin\na,r,x,1\na,w,y,1\na,commit\na,begin\na,commit\nc,begin\nc,r,y,1\nc,commit\n",
        Level::Causal,
        "tcc-certificate 2 causal\norder 5 3\n0 3 1 2 4\nclocks\n\
        0 0 0\n0 1 0\n2 1 0\n0 0 0\n2 1 0\nend\n",
    ),
    (
        "a,begin\na,w,x,1\na,commit\na,begin\na,r,x,0\na,w,y,1\na,commit\nb,begin\nb,r,y,1\nb,commit\n",
        Level::Atomic,
        "tcc-certificate 2 atomic\ncycle 4 2 3\nS 0 1\nD 1 0 x 2 1\nS 1 2\n\
        near\n3 1 1 1\n3 3 1 3\n3 3 3 1\n3 3 3 3\nfar\n3 1 1 1\n3 1 2\n3 1\n3\nend\n",
    ),
];

/// What is said about an answer.
#[derive(Clone, Copy)]
enum Form {
    Text,
    Certificate,
    CertificateAsValue,
}

fn said(alloc: Global, answer: &Answer, form: Form) -> Option<Vec<u8>> {
    match form {
        Form::Text => text_of(alloc, answer),
        Form::Certificate => {
            let mut out = Vec::new(alloc);
            answer.write_certificate(&mut out).ok()?;
            Some(out)
        }
        Form::CertificateAsValue => {
            let mut out = Vec::new(alloc);
            write(&answer.certificate(alloc).ok()?, &mut out).ok()?;
            Some(out)
        }
    }
}

/// The same is said by 1, 2 and 32 workers.
fn assert_said(
    rt: &(impl Threads + Sync + Abort),
    alloc: Global,
    rows: &[(&str, Level, &str)],
    form: Form,
) {
    for (records, level, text) in rows {
        for workers in [1, 2, 32] {
            let workers = workers_of(rt, workers);
            let answer = answer_of(rt, alloc, records, *level, workers).expect(rt, "an answer");
            let out = said(alloc, &answer, form).expect(rt, "what is said");
            assert_eq!(rt; out.as_slice(), text.as_bytes(), "for {records}");
        }
    }
}

#[test]
fn texts(rt: HostRuntime) {
    assert_said(&rt, rt.alloc(), &TEXTS, Form::Text);
}

#[test]
fn certificates_of_answers(rt: HostRuntime) {
    for form in [Form::Certificate, Form::CertificateAsValue] {
        assert_said(&rt, rt.alloc(), &CERTIFICATES, form);
    }
    certificates();
    certified();
    one_answer();
}

/// All read faults, and no answer.
#[test]
fn read_faults(rt: HostRuntime) -> Result<(), Fail> {
    let alloc = rt.alloc();
    let records = "a,begin\na,w,x,1\na,abort\nb,begin\nb,r,x,1\nb,r,z,7\nb,commit\n";
    let snapshot = snapshot_of(alloc, records.as_bytes())?;
    match explain(
        &rt,
        alloc,
        &snapshot,
        Level::Causal,
        Workers::ONE,
        &OpenGate,
    ) {
        Err(ExplainFault::Reads(faults)) => {
            assert_eq!(&rt; faults.len(), 2);
            assert!(&rt; faults[0].kind == ReadFaultKind::Aborted && faults[0].op == 1);
            assert!(&rt; faults[1].kind == ReadFaultKind::ThinAir && faults[1].op == 2);
        }
        _ => panic!(&rt; "an answer"),
    }
    Ok(())
}

const UNEXPLAINED: &str = "some operations read or write what no source explains";

#[test]
fn faults_as_text(rt: HostRuntime) {
    let alloc = rt.alloc();
    assert_shows(
        &rt,
        alloc,
        &ExplainFault::Reads(Vec::new(alloc)),
        UNEXPLAINED,
    );
    assert_shows(&rt, alloc, &ExplainFault::NoMemory, "out of memory");
    assert_shows(&rt, alloc, &NextFault::Reads(Vec::new(alloc)), UNEXPLAINED);
    assert_shows(&rt, alloc, &NextFault::NoMemory, "out of memory");
    assert_shows(
        &rt,
        alloc,
        &NextFault::NotNested { link: 2 },
        "link 2 of the earlier anomaly is none of this history's",
    );
}

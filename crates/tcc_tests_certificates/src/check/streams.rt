//! Certificates judged as their text comes: faults of the text, a reader that fails, and rules broken before either.
use crate::check::worked::{STALE, TWO, graph_of};
use std::alloc::Global;
use std::io::{self, ErrorKind, Read};
use std::process::Abort;
use std::test::Fail;
use tcc_cert::{CertFault, CertFaultKind};
use tcc_check::{Claim, Judgement, Rule, StreamFault, Verdict, check_stream, judge_stream};

/// The certificate of a/2, which reads what a/1 overwrote.
const STALE_READ: &str = "tcc-certificate 1\ncycle 3 2 3\nS 0 1\nD 1 0 x 2 1\nS 1 2\n\
    near\n3 1 1\n3 3 1\n3 3 3\nfar\n3 1 1\n2 3 1\n3 3 3\nend\n";

/// The certificate of that read with a number of `near` above 1 for a causal pair, and a number of `far` above 1.
const ALTERED: &str = "tcc-certificate 1\ncycle 3 2 3\nS 0 1\nD 1 0 x 2 1\nS 1 2\n\
    near\n3 2 1\n3 3 1\n3 3 3\nfar\n3 2 1\n3 3 1\n3 3 2\nend\n";

/// An order of two transactions with its clocks.
const ONE_SESSION: &str = "tcc-certificate 1\norder 3 1\n0 1 2\nclocks\n0\n0\n1\nend\n";

fn judged(
    rt: &impl Abort,
    alloc: Global,
    records: &str,
    text: impl Read + Drop,
) -> Result<Judgement, StreamFault> {
    judge_stream(alloc, &graph_of(rt, alloc, records), text)
}

fn fault(line: u64, kind: CertFaultKind) -> StreamFault {
    StreamFault::Text(CertFault { line, kind })
}

fn rejected(rule: Rule, row: u32, column: u32) -> Verdict {
    Verdict::Rejected {
        rule,
        at: (row, column),
    }
}

#[test]
fn claims(rt: HostRuntime) {
    let order = Judgement {
        claim: Claim::Order,
        verdict: Verdict::Accepted,
    };
    assert_eq!(&rt;
        judged(&rt, rt.alloc(), TWO, ONE_SESSION.as_bytes()),
        Ok(order)
    );
    let cycle = Judgement {
        claim: Claim::Cycle { least: 3 },
        verdict: Verdict::Accepted,
    };
    assert_eq!(&rt;
        judged(&rt, rt.alloc(), STALE, STALE_READ.as_bytes()),
        Ok(cycle)
    );
}

/// The first broken rule is named, whatever is broken after it. Another count of transactions breaks the first rule.
#[test]
fn first_rules(rt: HostRuntime) {
    let alloc = rt.alloc();
    for (records, text, wanted) in [
        (STALE, ALTERED, rejected(Rule::NearPairs, 0, 1)),
        (TWO, STALE_READ, rejected(Rule::Links, 2, 0)),
        ("", STALE_READ, rejected(Rule::Sizes, 0, 0)),
        ("", ONE_SESSION, rejected(Rule::Sizes, 0, 0)),
    ] {
        let graph = graph_of(&rt, alloc, records);
        assert_eq!(&rt;
            check_stream(alloc, &graph, text.as_bytes()),
            Ok(wanted),
            "{records}, {text}"
        );
    }
}

/// How many line feeds there are, and 1.
fn line_begun(text: &[u8]) -> u64 {
    text.split(|&byte| byte == b'\n').count() as u64
}

/// Cut anywhere, the text has that fault, also where rules are broken before.
#[test]
fn cut_texts(rt: HostRuntime) {
    for (records, text) in [
        (STALE, STALE_READ),
        (STALE, ALTERED),
        ("", ALTERED),
        (TWO, ONE_SESSION),
    ] {
        let bytes = text.as_bytes();
        for count in 0..bytes.len() {
            let part = &bytes[..count];
            let wanted = fault(line_begun(part), CertFaultKind::Truncated);
            assert_eq!(&rt;
                judged(&rt, rt.alloc(), records, part),
                Err(wanted),
                "after {count} bytes of {text}"
            );
        }
    }
}

/// Gives a text, and then fails.
#[derive(Drop)]
struct CutShort<'a> {
    text: &'a [u8],
}

impl<'a> Read for CutShort<'a> {
    fn read(&mut self, buf: &mut [u8]) -> io::Result<usize> {
        let count = buf.len().min(self.text.len());
        if count == 0 && !buf.is_empty() {
            return Err(io::Error::from(ErrorKind::Interrupted));
        }
        buf[..count].copy_from_slice(&self.text[..count]);
        self.text = &self.text[count..];
        Ok(count)
    }
}

/// The fault is that of the reader, at the line that it was in.
fn assert_fails(rt: &impl Abort, alloc: Global, text: &[u8]) {
    let wanted = fault(line_begun(text), CertFaultKind::Read);
    assert_eq!(rt;
        judged(rt, alloc, STALE, CutShort { text }),
        Err(wanted),
        "after {text:?}"
    );
}

/// The reader fails after each number of bytes, all of them too.
#[test]
fn failing_readers(rt: HostRuntime) {
    for text in [STALE_READ, ALTERED] {
        let bytes = text.as_bytes();
        for count in 0..bytes.len() {
            assert_fails(&rt, rt.alloc(), &bytes[..count]);
        }
        assert_fails(&rt, rt.alloc(), bytes);
    }
}

/// Bytes without an end.
#[derive(Drop)]
struct Garbage {}

impl Read for Garbage {
    fn read(&mut self, buf: &mut [u8]) -> io::Result<usize> {
        buf.fill(b'x');
        Ok(buf.len())
    }
}

#[test]
fn endless_bytes(rt: HostRuntime) {
    let wanted = fault(1, CertFaultKind::TooLarge);
    assert_eq!(&rt; judged(&rt, rt.alloc(), STALE, Garbage {}), Err(wanted));
}

/// A text without an end is given up at its first line, which is too long.
#[test]
fn texts_without_an_end(rt: HostRuntime) {
    let alloc = rt.alloc();
    let graph = graph_of(&rt, alloc, TWO);
    for byte in [b't', b'0', b' '] {
        let verdict = check_stream(alloc, &graph, io::repeat(byte));
        assert_eq!(&rt; verdict, Err(fault(1, CertFaultKind::TooLarge)));
    }
}

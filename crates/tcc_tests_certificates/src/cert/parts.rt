//! Certificates read part by part.
use super::streams::Failing;
use super::texts::{
    NO_CLOCKS, NO_TRANSACTIONS, ONE_SESSION, STALE_READ, STALE_READ_UPWARD, altered,
};
use super::{halves, number};
use std::alloc::{AllocError, Global};
use std::io::Read;
use std::process::Abort;
use std::test::Fail;
use tcc_cert::{CertReader, Part};
use tcc_graph::Link;

/// Where a link begins and ends.
fn ends(link: &Link) -> [u32; 2] {
    match link {
        Link::Session { from, to }
        | Link::Reads { from, to, .. }
        | Link::Derived { from, to, .. } => { [*from, *to] }
    }
}

/// The kind of a part, and its numbers.
fn told(alloc: Global, part: &Part) -> Result<String, AllocError> {
    let link = match part {
        Part::Link(link) => ends(link),
        _ => [0, 0],
    };
    let (word, numbers): (&str, &[u32]) = match part {
        Part::Order(head) => ("order", head.order.as_slice()),
        Part::Cycle(_) => ("cycle", &[]),
        Part::Link(_) => ("link", &link),
        Part::Clocks(row) => ("clocks", row.as_slice()),
        Part::Near(row) => ("near", row.as_slice()),
        Part::Far(row) => ("far", row.as_slice()),
        Part::End => ("end", &[]),
    };
    let mut text = String::new(alloc);
    text.push_str(word)?;
    for number in numbers {
        text.push_str(format!(in alloc; " {number}")?.as_str())?;
    }
    Ok(text)
}

// The claim, then the links and the rows in the order of the text. After the end there is the end.
#[test]
fn worked_parts(rt: HostRuntime) -> Result<(), Fail> {
    let alloc = rt.alloc();
    for (text, wanted) in [
        (NO_TRANSACTIONS, "order 0\nclocks\nend\n"),
        (
            ONE_SESSION,
            "order 0 1 2\nclocks 0\nclocks 0\nclocks 1\nend\nend\n",
        ),
        (NO_CLOCKS, "order 0 1 2 3\nend\nend\n"),
        (
            STALE_READ_UPWARD,
            "cycle\nlink 0 1\nlink 1 0\nnear 3 1 1\nnear 3 3 1\nnear 3 3 3\n\
             far 3 1 1\nfar 3 1\nfar 3\nend\nend\n",
        ),
    ] {
        let mut parts = CertReader::new(text.as_bytes());
        for one in wanted.lines() {
            match parts.next(alloc) {
                Ok(part) => assert_eq!(&rt; told(alloc, &part)?.as_str(), one, "in {text:?}"),
                Err(fault) => panic!(&rt; "{fault:?} in {text:?}"),
            }
        }
    }
    Ok(())
}

/// The line and the kind of the fault at which the parts stop, for good, and how many parts come before it.
fn stop(rt: &impl Abort, alloc: Global, reader: impl Read + Drop) -> Result<String, AllocError> {
    let mut parts = CertReader::new(reader);
    for before in 0..20 {
        if let Err(fault) = parts.next(alloc) {
            assert!(rt; parts.next(alloc).is_err_and(|again| again == fault));
            return format!(in alloc; "{} {:?} {before}", fault.line, fault.kind);
        }
    }
    panic!(rt; "the parts do not stop")
}

/// The lines before this one, counted from 1.
fn begun(text: &[u8], line: usize) -> &[u8] {
    let mut left = line;
    for (index, byte) in text.iter().enumerate() {
        if left <= 1 {
            return &text[..index];
        }
        if *byte == b'\n' {
            left -= 1;
        }
    }
    text
}

/// The stale read with another line in place of one. Each row has the number of the line, counted from 1, which is also
/// that of the fault; the fault's kind; how many parts come before it; and the line.
const FAULTS: &str = "\
    1 Header 0|tcc\n\
    2 Word 0|ring 3 2 3\n\
    3 Word 1|T 0 1\n\
    4 Count 2|D 1 0 x 2\n\
    5 Word 2|D 1 0 x 2 1\n\
    6 Word 3|far\n\
    8 TooLarge 4|3 3 1049601\n\
    10 Word 6|near\n\
    13 Count 8|3 3\n\
    14 Word 9|done\n";

/// A fault in each kind of line: the parts before it are given, and then nothing else.
#[test]
fn parts_before_a_fault(rt: HostRuntime) -> Result<(), Fail> {
    let alloc = rt.alloc();
    for row in FAULTS.lines() {
        let (wanted, other) = halves(&rt, row, '|');
        let line = number(&rt, halves(&rt, wanted, ' ').0);
        let text = altered(alloc, STALE_READ, line, other)?;
        let found = stop(&rt, alloc, text.as_slice())?;
        assert_eq!(&rt; found.as_str(), wanted, "for {other:?}");
    }
    Ok(())
}

/// A reader that fails in each of these lines: the parts before it are given, and then nothing else.
#[test]
fn parts_before_a_failure(rt: HostRuntime) -> Result<(), Fail> {
    let alloc = rt.alloc();
    for (line, before) in [
        (1, 0),
        (2, 0),
        (3, 1),
        (4, 2),
        (5, 2),
        (6, 3),
        (8, 4),
        (10, 6),
        (13, 8),
        (14, 9),
    ] {
        let reader = Failing {
            text: begun(STALE_READ.as_bytes(), line),
            most: 5,
        };
        let found = stop(&rt, alloc, reader)?;
        let wanted = format!(in alloc; "{line} Read {before}")?;
        assert_eq!(&rt; found.as_str(), wanted.as_str());
    }
    Ok(())
}

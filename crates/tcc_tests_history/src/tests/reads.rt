//! Worked snapshots, with faults and histories worked out by hand.
use crate::tests::builders::{assert_names, assert_shows, name, resolved, snapshot};
use std::alloc::Global;
use std::process::Abort;
use std::test::Fail;
use tcc_reads::ReadFaultKind::{Aborted, BrokenInternal, Duplicate, Future, Intermediate, ThinAir};
use tcc_reads::{ReadFault, ReadFaultKind, ResolveFault, resolve};
use tcc_rows::snapshot_of;
use tcc_txn::Name;

/// Session, place, operation, key, value and kind of a fault.
type ReadRow = (&'static str, u32, u32, &'static str, u64, ReadFaultKind);

fn fault(rt: &impl Abort, row: ReadRow) -> ReadFault {
    ReadFault {
        session: name(rt, row.0),
        place: row.1,
        op: row.2,
        key: name(rt, row.3),
        value: row.4,
        kind: row.5,
    }
}

/// The faults are these, in this order.
fn assert_faults(rt: &impl Abort, faults: &[ReadFault], wanted: &[ReadRow]) {
    assert_eq!(rt; faults.len(), wanted.len());
    for (found, row) in faults.iter().zip(wanted) {
        assert_eq!(rt; *found, fault(rt, *row));
    }
}

const ABORTED_AND_THIN_AIR: &str =
    "a,begin\na,w,x,1\na,abort\nb,begin\nb,r,x,1\nb,r,z,7\nb,commit\n";

#[test]
fn faults_of_records(rt: HostRuntime) -> Result<(), Fail> {
    let alloc = rt.alloc();
    let cases: [(&str, &[ReadRow]); 5] = [
        (
            "a,begin\na,w,x,1\na,w,x,2\na,commit\nb,begin\nb,r,x,1\nb,commit\n",
            &[("b", 1, 1, "x", 1, Intermediate)],
        ),
        // The last write of x is of the value that was overwritten: what comes later counts, and not the value.
        (
            "b,begin\nb,r,x,1\nb,commit\na,begin\na,w,x,1\na,w,x,2\na,w,x,1\na,commit\n",
            &[
                ("a", 1, 3, "x", 1, Duplicate),
                ("b", 1, 1, "x", 1, Intermediate),
            ],
        ),
        (
            ABORTED_AND_THIN_AIR,
            &[("b", 1, 1, "x", 1, Aborted), ("b", 1, 2, "z", 7, ThinAir)],
        ),
        (
            "a,begin\na,r,x,1\na,w,x,1\na,r,x,2\na,commit\n",
            &[
                ("a", 1, 1, "x", 1, Future),
                ("a", 1, 3, "x", 2, BrokenInternal),
            ],
        ),
        // An aborted transaction may write a duplicate too.
        (
            "a,begin\na,w,x,1\na,commit\nb,begin\nb,w,x,1\nb,abort\n",
            &[("b", 1, 1, "x", 1, Duplicate)],
        ),
    ];
    for (records, wanted) in &cases {
        match resolve(alloc, &snapshot(&rt, alloc, *records)) {
            Err(ResolveFault::Reads(faults)) => assert_faults(&rt, &faults, *wanted),
            Err(ResolveFault::NoMemory) => panic!(rt; "out of memory"),
            Ok(_) => panic!(rt; "no fault"),
        }
    }
    Ok(())
}

/// For runs in which an allocation is refused: then memory is out, or the faults are exact.
#[test]
fn exact_faults_or_want_of_memory(rt: HostRuntime) {
    let alloc = rt.alloc();
    let Ok(snapshot) = snapshot_of(alloc, ABORTED_AND_THIN_AIR.as_bytes()) else {
        return;
    };
    let wanted = [("b", 1, 1, "x", 1, Aborted), ("b", 1, 2, "z", 7, ThinAir)];
    match resolve(alloc, &snapshot) {
        Err(ResolveFault::Reads(faults)) => assert_faults(&rt, &faults, &wanted),
        Err(ResolveFault::NoMemory) => {}
        Ok(_) => panic!(rt; "no fault"),
    }
}

/// No session at all: there is only `init`.
#[test]
fn nothing_happened(rt: HostRuntime) -> Result<(), Fail> {
    let alloc = rt.alloc();
    let resolved = resolved(&rt, alloc, "");
    assert_eq!(rt; resolved.sessions().len(), 0);
    assert_eq!(rt; resolved.places().len(), 0);
    assert!(rt; resolved.writes(0).is_empty());
    assert!(rt; resolved.reads(0).is_empty());
    Ok(())
}

/// The names are in this text, in this order, and each with a space before it.
fn assert_written(rt: &impl Abort, alloc: Global, names: &[Name], wanted: &str) {
    let mut found = String::new(alloc);
    for name in names {
        match format!(in alloc; " {name}") {
            Ok(piece) => assert!(rt; found.push_str(piece.as_str()).is_ok()),
            Err(_) => panic!(rt; "no memory"),
        }
    }
    assert_eq!(rt; found.as_str(), wanted);
}

/// Keys read, and from which transactions, in this order.
fn assert_reads(rt: &impl Abort, alloc: Global, reads: &[(Name, u32)], wanted: &str) {
    let mut found = String::new(alloc);
    for (key, from) in reads {
        match format!(in alloc; " {key}{from}") {
            Ok(piece) => assert!(rt; found.push_str(piece.as_str()).is_ok()),
            Err(_) => panic!(rt; "no memory"),
        }
    }
    assert_eq!(rt; found.as_str(), wanted);
}

/// Aborted transactions have places and no numbers; keys and reads come in order, each pair once. A read after an own write has no source;
/// 0 is read from `init`, whoever wrote the key.
#[test]
fn numbers_and_sources(rt: HostRuntime) -> Result<(), Fail> {
    let alloc = rt.alloc();
    let records =
        "c,begin\na,begin\na,w,x,9\na,abort\na,begin\na,w,y,1\na,w,x,1\na,w,x,2\na,r,x,2\na,commit\n\
        b,begin\nb,r,x,9\nb,abort\nc,r,y,1\nc,r,x,2\nc,r,z,0\nc,r,y,1\nc,r,y,0\nc,commit\nc,begin\nc,commit\n";
    let resolved = resolved(&rt, alloc, records);
    assert_names(&rt, resolved.sessions(), &["a", "b", "c"]);
    assert_eq!(rt; resolved.places(), [(0, 2), (2, 1), (2, 2)].as_slice());
    for (number, writes, reads) in [
        (0, "", ""),
        (1, " x y", ""),
        (2, "", " x1 y0 y1 z0"),
        (3, "", ""),
    ] {
        assert_written(&rt, alloc, resolved.writes(number), writes);
        assert_reads(&rt, alloc, resolved.reads(number), reads);
    }
    Ok(())
}

/// What each fault says.
#[test]
fn texts_of_faults(rt: HostRuntime) {
    let alloc = rt.alloc();
    let kinds = [
        (Duplicate, "the value was written at the key before"),
        (
            BrokenInternal,
            "the transaction wrote another value at the key",
        ),
        (ThinAir, "nobody wrote the value at the key"),
        (Aborted, "an aborted transaction wrote the value"),
        (
            Intermediate,
            "the value was written over in its transaction",
        ),
        (Future, "the transaction writes the value later"),
    ];
    for (kind, text) in &kinds {
        assert_shows(&rt, alloc, kind, text);
    }
    let reads = ResolveFault::Reads(Vec::new(alloc));
    let text = "some operations read or write what no source explains";
    assert_shows(&rt, alloc, &reads, text);
    assert_shows(&rt, alloc, &ResolveFault::NoMemory, "out of memory");
}

//! Snapshots that continue others, and the least session that doesn't.
use crate::tests::builders::snapshot;
use std::process::Abort;
use tcc_book::nested;
use tcc_txn::Snapshot;

/// a/1 writes x; b/1 writes y.
const EARLIER: &str = "b,begin\nb,w,y,1\nb,commit\na,begin\na,w,x,1\na,commit\n";

/// The session that is named has to be this one; none where the first is nested in the second.
fn assert_cut(rt: &impl Abort, earlier: &Snapshot, later: &Snapshot, wanted: Option<&str>) {
    match (nested(earlier, later), wanted) {
        (Ok(()), None) => {}
        (Err(name), Some(wanted)) => assert_eq!(rt; name.bytes(), wanted.as_bytes()),
        (Ok(()), Some(wanted)) => panic!(rt; "{wanted} goes on"),
        (Err(name), None) => panic!(rt; "{name} is cut"),
    }
}

/// Sessions that go on, that begin, that end early, that are gone, and that did something else.
#[test]
fn continued(rt: HostRuntime) {
    let alloc = rt.alloc();
    let earlier = snapshot(&rt, alloc, EARLIER);
    let cases: [(&str, Option<&str>); 7] = [
        (
            "b,begin\nb,w,y,1\nb,commit\na,begin\na,w,x,1\na,commit\n",
            None,
        ),
        (
            "A,begin\nA,commit\na,begin\na,w,x,1\na,commit\na,begin\na,commit\nb,begin\nb,w,y,1\nb,commit\n",
            None,
        ),
        ("a,begin\na,w,x,1\na,commit\n", Some("b")),
        ("b,begin\nb,w,y,1\nb,commit\n", Some("a")),
        ("", Some("a")),
        (
            "a,begin\na,w,x,1\na,abort\nb,begin\nb,w,y,1\nb,commit\n",
            Some("a"),
        ),
        (
            "a,begin\na,w,x,1\na,commit\nb,begin\nb,w,y,2\nb,commit\nb,begin\nb,w,y,1\nb,commit\n",
            Some("b"),
        ),
    ];
    for (records, wanted) in &cases {
        assert_cut(&rt, &earlier, &snapshot(&rt, alloc, records), *wanted);
    }
    assert_cut(&rt, &snapshot(&rt, alloc, ""), &earlier, None);
}

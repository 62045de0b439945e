//! Worked histories, with numbers, pairs, keys, writers and readers worked out by hand.
use crate::tests::builders::{assert_names, graph_of, name, try_graph};
use std::alloc::Global;
use std::process::Abort;
use std::test::Fail;
use tcc_graph::{Graph, Step, Walk};

/// The labels of all numbers are these, in order.
fn assert_labels(rt: &impl Abort, alloc: Global, graph: &Graph, wanted: &[&str]) {
    assert_eq!(rt; graph.count() as usize, wanted.len());
    for n in 0..graph.count() {
        match graph.label(alloc, n) {
            Ok(label) => assert_eq!(rt; label.as_str(), wanted[n as usize]),
            Err(_) => panic!(rt; "out of memory"),
        }
    }
}

/// a/1 writes x, a/2 reads the initial value of x, and b has no committed transaction.
const STALE_READ: &str =
    "b,begin\nb,w,z,1\nb,abort\na,begin\na,w,x,1\na,commit\na,begin\na,r,x,0\na,commit\n";

#[test]
fn numbers_and_labels(rt: HostRuntime) -> Result<(), Fail> {
    let alloc = rt.alloc();
    let graph = graph_of(&rt, alloc, STALE_READ);
    assert_labels(&rt, alloc, &graph, &["init", "a/1", "a/2"]);
    let places = [None, Some((0, 1)), Some((0, 2)), None];
    for (n, place) in places.iter().enumerate() {
        assert_eq!(rt; graph.at(n as u32), *place);
    }
    assert_names(&rt, graph.sessions(), &["a", "b"]);
    assert_names(&rt, graph.keys(), &["x"]);
    Ok(())
}

/// For runs in which an allocation is refused: then there is no graph, or it is exact.
#[test]
fn exact_graph_or_want_of_memory(rt: HostRuntime) {
    let alloc = rt.alloc();
    let Some(graph) = try_graph(alloc, STALE_READ) else {
        return;
    };
    assert_eq!(rt; graph.count(), 3);
    assert_readers(&rt, &graph, 0, "x", &[2]);
    assert_writers(&rt, &graph, "x", &[0, 1]);
}

/// Places count aborted transactions, and a label has the place and not the number.
#[test]
fn label_with_an_aborted_transaction(rt: HostRuntime) -> Result<(), Fail> {
    let alloc = rt.alloc();
    let records =
        "a,begin\nB.1-b,begin\nB.1-b,w,z,9\nB.1-b,abort\nB.1-b,begin\nB.1-b,w,x,1\nB.1-b,commit\na,r,x,1\na,commit\n";
    let graph = graph_of(&rt, alloc, records);
    assert_labels(&rt, alloc, &graph, &["init", "B.1-b/2", "a/1"]);
    assert_eq!(rt; graph.at(1), Some((0, 2)));
    assert_eq!(rt; graph.at(2), Some((1, 1)));
    assert_names(&rt, graph.keys(), &["x"]);
    assert_writers(&rt, &graph, "z", &[]);
    assert_readers(&rt, &graph, 0, "z", &[]);
    Ok(())
}

/// a/1 writes x, a/2 and a/3 do nothing, and b/1 reads x from a/1. For each two numbers below 5: whether they are a pair of session order,
/// and whether they are a causal pair.
#[test]
fn pairs(rt: HostRuntime) -> Result<(), Fail> {
    let alloc = rt.alloc();
    let graph = graph_of(
        &rt,
        alloc,
        "a,begin\na,w,x,1\na,commit\na,begin\na,commit\na,begin\na,commit\nb,begin\nb,r,x,1\nb,commit\n",
    );
    assert!(rt; graph.count() == 5);
    for a in 0..5 {
        for b in 0..5 {
            let session = (a == 0 && b > 0) || (a > 0 && a < b && b < 4);
            let read = a == 1 && b == 4;
            assert_eq!(rt; graph.session(a, b), session);
            assert_eq!(rt; graph.causal(a, b), session || read);
            assert_eq!(rt; graph.reads_from(a, b).len(), if read { 1 } else { 0 });
        }
    }
    assert_names(&rt, graph.reads_from(1, 4), &["x"]);
    Ok(())
}

/// The readers of a key from a transaction of the history.
fn assert_readers(rt: &impl Abort, graph: &Graph, from: u32, key: &str, wanted: &[u32]) {
    assert!(rt; from < graph.count(), "{from}");
    assert!(rt;
        graph.readers(from, &name(rt, key)) == wanted,
        "of {key} from {from}"
    );
}

/// The writers of a key.
fn assert_writers(rt: &impl Abort, graph: &Graph, key: &str, wanted: &[u32]) {
    assert!(rt; graph.writers(&name(rt, key)) == wanted, "of {key}");
}

/// For two histories: the keys, the readers of a key from a writer, and the writers of a key. In the first, a/1 and b/1 write x, and c/1
/// reads both values. In the second, a reader that writes the key too is among its readers, and keys are in byte order.
#[test]
fn keys_writers_and_readers(rt: HostRuntime) -> Result<(), Fail> {
    let alloc = rt.alloc();
    let cases: [(&str, &[&str], &[(u32, &str, &[u32])], &[(&str, &[u32])]); 2] = [
        (
            "a,begin\na,w,x,1\na,commit\nb,begin\nb,w,x,2\nb,commit\nc,begin\nc,r,x,1\nc,r,x,2\nc,commit\n",
            &["x"],
            &[(0, "x", &[]), (1, "x", &[3]), (2, "x", &[3])],
            &[("x", &[0, 1, 2]), ("y", &[])],
        ),
        (
            "a,begin\na,r,x,0\na,r,Y,1\na,w,x,1\na,commit\nb,begin\nb,r,x,1\nb,w,Y,1\nb,commit\n",
            &["Y", "x"],
            &[(0, "x", &[1]), (1, "x", &[2]), (2, "Y", &[1])],
            &[("x", &[0, 1]), ("Y", &[0, 2])],
        ),
    ];
    for (records, keys, readers, writers) in cases {
        let graph = graph_of(&rt, alloc, records);
        assert_names(&rt, graph.keys(), keys);
        for (from, key, wanted) in readers {
            assert_readers(&rt, &graph, *from, key, wanted);
        }
        for (key, wanted) in writers {
            assert_writers(&rt, &graph, key, wanted);
        }
    }
    Ok(())
}

#[test]
fn walks_keep_their_steps(rt: HostRuntime) -> Result<(), Fail> {
    let alloc = rt.alloc();
    let key = name(&rt, "x");
    let walk = Walk::new(vec![in alloc;
        Step::Session { from: 1, to: 2 },
        Step::Reads {
            from: 2,
            to: 3,
            key
        },
    ]?);
    let Ok(copy) = walk.copy(alloc) else {
        panic!(rt; "out of memory")
    };
    for (index, step) in copy.as_slice().iter().enumerate() {
        assert_eq!(rt; step.from(), index as u32 + 1);
        assert_eq!(rt; step.to(), index as u32 + 2);
    }
    assert_eq!(rt; walk.as_slice().len(), 2);
    assert_eq!(rt; copy.into_vec().len(), 2);
    Ok(())
}

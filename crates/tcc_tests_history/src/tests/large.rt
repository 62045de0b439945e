//! A history above the small limits, with its numbers and pairs worked out by hand.
use crate::tests::builders::{assert_names, graph_of, name};
use std::alloc::Global;
use std::process::Abort;
use std::test::Fail;
use tcc_graph::{Graph, LargeGraph};
use tcc_reads::ReadFaultKind::Duplicate;
use tcc_reads::{ResolveFault, resolve_large};
use tcc_txn::{LargeSnapshot, Name, NoMemory, Op, Txn};

/// The committed transaction of one operation.
fn single(rt: &impl Abort, alloc: Global, op: Op) -> Result<Txn, NoMemory> {
    let mut ops = Vec::new(alloc);
    ops.push(op)?;
    match Txn::new(ops, true) {
        Ok(txn) => Ok(txn),
        Err((fault, _)) => panic!(rt; "no transaction: {fault}"),
    }
}

/// In session a transactions write x: 1 to the last value, one each, and then those of `more`; b/1 reads the last value.
fn writers_of_x(
    rt: &impl Abort,
    alloc: Global,
    last: u64,
    more: &[u64],
) -> Result<LargeSnapshot, NoMemory> {
    let key = name(rt, "x");
    let mut writes = Vec::new(alloc);
    for before in 0..last {
        let value = before + 1;
        writes.push(single(rt, alloc, Op::Put { key, value })?)?;
    }
    for value in more {
        writes.push(single(rt, alloc, Op::Put { key, value: *value })?)?;
    }
    let mut reads = Vec::new(alloc);
    reads.push(single(rt, alloc, Op::Get { key, value: last })?)?;
    let mut parts: Vec<(Name, Vec<Txn>)> = Vec::new(alloc);
    parts.push((name(rt, "b"), reads))?;
    parts.push((name(rt, "a"), writes))?;
    match LargeSnapshot::new(parts) {
        Ok(snapshot) => Ok(snapshot),
        Err((fault, _)) => panic!(rt; "no snapshot: {fault}"),
    }
}

/// The fault of a second write is reported at places above the small limits too.
#[test]
fn a_second_write_far_behind_the_first(rt: HostRuntime) -> Result<(), Fail> {
    let alloc = rt.alloc();
    match resolve_large(alloc, &writers_of_x(&rt, alloc, 70_000, &[1])?) {
        Ok(_) => panic!(rt; "resolved"),
        Err(ResolveFault::NoMemory) => panic!(rt; "out of memory"),
        Err(ResolveFault::Reads(faults)) => {
            assert_eq!(rt; faults.len(), 1);
            assert_eq!(rt; faults[0].place, 70_001);
            assert_eq!(rt; faults[0].kind, Duplicate);
        }
    }
    Ok(())
}

/// A graph within the small limits is one within the large ones.
#[test]
fn a_small_graph_as_a_large_one(rt: HostRuntime) -> Result<(), Fail> {
    let alloc = rt.alloc();
    let graph: Graph = graph_of(&rt, alloc, "a,begin\na,w,x,1\na,commit\n");
    let large: &LargeGraph = &graph;
    assert_eq!(rt; large.count(), 2);
    assert_names(&rt, large.keys(), &["x"]);
    assert_eq!(rt; large.writes_at(1).first().copied(), Some(0));
    Ok(())
}

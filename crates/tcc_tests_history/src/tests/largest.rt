//! The largest small histories, and one of a million transactions: the resolver and the graphs accept them, and report all their faults,
//! where there is memory. A test of the most transactions with `--large` would take too long here; the tests of rows have it.
use crate::tests::builders::name;
use std::alloc::Global;
use std::process::Abort;
use std::test::Fail;
use tcc_graph::{Graph, LargeGraph};
use tcc_reads::ReadFaultKind::ThinAir;
use tcc_reads::{ResolveFault, resolve, resolve_large};
use tcc_txn::{LargeSnapshot, Name, Op, Snapshot, Txn};

/// The keys k0, k1 ..
fn keys(rt: &impl Abort, alloc: Global, count: usize) -> Result<Vec<Name>, Fail> {
    let mut keys = Vec::new(alloc);
    for number in 0..count {
        let text = format!(in alloc; "k{number}")?;
        keys.push(name(rt, text.as_str()))?;
    }
    Ok(keys)
}

/// `count` committed transactions that each read the value at each of the keys.
fn readers(
    rt: &impl Abort,
    alloc: Global,
    count: usize,
    keys: &[Name],
    value: u64,
) -> Result<Vec<Txn>, Fail> {
    let mut txns = Vec::new(alloc);
    for _reader in 0..count {
        let mut ops = Vec::new(alloc);
        for key in keys {
            ops.push(Op::Get { key: *key, value })?;
        }
        match Txn::new(ops, true) {
            Ok(txn) => txns.push(txn)?,
            Err((fault, _)) => panic!(rt; "no transaction: {fault}"),
        }
    }
    Ok(txns)
}

/// `count` sessions s0, s1 .., each with `each` readers, but the last with one fewer.
fn sessions(
    rt: &impl Abort,
    alloc: Global,
    count: usize,
    each: usize,
    keys: &[Name],
    value: u64,
) -> Result<Vec<(Name, Vec<Txn>)>, Fail> {
    let mut parts = Vec::new(alloc);
    for number in 0..count {
        let text = format!(in alloc; "s{number}")?;
        let last = if number + 1 == count { 1 } else { 0 };
        let txns = readers(rt, alloc, each.saturating_sub(last), keys, value)?;
        parts.push((name(rt, text.as_str()), txns))?;
    }
    Ok(parts)
}

/// 64 sessions with 4,095 transactions of 256 reads of this value.
fn largest(rt: &impl Abort, alloc: Global, value: u64) -> Result<Snapshot, Fail> {
    let keys = keys(rt, alloc, 256)?;
    match Snapshot::new(sessions(rt, alloc, 64, 64, &keys, value)?) {
        Ok(snapshot) => Ok(snapshot),
        Err((fault, _)) => panic!(rt; "no snapshot: {fault}"),
    }
}

#[test]
fn resolves_as_many_reads_as_there_may_be(rt: HostRuntime) -> Result<(), Fail> {
    let alloc = rt.alloc();
    let Ok(resolved) = resolve(alloc, &largest(&rt, alloc, 0)?) else {
        panic!(rt; "not resolved");
    };
    assert_eq!(rt; resolved.places().len(), 4_095);
    let Ok(graph) = Graph::build(alloc, resolved) else {
        panic!(rt; "no graph");
    };
    assert_eq!(rt; graph.count(), 4_096);
    assert_eq!(rt; graph.keys().len(), 256);
    assert_eq!(rt; graph.reads(4_095).len(), 256);
    let (readers, key_indices) = graph.readings_at(0);
    assert_eq!(rt; readers.len(), 1_048_320);
    assert_eq!(rt; readers.first().copied(), Some(1));
    assert_eq!(rt; key_indices.first().copied(), Some(0));
    assert_eq!(rt; readers.last().copied(), Some(4_095));
    assert_eq!(rt; key_indices.last().copied(), Some(255));
    Ok(())
}

#[test]
fn tells_as_many_faults_as_there_may_be(rt: HostRuntime) -> Result<(), Fail> {
    let alloc = rt.alloc();
    match resolve(alloc, &largest(&rt, alloc, 9)?) {
        Ok(_) => panic!(rt; "resolved"),
        Err(ResolveFault::NoMemory) => panic!(rt; "out of memory"),
        Err(ResolveFault::Reads(faults)) => {
            assert_eq!(rt; faults.len(), 1_048_320);
            assert!(rt; faults.iter().all(|fault| fault.kind == ThinAir));
        }
    }
    Ok(())
}

#[test]
fn resolves_more_than_a_million_transactions(rt: HostRuntime) -> Result<(), Fail> {
    let alloc = rt.alloc();
    let keys = keys(&rt, alloc, 1)?;
    let Ok(snapshot) = LargeSnapshot::new(sessions(&rt, alloc, 4_097, 256, &keys, 0)?) else {
        panic!(rt; "no snapshot");
    };
    let Ok(resolved) = resolve_large(alloc, &snapshot) else {
        panic!(rt; "not resolved");
    };
    assert_eq!(rt; resolved.places().len(), 1_048_831);
    let Ok(graph) = LargeGraph::build(alloc, resolved) else {
        panic!(rt; "no graph");
    };
    assert_eq!(rt; graph.count(), 1_048_832);
    assert_eq!(rt; graph.readings_at(0).0.len(), 1_048_831);
    Ok(())
}

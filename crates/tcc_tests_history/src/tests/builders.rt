//! What the tests start from, made from texts.
use std::alloc::Global;
use std::fmt::Display;
use std::process::Abort;
use tcc_graph::Graph;
use tcc_reads::{Resolved, resolve};
use tcc_rows::snapshot_of;
use tcc_txn::{Name, Snapshot};

/// A name that the test spells out.
pub fn name(rt: &impl Abort, text: &str) -> Name {
    match Name::read(text.as_bytes()) {
        Ok(name) => name,
        Err(fault) => panic!(rt; "{text} is no name: {fault}"),
    }
}

/// What these records finish.
pub fn snapshot(rt: &impl Abort, alloc: Global, records: &str) -> Snapshot {
    match snapshot_of(alloc, records.as_bytes()) {
        Ok(snapshot) => snapshot,
        Err(fault) => panic!(rt; "no snapshot of {records}: {fault}"),
    }
}

/// Who read from whom in these records.
pub fn resolved(rt: &impl Abort, alloc: Global, records: &str) -> Resolved {
    match resolve(alloc, &snapshot(rt, alloc, records)) {
        Ok(resolved) => resolved,
        Err(fault) => panic!(rt; "{records} is not resolved: {fault}"),
    }
}

/// The graph of what these records finish; none where memory is out.
pub fn try_graph(alloc: Global, records: &str) -> Option<Graph> {
    let snapshot = snapshot_of(alloc, records.as_bytes()).ok()?;
    let resolved = resolve(alloc, &snapshot).ok()?;
    Graph::build(alloc, resolved).ok()
}

/// The graph of what these records finish.
pub fn graph_of(rt: &impl Abort, alloc: Global, records: &str) -> Graph {
    match try_graph(alloc, records) {
        Some(graph) => graph,
        None => panic!(rt; "no graph of {records}"),
    }
}

/// The value has to show as this text.
pub fn assert_shows(rt: &impl Abort, alloc: Global, value: &impl Display, text: &str) {
    match format!(in alloc; "{value}") {
        Ok(shown) => assert_eq!(rt; shown.as_str(), text),
        Err(_) => panic!(rt; "no memory"),
    }
}

/// The names have to be these, in this order.
pub fn assert_names(rt: &impl Abort, names: &[Name], wanted: &[&str]) {
    assert_eq!(rt; names.len(), wanted.len());
    for (found, text) in names.iter().zip(wanted) {
        assert_eq!(rt; found.bytes(), text.as_bytes());
    }
}

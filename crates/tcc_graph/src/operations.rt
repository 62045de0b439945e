//! The recorded operations of a transaction, and what is among them.
ghost use Rattle.std.specs.Prelude.{◌≡◌, ◌<◌, [], IfSome};
ghost use Rattle.std.specs.Option.{option_map_or};
ghost use Rattle.tcc_txn.specs.declared.limits.TheConstants.{MAX_OPERATIONS};
ghost use Rattle.tcc_reads.specs.Sources.{puts_at, value_put, visible_write};
ghost use Rattle.tcc_graph.specs.Operations.{first_reading, last_write, ops_of, reads_value, source_value};

use crate::large_graph::LargeGraph;
use tcc_txn::{Bounds, Name, Op, Recorded, SnapshotWithin};

/// The recorded transaction of a number; none for `init` and past the last number.
fn recorded_of<'a, B: Bounds>(
    snapshot: &'a SnapshotWithin<B>,
    graph: &LargeGraph,
    n: u32,
) -> Option<Recorded<'a>>
    ensures { option_map_or (λ txn. txn.ops) result [] ≡ ops_of snapshot.now graph.now n }
{
    let (session, place) = graph.at(n)?;
    snapshot.recorded(session, (place as usize).saturating_sub(1))
}

/// Whether an operation writes a key.
fn puts_at(key: &Name, op: &Op) -> bool
    ensures { result ≡ puts_at key.now op.now }
{
    match op {
        Op::Put { key: other, .. } => other == key,
        Op::Get { .. } => false,
    }
}

/// The index of the last write of a key in a transaction.
fn last_write_in(txn: &Recorded<'_>, key: &Name) -> Option<usize>
    ensures { result ≡ last_write key.now txn.now.ops }
{
    let mut last = None;
    for index in 0..txn.len() {
        if let Some(op) = txn.op(index) {
            if puts_at(key, &op) {
                last = Some(index);
            }
        }
    }
    last
}

/// The index, from 0, of the last write of a key among the operations of the transaction of a number.
pub fn last_write<B: Bounds>(
    snapshot: &SnapshotWithin<B>,
    graph: &LargeGraph,
    n: u32,
    key: &Name,
) -> Option<usize>
    ensures { result ≡ last_write key.now (ops_of snapshot.now graph.now n) }
{
    let txn = recorded_of(snapshot, graph, n)?;
    last_write_in(&txn, key)
}

/// The value that an operation writes at a key.
fn value_put(key: &Name, op: &Op) -> Option<u64>
    ensures { result ≡ value_put key.now op.now }
{
    match op {
        Op::Put { key: other, value } if other == key => Some(*value),
        _ => None,
    }
}

/// The value of the last write at a key in a transaction.
fn visible_write(txn: &Recorded<'_>, key: &Name) -> Option<u64>
    ensures { result ≡ visible_write key.now txn.now.ops }
{
    let mut visible = None;
    for index in 0..txn.len() {
        if let Some(op) = txn.op(index) {
            visible = value_put(key, &op).or(visible);
        }
    }
    visible
}

/// The value at a key that is read from the transaction of a number: 0 from `init`, else its visible write.
pub fn source_value<B: Bounds>(
    snapshot: &SnapshotWithin<B>,
    graph: &LargeGraph,
    n: u32,
    key: &Name,
) -> u64
    ensures { result ≡ source_value snapshot.now graph.now n key.now }
{
    match recorded_of(snapshot, graph, n) {
        Some(txn) => visible_write(&txn, key).unwrap_or(0),
        None => 0,
    }
}

/// Whether an operation reads this value at a key.
fn reads_value(key: &Name, value: u64, op: &Op) -> bool
    ensures { result ≡ reads_value key.now value op.now }
{
    match op {
        Op::Get {
            key: other,
            value: read,
        } => other == key && *read == value,
        Op::Put { .. } => false,
    }
}

/// The index of the first operation of a transaction that reads this value at a key.
fn first_reading_in(txn: &Recorded<'_>, key: &Name, value: u64) -> Option<usize>
    ensures first { result ≡ first_reading key.now value txn.now.ops }
    ensures inside { IfSome result (λ index. index < MAX_OPERATIONS) }
{
    for index in 0..txn.len() {
        if let Some(op) = txn.op(index) {
            if reads_value(key, value, &op) {
                return Some(index);
            }
        }
    }
    None
}

/// The index, from 0, of the first operation of the transaction of a number that reads this value at a key.
pub fn first_reading<B: Bounds>(
    snapshot: &SnapshotWithin<B>,
    graph: &LargeGraph,
    n: u32,
    key: &Name,
    value: u64,
) -> Option<usize>
    ensures first { result ≡ first_reading key.now value (ops_of snapshot.now graph.now n) }
    ensures inside { IfSome result (λ index. index < MAX_OPERATIONS) }
{
    let txn = recorded_of(snapshot, graph, n)?;
    first_reading_in(&txn, key, value)
}

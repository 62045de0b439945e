//! What is reported of contradicted reads: by the operations that were recorded.
ghost use Rattle.std.specs.Prelude.{◌≡◌, ◌<◌, All, length, IfOk};
ghost use Rattle.std.specs.List.Sorted.{IsPermutation, IsSortedByKey};
ghost use Rattle.tcc_reads.specs.History.{count, entry_at, initial};
ghost use Rattle.tcc_graph.specs.{Keys.keys, Levels.judged, declared.level.Level.Level};
ghost use Rattle.tcc_survey.specs.Contradictions.{AreContradicted};
ghost use Rattle.tcc_graph.specs.Operations.{ops_of};
ghost use Rattle.tcc_survey_run.specs.Told.{AreTold, IsToldOf, first_read, operation_cmp};

use std::alloc::Global;
use tcc_graph::{LargeGraph, first_reading, source_value};
use tcc_survey::{Contradicted, UsualName};
use tcc_txn::{Bounds, Name, NoMemory, SnapshotWithin};

/// What is reported of a contradicted read.
#[derive(Clone, Copy)]
pub struct ToldRead {
    /// The index of the transaction that reads.
    pub reader: u32,
    /// The position of the first of its operations that reads this value at the key, from 1.
    pub op: usize,
    pub key: Name,
    pub value: u64,
    /// The least number of a writer that contradicts the read and that the name fits.
    pub writer: u32,
    pub name: UsualName,
}

/// The position of the first operation of a transaction that reads this value at a key, from 1; 0 where there is none.
fn first_read<B: Bounds>(
    snapshot: &SnapshotWithin<B>,
    graph: &LargeGraph,
    n: u32,
    key: &Name,
    value: u64,
) -> usize
    ensures { result ≡ first_read key.now value (ops_of snapshot.now graph.now n) }
{
    match first_reading(snapshot, graph, n, key, value) {
        Some(before) => before + 1,
        None => 0,
    }
}

/// What is reported of one contradicted read.
fn told_of<B: Bounds>(
    snapshot: &SnapshotWithin<B>,
    graph: &LargeGraph,
    one: &Contradicted,
) -> ToldRead
    requires reader { one.now.reading.reader < count graph.now }
    requires key { one.now.reading.key_index < length (keys graph.now) }
    ensures { IsToldOf snapshot.now graph.now one.now result }
{
    let reader = one.reading.reader;
    let key = graph.keys()[one.reading.key_index as usize];
    let value = source_value(snapshot, graph, one.reading.source, &key);
    ToldRead {
        reader,
        op: first_read(snapshot, graph, reader, &key, value),
        key,
        value,
        writer: one.writer,
        name: one.name,
    }
}

/// Sorts what is reported by the index of the transaction, then by operation.
fn sort_by_operation(told: &mut [ToldRead])
    ensures permutation { IsPermutation told.old told.new }
    ensures sorted { IsSortedByKey (λ one. (one.reader, one.op)) operation_cmp told.new }
{
    told.sort_unstable_by_key(|one| (one.reader, one.op));
}

/// What is reported, by the index of the transaction, then by operation.
fn by_operation(told: Vec<ToldRead>) -> Vec<ToldRead>
    ensures permutation { IsPermutation told.items result.items }
    ensures sorted { IsSortedByKey (λ one. (one.reader, one.op)) operation_cmp result.items }
{
    let mut told = told;
    sort_by_operation(&mut told);
    told
}

/// What is reported of the contradicted reads of a snapshot, by the index of the transaction and then by operation.
pub(crate) fn told_reads<B: Bounds>(
    alloc: Global,
    snapshot: &SnapshotWithin<B>,
    graph: &LargeGraph,
    found: &[Contradicted],
) -> Result<Vec<ToldRead>, NoMemory>
    requires initial { entry_at graph.now 0 ≡ initial }
    requires found { (level : Level) × AreContradicted (judged graph.now level) found.now }
    ensures told { IfOk result (λ told. AreTold snapshot.now graph.now found.now told.items) }
    ensures inside { IfOk result (λ told. All (λ one. (one.reader < count graph.now) × (one.writer < count graph.now)) told.items) }
{
    let mut told = Vec::new(alloc);
    for one in found {
        told.push(told_of(snapshot, graph, one))?;
    }
    Ok(by_operation(told))
}

//! The reads of each key, source and reader side by side, in a step for each read.
ghost use Rattle.std.specs.Prelude.{◌<◌, ◌≤◌, length, IfOk};
ghost use Rattle.tcc_txn.specs.declared.limits.TheConstants.{MAX_COUNT};
ghost use Rattle.tcc_reads.specs.History.{count};
ghost use Rattle.tcc_graph.specs.Keys.{keys};
ghost use Rattle.tcc_derive.specs.private.KeyTables.{AreReadsAt, IsReadsOf};

use crate::read::Read;
use std::alloc::Global;
use tcc_bits::Row;
use tcc_graph::LargeGraph;
use tcc_txn::NoMemory;

/// The reads of the key at an index.
fn reads_at(alloc: Global, graph: &LargeGraph, key_index: usize) -> Result<Row<Read>, NoMemory>
    requires key_index { key_index < length (keys graph.now) }
    requires few { count graph.now ≤ MAX_COUNT }
    ensures { IfOk result (AreReadsAt graph.now key_index) }
{
    let Ok(key_index) = u32::try_from(key_index) else {
        return Err(NoMemory);
    };
    let (sources, readers) = graph.readings_of(key_index);
    let mut reads = Vec::with_capacity(alloc, sources.len())?;
    for (number, source) in sources.iter().enumerate() {
        reads.push(Read {
            source: *source as u16,
            reader: readers[number] as u16,
        })?;
    }
    Ok(Row::new(reads))
}

/// The reads of each key of a graph.
pub(crate) fn read_table(alloc: Global, graph: &LargeGraph) -> Result<Vec<Row<Read>>, NoMemory>
    requires few { count graph.now ≤ MAX_COUNT }
    ensures { IfOk result (λ reads. IsReadsOf graph.now reads.items) }
{
    let mut reads = Vec::new(alloc);
    for key_index in 0..graph.keys().len() {
        reads.push(reads_at(alloc, graph, key_index)?)?;
    }
    Ok(reads)
}

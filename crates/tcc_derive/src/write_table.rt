//! The keys that each transaction writes: the lists of writers by key, inverted in a step for each write (bucket sort).
ghost use Rattle.std.specs.Prelude.{◌<◌, length, All, Contains, OnOk, IfOk};
ghost use Rattle.tcc_derive.specs.{private.Buckets.Puts, private.KeyTables.IsWritesOf};

use crate::bucket::empty_buckets;
use std::alloc::Global;
use tcc_bits::Row;
use tcc_graph::LargeGraph;
use tcc_txn::NoMemory;

/// Puts the index of a key into the buckets of its writers.
fn add_key(written: &mut [Row<usize>], writers: &[u32], key_index: usize) -> Result<(), NoMemory>
    requires { All (λ b. b < length written.old) writers.now }
    ensures { OnOk result (Puts written.old written.new (Contains writers.now) key_index) }
{
    for writer in writers {
        written[*writer as usize].push(key_index)?;
    }
    Ok(())
}

/// The indices, among the keys of a graph, of the keys that each transaction writes.
pub(crate) fn write_table(alloc: Global, graph: &LargeGraph) -> Result<Vec<Row<usize>>, NoMemory>
    ensures { IfOk result (λ written. IsWritesOf graph.now written.items) }
{
    let mut written = empty_buckets(alloc, graph.count() as usize)?;
    for (key_index, key) in graph.keys().iter().enumerate() {
        add_key(&mut written, graph.writers(key), key_index)?;
    }
    Ok(written)
}

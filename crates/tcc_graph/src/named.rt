//! What transactions write and read, by the names of the keys: what the calls of a small graph return.
ghost use Rattle.std.specs.Prelude.{◌≡◌, ◌<◌, length, map, All, IfOk};
ghost use Rattle.tcc_reads.specs.History.{count, entry_at};
ghost use Rattle.tcc_graph.specs.{KeyIndices.name_of, private.Graphs.IsNamed, private.Graphs.AreNamed};

use crate::LargeGraph;
use crate::grouped::Grouped;
use std::alloc::Global;
use std::marker::Model;
use tcc_txn::{Name, NoMemory};

/// What a transaction writes and reads, and what is read from it.
#[derive(Drop)]
pub(crate) struct Named {
    /// The keys that it writes visibly.
    pub writes: Vec<Name>,
    /// Key and source of its external reads.
    pub reads: Vec<(Name, u32)>,
    /// The keys that are read from it, each in the group of its reader.
    pub readings: Grouped<Name>,
}

impl Model for Named {
    ghost use Rattle.tcc_graph.specs.private.Graphs.{Named};

    ghost Value = { Named };

    ghost view = { λ p. record { writes = p.writes.items; reads = p.reads.items; readings = p.readings } };
}

/// The keys at these indices.
fn names_at(alloc: Global, keys: &[Name], key_indices: &[u32]) -> Result<Vec<Name>, NoMemory>
    requires { All (λ k. k < length keys.now) key_indices.now }
    ensures { IfOk result (λ names. names.items ≡ map (name_of keys.now) key_indices.now) }
{
    let mut names = Vec::with_capacity(alloc, key_indices.len())?;
    for key_index in key_indices {
        names.push(keys[*key_index as usize])?;
    }
    Ok(names)
}

/// The keys that the transaction of a number reads, each with its source.
fn reads_by_name(alloc: Global, graph: &LargeGraph, n: u32) -> Result<Vec<(Name, u32)>, NoMemory>
    requires { n < count graph.now }
    ensures value { IfOk result (λ names. names.items ≡ (entry_at graph.now n).reads) }
    ensures sources { IfOk result (λ names. All (λ read. read.1 < count graph.now) names.items) }
{
    let keys = graph.keys();
    let reads = graph.reads_at(n);
    let mut names = Vec::with_capacity(alloc, reads.len())?;
    for (key_index, source) in reads {
        names.push((keys[*key_index as usize], *source))?;
    }
    Ok(names)
}

impl Named {
    /// The transaction of a number.
    fn of(alloc: Global, graph: &LargeGraph, n: u32) -> Result<Named, NoMemory>
        requires { n < count graph.now }
        ensures { IfOk result (IsNamed graph.now n) }
    {
        let keys = graph.keys();
        let (readers, key_indices) = graph.read_at(n);
        let keys_read = names_at(alloc, keys, key_indices)?;
        Ok(Named {
            writes: names_at(alloc, keys, graph.writes_at(n))?,
            reads: reads_by_name(alloc, graph, n)?,
            readings: Grouped::in_groups(alloc, readers, keys_read)?,
        })
    }
}

/// Each transaction by the names of its keys.
pub(crate) fn named_by(alloc: Global, graph: &LargeGraph) -> Result<Vec<Named>, NoMemory>
    ensures { IfOk result (λ names. AreNamed graph.now (count graph.now) names.items) }
{
    let mut names = Vec::with_capacity(alloc, graph.count() as usize)?;
    for n in 0..graph.count() {
        names.push(Named::of(alloc, graph, n)?)?;
    }
    Ok(names)
}

//! The external reads of a history, one after the other: by reader, and of one reader by key and by source. A step for each read.
ghost use Rattle.std.specs.Prelude.{◌≡◌, ◌<◌, ◌+◌, ◌++◌, ◌∷◌, [], IfOk, OnOk};
ghost use Rattle.tcc_reads.specs.History.{count};
ghost use Rattle.tcc_survey.specs.private.Listed.{AreReadsUpTo};

use std::alloc::Global;
use tcc_graph::LargeGraph;
use tcc_txn::NoMemory;

/// An external read, by numbers.
#[derive(Clone, Copy)]
pub struct Reading {
    /// The index of the transaction that reads.
    pub reader: u32,
    /// The index of the read among those of its transaction, ordered by key in byte order and then by source.
    pub index: u32,
    /// The index of the key.
    pub key_index: u32,
    /// The index of the transaction that is read from.
    pub source: u32,
}

/// One external read more.
fn list_read(
    all: &mut Vec<Reading>,
    reader: u32,
    index: usize,
    key_index: u32,
    source: u32,
) -> Result<(), NoMemory>
    ensures { OnOk result (all.new.items ≡ all.old.items ++ record { reader = reader; index = index; key_index = key_index; source = source } ∷ []) }
{
    let Ok(index) = u32::try_from(index) else {
        return Err(NoMemory);
    };
    all.push(Reading {
        reader,
        index,
        key_index,
        source,
    })?;
    Ok(())
}

/// The external reads of one transaction more.
fn list_reads(all: &mut Vec<Reading>, graph: &LargeGraph, reader: u32) -> Result<(), NoMemory>
    requires below { reader < count graph.now }
    requires listed { AreReadsUpTo graph.now reader 0 all.old.items }
    ensures { OnOk result (AreReadsUpTo graph.now (reader + 1) 0 all.new.items) }
{
    for (index, read) in graph.reads_at(reader).iter().enumerate() {
        list_read(all, reader, index, read.0, read.1)?;
    }
    Ok(())
}

/// All external reads, by reader and by their index there.
pub(crate) fn all_reads(alloc: Global, graph: &LargeGraph) -> Result<Vec<Reading>, NoMemory>
    ensures { IfOk result (λ all. AreReadsUpTo graph.now (count graph.now) 0 all.items) }
{
    let mut all = Vec::new(alloc);
    for reader in 0..graph.count() {
        list_reads(&mut all, graph, reader)?;
    }
    Ok(all)
}

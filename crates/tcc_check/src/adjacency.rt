//! Adjacency lists of the causal pairs of a history, made once before a table comes.
ghost use Rattle.std.specs.Prelude.{◌≤◌, IfOk};
ghost use Rattle.tcc_txn.specs.declared.limits.TheConstants.{MAX_COUNT};
ghost use Rattle.tcc_reads.specs.History.{count};
ghost use Rattle.tcc_check.specs.private.Pairs.{ArePairs};

use crate::groups::Groups;
use crate::links_from::read_ends;
use crate::readings::readings_of;
use crate::runs::run_begins;
use std::alloc::Global;
use tcc_graph::LargeGraph;
use tcc_txn::NoMemory;

/// Where the runs of sessions begin, the reads-from pairs from each transaction, and who reads each key.
#[derive(Drop)]
pub(crate) struct PairLists {
    pub(crate) begins: Vec<u32>,
    pub(crate) reads: Vec<Groups>,
    pub(crate) readings: Vec<Option<Groups>>,
}

/// The adjacency lists of a history, for costs below `least`.
pub(crate) fn pairs_of(alloc: Global, graph: &LargeGraph, least: u32) -> Result<PairLists, NoMemory>
    requires { count graph.now ≤ MAX_COUNT }
    ensures { IfOk result (ArePairs graph.now least) }
{
    // the transactions are numbered by session
    let _sessions = graph.sessions();
    let begins = run_begins(alloc, graph)?;
    let reads = read_ends(alloc, graph, least)?;
    let readings = readings_of(alloc, graph)?;
    Ok(PairLists {
        begins,
        reads,
        readings,
    })
}

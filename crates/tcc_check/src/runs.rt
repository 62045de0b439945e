//! Runs of session pairs: how far back each transaction's session goes on without a break.
ghost use Rattle.std.specs.Prelude.{◌≡◌, IfOk};
ghost use Rattle.tcc_reads.specs.History.{IsBySession};
ghost use Rattle.tcc_check.specs.private.Runs.{AreRuns};

use std::alloc::Global;
use tcc_graph::LargeGraph;
use tcc_txn::NoMemory;

/// Where the run of each transaction begins: up to it, each number comes before the next in session order.
pub(crate) fn run_begins(alloc: Global, graph: &LargeGraph) -> Result<Vec<u32>, NoMemory>
    requires numbered { IsBySession graph.now.entries }
    ensures { IfOk result (λ begins. AreRuns graph.now begins.items) }
{
    let mut begins = Vec::new(alloc);
    let mut begin = 0;
    for end in 0..graph.count() {
        if end == 0 || graph.previous(end) + 1 < end {
            begin = end;
        }
        begins.push(begin)?;
    }
    Ok(begins)
}

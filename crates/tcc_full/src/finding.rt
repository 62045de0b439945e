//! What is found for a snapshot: no certificate is made of it, so it is answered without tables, whatever its size.
ghost use Rattle.std.specs.Prelude.{IfOk};
ghost use Rattle.tcc_full.specs.FullAnswer.{IsFound};

use std::thread::Threads;
use tcc_answering::{AnsweredBounds, First, first_answer};
use tcc_graph::{LargeGraph, Level};
use tcc_print::RunContext;
use tcc_reads::{ReadFault, ResolveFault};
use tcc_txn::{NoMemory, SnapshotWithin};

/// What is found for a snapshot.
#[derive(Drop)]
pub(crate) enum FoundAnswer {
    /// All its read faults.
    Unresolved(Vec<ReadFault>),
    /// Its graph, and its first commit order or the first of its least cycles.
    Resolved { graph: LargeGraph, first: First },
}

/// What is found for a snapshot at a level, by the workers of the run.
pub(crate) fn find<T: Threads + Sync, G, B: AnsweredBounds>(
    run: &RunContext<T, G>,
    snapshot: &SnapshotWithin<B>,
    level: Level,
) -> Result<FoundAnswer, NoMemory>
    ensures { IfOk result (IsFound level snapshot.now) }
{
    match first_answer(run.rt, run.alloc, snapshot, level, run.options.workers) {
        Ok(answered) => Ok(FoundAnswer::Resolved {
            graph: answered.graph,
            first: answered.first,
        }),
        Err(ResolveFault::Reads(faults)) => Ok(FoundAnswer::Unresolved(faults)),
        Err(ResolveFault::NoMemory) => Err(NoMemory),
    }
}

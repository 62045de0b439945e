//! The answer for a large snapshot.
ghost use Rattle.std.specs.Prelude.{MatchResult};
ghost use Rattle.tcc_reads.specs.Refusals.{IsRefusal};
ghost use Rattle.tcc_large.specs.Explained.{IsLargeAnswer};

use crate::answer::LargeAnswer;
use crate::deciding::decide;
use std::alloc::Global;
use tcc_graph::{LargeGraph, Level};
use tcc_reads::{ResolveFault, resolve_large};
use tcc_txn::LargeSnapshot;

/// What is decided about the history of a large snapshot at a level, or all its read faults, where there are some. It is the first commit
/// order, or the links of a cycle. The cycle is the first by the rule of ties where it costs at most three steps, a least one where it
/// costs four, and not always a least one where it costs more. With a cycle of at least four steps comes an order of all transactions, to
/// judge by which is the first of the least ones. It begins with `init` and keeps all pairs; there is none where pairs form a cycle. It
/// need not be trusted.
pub fn explain_large(
    alloc: Global,
    snapshot: &LargeSnapshot,
    level: Level,
) -> Result<(LargeAnswer, Option<Vec<u32>>), ResolveFault>
    ensures { MatchResult result (λ found. IsLargeAnswer snapshot.now level found.0) (IsRefusal snapshot.now) }
{
    let graph = LargeGraph::build(alloc, resolve_large(alloc, snapshot)?)?;
    let (decision, order) = decide(alloc, &graph, level)?;
    Ok((LargeAnswer { graph, decision }, order))
}

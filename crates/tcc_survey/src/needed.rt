//! Which blocks of 64 sessions have a writer that may contradict a read: one of a key that is read from another transaction. The
//! others are passed over. For W writes and R reads that takes O(W + R) steps.
ghost use Rattle.std.specs.Prelude.{◌≡◌, ◌≤◌, ◌*◌, length, IfOk};
ghost use Rattle.tcc_graph.specs.{Keys.keys, Levels.judged, declared.level.Level.Level};
ghost use Rattle.tcc_clocks.specs.declared.latest.TheConstants.{WIDE};
ghost use Rattle.tcc_clocks.specs.Clocks.{AreOwners};
ghost use Rattle.tcc_survey.specs.private.Needed.{AreBlocksNeeded, AreSourcesOf};
ghost use Rattle.tcc_survey.specs.private.Settled.{AreReads};

use crate::external_reads::Reading;
use std::alloc::{AllocError, Global};
use tcc_clocks::{KeySources, mark_blocks};
use tcc_graph::LargeGraph;
use tcc_txn::NoMemory;

/// From whom each key is read.
fn sources_by_key(
    alloc: Global,
    graph: &LargeGraph,
    reads: &[Reading],
) -> Result<Vec<KeySources>, AllocError>
    requires reads { AreReads graph.now reads.now }
    ensures { IfOk result (λ sources. AreSourcesOf reads.now (length reads.now) (length (keys graph.now)) sources.items) }
{
    let mut sources = vec![in alloc; KeySources::Nobody; graph.keys().len()]?;
    for read in reads {
        let index = read.key_index as usize;
        sources[index] = sources[index].with(read.source);
    }
    Ok(sources)
}

/// Of each block of sessions whether it has a writer that may contradict one of these reads.
pub(crate) fn needed_blocks(
    alloc: Global,
    graph: &LargeGraph,
    owners: &[u32],
    reads: &[Reading],
) -> Result<Vec<bool>, NoMemory>
    requires owners { AreOwners graph.now owners.now }
    requires reads { AreReads graph.now reads.now }
    ensures long { IfOk result (λ needed. length graph.now.sessions ≤ length needed.items * WIDE) }
    ensures needed { IfOk result (λ needed. (level : Level) → AreBlocksNeeded (judged graph.now level) reads.now needed.items) }
{
    let sources = sources_by_key(alloc, graph, reads)?;
    let needed = mark_blocks(alloc, graph, owners, &sources)?;
    Ok(needed)
}

//! The least that contradicts each read: by vector clocks both ways (Fidge, Mattern), for a block of 64 sessions at a time. For
//! N transactions, S sessions and R reads that takes at most S (N + R) steps, and two tables of 64 N numbers. Besides, for each block
//! the writers of a read's key in it are looked at, where the read's clock differs from that of its source. That is one by one where
//! they are few, and else by halving for each session. A block none of whose writers may contradict a read is passed over
//! (`needed`).
ghost use Rattle.std.specs.Prelude.{◌≡◌, IfOk, reverse};
ghost use Rattle.tcc_reads.specs.History.{count};
ghost use Rattle.tcc_graph.specs.{Levels.judged, Orders.IsNumbering};
ghost use Rattle.tcc_clocks.specs.Clocks.{LeadsOnward};
ghost use Rattle.tcc_survey.specs.private.Settled.{AreReads, AreFound};

use crate::block::ClockBlock;
use crate::external_reads::Reading;
use crate::needed::needed_blocks;
use crate::reverse_clocks::find_firsts;
use crate::scanning::ReadSweep;
use std::alloc::{AllocError, Global};
use tcc_base::Progress;
use tcc_clocks::{SharedRows, WIDE, find_clocks, owners, previous_of_each, steps_along};
use tcc_graph::{LargeGraph, Level};
use tcc_txn::NoMemory;

/// The order turned round.
pub(crate) fn reversed(alloc: Global, order: &[u32]) -> Result<Vec<u32>, AllocError>
    ensures { IfOk result (λ found. found.items ≡ reverse order.now) }
{
    order.iter().rev().copied().collect(alloc)
}

/// Of each read the least number that contradicts it, 0 for none; by an order in which causal pairs lead onward. Before each
/// block `progress` is told how many are done; they are the first half of the work.
pub(crate) fn find_least<P: Progress>(
    alloc: Global,
    graph: &LargeGraph,
    level: Level,
    order: &[u32],
    reads: &[Reading],
    progress: &P,
) -> Result<Vec<u32>, NoMemory>
    requires numbering { IsNumbering (count graph.now) order.now }
    requires onward { LeadsOnward graph.now order.now }
    requires reads { AreReads graph.now reads.now }
    ensures { IfOk result (λ found. AreFound (judged graph.now level) reads.now found.items) }
{
    let sessions = graph.sessions().len();
    let parents = previous_of_each(alloc, graph)?;
    let steps = steps_along(alloc, graph, &parents, order)?;
    let backward = reversed(alloc, order)?;
    let owners = owners(alloc, graph)?;
    let mut clocks = SharedRows::new(alloc, graph.count())?;
    let mut firsts = SharedRows::new(alloc, graph.count())?;
    let mut found = vec![in alloc; 0; reads.len()]?;
    let needed = needed_blocks(alloc, graph, &owners, reads)?;
    let blocks = sessions.div_ceil(WIDE);
    for number in 0..blocks {
        progress.done(number, 2 * blocks);
        if !needed[number] {
            continue;
        }
        let block = ClockBlock {
            graph,
            owners: &owners,
            from: (number * WIDE) as u32,
        };
        find_clocks(&mut clocks, graph, &owners, block.from, order, &steps)?;
        find_firsts(alloc, &mut firsts, &block, &backward)?;
        let sweep = ReadSweep {
            level,
            block,
            firsts: &firsts,
            clocks: &clocks,
        };
        sweep.settle(alloc, &mut found, reads)?;
    }
    Ok(found)
}

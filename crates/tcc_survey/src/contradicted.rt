//! The contradicted reads of a history, one after the other: those for which the sweep (`clock_sweep`) found a writer, as they are
//! called (`calling`). A step for each read beside it.
ghost use Rattle.std.specs.Prelude.{IfOk};
ghost use Rattle.tcc_reads.specs.History.{count};
ghost use Rattle.tcc_graph.specs.{Levels.judged, Orders.IsNumbering};
ghost use Rattle.tcc_clocks.specs.Clocks.{LeadsOnward};
ghost use Rattle.tcc_survey.specs.Contradictions.{AreContradicted};

use crate::called::Called;
use crate::calling::call_reads;
use crate::external_reads::{Reading, all_reads};
use crate::usual_name::UsualName;
use std::alloc::Global;
use tcc_base::Progress;
use tcc_graph::{LargeGraph, Level};
use tcc_txn::NoMemory;

/// A contradicted read.
#[derive(Clone, Copy)]
pub struct Contradicted {
    /// The read.
    pub reading: Reading,
    /// Its usual name: the first that fits any writer of the key that is known to the reader and reached from what is read.
    pub name: UsualName,
    /// The least number of such a writer that the name fits.
    pub writer: u32,
}

/// All contradicted reads, by an order in which causal pairs lead onward.
pub(crate) fn contradicted_along<P: Progress>(
    alloc: Global,
    graph: &LargeGraph,
    level: Level,
    order: &[u32],
    progress: &P,
) -> Result<Vec<Contradicted>, NoMemory>
    requires numbering { IsNumbering (count graph.now) order.now }
    requires onward { LeadsOnward graph.now order.now }
    ensures { IfOk result (λ list. AreContradicted (judged graph.now level) list.items) }
{
    let reads = all_reads(alloc, graph)?;
    let called = call_reads(alloc, graph, level, order, &reads, progress)?;
    let mut list = Vec::new(alloc);
    for (index, read) in reads.iter().enumerate() {
        let Called { name, writer } = called[index];
        if writer > 0 {
            let reading = *read;
            list.push(Contradicted {
                reading,
                name,
                writer,
            })?;
        }
    }
    Ok(list)
}

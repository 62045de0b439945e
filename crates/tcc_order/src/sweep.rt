//! What the search for the links from each block of sessions needs. It goes along an order of the transactions (a sweep).
ghost use Rattle.std.specs.Prelude.{◌≡◌, IfOk};
ghost use Rattle.tcc_reads.specs.History.{count};
ghost use Rattle.tcc_graph.specs.Orders.{IsNumbering};
ghost use Rattle.tcc_clocks.specs.{Clocks.LeadsOnward, Parents.ArePrevious};
ghost use Rattle.tcc_order.specs.private.Sweeps.{IsSweep};

use std::alloc::Global;
use tcc_clocks::{Steps, needed_blocks, owners, steps_along};
use tcc_graph::LargeGraph;
use tcc_txn::NoMemory;

/// What the search for the links from each block of sessions needs.
#[derive(Drop)]
pub(crate) struct Sweep<'a> {
    pub(crate) graph: &'a LargeGraph,
    /// An order in which causal pairs lead onward.
    pub(crate) order: &'a [u32],
    /// The session of each transaction.
    pub(crate) owners: Vec<u32>,
    /// What is right before each transaction of the order.
    pub(crate) steps: Steps,
    /// Which blocks may have such links.
    pub(crate) needed: Vec<bool>,
}

impl<'a> Sweep<'a> {
    /// What a search needs along an order in which causal pairs lead onward.
    pub(crate) fn new(
        alloc: Global,
        graph: &'a LargeGraph,
        parents: &[u32],
        order: &'a [u32],
    ) -> Result<Sweep<'a>, NoMemory>
        requires parents { ArePrevious graph.now parents.now }
        requires numbering { IsNumbering (count graph.now) order.now }
        requires onward { LeadsOnward graph.now order.now }
        ensures graph { IfOk result (λ sweep. sweep.graph.now ≡ graph.now) }
        ensures sweep { IfOk result IsSweep }
    {
        graph.numbered();
        let owners = owners(alloc, graph)?;
        let steps = steps_along(alloc, graph, parents, order)?;
        let needed = needed_blocks(alloc, graph, &owners)?;
        Ok(Sweep {
            graph,
            order,
            owners,
            steps,
            needed,
        })
    }
}

//! Blocks of 64 sessions, one after another. For each of them a pass goes back along an order of the causal pairs, with the vector clocks
//! of the block. For each key and each of its sessions it has the next writer after a place. For N transactions, R reads, W writes and S
//! sessions this takes some 64 (N + 2 R) + W steps a block, all of them maxima and comparisons of rows. A block that cannot contradict
//! anything gets no pass.
ghost use Rattle.std.specs.Prelude.{◌≡◌, ◌<◌, ◌≤◌, ◌+◌, ◌*◌, length, IfOk, MatchOption, OnOk};
ghost use Rattle.tcc_clocks.specs.{Clocks.AreOwners, Clocks.IsOutside, Clocks.LeadsOnward, Needed.AreNeeded, declared.latest.TheConstants.WIDE};
ghost use Rattle.tcc_judge.specs.private.Decoding.{IsOrdered};
ghost use Rattle.tcc_judge.specs.private.Blocks.{IsAt, IsInLane, IsReady};

use crate::next_writers::{NextWriters, lower_all};
use std::alloc::Global;
use tcc_clocks::{
    SharedRows, Steps, WIDE, find_clocks, needed_blocks, owners, previous_of_each, steps_along,
};
use tcc_graph::LargeGraph;
use tcc_txn::NoMemory;

/// What is known about a block at a place of the order.
#[derive(Drop)]
pub(crate) struct Block {
    /// The index of each transaction's session.
    owners: Vec<u32>,
    /// The transactions right before each one of the order.
    steps: Steps,
    /// The first session of the block.
    from: u32,
    /// The clock of each transaction.
    pub(crate) clocks: SharedRows,
    /// The next writers of each key.
    pub(crate) next: NextWriters,
}

impl Block {
    /// What is known before the first block begins.
    pub(crate) fn new(alloc: Global, graph: &LargeGraph, order: &[u32]) -> Result<Block, NoMemory>
        requires ordered { IsOrdered graph.now order.now }
        requires onward { LeadsOnward graph.now order.now }
        ensures { IfOk result (IsReady graph.now order.now) }
    {
        let owners = owners(alloc, graph)?;
        let parents = previous_of_each(alloc, graph)?;
        let steps = steps_along(alloc, graph, &parents, order)?;
        let clocks = SharedRows::new(alloc, graph.count())?;
        let next = NextWriters::new(alloc, graph.keys().len())?;
        Ok(Block {
            owners,
            steps,
            from: 0,
            clocks,
            next,
        })
    }

    /// For each block whether one of its transactions may have to come before another: whether it writes a key that is read from another
    /// one. The other blocks are passed over, since they cannot contradict anything.
    pub(crate) fn needed(&self, alloc: Global, graph: &LargeGraph) -> Result<Vec<bool>, NoMemory>
        requires { AreOwners graph.now self.now.owners.items }
        ensures long { IfOk result (λ needed. length graph.now.sessions ≤ length needed.items * WIDE) }
        ensures needed { IfOk result (λ needed. AreNeeded graph.now needed.items) }
    {
        needed_blocks(alloc, graph, &self.owners)
    }

    /// Begins a block after the last place.
    pub(crate) fn begin(
        &mut self,
        graph: &LargeGraph,
        order: &[u32],
        number: usize,
    ) -> Result<(), NoMemory>
        requires inside { number * WIDE < length graph.now.sessions }
        requires ready { IsReady graph.now order.now self.old }
        ensures from { OnOk result (self.new.from ≡ number * WIDE) }
        ensures at { OnOk result (IsAt graph.now order.now (length order.now) self.new) }
    {
        // this call ensures that there are few sessions
        graph.sessions();
        self.from = (number * WIDE) as u32;
        find_clocks(
            &mut self.clocks,
            graph,
            &self.owners,
            self.from,
            order,
            &self.steps,
        )?;
        self.next.clear();
        Ok(())
    }

    /// The index of a transaction's session in the block; none for a transaction outside it.
    pub(crate) fn lane_of(&self, a: u32) -> Option<usize>
        requires { a < length self.now.owners.items }
        ensures { MatchOption result
            (IsOutside self.now.owners.items self.now.from a)
            (IsInLane self.now.owners.items self.now.from a) }
    {
        let lane = self.owners[a as usize].checked_sub(self.from)? as usize;
        if a > 0 && lane < WIDE {
            Some(lane)
        } else {
            None
        }
    }

    /// Goes back to a place.
    pub(crate) fn go_back(
        &mut self,
        graph: &LargeGraph,
        order: &[u32],
        place: usize,
    ) -> Result<(), NoMemory>
        requires inside { place < length order.now }
        requires at { IsAt graph.now order.now (place + 1) self.old }
        ensures from { self.new.from ≡ self.old.from }
        ensures at { OnOk result (IsAt graph.now order.now place self.new) }
    {
        let a = order[place];
        let Some(lane) = self.lane_of(a) else {
            return Ok(());
        };
        lower_all(&mut self.next, graph.writes_at(a), lane, a)?;
        Ok(())
    }
}

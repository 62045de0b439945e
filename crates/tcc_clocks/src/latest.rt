//! Vector clocks (Fidge, Mattern) of a block of 64 sessions: for each session the greatest number that reaches a transaction.
//! They are computed along a linear extension of the causal pairs. At a transaction's turn those right before it have their
//! rows, from which its own follows (`rows`). For N transactions and R reads that takes at most 64 (N + R) steps a block.
ghost use Rattle.std.specs.Prelude.{◌≡◌, ℕ, length, IfOk, OnOk};
ghost use Rattle.tcc_reads.specs.History.{IsBySession, count};
ghost use Rattle.tcc_graph.specs.Orders.{IsNumbering};
ghost use Rattle.tcc_clocks.specs.Parents.{AreSteps};
ghost use Rattle.tcc_clocks.specs.Clocks.{AreOwners, AreClocks, LeadsOnward};

use crate::parents::{Steps, between};
use crate::rows::put_row;
use crate::sharing::SharedRows;
use crate::side::Side;
use std::alloc::{AllocError, Global};
use tcc_graph::LargeGraph;
use tcc_txn::NoMemory;

/// How many sessions are handled together.
pub const WIDE: usize = 64;

/// The index of each transaction's session.
pub fn owners(alloc: Global, graph: &LargeGraph) -> Result<Vec<u32>, AllocError>
    ensures { IfOk result (λ owners. AreOwners graph.now owners.items) }
{
    let mut owners = Vec::new(alloc);
    for number in 0..graph.count() {
        let owner = match graph.at(number) {
            Some((owner, _place)) => owner,
            None => 0,
        };
        owners.push(owner)?;
    }
    Ok(owners)
}

/// For each transaction and each session of the block the greatest number of the session that reaches it, 0 for none. It goes
/// along an order in which causal pairs lead onward.
pub fn find_clocks(
    table: &mut SharedRows,
    graph: &LargeGraph,
    owners: &[u32],
    from: u32,
    order: &[u32],
    steps: &Steps,
) -> Result<(), NoMemory>
    requires numbered { IsBySession graph.now.entries }
    requires owners { AreOwners graph.now owners.now }
    requires steps { AreSteps graph.now order.now steps.now.spans.items steps.now.numbers.items (length order.now) }
    requires numbering { IsNumbering (count graph.now) order.now }
    requires onward { LeadsOnward graph.now order.now }
    requires long { length table.old ≡ count graph.now }
    ensures { OnOk result (AreClocks graph.now from table.new) }
{
    table.clear();
    for (position, number) in order.iter().enumerate() {
        let found = between(&steps.numbers, steps.spans[position]);
        put_row(table, Side::Past, graph, owners, from, found, *number)?;
    }
    Ok(())
}

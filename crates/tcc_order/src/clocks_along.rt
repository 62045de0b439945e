//! Vector clocks (Fidge, Mattern) of all sessions along a commit order: for each transaction and each session the last place
//! that reaches it. At a transaction's turn those right before it have their rows. So its own is their maximum, with these
//! transactions themselves. For N transactions of S sessions and R reads that takes S (N + R) steps, and N S numbers.
ghost use Rattle.std.specs.Prelude.{◌≡◌, ◌<◌, ℕ, max, length, slice_index, All, Contains, IfOk};
ghost use Rattle.tcc_reads.specs.History.{count};
ghost use Rattle.tcc_graph.specs.{Levels.causally, Orders.IsCommitOrder, Tables.row_of, Clocks.IsClocksOf};
ghost use Rattle.tcc_order.specs.private.Lasts.{AreLastsOf, raised};
ghost use Rattle.tcc_clocks.specs.{Clocks.IsBefore, private.Rows.IsUpTo};

use crate::rows::empty_rows;
use std::alloc::{AllocError, Global};
use tcc_bits::Row;
use tcc_clocks::{parents_of, raise_each};
use tcc_graph::LargeGraph;
use tcc_txn::NoMemory;

/// Raises the place of a transaction's session to its own.
fn raise_one(row: &mut [u32], graph: &LargeGraph, p: u32)
    requires { p < count graph.now }
    ensures same { length row.new ≡ length row.old }
    ensures each { (s : ℕ) → s < length row.old → slice_index row.new s ≡ raised graph.now p s (slice_index row.old s) }
{
    if let Some((owner, place)) = graph.at(p) {
        let session = owner as usize;
        if session < row.len() {
            row[session] = place.max(row[session]);
        }
    }
}

/// The last place in each session of these transactions and of what reaches them, by their rows.
fn clock_row(
    alloc: Global,
    graph: &LargeGraph,
    table: &[Row<u32>],
    numbers: &[u32],
) -> Result<Row<u32>, AllocError>
    requires inside { All (λ p. p < count graph.now) numbers.now }
    requires long { length table.now ≡ count graph.now }
    requires lasts { All (λ p. AreLastsOf graph.now (IsBefore graph.now p) (row_of table.now p)) numbers.now }
    ensures { IfOk result (AreLastsOf graph.now (IsUpTo graph.now (Contains numbers.now))) }
{
    let mut row = vec![in alloc; 0; graph.sessions().len()]?;
    for number in numbers {
        raise_each(&mut row, table[*number as usize].as_slice());
        raise_one(&mut row, graph, *number);
    }
    Ok(Row::new(row))
}

/// For each transaction and each session, the greatest place of a transaction of the session from which it is reached, 0 for
/// none. It goes along a commit order.
pub fn clocks(alloc: Global, graph: &LargeGraph, order: &[u32]) -> Result<Vec<Row<u32>>, NoMemory>
    requires { IsCommitOrder (causally graph.now) order.now }
    ensures { IfOk result (λ rows. IsClocksOf graph.now rows.items) }
{
    graph.numbered();
    let mut table = empty_rows(alloc, graph.count())?;
    for number in order {
        let parents = parents_of(alloc, graph, *number)?;
        let row = clock_row(alloc, graph, &table, &parents)?;
        table[*number as usize] = row;
    }
    Ok(table)
}

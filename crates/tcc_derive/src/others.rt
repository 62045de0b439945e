//! Sparse rows: for each transaction the others to which a reads-from pair or a derived link leads, ascending, each with the
//! least cost of a link there. Session pairs are described by the end of their range. It takes N * N steps for N transactions,
//! row by row in threads.
ghost use Rattle.std.specs.Prelude.{◌≡◌, ◌<◌, ◌≤◌, length, IfOk};
ghost use Rattle.tcc_txn.specs.declared.limits.TheConstants.{MAX_COUNT};
ghost use Rattle.tcc_reads.specs.History.{count};
ghost use Rattle.tcc_derive.specs.{Prices.IsEnd, private.Rows.HasRows};
ghost use Rattle.tcc_derive.specs.private.Others.{IsOtherRow, HasOtherRows, HasEnds};
ghost use Rattle.tcc_graph.specs.Tables.{row_of};
ghost use Rattle.tcc_near.specs.WalkLengths.{IsSquare};

use crate::costing::cost_row;
use rayon::prelude::*;
use std::alloc::Global;
use std::thread::Threads;
use tcc_bits::{ROWS_A_THREAD, Row};
use tcc_graph::Graph;
use tcc_near::{NONE, Near};
use tcc_txn::NoMemory;

/// The end of the numbers that session pairs lead to from `u`.
fn session_end(graph: &Graph, u: u32) -> u32
    requires { u < count graph.now }
    ensures { IsEnd graph.now u result }
{
    let (_first, end) = graph.later(u);
    end
}

/// The end of the numbers that session pairs lead to, for each transaction.
pub(crate) fn session_ends(alloc: Global, graph: &Graph) -> Result<Vec<u32>, NoMemory>
    ensures { IfOk result (λ ends. HasEnds graph.now ends.items) }
{
    let mut ends = Vec::with_capacity(alloc, graph.count() as usize)?;
    for u in 0..graph.count() {
        ends.push(session_end(graph, u))?;
    }
    Ok(ends)
}

/// The transactions to which a reads-from pair or a derived link leads from `u`, ascending, each with the cost of the cheapest
/// link there. The row of costs is computed from the steps and the prices from `u`, and dropped.
fn others_row(
    alloc: Global,
    graph: &Graph,
    u: u32,
    steps: &[u16],
    prices: &[u16],
) -> Result<Row<(u32, u32)>, NoMemory>
    requires from { u < count graph.now }
    requires steps { length steps.now ≡ count graph.now }
    requires prices { length prices.now ≡ count graph.now }
    ensures { IfOk result (IsOtherRow graph.now u steps.now prices.now) }
{
    let made = cost_row(alloc, steps, prices)?;
    let costs = made.as_slice();
    let mut others = Vec::new(alloc);
    for v in 0..graph.count() {
        let cost = costs[v as usize];
        if prices[v as usize] != NONE || (cost == 1 && !graph.reads_from(u, v).is_empty()) {
            others.push((v, u32::from(cost)))?;
        }
    }
    Ok(Row::new(others))
}

/// For each transaction those that read from it or to which it has a price, ascending, each with the cost of a link there.
pub(crate) fn other_rows(
    rt: &(impl Threads + Sync),
    alloc: Global,
    graph: &Graph,
    near: &Near,
    prices: &[Row<u16>],
) -> Result<Vec<Row<(u32, u32)>>, NoMemory>
    requires near { IsSquare (count graph.now) near.now.rows }
    requires prices { HasRows graph.now (λ u row. length row ≡ count graph.now) prices.now }
    ensures { IfOk result (λ rows. HasOtherRows graph.now near.now.rows prices.now rows.items) }
{
    (0..graph.count() as usize)
        .into_par_iter()
        .map(
            |u: usize| -> Result<Row<(u32, u32)>, NoMemory>
                requires { (u < length prices.now) × (u < length near.now.rows) × (u < count graph.now) × (count graph.now ≤ MAX_COUNT)
                    × (length (row_of prices.now u) ≡ count graph.now) × (length (row_of near.now.rows u) ≡ count graph.now) }
                ensures { IfOk result (IsOtherRow graph.entry.now u (row_of near.entry.now.rows u) (row_of prices.entry.now u)) }
            {
                let steps = near.row(u as u32);
                others_row(alloc, graph, u as u32, steps, prices[u].as_slice())
            },
        )
        .with_min_len(ROWS_A_THREAD)
        .collect::<Result<Vec<Row<(u32, u32)>>, NoMemory>>(rt, alloc)?
}

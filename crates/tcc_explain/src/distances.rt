//! The tables of a cycle's certificate, where it is known what a least cycle costs. The searches begin with this cost, so
//! none goes further, and none has to find the cycle.
ghost use Rattle.std.specs.Prelude.{IfOk, IfSome};
ghost use Rattle.tcc_graph.specs.{Levels.Judged, Levels.judged};
ghost use Rattle.tcc_near.specs.WalkLengths.{IsNearOf};
ghost use Rattle.tcc_derive.specs.Prices.{IsPricesOf};
ghost use Rattle.tcc_explain.specs.KnownCost.{AreDistances, IsLeastCost};
ghost use Rattle.tcc_explain.specs.private.Capping.{AreFarRows};

use crate::tables::{far_rows, near_rows};
use std::alloc::Global;
use std::thread::Threads;
use tcc_answer::CappedRows;
use tcc_base::Workers;
use tcc_bits::PackedRow;
use tcc_derive::Prices;
use tcc_graph::Graph;
use tcc_near::Near;
use tcc_steal::{AllStart, Gate, search_with};
use tcc_txn::NoMemory;

/// The tables of a cycle's certificate, capped at the cost of the cycle.
#[derive(Drop)]
pub struct Distances {
    /// From each transaction to each the least length of a walk that the level allows.
    pub near: CappedRows,
    /// From each transaction to itself and each above it the least cost of a route over numbers from there upward.
    pub far: CappedRows,
}

/// The rows of the searches from all starts, by `workers` workers, capped at the cost of a least cycle.
fn searched_rows<G: Gate>(
    rt: &(impl Threads + Sync),
    alloc: Global,
    prices: &Prices,
    cost: u32,
    workers: Workers,
    gate: &G,
) -> Result<Vec<PackedRow>, NoMemory>
    requires { (j : Judged) × IsPricesOf j prices.now × IsLeastCost j cost }
    ensures { (j : Judged) → IsPricesOf j prices.now → IsLeastCost j cost → IfOk result (λ rows. AreFarRows j cost rows.items) }
{
    let found = search_with(rt, alloc, prices, Some(cost), workers, gate, &AllStart)?;
    Ok(found.rows)
}

/// The tables of a cycle's certificate at the level of the walk lengths, where a least cycle costs this much. They are the
/// same for every number of workers. The gate is called before each start that they take.
pub fn distance_tables<G: Gate>(
    rt: &(impl Threads + Sync),
    alloc: Global,
    graph: &Graph,
    near: Near,
    prices: Prices,
    cost: u32,
    workers: Workers,
    gate: &G,
) -> Result<Distances, NoMemory>
    requires near { IsNearOf (judged graph.now near.level) near }
    requires prices { IsPricesOf (judged graph.now near.level) prices }
    requires cost { IsLeastCost (judged graph.now near.level) cost }
    ensures { IfOk result (AreDistances (judged graph.now near.level) cost) }
{
    let rows = searched_rows(rt, alloc, &prices, cost, workers, gate)?;
    drop(prices);
    let far = far_rows(graph, rows, cost);
    let near = near_rows(alloc, graph, near, cost)?;
    Ok(Distances { near, far })
}

//! The tables of certificates, from the distances, the searches' rows and the clocks.
ghost use Rattle.std.specs.Prelude.{◌≡◌, IfOk, map};
ghost use Rattle.tcc_graph.specs.{Orders.IsCommitOrder, Levels.judged, declared.level.Level.Level};
ghost use Rattle.tcc_near.specs.WalkLengths.{IsNearOf};
ghost use Rattle.tcc_bits.specs.Packed.{value_in};
ghost use Rattle.tcc_explain.specs.Certificates.{IsNearTable, IsFarTable, IsClocksAt};
ghost use Rattle.tcc_explain.specs.private.Capping.{AreFarRows};

use std::alloc::Global;
use tcc_answer::CappedRows;
use tcc_bits::{PackedRow, Row};
use tcc_cert::{Numbers, Table};
use tcc_graph::{Graph, Level};
use tcc_near::Near;
use tcc_order::clocks;
use tcc_txn::NoMemory;

/// Rows of steps as they are stored.
fn packed(alloc: Global, rows: Vec<Row<u16>>) -> Result<Vec<PackedRow>, NoMemory>
    ensures { IfOk result (λ packed. packed.items ≡ map (map value_in) rows.items) }
{
    let mut packed = Vec::with_capacity(alloc, rows.len())?;
    for row in rows {
        packed.push(PackedRow::narrow(row.into_vec()))?;
    }
    Ok(packed)
}

/// The least lengths of the walks that the level of the distances allows, capped.
pub(crate) fn near_rows(
    alloc: Global,
    graph: &Graph,
    near: Near,
    cap: u32,
) -> Result<CappedRows, NoMemory>
    requires { IsNearOf (judged graph.now near.level) near }
    ensures { IfOk result (IsNearTable (judged graph.now near.level) cap) }
{
    let _count = graph.count();
    let rows = packed(alloc, near.into_rows())?;
    Ok(CappedRows::new(rows, cap))
}

/// The least costs of routes over numbers from their start upward, capped, by rows that are capped there.
pub(crate) fn far_rows(graph: &Graph, rows: Vec<PackedRow>, cap: u32) -> CappedRows
    requires { (level : Level) × AreFarRows (judged graph.now level) cap rows.items }
    ensures { (level : Level) → AreFarRows (judged graph.now level) cap rows.items → IsFarTable (judged graph.now level) cap result }
{
    let _count = graph.count();
    CappedRows::new(rows, cap)
}

/// The clocks as a table.
fn clock_table(alloc: Global, clocks: &[Row<u32>]) -> Result<Table, NoMemory>
    ensures { IfOk result (λ table. table ≡ clocks.now) }
{
    let mut rows = Vec::new(alloc);
    for row in clocks {
        rows.push(Numbers::new(row.as_slice().iter().copied().collect(alloc)?))?;
    }
    Ok(Table::new(rows))
}

/// The clocks by which a commit order can be checked at a level: at `Atomic` there are none.
pub(crate) fn clocks_at(
    alloc: Global,
    graph: &Graph,
    level: Level,
    order: &[u32],
) -> Result<Table, NoMemory>
    requires { IsCommitOrder (judged graph.now level) order.now }
    ensures { IfOk result (IsClocksAt level graph.now) }
{
    match level {
        Level::Causal => clock_table(alloc, &clocks(alloc, graph, order)?),
        Level::Atomic => Ok(Table::new(Vec::new(alloc))),
    }
}

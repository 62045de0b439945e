//! The edge weights of all links of a graph at a level. They are dense rows of prices (`conflict_weights`), and sparse rows of
//! the links other than session links (`others`), which follow from the prices. These are split by cost (`by_class`) up to the
//! cost of the cheapest closing (`cost_limit`). For N transactions that takes N * N steps, and one for each transaction and
//! each read of a key that it writes.
ghost use Rattle.std.specs.Prelude.{◌≤◌, length, IfOk};
ghost use Rattle.tcc_near.specs.WalkLengths.{IsNearOf};
ghost use Rattle.tcc_derive.specs.{Limits.IsLimit, Prices.IsPricesOf, private.Rows.IsPriceRow, private.Rows.HasRows};
ghost use Rattle.tcc_txn.specs.declared.limits.TheConstants.{MAX_COUNT};
ghost use Rattle.tcc_graph.specs.Levels.{judged};

use crate::Prices;
use crate::by_class::by_class_rows;
use crate::conflict_weights::{PriceRows, price_rows};
use crate::cost_limit::{are_within, cost_limit};
use crate::others::{other_rows, session_ends};
use crate::read_table::read_table;
use crate::sources::source_table;
use crate::write_table::write_table;
use std::alloc::Global;
use std::thread::Threads;
use tcc_graph::Graph;
use tcc_near::Near;
use tcc_txn::NoMemory;

/// What derived links cost, a row for each transaction that they lead from, by the readers and the writers of each key.
fn all_prices(rt: &(impl Threads + Sync), alloc: Global, graph: &Graph, near: &Near) -> PriceRows
    requires { IsNearOf (judged graph.now near.now.level) near.now }
    ensures rows { IfOk result (λ rows. HasRows graph.now (IsPriceRow (judged graph.now near.now.level)) rows.items) }
    ensures few { IfOk result (λ rows. length rows.items ≤ MAX_COUNT) }
{
    let written = write_table(alloc, graph)?;
    let reads = read_table(alloc, graph)?;
    let sources = source_table(alloc, &reads, graph.count() as usize)?;
    price_rows(rt, alloc, graph, &reads, &sources, &written, near)
}

/// The prices of a graph, or the error that memory is out.
pub type MadePrices = Result<Prices, NoMemory>;

/// The prices of a graph, by its lengths and at their level. Between each two transactions they are the least cost of a
/// derived link, over all its reasons, and that of a link of any kind; none if there is no such link.
pub fn derive(rt: &(impl Threads + Sync), alloc: Global, graph: &Graph, near: &Near) -> MadePrices
    requires { IsNearOf (judged graph.now near.now.level) near.now }
    ensures prices { IfOk result (IsPricesOf (judged graph.now near.now.level)) }
    ensures limit { IfOk result (λ prices. IsLimit near.now.rows prices.prices prices.limit) }
{
    let prices = all_prices(rt, alloc, graph, near)?;
    let others = other_rows(rt, alloc, graph, near, &prices)?;
    let ends = session_ends(alloc, graph)?;
    let limit = cost_limit(near, &prices, &others);
    let by_class = by_class_rows(rt, alloc, &others, &ends, limit)?;
    let whole = are_within(&others, limit);
    Ok(Prices {
        level: near.level(),
        prices,
        ends,
        others,
        limit,
        by_class,
        whole,
    })
}

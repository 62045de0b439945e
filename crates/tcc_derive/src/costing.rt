//! Edge weights of one row: what links of all kinds from a transaction cost, in a step for each transaction.
ghost use Rattle.std.specs.Prelude.{◌≡◌, length, IfOk};
ghost use Rattle.tcc_derive.specs.private.Lowering.{HasPairs};

use std::alloc::Global;
use tcc_bits::Row;
use tcc_txn::NoMemory;

/// What links of all kinds from a transaction cost, by the steps from it and by the prices of derived links from it. If one
/// step leads to a transaction, there is a causal pair.
pub(crate) fn cost_row(alloc: Global, steps: &[u16], prices: &[u16]) -> Result<Row<u16>, NoMemory>
    requires { length steps.now ≡ length prices.now }
    ensures { IfOk result (HasPairs steps.now prices.now) }
{
    let mut costs = Vec::with_capacity(alloc, prices.len())?;
    for (v, price) in prices.iter().enumerate() {
        let direct = steps[v] == 1;
        let cost = if direct { 1 } else { *price };
        costs.push(cost)?;
    }
    Ok(Row::new(costs))
}

//! The positions of the numbers of an order.
ghost use Rattle.std.specs.Prelude.{◌≡◌, ◌<◌, ◌-◌, ◌^◌, length, IfOk, MatchOption};
ghost use Rattle.tcc_graph.specs.Orders.{IsNumbering};
ghost use Rattle.tcc_check.specs.private.Positions.{ArePositions};

use std::alloc::Global;
use tcc_txn::NoMemory;

/// The position of a number that was not seen.
const UNPLACED: u32 = u32::MAX;

/// The position of each number, none where the order has a number twice or one that is not below its length.
pub(crate) fn positions_of(alloc: Global, order: &[u32]) -> Result<Option<Vec<u32>>, NoMemory>
    requires { length order.now < 2 ^ 32 - 1 }
    ensures { IfOk result (λ found. MatchOption found
        (IsNumbering (length order.now) order.now → ⊥)
        (λ positions. ArePositions order.now positions.items)) }
{
    let mut positions = vec![in alloc; UNPLACED; order.len()]?;
    for (position, number) in order.iter().enumerate() {
        let number = *number as usize;
        if order.len() <= number || positions[number] != UNPLACED {
            return Ok(None);
        }
        positions[number] = position as u32;
    }
    if positions.contains(&UNPLACED) {
        return Ok(None);
    }
    Ok(Some(positions))
}

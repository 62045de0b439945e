//! The positions of the numbers of an order.
ghost use Rattle.std.specs.Prelude.{IfOk};
ghost use Rattle.tcc_graph.specs.Orders.{IsNumbering};
ghost use Rattle.tcc_judge.specs.private.Positions.{ArePositions};

use std::alloc::Global;
use tcc_txn::NoMemory;

/// The position of each number.
pub(crate) fn positions_of(alloc: Global, order: &[u32], count: u32) -> Result<Vec<u32>, NoMemory>
    requires { IsNumbering count order.now }
    ensures { IfOk result (λ positions. ArePositions count order.now positions.items) }
{
    let mut positions = vec![in alloc; 0; count as usize]?;
    for (position, number) in order.iter().enumerate() {
        positions[*number as usize] = position as u32;
    }
    Ok(positions)
}

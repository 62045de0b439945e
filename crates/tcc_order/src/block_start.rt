//! The beginning of a block of sessions in an order: no transaction of the block reaches one before it. So the clocks of those
//! before it are zeros, and they share one row.
ghost use Rattle.std.specs.Prelude.{◌≡◌, ◌<◌, ◌≤◌, true, false, ℕ, length, replicate, slice_index, All, OnOk};
ghost use Rattle.tcc_graph.specs.Tables.{row_of};
ghost use Rattle.tcc_clocks.specs.{Clocks.IsOutside, declared.latest.TheConstants.WIDE};
ghost use Rattle.tcc_order.specs.private.News.{IsOfBlock, NoneBefore};

use tcc_clocks::{SharedRows, WIDE};
use tcc_txn::NoMemory;

/// Whether a transaction is in a session of the block.
fn is_of_block(owners: &[u32], from: u32, c: u32) -> bool
    requires { c < length owners.now }
    ensures outside { result ≡ false → IsOutside owners.now from c }
    ensures inside { result ≡ true → IsOfBlock owners.now from c }
{
    let owner = owners[c as usize];
    c > 0 && owner >= from && ((owner - from) as usize) < WIDE
}

/// The first position of an order that has a transaction of the block, or the end of the order.
pub(crate) fn block_start(order: &[u32], owners: &[u32], from: u32) -> usize
    requires { All (λ c. c < length owners.now) order.now }
    ensures within { result ≤ length order.now }
    ensures before { NoneBefore owners.now from order.now result }
    ensures first { result < length order.now → IsOfBlock owners.now from (slice_index order.now result) }
{
    for (position, c) in order.iter().enumerate() {
        if is_of_block(owners, from, *c) {
            return position;
        }
    }
    order.len()
}

/// Gives zeros to the transactions before a position of an order.
pub(crate) fn zeros_before(
    table: &mut SharedRows,
    order: &[u32],
    end: usize,
) -> Result<(), NoMemory>
    requires below { All (λ c. c < length table.old) order.now }
    requires within { end ≤ length order.now }
    ensures same { OnOk result (length table.new ≡ length table.old) }
    ensures zeros { OnOk result ((j : ℕ) → j < end → row_of table.new (slice_index order.now j) ≡ replicate WIDE 0) }
{
    table.clear();
    let Some(first) = order.first() else {
        return Ok(());
    };
    table.put_like(*first, &[0; WIDE], &[])?;
    for position in 0..end {
        table.share(order[position], *first);
    }
    Ok(())
}

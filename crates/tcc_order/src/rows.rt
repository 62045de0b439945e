//! Tables whose rows are lists of their own, and a row that is reused.
ghost use Rattle.std.specs.Prelude.{◌≡◌, length, IfOk, OnOk};
ghost use Rattle.tcc_order.specs.private.CausalLinks.{HasNone};

use std::alloc::{AllocError, Global};
use tcc_bits::Row;
use tcc_txn::NoMemory;

/// This many empty rows.
pub(crate) fn empty_rows<T: Copy>(alloc: Global, count: u32) -> Result<Vec<Row<T>>, NoMemory>
    ensures long { IfOk result (λ rows. length rows.items ≡ count) }
    ensures none { IfOk result (λ rows. HasNone rows.items) }
{
    let mut rows = Vec::new(alloc);
    for _row in 0..count {
        rows.push(Row::new(Vec::new(alloc)))?;
    }
    Ok(rows)
}

/// Puts these numbers into a list that is reused.
pub(crate) fn refill(row: &mut Vec<u32>, numbers: &[u32]) -> Result<(), AllocError>
    ensures { OnOk result (row.new.items ≡ numbers.now) }
{
    row.clear();
    row.extend_from_slice(numbers)?;
    Ok(())
}

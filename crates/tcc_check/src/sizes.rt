//! The rule on sizes and ranges.
ghost use Rattle.std.specs.Prelude.{◌≡◌, ◌↔◌, ◌≤◌, All, IsTrue, length};
ghost use Rattle.tcc_cert.specs.Tables.{lowest, HasSize, HasFarSize, IsCapped};

use tcc_cert::{Numbers, Version};

/// Whether a table has `rows` rows, each with `columns` numbers.
pub(crate) fn has_size(table: &[Numbers], rows: usize, columns: usize) -> bool
    ensures { IsTrue result ↔ HasSize rows columns table.now }
{
    table.len() == rows && table.iter().all(|row| row.as_slice().len() == columns)
}

/// The first transaction that the row of `start` has a number for.
pub(crate) fn lowest(version: Version, start: u32) -> u32
    ensures value { result ≡ lowest version start }
    ensures low { result ≤ start }
{
    match version {
        Version::One => 0,
        Version::Two => start,
    }
}

/// Whether a table of costs has `count` rows, each with a number for each transaction from the lowest on.
pub(crate) fn has_far_size(version: Version, table: &[Numbers], count: u32) -> bool
    ensures { IsTrue result ↔ HasFarSize version count table.now }
{
    if table.len() != count as usize {
        return false;
    }
    for start in 0..count {
        let row = table[start as usize].as_slice();
        if row.len() != (count - lowest(version, start)) as usize {
            return false;
        }
    }
    true
}

/// Whether no number is above the limit.
fn is_row_capped(row: &[u32], most: u32) -> bool
    ensures { IsTrue result ↔ All (λ value. value ≤ most) row.now }
{
    row.iter().all(|value| *value <= most)
}

/// Whether a row has `long` numbers, none above the limit.
pub(crate) fn is_row_right(row: &[u32], long: usize, most: u32) -> bool
    ensures { IsTrue result ↔ ((length row.now ≡ long) × All (λ value. value ≤ most) row.now) }
{
    row.len() == long && is_row_capped(row, most)
}

/// Whether no number of a table is above the limit.
pub(crate) fn is_capped(table: &[Numbers], most: u32) -> bool
    ensures { IsTrue result ↔ IsCapped most table.now }
{
    table.iter().all(|row| is_row_capped(row.as_slice(), most))
}

//! The rows of vector clocks (Fidge, Mattern), one for each transaction and a block of 64 sessions, for either side of the
//! transaction. The row of a transaction is that of those right beside it, joined, with these transactions themselves. That
//! takes 64 steps for each of them, and fewer if it shares their row (`sharing`).
ghost use Rattle.std.specs.Prelude.{◌≡◌, ◌<◌, false, ℕ, max, min, List, length, set, slice_index, All, Contains, IfSome, OnOk};
ghost use Rattle.tcc_reads.specs.History.{IsBySession, count};
ghost use Rattle.tcc_graph.specs.Tables.{row_of};
ghost use Rattle.tcc_clocks.specs.Clocks.{AreOwners, AreEntries, IsOn, IsWith, IsLike, IsOutside};
ghost use Rattle.tcc_clocks.specs.private.Rows.{joined, with_own};

use crate::latest::WIDE;
use crate::sharing::{Clock, SharedRows};
use crate::side::Side;
use tcc_graph::LargeGraph;
use tcc_txn::NoMemory;

/// The greater of the two numbers of each session.
pub fn raise_each(row: &mut [u32], other: &[u32])
    requires { length row.old ≡ length other.now }
    ensures same { length row.new ≡ length row.old }
    ensures each { (s : ℕ) → s < length row.old → slice_index row.new s ≡ max (slice_index other.now s) (slice_index row.old s) }
{
    for (session, last) in row.iter_mut().enumerate() {
        *last = other[session].max(*last);
    }
}

/// The lesser of the two numbers of each session.
fn lower_each(row: &mut [u32], other: &[u32])
    requires { length row.old ≡ length other.now }
    ensures same { length row.new ≡ length row.old }
    ensures each { (s : ℕ) → s < length row.old → slice_index row.new s ≡ min (slice_index other.now s) (slice_index row.old s) }
{
    for (session, first) in row.iter_mut().enumerate() {
        *first = other[session].min(*first);
    }
}

/// The two entries of each session together.
fn join_each(side: Side, row: &mut [u32], other: &[u32])
    requires { length row.old ≡ length other.now }
    ensures same { length row.new ≡ length row.old }
    ensures each { (s : ℕ) → s < length row.old → slice_index row.new s ≡ joined side (slice_index other.now s) (slice_index row.old s) }
{
    match side {
        Side::Past => raise_each(row, other),
        Side::Future => lower_each(row, other),
    }
}

/// The entry of a transaction's session together with its own number, if the session is in the block.
fn join_own(side: Side, row: &mut [u32], owners: &[u32], from: u32, p: u32)
    requires inside { p < length owners.now }
    ensures same { length row.new ≡ length row.old }
    ensures each { (k : ℕ) → k < length row.old → slice_index row.new k ≡ with_own side owners.now from p k (slice_index row.old k) }
{
    let owner = owners[p as usize];
    if p > 0 && owner >= from {
        let column = (owner - from) as usize;
        if column < row.len() {
            row[column] = side.join(p, row[column]);
        }
    }
}

/// The row of these transactions and of what is on a side of them, by their own rows.
fn row_with(
    side: Side,
    graph: &LargeGraph,
    owners: &[u32],
    from: u32,
    table: &SharedRows,
    numbers: &[u32],
) -> Clock
    requires numbered { IsBySession graph.now.entries }
    requires owners { AreOwners graph.now owners.now }
    requires inside { All (λ p. p < count graph.now) numbers.now }
    requires long { length table.now ≡ count graph.now }
    requires rows { All (λ p. AreEntries side graph.now (IsOn side graph.now p) from (row_of table.now p)) numbers.now }
    ensures { AreEntries side graph.now (IsWith side graph.now (Contains numbers.now)) from result }
{
    let mut row = [side.empty(graph.count()); WIDE];
    for number in numbers {
        join_each(side, &mut row, table.get(*number));
        join_own(side, &mut row, owners, from, *number);
    }
    row
}

/// Whether a transaction is in a session of the block.
fn is_inside(owners: &[u32], from: u32, p: u32) -> bool
    requires { p < length owners.now }
    ensures { result ≡ false → IsOutside owners.now from p }
{
    let owner = owners[p as usize];
    p > 0 && owner >= from && ((owner - from) as usize) < WIDE
}

/// One of these transactions, if all are known to have its row, and none of them is in the block.
pub fn like(table: &SharedRows, owners: &[u32], from: u32, numbers: &[u32]) -> Option<u32>
    requires inside { All (λ p. p < length owners.now) numbers.now }
    requires long { length table.now ≡ length owners.now }
    ensures one { IfSome result (λ other. Contains numbers.now other) }
    ensures all { IfSome result (λ other. (k : ℕ) → k < length numbers.now → IsLike table.now owners.now from other (slice_index numbers.now k)) }
{
    let other = *numbers.first()?;
    for number in numbers {
        if !table.are_same(*number, other) || is_inside(owners, from, *number) {
            return None;
        }
    }
    Some(other)
}

/// Gives a transaction the row of these others and of what is on a side of them, by their own rows.
pub fn put_row(
    table: &mut SharedRows,
    side: Side,
    graph: &LargeGraph,
    owners: &[u32],
    from: u32,
    numbers: &[u32],
    c: u32,
) -> Result<(), NoMemory>
    requires owners { AreOwners graph.now owners.now }
    requires inside { All (λ p. p < count graph.now) numbers.now }
    requires long { length table.old ≡ count graph.now }
    requires rows { All (λ p. AreEntries side graph.now (IsOn side graph.now p) from (row_of table.old p)) numbers.now }
    requires below { c < count graph.now }
    ensures { OnOk result ((row : List ℕ) × (table.new ≡ set table.old c row)
        × AreEntries side graph.now (IsWith side graph.now (Contains numbers.now)) from row) }
{
    if let Some(other) = like(table, owners, from, numbers) {
        table.share(c, other);
        return Ok(());
    }
    graph.numbered();
    let row = row_with(side, graph, owners, from, table, numbers);
    table.put_like(c, &row, numbers)
}

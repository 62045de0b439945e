//! An upper bound on the least cost of a cycle: the least cost of a walk that ends where it began, or of a walk and one
//! derived link back. Links that cost more are not kept by cost. It is the least over all pairs of transactions, in N * N
//! steps. They are visited in blocks of rows, so that a row of prices is read once for a block (loop tiling). What was visited
//! costs no less than the least so far.
ghost use Rattle.std.specs.Prelude.{◌≡◌, ◌<◌, ◌≤◌, ◌↔◌, ◌⊎◌, ℕ, false, true, length, slice_index, All};
ghost use Rattle.tcc_txn.specs.declared.limits.TheConstants.{MAX_COUNT};
ghost use Rattle.tcc_near.specs.WalkLengths.{IsSquare};
ghost use Rattle.tcc_derive.specs.Limits.{AreWithin, IsLimit};
ghost use Rattle.tcc_derive.specs.private.Closings.{HasMany, HasPriced, IsBackOrNone, IsClosingOrNone, NoOtherCheaper, NoneCheaper};
ghost use Rattle.tcc_graph.specs.Tables.{row_of};

use tcc_bits::Row;
use tcc_near::{NONE, Near};

/// This many rows of lengths are read side by side, so that a row of prices is read once for all of them.
const BLOCK: usize = 32;

/// A row of others is visited one by one if it has at most this part of all transactions.
const PART: usize = 16;

/// The limit if there is no such cycle.
pub(crate) const NO_CYCLE_LIMIT: u16 = 64;

/// The least cost of a walk from one of these transactions to `b` and a derived link back, by the prices from `b`.
fn least_back(near: &Near, prices: &[u16], from: usize, to: usize, b: usize) -> u16
    requires within { to ≤ length prices.now }
    requires long { length prices.now ≡ length near.now.rows }
    requires below { b < length near.now.rows }
    requires few { length near.now.rows ≤ MAX_COUNT }
    ensures attained { IsBackOrNone near.now.rows prices.now b result }
    ensures least { NoneCheaper near.now.rows prices.now b from to result }
{
    let mut least = NONE;
    for a in from..to {
        least = least.min(near.row(a as u32)[b].saturating_add(prices[a]));
    }
    least
}

/// The least cost of a walk from one of the others of `b` to `b` and a derived link back.
fn least_of_others(near: &Near, prices: &[u16], others: &[(u32, u32)], b: usize) -> u16
    requires within { All (λ p. p.0 < length near.now.rows) others.now }
    requires long { length prices.now ≡ length near.now.rows }
    requires below { b < length near.now.rows }
    ensures attained { IsBackOrNone near.now.rows prices.now b result }
    ensures least { NoOtherCheaper near.now.rows prices.now b others.now result }
{
    let mut least = NONE;
    for other in others {
        let (a, _cost) = *other;
        least = least.min(near.row(a)[b].saturating_add(prices[a as usize]));
    }
    least
}

/// The least cost of a walk from one of these transactions to one that has more others than `few`, and back by a derived link.
fn least_from(
    near: &Near,
    prices: &[Row<u16>],
    others: &[Row<(u32, u32)>],
    few: usize,
    from: usize,
    to: usize,
) -> u16
    requires within { to ≤ length near.now.rows }
    requires square { IsSquare (length near.now.rows) prices.now }
    requires same { length others.now ≡ length near.now.rows }
    requires few { length near.now.rows ≤ MAX_COUNT }
    ensures attained { IsClosingOrNone near.now.rows prices.now result }
    ensures least { (b : ℕ) → b < length near.now.rows → HasMany few others.now b
        → NoneCheaper near.now.rows (row_of prices.now b) b from to result }
{
    let mut least = NONE;
    for b in 0..prices.len() {
        if others[b].as_slice().len() > few {
            least = least.min(least_back(near, prices[b].as_slice(), from, to, b));
        }
    }
    least
}

/// The least cost of a walk back to its start, or to one that has no more others than `few` and back by a derived link.
fn least_of_few(near: &Near, prices: &[Row<u16>], others: &[Row<(u32, u32)>], few: usize) -> u16
    requires square { IsSquare (length near.now.rows) prices.now }
    requires same { length others.now ≡ length near.now.rows }
    requires within { All (λ row. All (λ p. p.0 < length near.now.rows) row) others.now }
    requires few { length near.now.rows ≤ MAX_COUNT }
    ensures attained { IsClosingOrNone near.now.rows prices.now result }
    ensures least { (b : ℕ) → b < length near.now.rows → (result ≤ slice_index (row_of near.now.rows b) b)
        × (HasMany few others.now b ⊎ NoOtherCheaper near.now.rows (row_of prices.now b) b (row_of others.now b) result) }
{
    let mut least = NONE;
    for b in 0..prices.len() {
        least = least.min(near.row(b as u32)[b]);
        let row = others[b].as_slice();
        if row.len() <= few {
            least = least.min(least_of_others(near, prices[b].as_slice(), row, b));
        }
    }
    least
}

/// Up to which cost links are kept by cost: the least cost of a cycle that a walk makes, or a walk and one derived link back.
/// No search that begins with such a cycle goes on by a link that costs more.
pub(crate) fn cost_limit(near: &Near, prices: &[Row<u16>], others: &[Row<(u32, u32)>]) -> u16
    requires square { IsSquare (length near.now.rows) prices.now }
    requires same { length others.now ≡ length near.now.rows }
    requires within { All (λ row. All (λ p. p.0 < length near.now.rows) row) others.now }
    requires priced { HasPriced prices.now others.now }
    requires few { length near.now.rows ≤ MAX_COUNT }
    ensures { IsLimit near.now.rows prices.now result }
{
    let count = prices.len();
    let few = count / PART;
    let mut least = least_of_few(near, prices, others, few);
    for block in 0..count.div_ceil(BLOCK) {
        let from = block * BLOCK;
        let to = count.min(from + BLOCK);
        least = least.min(least_from(near, prices, others, few, from, to));
    }
    if least == NONE { NO_CYCLE_LIMIT } else { least }
}

/// Whether one of these links costs more than the limit.
fn has_dearer(others: &[(u32, u32)], limit: u16) -> bool
    ensures { (result ≡ false) ↔ All (λ p. p.1 ≤ limit) others.now }
{
    for other in others {
        if other.1 > u32::from(limit) {
            return true;
        }
    }
    false
}

/// Whether none of these links costs more than the limit.
pub(crate) fn are_within(others: &[Row<(u32, u32)>], limit: u16) -> bool
    ensures { (result ≡ true) ↔ AreWithin limit others.now }
{
    for row in others {
        if has_dearer(row.as_slice(), limit) {
            return false;
        }
    }
    true
}

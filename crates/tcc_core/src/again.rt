//! What a search does with its whole row. It empties it, in a step for each transaction that was reached. And where a cap
//! has grown, it relaxes again the links from all that has joined.
ghost use Rattle.std.specs.Prelude.{◌≡◌, ◌≢◌, ◌<◌, ◌≤◌, ◌^◌, ℕ, Some, None, length, All, Contains};
ghost use Rattle.tcc_graph.specs.Levels.{Judged};
ghost use Rattle.tcc_derive.specs.Prices.{IsPricesOf};
ghost use Rattle.tcc_core.specs.Rows.{in_row, IsEmptyRow};
ghost use Rattle.tcc_core.specs.private.Offers.{IsLower, IsOffered, IsWayOver};
ghost use Rattle.tcc_txn.specs.declared.limits.TheConstants.{MAX_COUNT};

use crate::frontier::Frontier;
use tcc_derive::Prices;

/// Takes these transactions out of the row, which has no others.
pub(crate) fn empty(reached: &[u32], row: &mut [Option<u32>])
    requires below { All (λ v. v < length row.old) reached.now }
    requires each { (v : ℕ) → v < length row.old → in_row row.old v ≢ None → Contains reached.now v }
    ensures { IsEmptyRow (length row.old) row.new }
{
    for &v in reached {
        row[v as usize] = None;
    }
}

/// Offers again the ways on from all that the row has, as far as they are within the cap.
pub(crate) fn lead_on_again(
    frontier: &mut Frontier,
    row: &[Option<u32>],
    prices: &Prices,
    start: u32,
    cap: u64,
)
    requires long { length frontier.old.costs ≡ length row.now }
    requires priced { length row.now ≡ length prices.now.prices }
    requires few { length row.now ≤ MAX_COUNT }
    requires small { frontier.old.floor < 2 ^ 31 }
    requires joined { (v : ℕ) (c : ℕ) → in_row row.now v ≡ Some c → c ≤ frontier.old.floor }
    ensures floor { frontier.new.floor ≡ frontier.old.floor }
    ensures lower { IsLower frontier.old.floor frontier.old.costs frontier.new.costs }
    ensures offered { (j : Judged) → IsPricesOf j prices.now
        → IsOffered (IsWayOver prices.now start row.now cap) frontier.old.floor frontier.old.costs frontier.new.costs }
{
    for u in 0..row.len() {
        if let Some(so_far) = row[u] {
            frontier.lead_on(prices, start, u as u32, so_far, cap);
        }
    }
}

//! The seed of searches, an upper bound for branch and bound: the least cost of the cycles that a walk makes, or a walk and
//! one derived link back. It is the least over all pairs of transactions, in N * N steps for N transactions. They are gone
//! through in blocks of rows, so that a row of prices is read once for a block (loop tiling). What was gone through costs
//! no less than the least so far.
ghost use Rattle.std.specs.Prelude.{◌≡◌, ◌<◌, ◌≤◌, ℕ, length, IfSome, MatchOption};
ghost use Rattle.tcc_graph.specs.Levels.{Judged};
ghost use Rattle.tcc_near.specs.{WalkLengths.IsNearOf, declared.walk_lengths.TheConstants.NONE};
ghost use Rattle.tcc_derive.specs.Prices.{IsPricesOf};
ghost use Rattle.tcc_core.specs.{Shares.IsCycleCost, Seeds.IsSeed, Seeds.HasNoSeed, declared.queue.TheConstants.NO_WAY};
ghost use Rattle.tcc_core.specs.private.Closing.{closing, closing_at, IsLeastOf};
ghost use Rattle.tcc_txn.specs.declared.limits.TheConstants.{MAX_COUNT};

use crate::queue::NO_WAY;
use tcc_derive::Prices;
use tcc_near::{NONE, Near};

/// How many rows of distances are read side by side, so that a row of prices is read once for all of them.
const BLOCK: u32 = 32;

/// The cost of the cycle that goes from `a` to `b` by `steps` steps and back by a derived link at this price. Where the
/// steps end at `a` itself they alone are the cycle. It is `NO_WAY` where there is none.
fn closing(steps: u16, price: u16, a: u32, b: u32) -> u32
    ensures { result ≡ closing steps price a b }
{
    if steps == NONE {
        NO_WAY
    } else if a == b {
        steps as u32
    } else if price == NONE {
        NO_WAY
    } else {
        steps as u32 + price as u32
    }
}

/// The least such cost from these transactions to `b`.
fn least_to(near: &Near, prices: &Prices, from: u32, to: u32, b: u32) -> u32
    requires same { length near.now.rows ≡ length prices.now.prices }
    requires upward { from ≤ to }
    requires within { to ≤ length prices.now.prices }
    requires below { b < length prices.now.prices }
    ensures { IsLeastOf (λ x y. (from ≤ x) × (x < to) × (y ≡ b)) (closing_at near.now prices.now) result }
{
    let row = prices.prices(b);
    let mut least = NO_WAY;
    for a in from..to {
        least = least.min(closing(near.row(a)[b as usize], row[a as usize], a, b));
    }
    least
}

/// The least such cost from these transactions to any transaction.
fn least_from(near: &Near, prices: &Prices, from: u32, to: u32) -> u32
    requires same { length near.now.rows ≡ length prices.now.prices }
    requires upward { from ≤ to }
    requires within { to ≤ length prices.now.prices }
    ensures { IsLeastOf (λ x y. (from ≤ x) × (x < to) × (y < length prices.now.prices)) (closing_at near.now prices.now) result }
{
    let mut least = NO_WAY;
    for b in 0..prices.count() {
        least = least.min(least_to(near, prices, from, to, b));
    }
    least
}

/// The least such cost from any transaction to any.
fn least_of_all(near: &Near, prices: &Prices) -> u32
    requires same { length near.now.rows ≡ length prices.now.prices }
    ensures few { length prices.now.prices ≤ MAX_COUNT }
    ensures least { IsLeastOf (λ x y. (x < length prices.now.prices) × (y < length prices.now.prices)) (closing_at near.now prices.now) result }
{
    let count = prices.count();
    let mut least = NO_WAY;
    for block in 0..count / BLOCK + 1 {
        let from = block * BLOCK;
        least = least.min(least_from(near, prices, from, count.min(from + BLOCK)));
    }
    least
}

/// The least cost of a cycle that a walk makes, or a walk and one derived link back; none where there is no such cycle. It
/// is the cost of a cycle, so a search may begin with it, but some cycle of more derived links may cost less.
pub fn seed(near: &Near, prices: &Prices) -> Option<u32>
    requires { (j : Judged) × IsNearOf j near.now × IsPricesOf j prices.now }
    ensures cycle { (j : Judged) → IsPricesOf j prices.now → IfSome result (IsCycleCost j) }
    ensures least { (j : Judged) → IsNearOf j near.now → IsPricesOf j prices.now → MatchOption result (HasNoSeed j) (IsSeed j) }
{
    let least = least_of_all(near, prices);
    if least == NO_WAY { None } else { Some(least) }
}

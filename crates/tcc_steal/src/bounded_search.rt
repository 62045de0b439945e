//! Pruning by a bound: one search to its end (Dijkstra's algorithm, as `tcc_core` has it), cut at the bound that all
//! workers share. The cap is what the seat saw last, and the start is outside the row. It looks at the bound once for 64
//! transactions that settle.
ghost use Rattle.std.specs.Prelude.{◌≡◌, ◌≤◌, length};
ghost use Rattle.tcc_txn.specs.declared.limits.TheConstants.{MAX_COUNT};
ghost use Rattle.tcc_graph.specs.Levels.{Judged};
ghost use Rattle.tcc_derive.specs.Prices.{IsPricesOf};
ghost use Rattle.tcc_steal.specs.Findings.{HasJudged};
ghost use Rattle.tcc_steal.specs.private.Working.{IsSeat, IsOpening, KnowsMore, HasEnded};

use tcc_bound::{Bound, Seat};
use tcc_core::{Search, Settled};
use tcc_derive::Prices;

/// After this many settled transactions a search looks at the bound again.
const LOOK_AFTER: u32 = 64;

/// Takes a search to its end. It comes back to its start, and the cost is offered; or nothing outside its row is within
/// what the seat saw last.
pub(crate) fn run(search: &mut Search, prices: &Prices, bound: &Bound, seat: &mut Seat)
    requires prices { HasJudged prices.now }
    requires long { length search.old.row ≡ length prices.now.prices }
    requires few { length prices.now.prices ≤ MAX_COUNT }
    requires opening { IsOpening prices.now search.old.start search.old }
    requires seat { IsSeat prices.now bound.now seat.old }
    ensures start { search.new.start ≡ search.old.start }
    ensures long { length search.new.row ≡ length search.old.row }
    ensures seat { IsSeat prices.now bound.now seat.new }
    ensures knows { KnowsMore seat.old.known seat.new.known }
    ensures ended { (j : Judged) → IsPricesOf j prices.now → HasEnded j seat.new.known search.old.start search.new.row }
{
    let mut cap = bound.look(seat);
    for settled in 1..u32::MAX {
        match search.settle(prices, cap) {
            Settled::More => {
                if settled % LOOK_AFTER == 0 {
                    cap = bound.look(seat);
                }
            }
            Settled::Returned(cost) => {
                bound.offer(seat, cost as u64);
                return;
            }
            Settled::Cut(_) => return,
        }
    }
}

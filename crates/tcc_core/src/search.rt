//! Dijkstra's algorithm (Dijkstra, A note on two problems in connexion with graphs, Numerische Mathematik 1, 1959) from one
//! start, with links as edges and their costs as weights. The frontier is Dial's bucket queue (`bucket_queue`). What joined
//! the row has its distance, and nothing outside it is nearer. A session pair leads on to a whole suffix of a session, in
//! which each transaction is offered once. So a search takes some N + L steps for N transactions and L other links.
ghost use Rattle.std.specs.Prelude.{◌≡◌, ◌<◌, ◌≤◌, ℕ, length, drop, IfOk};
ghost use Rattle.tcc_graph.specs.Levels.{Judged};
ghost use Rattle.tcc_derive.specs.Prices.{IsPricesOf};
ghost use Rattle.tcc_txn.specs.declared.limits.TheConstants.{MAX_COUNT};

use crate::Settled;
use crate::again::{empty, lead_on_again};
use crate::frontier::Frontier;
use std::alloc::Global;
use std::marker::Model;
use tcc_derive::Prices;
use tcc_txn::NoMemory;

/// A search for the distances from one start, over numbers from there upward: nothing below the start is looked at. Its
/// row has the distance of each transaction that has joined it.
#[derive(Drop)]
pub struct Search {
    start: u32,
    row: Vec<Option<u32>>,
    frontier: Frontier,
    /// All ways are known that cost at most this; `u64::MAX` is no limit. At the opening no ways are known.
    limit: u64,
}

impl Model for Search {
    ghost use Rattle.tcc_core.specs.private.Relaxing.{IsBounded};
    ghost use Rattle.tcc_core.specs.Searches as searches;

    ghost Value = { searches.Search };

    ghost view = { λ s. record { start = s.start; row = s.row.items; costs = s.frontier.costs; limit = s.limit } };

    ghost invariant = { λ s. IsBounded (record { start = s.start; row = s.row.items; costs = s.frontier.costs; limit = s.limit }) s.frontier.floor };
}

impl Search {
    ghost use Rattle.tcc_core.specs.{Rows.IsEmptyRow, Searches.IsSearchOf, Searches.Settles};

    /// A search from this start with an empty row: the start is not in it, since its distance to itself is that of a
    /// cycle that meets nothing below it.
    pub fn begin(alloc: Global, prices: &Prices, start: u32) -> Result<Search, NoMemory>
        requires { start < length prices.now.prices }
        ensures start { IfOk result (λ search. search.start ≡ start) }
        ensures empty { IfOk result (λ search. IsEmptyRow (length prices.now.prices) search.row) }
        ensures search { (j : Judged) → IsPricesOf j prices.now → IfOk result (IsSearchOf j start) }
    {
        let count = prices.count();
        let frontier = Frontier::begin(alloc, count)?;
        let row = vec![in alloc; None; count as usize]?;
        Ok(Search {
            start,
            row,
            frontier,
            limit: 0,
        })
    }

    /// Resets the search to the opening of another start, as `begin` makes it, whatever it was before. It takes no memory.
    /// The prices are those that the search began with.
    pub fn renew(&mut self, prices: &Prices, start: u32)
        requires start { start < length prices.now.prices }
        requires long { length self.old.row ≡ length prices.now.prices }
        ensures start { self.new.start ≡ start }
        ensures empty { IsEmptyRow (length prices.now.prices) self.new.row }
        ensures search { (j : Judged) → IsPricesOf j prices.now → IsSearchOf j start self.new }
    {
        empty(self.frontier.reached(), &mut self.row);
        self.frontier.clear();
        self.start = start;
        self.limit = 0;
    }

    /// Takes one of the nearest transactions outside the row into it, if its distance is at most the cap. A cap of
    /// `u64::MAX` is no cap. The prices are those that the search began with.
    pub fn settle(&mut self, prices: &Prices, cap: u64) -> Settled
        requires { length self.old.row ≡ length prices.now.prices }
        ensures start { self.new.start ≡ self.old.start }
        ensures long { length self.new.row ≡ length self.old.row }
        ensures search { (j : Judged) (s : ℕ) → IsPricesOf j prices.now → IsSearchOf j s self.old → IsSearchOf j s self.new }
        ensures settled { (j : Judged) (s : ℕ) → IsPricesOf j prices.now → IsSearchOf j s self.old
            → Settles j s cap self.old.row self.new.row result }
    {
        if cap > self.limit {
            self.catch_up(prices, cap);
        }
        self.join_nearest(prices, cap)
    }

    /// Makes all ways known that cost at most a cap above the limit: those from the start, and from all that has joined.
    fn catch_up(&mut self, prices: &Prices, cap: u64)
        requires long { length self.old.row ≡ length prices.now.prices }
        requires above { self.old.limit < cap }
        ensures start { self.new.start ≡ self.old.start }
        ensures row { self.new.row ≡ self.old.row }
        ensures limit { self.new.limit ≡ cap }
        ensures search { (j : Judged) (s : ℕ) → IsPricesOf j prices.now → IsSearchOf j s self.old → IsSearchOf j s self.new }
    {
        let start = self.start;
        self.frontier.lead_on(prices, start, start, 0, cap);
        if self.limit > 0 {
            lead_on_again(&mut self.frontier, &self.row, prices, start, cap);
        }
        self.limit = cap;
    }

    /// What `settle` does where all ways that cost at most the cap are known. The ways from the start were offered at the
    /// opening.
    fn join_nearest(&mut self, prices: &Prices, cap: u64) -> Settled
        requires long { length self.old.row ≡ length prices.now.prices }
        requires known { cap ≤ self.old.limit }
        ensures start { self.new.start ≡ self.old.start }
        ensures long { length self.new.row ≡ length self.old.row }
        ensures search { (j : Judged) (s : ℕ) → IsPricesOf j prices.now → IsSearchOf j s self.old → IsSearchOf j s self.new }
        ensures settled { (j : Judged) (s : ℕ) → IsPricesOf j prices.now → IsSearchOf j s self.old
            → Settles j s cap self.old.row self.new.row result }
    {
        let Some(next) = self.frontier.nearest(cap) else {
            return Settled::Cut(cap);
        };
        let start = self.start;
        let distance = self.frontier.settle(next);
        self.row[next as usize] = Some(distance);
        self.limit = cap;
        if next == start {
            return Settled::Returned(distance);
        }
        self.frontier.lead_on(prices, start, next, distance, cap);
        Settled::More
    }

    /// The start, for callers that settle one transaction after the other by hand.
    pub fn start(&self) -> u32
        ensures value { result ≡ self.now.start }
        ensures below { result < length self.now.row }
    {
        self.start
    }

    /// The distance from the start to each transaction that has joined, none for those outside, from the start upward:
    /// index k has that of transaction start + k.
    pub fn row(&self) -> &[Option<u32>]
        ensures value { result.now ≡ drop self.now.start self.now.row }
        ensures few { length result.now ≤ MAX_COUNT }
    {
        &self.row[self.start as usize..]
    }
}

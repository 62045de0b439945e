//! The edge weights of links between transactions at a level: a dense row of prices, and a sparse row of links, for each
//! transaction. A price is a look-up of a cell. A cost is a binary search in a row, which takes log N steps for N
//! transactions.
ghost use Rattle.std.specs.Prelude.{◌≡◌, ◌<◌, ◌≤◌, ◌+◌, ◌∷◌, ◌↔◌, true, [], length, All};
ghost use Rattle.std.specs.List.{AllPairs};
ghost use Rattle.tcc_near.specs.WalkLengths.{least_in};
ghost use Rattle.tcc_derive.specs.{Limits.AreWithin, private.Others.IsShaped, private.Others.tables_of, ByClass.IsByClass, private.Classes.HaveByClass};
ghost use Rattle.tcc_derive.specs.Prices.{price_at, cost_at, cost_among, end_of, others_at};
ghost use Rattle.tcc_txn.specs.declared.limits.TheConstants.{MAX_COUNT};
ghost use Rattle.tcc_graph.specs.Tables.{row_of};

use crate::ByClass;
use std::marker::Model;
use tcc_bits::Row;
use tcc_graph::Level;
use tcc_near::NONE;

/// What derived links, and links of all kinds, cost at least between the transactions of a graph at a level.
#[derive(Drop)]
pub struct Prices {
    pub(crate) level: Level,
    pub(crate) prices: Vec<Row<u16>>,
    pub(crate) ends: Vec<u32>,
    pub(crate) others: Vec<Row<(u32, u32)>>,
    pub(crate) limit: u16,
    /// The links other than session links that cost at most the limit, a row for each row of others.
    pub(crate) by_class: Vec<ByClass>,
    /// Whether no link costs more than the limit.
    pub(crate) whole: bool,
}

impl Model for Prices {
    ghost use Rattle.std.specs.Prelude.{◌≡◌, ◌↔◌, true, length};
    ghost use Rattle.tcc_derive.specs.{Limits.AreWithin, Prices.Tables, private.Others.IsShaped, private.Others.tables_of, private.Classes.HaveByClass};

    ghost Value = { Tables };

    ghost view = { λ p. tables_of p.level p.prices.items p.ends.items p.others.items p.limit };

    ghost invariant = { λ p. IsShaped (length p.prices.items)
        (tables_of p.level p.prices.items p.ends.items p.others.items p.limit)
        × HaveByClass (tables_of p.level p.prices.items p.ends.items p.others.items p.limit) p.by_class.items
        × ((p.whole ≡ true) ↔ AreWithin p.limit p.others.items) };
}

impl Prices {
    /// The level at which links are judged.
    pub fn level(&self) -> Level
        ensures { result ≡ self.now.level }
    {
        self.level
    }

    /// How many transactions there are, `init` among them.
    pub fn count(&self) -> u32
        ensures value { result ≡ length self.now.prices }
        ensures few { result ≤ MAX_COUNT }
    {
        self.prices.len() as u32
    }

    /// The least cost of a derived link from `b` to `a`, over all keys and readers; none if there is no reason. It is for a
    /// single price: whoever goes through many takes `prices`.
    pub fn price(&self, b: u32, a: u32) -> Option<u32>
        requires from { b < length self.now.prices }
        requires to { a < length self.now.prices }
        ensures { result ≡ price_at self.now b a }
    {
        cell(self.prices[b as usize].as_slice()[a as usize])
    }

    /// The least cost of a link from `u` to `v`: 1 on a causal pair, else the price.
    pub fn cost(&self, u: u32, v: u32) -> Option<u32>
        requires from { u < length self.now.prices }
        requires to { v < length self.now.prices }
        ensures { result ≡ cost_at self.now u v }
    {
        let end = self.ends[u as usize];
        if u < v && v < end {
            return Some(1);
        }
        cost_among(self.others[u as usize].as_slice(), v)
    }

    /// The range of the numbers with a session pair from `u`: its first number, and one past its last. Both are `u + 1` if
    /// there is none.
    pub fn later(&self, u: u32) -> (u32, u32)
        requires { u < length self.now.prices }
        ensures first { result.0 ≡ u + 1 }
        ensures end { result.1 ≡ end_of self.now u }
        ensures order { result.0 ≤ result.1 }
        ensures few { result.1 ≤ length self.now.prices }
    {
        let end = self.ends[u as usize];
        (u + 1, end)
    }

    /// The transactions that links other than session links lead to from `u`, ascending: those with a reads-from pair from `u`
    /// or a price. Each has the least cost of a link there.
    pub fn others(&self, u: u32) -> &[(u32, u32)]
        requires { u < length self.now.prices }
        ensures value { result.now ≡ others_at self.now u }
        ensures within { All (λ p. p.0 < length self.now.prices) result.now }
    {
        self.others[u as usize].as_slice()
    }

    /// The highest cost of links that `by_class` has: the least cost of the cycles that a walk makes, or a walk and one
    /// derived link back; 64 if there is none.
    pub fn limit(&self) -> u16
        ensures { result ≡ self.now.limit }
    {
        self.limit
    }

    /// Whether no link costs more than `limit()`. Session links cost 1.
    pub fn is_whole(&self) -> bool
        ensures { (result ≡ true) ↔ AreWithin self.now.limit self.now.others }
    {
        self.whole
    }

    /// The links other than session links from `u` that cost at most `limit()`, by classes of cost. For a small cost that many
    /// of them have, what they lead to is marked in a row. The others are listed one by one, in ascending cost.
    pub fn by_class(&self, u: u32) -> &ByClass
        requires { u < length self.now.prices }
        ensures { IsByClass self.now u result.now }
    {
        &self.by_class[u as usize]
    }

    /// What derived links from `b` to each transaction cost, `NONE` if there is none.
    pub fn prices(&self, b: u32) -> &[u16]
        requires { b < length self.now.prices }
        ensures value { result.now ≡ row_of self.now.prices b }
        ensures long { length result.now ≡ length self.now.prices }
    {
        self.prices[b as usize].as_slice()
    }
}

/// The value beside a number, in a list of ascending numbers; none if the list lacks it.
fn cost_among(others: &[(u32, u32)], v: u32) -> Option<u32>
    requires { AllPairs (λ p q. p.0 < q.0) others.now }
    ensures { result ≡ cost_among others.now v }
{
    let index = others.partition_point(|other| other.0 < v);
    match others.get(index) {
        Some(&(number, cost)) if number == v => Some(cost),
        _ => None,
    }
}

/// The value of a row, as a number or none.
fn cell(cost: u16) -> Option<u32>
    ensures { result ≡ least_in (cost ∷ []) 0 }
{
    if cost == NONE {
        None
    } else {
        Some(cost as u32)
    }
}

//! A worker and its searches.
ghost use Rattle.std.specs.Prelude.{◌≡◌, ◌<◌, ◌≤◌, length, IfOk, IfSome, OnOk};
ghost use Rattle.tcc_graph.specs.Levels.{Judged};
ghost use Rattle.tcc_derive.specs.Prices.{IsPricesOf};
ghost use Rattle.tcc_core.specs.{Rows.IsEmptyRow, Searches.IsSearchOf};
ghost use Rattle.tcc_steal.specs.Findings.{HasJudged};
ghost use Rattle.tcc_steal.specs.private.Working.{IsWorker, IsDone, KnowsMore};

use crate::Gate;
use crate::bounded_search::run;
use crate::searched::EndedSearch;
use std::alloc::Global;
use tcc_bits::PackedRow;
use tcc_bound::{Bound, Seat};
use tcc_core::Search;
use tcc_derive::Prices;
use tcc_txn::NoMemory;

/// A worker: its number, its seat at the bound, and its one search. It has that from its first start on, and renews it for
/// each start after that.
#[derive(Drop)]
pub(crate) struct Worker {
    pub number: u32,
    pub seat: Seat,
    pub search: Option<Search>,
}

/// The search at the opening of a start: a new one, where there is none yet.
fn opened(
    alloc: Global,
    prices: &Prices,
    search: Option<Search>,
    start: u32,
) -> Result<Search, NoMemory>
    requires start { start < length prices.now.prices }
    requires long { IfSome search (λ search. length search.row ≡ length prices.now.prices) }
    ensures start { IfOk result (λ search. search.start ≡ start) }
    ensures empty { IfOk result (λ search. IsEmptyRow (length prices.now.prices) search.row) }
    ensures search { (j : Judged) → IsPricesOf j prices.now → IfOk result (IsSearchOf j start) }
{
    match search {
        Some(mut search) => {
            search.renew(prices, start);
            Ok(search)
        }
        None => Search::begin(alloc, prices, start),
    }
}

impl Worker {
    /// Searches from this start.
    pub fn search(
        &mut self,
        alloc: Global,
        prices: &Prices,
        bound: &Bound,
        gate: &impl Gate,
        start: u32,
    ) -> Result<EndedSearch, NoMemory>
        requires prices { HasJudged prices.now }
        requires worker { IsWorker prices.now bound.now self.old }
        requires start { start < length prices.now.prices }
        ensures worker { OnOk result (IsWorker prices.now bound.now self.new) }
        ensures number { OnOk result (self.new.number ≡ self.old.number) }
        ensures knows { OnOk result (KnowsMore self.old.seat.known self.new.seat.known) }
        ensures searched { IfOk result (λ searched. (searched.start ≡ start) × (searched.worker ≡ self.old.number)) }
        ensures done { IfOk result (IsDone prices.now self.new.seat.known) }
    {
        gate.enter(self.number, start);
        let mut search = opened(alloc, prices, self.search.take(), start)?;
        run(&mut search, prices, bound, &mut self.seat);
        let row = PackedRow::of(alloc, search.row())?;
        self.search = Some(search);
        Ok(EndedSearch {
            start,
            worker: self.number,
            row,
        })
    }
}

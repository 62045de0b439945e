//! The state of one worker.
ghost use Rattle.std.specs.Prelude.{◌≡◌, ℕ, [], length, None};
ghost use Rattle.tcc_graph.specs.Levels.{Judged};
ghost use Rattle.tcc_derive.specs.Prices.{IsPricesOf};
ghost use Rattle.tcc_core.specs.{Rows.cap_of, Searches.IsSearchOf};
ghost use Rattle.tcc_steal.specs.Steps.{Grows};

use crate::stage::Stage;
use std::alloc::Global;
use tcc_core::{Search, Settled};
use tcc_derive::Prices;

/// A search, and how far it is.
#[derive(Drop)]
pub struct Begun {
    pub search: Search,
    pub stage: Stage,
}

/// What a worker saw last, what it offered, the searches that it has finished, and the one that it holds.
#[derive(Drop)]
pub struct WorkerState {
    pub sight: Option<u32>,
    pub offers: Vec<u32>,
    pub finished: Vec<Begun>,
    pub search: Option<Begun>,
}

/// A sight as a cap.
fn cap_from(sight: Option<u32>) -> u64
    ensures { cap_of result ≡ sight }
{
    match sight {
        Some(cost) => cost as u64,
        None => u64::MAX,
    }
}

impl Begun {
    /// One step of a search that goes on.
    pub fn settle(&mut self, prices: &Prices, sight: Option<u32>)
        requires { length self.old.search.row ≡ length prices.now.prices }
        ensures start { self.new.search.start ≡ self.old.search.start }
        ensures long { length self.new.search.row ≡ length self.old.search.row }
        ensures search { (j : Judged) → IsPricesOf j prices.now → IsSearchOf j self.old.search.start self.old.search
            → IsSearchOf j self.new.search.start self.new.search }
        ensures grows { (j : Judged) → IsPricesOf j prices.now → IsSearchOf j self.old.search.start self.old.search
            → Grows j self.old.search.start sight self.old.search.row self.new.search.row self.new.stage }
    {
        self.stage = match self.search.settle(prices, cap_from(sight)) {
            Settled::More => Stage::Open,
            Settled::Returned(cost) => Stage::Returned(cost),
            Settled::Cut(_) => Stage::Cut(sight),
        };
    }
}

impl WorkerState {
    /// A worker that has done nothing.
    pub fn new(alloc: Global) -> WorkerState
        ensures sight { result.sight ≡ None }
        ensures offers { result.offers.items ≡ [] }
        ensures finished { result.finished.items ≡ [] }
        ensures search { result.search ≡ None }
    {
        WorkerState {
            sight: None,
            offers: Vec::new(alloc),
            finished: Vec::new(alloc),
            search: None,
        }
    }
}

//! The result of the search for a commit order.
use tcc_reads::FlatRows;

/// The first commit order, or where it stops.
#[derive(Drop)]
pub enum Placement {
    /// The numbers of all transactions in the first commit order.
    Order(Vec<u32>),
    /// There is no commit order.
    Stuck(Stuck),
}

/// If there is no commit order: for each transaction those that were found to have to be before it by a link, and marks of the
/// transactions that were placed. Placing went on until none could be placed next. Each transaction that is left has to come
/// after one that is left.
#[derive(Drop)]
pub struct Stuck {
    pub kept: FlatRows<u32>,
    pub placed: Vec<u64>,
}

/// An order of the causal pairs alone, or where it stops.
#[derive(Drop)]
pub enum PairPlacement {
    /// The numbers of all transactions, in an order in which causal pairs lead onward.
    Order(Vec<u32>),
    /// Marks of the transactions that were placed until none could be placed next. Each that is left comes right after one
    /// that is left, in its session or as it reads from it.
    Stuck(Vec<u64>),
}

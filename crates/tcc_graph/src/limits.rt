//! What the links of a history can cost at most, by the limits of an input.
use tcc_txn::MAX_COUNT;

/// The steps of a link, at most: a walk over all transactions, and the read that it contradicts.
pub const MAX_LINK_COST: usize = MAX_COUNT + 1;
/// The steps of a cycle, at most: a link from each transaction.
pub const MAX_CYCLE_COST: usize = MAX_COUNT * MAX_LINK_COST;

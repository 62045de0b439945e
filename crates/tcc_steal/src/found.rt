//! The result of a search by many workers.
use tcc_bits::PackedRow;

/// The cost of a least cycle, and the distances from each start to each transaction.
#[derive(Drop)]
pub struct Found {
    /// The cost of a least cycle; none where there is no cycle.
    pub least: Option<u32>,
    /// The lowest start from which such a cycle leads, over numbers not below it; none where there is no cycle.
    pub first: Option<u32>,
    /// For each start the distances from it over numbers from there upward, capped at `least` where there is one. Index k
    /// has that of transaction start + k, none where no route leads there.
    pub rows: Vec<PackedRow>,
    /// Each start, with the worker that searched it first.
    pub starts: Vec<(u32, u32)>,
}

//! What searches from all starts have found of the first least cycle.

/// The first start from which a least cycle leads, and what is found of its routes.
#[derive(Drop)]
pub struct FirstReturn<'a> {
    /// The lowest start from which a least cycle leads, over numbers not below it.
    pub start: u32,
    /// What a least cycle costs.
    pub cost: u32,
    /// What it costs to come from the start to each transaction, over numbers from there upward, capped at `cost`. The
    /// start itself is first.
    pub row: &'a [Option<u32>],
}

//! The result of a search that is asked to take one more transaction into its row.

/// What happened.
#[derive(Clone, Copy, Debug, PartialEq, Eq)]
pub enum Settled {
    /// A transaction other than the start has joined the row.
    More,
    /// The start itself has joined the row: a least cycle from it over numbers not below it has this cost.
    Returned(u32),
    /// Nothing outside the row has a distance of at most this cap.
    Cut(u64),
}

//! The two sides of a transaction: what reaches it, its causal past, and what it reaches, its causal future.
ghost use Rattle.std.specs.Prelude.{◌≡◌};
ghost use Rattle.tcc_clocks.specs.private.Rows.{joined, empty_entry};

/// Which transactions a row describes.
#[derive(Clone, Copy)]
pub enum Side {
    /// Those that reach its own: for each session the greatest number.
    Past,
    /// Those that its own reaches: for each session the least number.
    Future,
}

impl Side {
    /// The entry that two entries of a session make together.
    pub(crate) fn join(self, one: u32, other: u32) -> u32
        ensures { result ≡ joined self one other }
    {
        match self {
            Side::Past => one.max(other),
            Side::Future => one.min(other),
        }
    }

    /// The entry of a session for the empty set, in a history of `count` transactions.
    pub(crate) fn empty(self, count: u32) -> u32
        ensures { result ≡ empty_entry self count }
    {
        match self {
            Side::Past => 0,
            Side::Future => count,
        }
    }
}

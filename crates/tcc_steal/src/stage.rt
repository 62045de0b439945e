//! How far a worker's search is.

/// How far a search is. It goes on; or it returned at a cost, which waits to be offered; or that cost was offered; or it
/// was cut at a cap.
#[derive(Clone, Copy, PartialEq, Eq)]
pub enum Stage {
    /// It may settle more transactions.
    Open,
    /// It returned to its start at this cost, which was not offered yet.
    Returned(u32),
    /// It returned to its start at this cost, which was offered.
    Offered(u32),
    /// It was cut at this cap; none is above every number.
    Cut(Option<u32>),
}

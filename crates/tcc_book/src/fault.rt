//! Why a call of the book was refused.

use tcc_txn::Name;
use thiserror::Error;

/// Why a session was not opened.
#[derive(Clone, Copy, Debug, PartialEq, Eq, Error)]
pub enum OpenFault {
    /// The session is open already, and has `held` transactions.
    #[error("the session is open already, with {held} transactions")]
    Taken { held: u32 },
    /// `held` sessions are open, as many as can be.
    #[error("{held} sessions are open, as many as can be")]
    TooManySessions { held: u32 },
    /// Out of memory.
    #[error("out of memory")]
    NoMemory,
}

/// Why a transaction was not recorded.
#[derive(Clone, Copy, Debug, PartialEq, Eq, Error)]
pub enum RecordFault {
    /// The book has `held` transactions, as many as can be.
    #[error("the book holds {held} transactions, as many as can be")]
    Full { held: u32 },
    /// The book has no list of the session, or one that isn't as long as what was recorded by the pass.
    #[error("the book's list of {session} is not the one of its pass")]
    Torn { session: Name },
    /// Out of memory.
    #[error("out of memory")]
    NoMemory,
}

/// Why no snapshot with a pass's session was returned.
#[derive(Clone, Copy, Debug, PartialEq, Eq, Error)]
pub enum SealFault {
    /// The book has no list of the session, or one that isn't what was recorded by the pass.
    #[error("the book's list of {session} is not the one of its pass")]
    Torn { session: Name },
    /// Out of memory.
    #[error("out of memory")]
    NoMemory,
}

/// Why no snapshot of exactly the passes was returned.
#[derive(Clone, Copy, Debug, PartialEq, Eq, Error)]
pub enum WholeFault {
    /// The least name of a session of the book that has no pass here.
    #[error("the pass of {session} is missing")]
    MissingPass { session: Name },
    /// The least name of a pass with which the book's list doesn't agree.
    #[error("the book's list of {session} is not the one of its pass")]
    Torn { session: Name },
    /// Out of memory.
    #[error("out of memory")]
    NoMemory,
}

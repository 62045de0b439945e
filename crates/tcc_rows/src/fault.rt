//! What is wrong with records.
ghost use Rattle.std.specs.Prelude.{◌≡◌};
ghost use Rattle.tcc_rows.specs.private.Words.{kind_of};

use tcc_txn::{GrowFault, Name};
use thiserror::Error;

/// What is wrong with a record, in the order of checking.
#[derive(Clone, Copy, Debug, PartialEq, Eq, Error)]
pub enum RowFaultKind {
    /// A record has 1, 2 or 4 fields.
    #[error("a record has 1, 2 or 4 fields")]
    FieldCount,
    /// Of 2 or 4 fields the first is a name.
    #[error("the session is no name")]
    BadSession,
    /// The one field is `seal`; of two the second is `begin`, `commit`, `abort` or `unknown`; of
    /// four the second is `r` or `w`.
    #[error("the word is unknown")]
    UnknownWord,
    /// The key is a name.
    #[error("the key is no name")]
    BadKey,
    /// The value is decimal digits without sign and without leading zeros, at most
    /// 18446744073709551615.
    #[error("the value is no number of 64 bits")]
    BadValue,
    /// The value 0 is never written.
    #[error("0 is written")]
    WriteOfZero,
    /// The session has ended by a transaction of unknown outcome.
    #[error("the session has ended")]
    SessionEnded,
    /// No transaction of the session is begun.
    #[error("no transaction of the session is begun")]
    NotBegun,
    /// A transaction of the session is begun already.
    #[error("a transaction of the session is begun already")]
    AlreadyBegun,
    /// A transaction has at most `MAX_OPERATIONS` operations.
    #[error("the transaction has too many operations")]
    TooManyOps,
    /// An input has at most `MAX_SESSIONS` sessions.
    #[error("there are too many sessions")]
    TooManySessions,
    /// An input has at most `MAX_TRANSACTIONS` transactions, aborted ones among them.
    #[error("there are too many transactions")]
    TooManyTransactions,
    /// An input has at most `MAX_KEYS` keys.
    #[error("there are too many keys")]
    TooManyKeys,
    /// An input has at most `MAX_SEALS` seals.
    #[error("there are too many seals")]
    TooManySeals,
    /// The input ended inside a transaction; of several sessions this is the least.
    #[error("the transaction of {session} has no end")]
    Unfinished { session: Name },
    /// The reader failed, or gave more than `MAX_INPUT_BYTES` bytes.
    #[error("the reader failed")]
    Read,
    /// Out of memory.
    #[error("out of memory")]
    NoMemory,
}

impl From<GrowFault> for RowFaultKind {
    ghost from_gives = { λ fault kind. kind ≡ kind_of fault };

    fn from(fault: GrowFault) -> RowFaultKind {
        match fault {
            GrowFault::TooManySessions => RowFaultKind::TooManySessions,
            GrowFault::TooManyTransactions => RowFaultKind::TooManyTransactions,
            GrowFault::NoMemory => RowFaultKind::NoMemory,
        }
    }
}

/// The record, counted from 1, and what is wrong with it. `Unfinished` is at the last record. If the reading of a record
/// failed, the row is the one after the last record that was read.
#[derive(Clone, Copy, Debug, PartialEq, Eq, Error)]
#[error("row {row}: {kind}")]
pub struct RowFault {
    pub row: u64,
    pub kind: RowFaultKind,
}

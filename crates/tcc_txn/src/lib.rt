//! What sessions recorded: names, operations, transactions and snapshots.
//!
//! Needs: nothing of the repository.
//! Must hold: a snapshot within its limits; each packed form is seen as the plain one, and names are compared here and nowhere above.
#![tactic(auto)]

mod alike;
mod by_name;
mod key_hints;
mod key_numbers;
mod limits;
mod list;
mod memory;
mod name;
mod near;
mod op;
mod packed;
mod recorded;
mod snapshot;
mod storage;
mod symbols;
mod txn;

pub use alike::{Alike, are_same};
pub use key_hints::KeyHints;
pub use key_numbers::KeyNumbers;
pub use limits::{
    Bounds, LARGE_COUNT, LARGE_INPUT_BYTES, LARGE_KEYS, LARGE_SEALS, LARGE_SESSIONS,
    LARGE_TRANSACTIONS, LargeLimits, Limits, MAX_COUNT, MAX_INPUT_BYTES, MAX_KEYS, MAX_NAME_BYTES,
    MAX_OPERATIONS, MAX_SEALS, MAX_SESSIONS, MAX_TRANSACTIONS, SmallLimits,
};
pub use list::ListOf;
pub use memory::NoMemory;
pub use name::{Name, NameFault};
pub use near::Nearby;
pub use op::Op;
pub use recorded::Recorded;
pub use snapshot::{GrowFault, LargeSnapshot, Snapshot, SnapshotFault, SnapshotWithin};
pub use symbols::SymbolTable;
pub use txn::{Txn, TxnFault};

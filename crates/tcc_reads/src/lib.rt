//! Which transaction read from which: each external read of a snapshot gets its source, or every fault is named.
//!
//! Needs: snapshots of any size (`tcc_txn`).
//! Must hold: either each external read has its one source, or all faults are named; transactions are numbered by session name and place.
#![tactic(auto)]

mod fault;
mod filling_rows;
mod flat_rows;
mod judging;
mod keys;
pub mod laws;
mod located;
mod numbering;
mod resolved;
mod resolver;
mod sorting;
mod tracing;
mod transaction;
mod transactions;
mod writers;

pub use fault::{ReadFault, ReadFaultKind, ResolveFault};
pub use filling_rows::FillingRows;
pub use flat_rows::FlatRows;
pub use resolved::{HistoryParts, LargeResolved, Resolved};
pub use resolver::{resolve, resolve_large};
pub use tracing::{Traced, resolve_traced};
pub use transaction::Transaction;
pub use transactions::Transactions;

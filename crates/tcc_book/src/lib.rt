//! The recorders' book: what sessions in threads of their own record, under one lock.
//!
//! Needs: snapshots (`tcc_txn`) and a lock that may wait.
//! Must hold: what the book holds is at each moment what the sessions' passes left in it.
//! Kept for callers: `nested`.
#![tactic(auto)]

mod agreement;
mod book;
mod entry;
mod fault;
mod nesting;
mod pass;
mod state;

pub use book::Book;
pub use entry::Entry;
pub use fault::{OpenFault, RecordFault, SealFault, WholeFault};
pub use nesting::nested;
pub use pass::{Pass, Receipt};
pub use state::BookState;

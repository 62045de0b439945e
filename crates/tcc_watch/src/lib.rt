//! Answers while a history grows. Transactions come one after the other, each after those that it needs. Rows keep what has to come
//! before what.
//!
//! Needs: snapshots that grow, and orders (`tcc_slices`, `tcc_order`).
//! Must hold: each answer is that of all transactions so far.
#![tactic(auto)]

mod arrivals;
mod at;
mod decided;
mod delivered;
mod gaps;
mod hints;
mod kept;
pub mod laws;
mod lines;
mod linking;
mod operations;
mod places;
mod probing;
mod raising;
mod tables;
mod values;
mod verdict;
mod watch;
mod writers;

pub use verdict::WatchVerdict;
pub use watch::Watch;

//! Small snapshots in larger ones: the slice by a cycle has what its links need and nothing else; and what stays when a snapshot
//! goes on.
//!
//! Needs: a cycle of a graph (`tcc_graph`).
//! Must hold: the slice's cycle is that of the whole, and its reads have their sources.
//! Kept for callers: `first_missing`.
#![tactic(auto)]

mod by_label;
mod carrying;
mod cutting;
mod growing;
pub mod laws;
mod needs;
mod numbering;
mod slicing;
mod texts;

pub use growing::{carried, first_missing};
pub use slicing::slice;
pub use texts::records;

//! From records of sessions to what they finish: rows one after another, and recordings, which are snapshots that grow.
//!
//! Needs: snapshots that grow (`tcc_txn`).
//! Must hold: what is taken so far is what the definitions give for the records read so far, whatever comes later; a fault stays.
//! Kept for callers: `large_snapshot_of`.
#![tactic(auto)]

mod fault;
pub mod laws;
mod pending;
mod recording;
mod rows;

pub use fault::{RowFault, RowFaultKind};
pub use recording::{
    Checkpoint, LargeRecording, Recording, RecordingWithin, large_snapshot_of, snapshot_of,
};
pub use rows::{Item, Rows};

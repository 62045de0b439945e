//! What of a history that goes on may be forgotten. Each writer that may no longer be read is covered by one that all live sessions
//! know, so that no new link ends in it.
//!
//! Needs: histories as a watch delivers them (`tcc_watch`), and the graph's walks and routes.
//! Must hold: nothing that may still be read is forgotten: each writer that may not is covered by one that all live sessions know.
#![tactic(auto)]

mod at;
mod counters;
pub mod laws;
mod reach;
mod slots;

pub use at::SessionPlace;
pub use counters::{CounterFault, Counters};
pub use slots::{SlotReading, Slots};

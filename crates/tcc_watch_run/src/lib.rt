//! Runs of `tcc watch` from bytes to bytes: answers while a test runs. Each costs what is new, as long as all is consistent, and again
//! after the first anomaly. Runs of `tcc explain --large --quiet` that answer seals at this cost. Command lines and files belong to other
//! crates.
//!
//! Needs: a watch (`tcc_watch`) and runs (`tcc_run`).
//! Must hold: each line is that of the answer which `tcc explain` would give.
#![tactic(auto)]

mod answering;
mod counting;
mod following;
pub mod laws;
mod lines;
mod printing;
mod quiet;
mod running;
mod told;

pub use quiet::run_quiet;
pub use running::run_watch;

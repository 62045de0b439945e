//! What programs need beside histories: how a text is written, how many workers search, and who receives the progress of a
//! call.
//!
//! Needs: nothing.
//! Must hold: a text is written whole, or the writer's fault is returned.
#![tactic(auto)]

mod progress;
mod sending;
mod workers;

pub use progress::{Progress, Unwatched};
pub use sending::{send, write_out};
pub use workers::{MAX_WORKERS, Workers};
